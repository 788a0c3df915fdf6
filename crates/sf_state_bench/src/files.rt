//! The program of a file.

use sf_calls::reach;
use sf_elab::elaborate;
use sf_lex::tokens;
use sf_parse::parse;
use sf_precise::{Arranged, arrange};
use sf_vars::conditions;
use std::alloc::Global;

/// The program of a file, with its annotations in order, if nothing is wrong with it.
pub fn fitted(alloc: Global, file: &[u8]) -> Option<Arranged> {
    let Ok(words) = tokens(alloc, file) else {
        return None;
    };
    let Ok(tree) = parse(alloc, &words) else {
        return None;
    };
    let Ok(program) = elaborate(alloc, file, tree) else {
        return None;
    };
    let Ok(calls) = reach(alloc, &program) else {
        return None;
    };
    match conditions(alloc, &program, &calls) {
        Ok(()) => {}
        Err(_) => return None,
    }
    match arrange(alloc, program, calls) {
        Ok(arranged) => Some(arranged),
        Err(_) => None,
    }
}
