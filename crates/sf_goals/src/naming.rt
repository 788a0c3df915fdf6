//! Terms with the names of the variables that have them.

use sf_base::{ProcId, Var};
use sf_core::Program;
use sf_hints::put;
use sf_proof::put_term;
use sf_report::put_variable;
use sf_sym::Term;
use std::alloc::AllocError;

/// What terms are named by: a program, one of its procedures, and the terms of variables there.
#[derive(Clone, Copy)]
pub struct Namer<'a> {
    /// The program.
    pub p: &'a Program,
    /// The procedure whose variables they are.
    pub f: ProcId,
    /// The variables with their terms.
    pub vars: &'a [(Var, Term)],
}

/// Appends the names of the variables that have a term, a comma between two, and says whether there
/// are any. An `Err` says that memory ran out.
pub fn put_names(text: &mut Vec<u8>, namer: &Namer<'_>, t: Term) -> Result<bool, AllocError> {
    let mut found = false;
    for (x, u) in namer.vars {
        if u.is(t) {
            if found {
                put(text, ", ")?;
            }
            put_variable(text, namer.p, namer.f, *x)?;
            found = true;
        }
    }
    Ok(found)
}

/// Appends a term: a symbol with the names of the variables that have it. An `Err` says that memory
/// ran out.
pub fn put_named(text: &mut Vec<u8>, namer: &Namer<'_>, t: Term) -> Result<(), AllocError> {
    if !t.is_constant() && put_names(text, namer, t)? {
        put(text, " = ")?;
    }
    put_term(text, t)
}
