//! From a file's bytes to a program with which nothing is wrong.

use sf_calls::reach;
use sf_core::Program;
use sf_elab::{NameFault, elaborate};
use sf_lex::{LexFault, tokens};
use sf_parse::{ParseFault, parse};
use sf_precise::{Arranged, OrderFault, arrange};
use sf_vars::{VarFault, conditions};
use std::alloc::Global;

/// Why a file is refused: the fault of the layer that refuses it.
#[derive(Debug, Drop)]
pub enum Refusal {
    /// Its bytes are no tokens.
    Bytes(LexFault),
    /// Its tokens are no file.
    Grammar(ParseFault),
    /// Its names are wrong.
    Names(NameFault),
    /// A condition on its variables is broken.
    Variables(VarFault),
    /// An annotation isn't determined.
    Annotation(OrderFault),
    /// Memory ran out.
    OutOfMemory,
}

/// The program that the bytes are.
fn read(alloc: Global, bytes: &[u8]) -> Result<Program, Refusal> {
    let found = match tokens(alloc, bytes) {
        Ok(found) => found,
        Err(fault) => return Err(Refusal::Bytes(fault)),
    };
    let tree = match parse(alloc, &found) {
        Ok(tree) => tree,
        Err(fault) => return Err(Refusal::Grammar(fault)),
    };
    match elaborate(alloc, bytes, tree) {
        Ok(program) => Ok(program),
        Err(fault) => Err(Refusal::Names(fault)),
    }
}

/// The program, with which nothing is wrong, and its annotations in order.
fn fit(alloc: Global, program: Program) -> Result<Arranged, Refusal> {
    let Ok(calls) = reach(alloc, &program) else {
        return Err(Refusal::OutOfMemory);
    };
    if let Err(fault) = conditions(alloc, &program, &calls) {
        return Err(Refusal::Variables(fault));
    }
    match arrange(alloc, program, calls) {
        Ok(arranged) => Ok(arranged),
        Err(fault) => Err(Refusal::Annotation(fault)),
    }
}

/// The program that a file's bytes are, with which nothing is wrong, and its annotations in order.
pub fn admit(alloc: Global, bytes: &[u8]) -> Result<Arranged, Refusal> {
    let program = read(alloc, bytes)?;
    fit(alloc, program)
}
