//! A program from the bytes of its file, and a start of one of its procedures from the text of a state,
//! each in one call that tells no reason where there is none: for tests of what runs programs.
#![tactic(auto)]

ghost use Rattle.std.specs.Prelude.{◌<◌, IfSome, length};
ghost use Rattle.sf_core.specs.Program.ProgramView.{program_of};
ghost use Rattle.sf_foot.specs.Starting.{StartsWith};

use sf_base::ProcId;
use sf_calls::reach;
use sf_elab::elaborate;
use sf_foot::Start;
use sf_lex::tokens;
use sf_parse::parse;
use sf_precise::{Arranged, arrange};
use sf_state::{entry, read};
use sf_vars::conditions;
use std::alloc::Global;

/// The program of a file, if nothing is wrong with it.
pub fn fitted(alloc: Global, file: &[u8]) -> Option<Arranged> {
    let words = tokens(alloc, file).ok()?;
    let tree = parse(alloc, &words).ok()?;
    let program = elaborate(alloc, file, tree).ok()?;
    let calls = reach(alloc, &program).ok()?;
    if let Err(_) = conditions(alloc, &program, &calls) {
        return None;
    }
    arrange(alloc, program, calls).ok()
}

/// A procedure, and a start of it.
#[derive(Drop)]
pub struct Entered {
    /// The procedure.
    pub f: ProcId,
    /// The start.
    pub start: Start,
}

/// The procedure of that name with the start that the text gives, if it is one.
pub fn start_of(alloc: Global, p: &Arranged, name: &str, text: &[u8]) -> Option<Entered>
    ensures starts { IfSome result (λ e. StartsWith (program_of p.now.program) e.f e.start.fresh
        e.start.vars e.start.heap e.start.parts.items) }
    ensures within { IfSome result (λ e. e.f.0 < length p.now.program.procedures.items) }
{
    let Ok(f) = entry(alloc, p, name) else {
        return None;
    };
    match read(alloc, p, f, text) {
        Ok(start) => Some(Entered { f, start }),
        Err(_) => None,
    }
}
