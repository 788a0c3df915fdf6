//! From a file's bytes to a program with which nothing is wrong.

ghost use Rattle.std.specs.Prelude.{◌≡◌, ◌≢◌, IfOk, IfErr};
ghost use Rattle.std.specs.List.{All};
ghost use Rattle.sf_calls.specs.FirstBreach.{Conditions};
ghost use Rattle.sf_core.specs.Assertions.Determined.{Determined};
ghost use Rattle.sf_core.specs.Program.ProgramView.{program_of};
ghost use Rattle.sf_precise.specs.Annotations.{annotations_in};
ghost use Rattle.sf_cli.specs.FileFault.{Admits, FileFault, ProgramFault, ReadFault};
ghost use Rattle.sf_cli.specs.Reads.{Reads};
ghost use Rattle.sf_cli.specs.declared.refusal.Refusal.TheVariants.{OutOfMemory};

use crate::refusal::Refusal;
use sf_calls::reach;
use sf_core::Program;
use sf_elab::elaborate;
use sf_lex::tokens;
use sf_parse::parse;
use sf_precise::laws::ordered_is_determined;
use sf_precise::{Arranged, arrange};
use sf_vars::conditions;
use std::alloc::Global;

/// The program that the bytes are.
fn read(alloc: Global, bytes: &[u8]) -> Result<Program, Refusal>
    ensures read { IfOk result (λ p. Reads bytes.now (program_of p)) }
    ensures refused { IfErr result (λ r. r ≢ OutOfMemory → ReadFault bytes.now r) }
{
    let tokens = tokens(alloc, bytes)?;
    let file = parse(alloc, &tokens)?;
    Ok(elaborate(alloc, bytes, file)?)
}

/// The program, with which nothing is wrong, and its annotations in order.
fn fit(alloc: Global, program: Program) -> Result<Arranged, Refusal>
    ensures same { IfOk result (λ a. program_of a.program ≡ program_of program) }
    ensures conditions { IfOk result (λ a. Conditions (program_of program)) }
    ensures determined { IfOk result (λ a.
        All (λ note. Determined note.level) (annotations_in (program_of program))) }
    ensures refused { IfErr result (λ r. r ≢ OutOfMemory → ProgramFault (program_of program) r) }
{
    let calls = reach(alloc, &program)?;
    conditions(alloc, &program, &calls)?;
    ordered_is_determined();
    Ok(arrange(alloc, program, calls)?)
}

/// The program that a file's bytes are, with which nothing is wrong, and its annotations in order.
pub fn admit(alloc: Global, bytes: &[u8]) -> Result<Arranged, Refusal>
    ensures admitted { IfOk result (λ a. Admits bytes.now (program_of a.program)) }
    ensures refused { IfErr result (λ r. r ≢ OutOfMemory → FileFault bytes.now r) }
{
    let program = read(alloc, bytes)?;
    fit(alloc, program)
}
