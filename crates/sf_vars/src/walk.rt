//! The walk over the commands of a procedure, in text order.

ghost use Rattle.std.specs.Prelude.{◌≡◌, ◌<◌, length, All, IfOk, [], ◌∷◌};
ghost use Rattle.std.specs.Result.{result_err};
ghost use Rattle.sf_base.specs.declared.limits.TheConstants.{RESOURCES};
ghost use Rattle.sf_core.specs.Program.Heads.{call_occurrences};
ghost use Rattle.sf_core.specs.Program.View.{block_of, call_of, command_of, procedure_of};
ghost use Rattle.sf_vars.specs.Checked.Search.{BlockFits, CommandFits, HasSets, holds_of, in_block, in_calls, in_command, in_head, in_inner, in_procedure};

use crate::at_calls::{passes_free, reenters_by_call, repeats, unheld_in_call};
use crate::held::Held;
use crate::parallel::{free_in_both, shared_among};
use crate::unheld::unheld;
use sf_base::ProcId;
use sf_calls::{Breach, Calls};
use sf_core::{Call, Command, Occurrence, Proc, add_call_occurrences, add_head_occurrences};
use std::alloc::{AllocError, Global};

/// The first breach, if there is one. An `Err` means that memory ran out.
type Search = Result<Option<Breach>, AllocError>;

/// The first breach in the procedure of that number, which holds its own resources throughout. An
/// `Err` means that memory ran out.
pub fn in_procedure(alloc: Global, calls: &Calls, f: ProcId, procedure: &Proc) -> Search
    requires there { f.0 < length calls.now.holds }
    requires held { All (λ r. r.0 < RESOURCES) (holds_of calls.now f) }
    requires fits { BlockFits calls.now (block_of procedure.now.body.items) }
    ensures { IfOk result (λ found. found ≡ in_procedure calls.now f (procedure_of procedure.now)) }
{
    let held = Held::of(calls.holds(f).as_slice());
    in_block(alloc, calls, &held, &procedure.body)
}

/// The first breach in commands.
#[cycle(commands)]
fn in_block(alloc: Global, calls: &Calls, held: &Held, body: &[Command]) -> Search
    requires { BlockFits calls.now (block_of body.now) }
    ensures { IfOk result (λ found. found ≡ in_block calls.now held.now (block_of body.now)) }
{
    for c in body {
        let found = in_command(alloc, calls, held, c)?;
        if found.is_some() {
            return Ok(found);
        }
    }
    Ok(None)
}

/// The first breach in a command, or in those inside it.
#[cycle(commands)]
fn in_command(alloc: Global, calls: &Calls, held: &Held, c: &Command) -> Search
    requires { CommandFits calls.now (command_of c.now) }
    ensures { IfOk result (λ found. found ≡ in_command calls.now held.now (command_of c.now)) }
{
    let found = in_head(alloc, calls, held, c)?;
    if found.is_some() {
        return Ok(found);
    }
    in_inner(alloc, calls, held, c)
}

/// The first breach in the commands inside a command.
#[cycle(commands)]
fn in_inner(alloc: Global, calls: &Calls, held: &Held, c: &Command) -> Search
    requires { CommandFits calls.now (command_of c.now) }
    ensures { IfOk result (λ found. found ≡ in_inner calls.now held.now (command_of c.now)) }
{
    match c {
        Command::If(_, _, c, d) => {
            let found = in_block(alloc, calls, held, c)?;
            if found.is_some() {
                return Ok(found);
            }
            in_block(alloc, calls, held, d)
        }
        Command::While(_, _, _, c) => in_block(alloc, calls, held, c),
        Command::With(_, r, _, c) => in_block(alloc, calls, &held.and(*r), c),
        _ => Ok(None),
    }
}

/// The first breach in a command itself.
fn in_head(alloc: Global, calls: &Calls, held: &Held, c: &Command) -> Search
    requires { CommandFits calls.now (command_of c.now) }
    ensures { IfOk result (λ found. found ≡ in_head calls.now held.now (command_of c.now)) }
{
    let mut words = Vec::new(alloc);
    add_head_occurrences(c, &mut words)?;
    match c {
        Command::Call(_, call) => in_single(alloc, calls, held, call),
        Command::Fork(_, left, right) => in_fork(alloc, calls, held, left, right),
        Command::With(place, r, _, _) => {
            if let Err(breach) = unheld(&held.and(*r), &words) {
                return Ok(Some(breach));
            }
            if held.has(*r) {
                return Ok(Some(Breach::Reentered(*place, *r)));
            }
            Ok(None)
        }
        _ => Ok(unheld(held, &words).err()),
    }
}

/// The first breach in a call by itself.
fn in_single(alloc: Global, calls: &Calls, held: &Held, call: &Call) -> Search
    requires { HasSets calls.now call.now.callee }
    ensures { IfOk result (λ found.
        found ≡ in_calls calls.now held.now (call_of call.now ∷ []) []) }
{
    let mut words = Vec::new(alloc);
    add_call_occurrences(call, &mut words)?;
    Ok(single(calls, held, call, &words).err())
}

/// Looks at a call by itself.
fn single(calls: &Calls, held: &Held, call: &Call, words: &[Occurrence]) -> Result<(), Breach>
    requires sets { HasSets calls.now call.now.callee }
    requires words { words.now ≡ call_occurrences (call_of call.now) }
    ensures { result_err result ≡ in_calls calls.now held.now (call_of call.now ∷ []) [] }
{
    unheld_in_call(calls, held, call, words)?;
    reenters_by_call(calls, held, call)?;
    repeats(&call.references)?;
    passes_free(calls, call)?;
    Ok(())
}

/// The first breach in two parallel calls.
fn in_fork(alloc: Global, calls: &Calls, held: &Held, left: &Call, right: &Call) -> Search
    requires left { HasSets calls.now left.now.callee }
    requires right { HasSets calls.now right.now.callee }
    ensures { IfOk result (λ found.
        found ≡ in_calls calls.now held.now (call_of left.now ∷ call_of right.now ∷ [])
        ((call_of left.now, call_of right.now) ∷ [])) }
{
    let mut left_words = Vec::new(alloc);
    add_call_occurrences(left, &mut left_words)?;
    let mut right_words = Vec::new(alloc);
    add_call_occurrences(right, &mut right_words)?;
    Ok(two(calls, held, left, right, &left_words, &right_words).err())
}

/// Looks at two parallel calls. What they share comes last: first the variables that occur in the
/// calls, then the others.
fn two(
    calls: &Calls,
    held: &Held,
    left: &Call,
    right: &Call,
    left_words: &[Occurrence],
    right_words: &[Occurrence],
) -> Result<(), Breach>
    requires left { HasSets calls.now left.now.callee }
    requires right { HasSets calls.now right.now.callee }
    requires left_words { left_words.now ≡ call_occurrences (call_of left.now) }
    requires right_words { right_words.now ≡ call_occurrences (call_of right.now) }
    ensures { result_err result
        ≡ in_calls calls.now held.now (call_of left.now ∷ call_of right.now ∷ [])
        ((call_of left.now, call_of right.now) ∷ []) }
{
    unheld_in_call(calls, held, left, left_words)?;
    unheld_in_call(calls, held, right, right_words)?;
    reenters_by_call(calls, held, left)?;
    reenters_by_call(calls, held, right)?;
    repeats(&left.references)?;
    repeats(&right.references)?;
    passes_free(calls, left)?;
    passes_free(calls, right)?;
    shared_among(calls, left, right, left_words)?;
    shared_among(calls, left, right, right_words)?;
    free_in_both(calls, left, right)
}
