//! What one call breaks.

ghost use Rattle.std.specs.Prelude.{◌≡◌, []};
ghost use Rattle.std.specs.Result.{result_err};
ghost use Rattle.sf_core.specs.Program.Heads.{call_occurrences};
ghost use Rattle.sf_core.specs.Program.View.{call_of};
ghost use Rattle.sf_vars.specs.Checked.Search.{HasSets, free_of, is_in, passes_free, reenters_by_call, repeats, taken_held, unheld_in_call};

use crate::held::Held;
use crate::unheld::{free_unheld, unheld};
use sf_base::{Place, ProcId, ResId, Var};
use sf_calls::{Breach, Calls, in_references};
use sf_core::{Call, Occurrence};

/// Looks for a variable of a resource that is not held: first those that are free in what is
/// called, then those that occur in the call.
pub fn unheld_in_call(
    calls: &Calls,
    held: &Held,
    call: &Call,
    words: &[Occurrence],
) -> Result<(), Breach>
    requires sets { HasSets calls.now call.now.callee }
    requires words { words.now ≡ call_occurrences (call_of call.now) }
    ensures { result_err result ≡ unheld_in_call calls.now held.now (call_of call.now) }
{
    free_unheld(held, call.place, calls.free(call.callee).as_slice())?;
    unheld(held, words)
}

/// Looks for a held resource that the called procedure takes.
pub fn reenters_by_call(calls: &Calls, held: &Held, call: &Call) -> Result<(), Breach>
    requires { HasSets calls.now call.now.callee }
    ensures { result_err result ≡ reenters_by_call calls.now held.now (call_of call.now) }
{
    taken_held(held, call.place, calls.takes(call.callee).as_slice())
}

/// Looks for one of those resources that is held, and tells it at that place.
fn taken_held(held: &Held, place: Place, resources: &[ResId]) -> Result<(), Breach>
    ensures { result_err result ≡ taken_held held.now place resources.now }
{
    for r in resources {
        if held.has(*r) {
            return Err(Breach::Reentered(place, *r));
        }
    }
    Ok(())
}

/// Looks for a reference that names what one before it does. A call has at most as many as a
/// procedure has parameters.
pub fn repeats(references: &[Occurrence]) -> Result<(), Breach>
    ensures { result_err result ≡ repeats [] references.now }
{
    for (i, x) in references.iter().enumerate() {
        if in_references(x.var, &references[..i]) {
            return Err(Breach::SameReference(x.place, x.var));
        }
    }
    Ok(())
}

/// Looks for a reference that is free in the procedure that is called.
pub fn passes_free(calls: &Calls, call: &Call) -> Result<(), Breach>
    requires { HasSets calls.now call.now.callee }
    ensures { result_err result ≡ passes_free calls.now (call_of call.now) }
{
    for x in &call.references {
        if is_free(calls, call.callee, x.var) {
            return Err(Breach::ReferenceIsFree(x.place, x.var));
        }
    }
    Ok(())
}

/// Whether the variable is free in the procedure.
pub fn is_free(calls: &Calls, g: ProcId, x: Var) -> bool
    requires { HasSets calls.now g }
    ensures { result ≡ is_in (free_of calls.now g) x }
{
    calls.free(g).contains(x)
}
