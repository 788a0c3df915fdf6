//! What two parallel calls share.

ghost use Rattle.std.specs.Prelude.{◌≡◌};
ghost use Rattle.std.specs.Result.{result_err};
ghost use Rattle.sf_core.specs.Program.View.{call_of};
ghost use Rattle.sf_vars.specs.Checked.Search.{HasSets, also_free, free_in_both, may_change, shared_among, shared_at, shares, uses};

use crate::at_calls::is_free;
use sf_base::{Place, ProcId, Var};
use sf_calls::{Breach, Calls, in_references, in_values};
use sf_core::{Call, Occurrence};

/// Looks for a variable, among those that occur there, that one of the calls may change and the
/// other uses.
pub fn shared_among(
    calls: &Calls,
    left: &Call,
    right: &Call,
    words: &[Occurrence],
) -> Result<(), Breach>
    requires left { HasSets calls.now left.now.callee }
    requires right { HasSets calls.now right.now.callee }
    ensures { result_err result
        ≡ shared_among calls.now (call_of left.now) (call_of right.now) words.now }
{
    for x in words {
        shared_at(calls, left, right, x.var)?;
    }
    Ok(())
}

/// Looks for a variable that is free in both.
pub fn free_in_both(calls: &Calls, left: &Call, right: &Call) -> Result<(), Breach>
    requires left { HasSets calls.now left.now.callee }
    requires right { HasSets calls.now right.now.callee }
    ensures { result_err result ≡ free_in_both calls.now (call_of left.now) (call_of right.now) }
{
    also_free(
        calls,
        left.place,
        calls.free(left.callee).as_slice(),
        right.callee,
    )
}

/// Looks for one of those variables that is free in the procedure, and tells it at that place.
fn also_free(calls: &Calls, place: Place, xs: &[Var], g: ProcId) -> Result<(), Breach>
    requires { HasSets calls.now g }
    ensures { result_err result ≡ also_free calls.now place g xs.now }
{
    for x in xs {
        if is_free(calls, g, *x) {
            return Err(Breach::ParallelShares(place, *x));
        }
    }
    Ok(())
}

/// Looks at one variable.
fn shared_at(calls: &Calls, left: &Call, right: &Call, x: Var) -> Result<(), Breach>
    requires left { HasSets calls.now left.now.callee }
    requires right { HasSets calls.now right.now.callee }
    ensures { result_err result ≡ shared_at calls.now (call_of left.now) (call_of right.now) x }
{
    if shares(calls, left, right, x) {
        return Err(Breach::ParallelShares(left.place, x));
    }
    Ok(())
}

/// Whether one of the calls may change the variable and the other uses it.
fn shares(calls: &Calls, left: &Call, right: &Call, x: Var) -> bool
    requires left { HasSets calls.now left.now.callee }
    requires right { HasSets calls.now right.now.callee }
    ensures { result ≡ shares calls.now (call_of left.now) (call_of right.now) x }
{
    may_change(calls, left, x) && uses(calls, right, x)
        || may_change(calls, right, x) && uses(calls, left, x)
}

/// Whether the call may change the variable.
fn may_change(calls: &Calls, call: &Call, x: Var) -> bool
    requires { HasSets calls.now call.now.callee }
    ensures { result ≡ may_change calls.now (call_of call.now) x }
{
    in_references(x, &call.references) || is_free(calls, call.callee, x)
}

/// Whether the call uses the variable.
fn uses(calls: &Calls, call: &Call, x: Var) -> bool
    requires { HasSets calls.now call.now.callee }
    ensures { result ≡ uses calls.now (call_of call.now) x }
{
    may_change(calls, call, x) || in_values(x, &call.values)
}
