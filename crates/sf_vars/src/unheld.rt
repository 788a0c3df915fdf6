//! The first variable of a resource that is not held.

ghost use Rattle.std.specs.Prelude.{◌≡◌};
ghost use Rattle.std.specs.Result.{result_err};
ghost use Rattle.sf_vars.specs.Checked.Search.{free_unheld, unheld};

use crate::held::Held;
use sf_base::{Place, Var};
use sf_calls::Breach;
use sf_core::Occurrence;

/// Looks for one of those occurrences whose variable is not held.
pub fn unheld(held: &Held, xs: &[Occurrence]) -> Result<(), Breach>
    ensures { result_err result ≡ unheld held.now xs.now }
{
    for x in xs {
        if held.lacks(x.var) {
            return Err(Breach::NotHeld(x.place, x.var));
        }
    }
    Ok(())
}

/// Looks for one of those variables that is not held, and tells it at that place.
pub fn free_unheld(held: &Held, place: Place, xs: &[Var]) -> Result<(), Breach>
    ensures { result_err result ≡ free_unheld held.now place xs.now }
{
    for x in xs {
        if held.lacks(*x) {
            return Err(Breach::NotHeld(place, *x));
        }
    }
    Ok(())
}
