//! The calls that occur in commands outside the regions of a resource.

ghost use Rattle.std.specs.Prelude.{◌≡◌, map, IfOk};
ghost use Rattle.sf_base.specs.Results.{Appends};
ghost use Rattle.sf_core.specs.Program.Sites.{site_of};
ghost use Rattle.sf_core.specs.Program.View.{command_of};
ghost use Rattle.sf_calls.specs.Outside.{owner};
ghost use Rattle.sf_calls.specs.Checked.Tests.{is_outside, callees_in, callees_of};

use crate::shared::is_entered;
use sf_base::{ProcId, ResId, Var};
use sf_core::{Command, Site};
use std::alloc::{AllocError, Global};

/// The resource whose variable it is.
pub fn owner(x: Var) -> Option<ResId>
    ensures { result ≡ owner x }
{
    match x {
        Var::Own(_) => None,
        Var::Shared(r, _) => Some(r),
    }
}

/// Whether regions of those resources are none of the one that is left out.
fn is_outside(but: Option<ResId>, entered: &[ResId]) -> bool
    ensures { result ≡ is_outside but entered.now }
{
    match but {
        None => true,
        Some(r) => !is_entered(r, entered),
    }
}

/// The procedures that are called at those sites outside the regions of the resource that is left
/// out, in text order. An `Err` means that memory ran out.
pub fn callees_in(
    alloc: Global,
    but: Option<ResId>,
    sites: &[Site],
) -> Result<Vec<ProcId>, AllocError>
    ensures { IfOk result (λ callees. callees.items ≡ callees_in but (map site_of sites.now)) }
{
    let mut callees = Vec::new(alloc);
    for s in sites {
        if is_outside(but, &s.entered) {
            add_callees_of(s.command, &mut callees)?;
        }
    }
    Ok(callees)
}

/// Appends those that the command itself calls.
fn add_callees_of(c: &Command, callees: &mut Vec<ProcId>) -> Result<(), AllocError>
    ensures { Appends result callees.old.items callees.new.items (callees_of (command_of c.now)) }
{
    match c {
        Command::Call(_, call) => {
            callees.push(call.callee)?;
            Ok(())
        }
        Command::Fork(_, left, right) => {
            callees.push(left.callee)?;
            callees.push(right.callee)?;
            Ok(())
        }
        _ => Ok(()),
    }
}
