//! The slots of the variables of a resource.

ghost use Rattle.std.specs.Prelude.{◌≡◌, length, Some, IfOk};
ghost use Rattle.std.specs.List.{slice_get};
ghost use Rattle.sf_base.specs.HeapStore.{Slot};
ghost use Rattle.sf_core.specs.Program.ProgramView.{program_of};
ghost use Rattle.sf_core.specs.Program.Syntax.{Resource};
ghost use Rattle.sf_frame.specs.Stores.{is_among};
ghost use Rattle.sf_part.specs.Given.{is_variable_of};

use sf_base::ResId;
use sf_core::Program;
use sf_frame::Spot;
use std::alloc::{AllocError, Global};

/// The slots of the variables of a resource, which has so many. An `Err` says that memory ran out.
pub(crate) fn variable_spots(alloc: Global, r: ResId, count: u32) -> Result<Vec<Spot>, AllocError>
    ensures { IfOk result
        (λ spots. (slot : Slot) → is_among spots.items slot ≡ is_variable_of r count slot) }
{
    let mut spots = Vec::with_capacity(alloc, count as usize)?;
    for i in 0..count {
        spots.push(Spot::Shared(r, i))?;
    }
    Ok(spots)
}

/// How many variables a resource of a program has.
pub(crate) fn variable_count(p: &Program, r: ResId) -> u32
    requires { (resource : Resource)
        × (slice_get (program_of p.now).resources r.0 ≡ Some resource) }
    ensures { (resource : Resource) → slice_get (program_of p.now).resources r.0 ≡ Some resource
        → result ≡ length resource.variables }
{
    p.resources[r.0 as usize].variables.len() as u32
}
