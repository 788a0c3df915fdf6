//! The start that a text gives.

ghost use Rattle.std.specs.Prelude.{◌≡◌, ◌<◌, true, false, length, IfSome, slice_get};
ghost use Rattle.sf_core.specs.Program.Init.{sets_up};
ghost use Rattle.sf_core.specs.Program.ProgramView.{program_of};
ghost use Rattle.sf_foot.specs.Starting.{HasWidth, IsMentioned};
ghost use Rattle.sf_heap.specs.Cells.{AreAt};
ghost use Rattle.sf_state.specs.Entering.{HoldsNone};
ghost use Rattle.sf_state.specs.Checked.Beginning.{Begins, Fits, SuitsFresh};
ghost use Rattle.sf_state.specs.Checked.FirstUnit.{AreInBounds};
ghost use Rattle.sf_state.specs.Starts.{DecidesStart};

use crate::fault::StartFault;
use crate::finding::{find_parts, first_outside};
use crate::placing::{heap_of, vars_of};
use crate::state::read_state;
use crate::unit::first_unit;
use sf_base::ProcId;
use sf_core::laws::assertions::determined_has_one_footprint;
use sf_foot::{Start, Vars};
use sf_heap::{Heap, Locations};
use sf_precise::Arranged;
use sf_precise::laws::{ordered_is_determined, orders_from_truncation};
use std::alloc::Global;

/// The start of procedure `f` with these variables and cells, which are at those locations, fresh or
/// not; or why it doesn't start with them.
fn begin(
    alloc: Global,
    p: &Arranged,
    f: ProcId,
    fresh: bool,
    vars: Vars,
    heap: Heap,
    at: &Locations,
) -> Result<Start, StartFault>
    requires there { f.0 < length p.now.program.procedures.items }
    requires free { HoldsNone (program_of p.now.program) f }
    requires other { sets_up (program_of p.now.program) f ≡ false }
    requires suits { fresh ≡ true → SuitsFresh (program_of p.now.program) vars }
    requires fits { IfSome (slice_get (program_of p.now.program).procedures f.0)
        (λ g. Fits (program_of p.now.program) g vars) }
    requires width { HasWidth (length (program_of p.now.program).fields) heap }
    requires in_bounds { AreInBounds (IsMentioned vars heap) }
    requires all { AreAt at.now heap }
    ensures { IfSome (slice_get (program_of p.now.program).procedures f.0)
        (λ g. Begins (program_of p.now.program) f g fresh vars heap result) }
{
    let found = find_parts(alloc, p, f, fresh, &vars, &heap)?;
    if let Some(location) = first_outside(&found.taken, at) {
        return Err(StartFault::LeftOver(location));
    }
    let unit = first_unit(&vars, &heap, at);
    Ok(Start::new(&p.program, f, vars, heap, found.parts, unit, fresh))
}

/// The start of procedure `f` that a text gives: its variables and cells, the footprint of each
/// part, and the first unit. It is fresh where the program has `init` and no line gives a variable
/// of a resource: then `init` runs first. The procedure holds no resource and isn't `init`, as
/// `entry` sees to.
///
/// What `read_state` refuses is refused first. Else `Unmet` comes exactly where the precondition,
/// or in a start that isn't fresh a resource's invariant in file order, has no footprint in the
/// cells that the earlier ones left, and names the first such; and `LeftOver` exactly where all
/// have and cells are left, with the least location of one. Or memory runs out.
pub fn read(alloc: Global, p: &Arranged, f: ProcId, text: &[u8]) -> Result<Start, StartFault>
    requires there { f.0 < length p.now.program.procedures.items }
    requires free { HoldsNone (program_of p.now.program) f }
    requires other { sets_up (program_of p.now.program) f ≡ false }
    ensures { IfSome (slice_get (program_of p.now.program).procedures f.0)
        (λ g. DecidesStart (program_of p.now.program) f g text.now result) }
{
    orders_from_truncation();
    ordered_is_determined();
    determined_has_one_footprint();
    let state = read_state(alloc, &p.program, f, text)?;
    let vars = vars_of(alloc, &p.program, p.program.proc(f), &state.values)?;
    let (heap, at) = heap_of(alloc, state.cells)?;
    begin(alloc, p, f, state.fresh, vars, heap, &at)
}
