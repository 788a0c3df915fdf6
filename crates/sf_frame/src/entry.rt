//! The first frames of a run.

ghost use Rattle.std.specs.Prelude.{◌≡◌, ◌-◌, ◌<◌, ◌≤◌, ◌^◌, length, IfOk};
ghost use Rattle.sf_core.specs.Machine.Start.{entry_frame, init_frame};
ghost use Rattle.sf_core.specs.Program.View.{procedure_of};
ghost use Rattle.sf_frame.specs.Checked.Entries.{AreEntrySpots};
ghost use Rattle.sf_frame.specs.Frames.{frame_of};

use crate::frame::{Frame, Room};
use crate::spot::Spot;
use crate::todo::first_todo;
use sf_base::ProcId;
use sf_core::Proc;
use std::alloc::{AllocError, Global};

/// How many values and locals a procedure has.
pub(crate) fn room_count(procedure: &Proc) -> u32
    requires few { length procedure.now.names.items < 2 ^ 32 }
    requires references { procedure.now.references ≤ length procedure.now.names.items }
    ensures { result ≡ length procedure.now.names.items - procedure.now.references }
{
    procedure.names.len() as u32 - procedure.references
}

/// The frame of a procedure that is the entry, with its whole body to do.
pub(crate) fn entry_frame<'p>(
    alloc: Global,
    f: ProcId,
    procedure: &'p Proc,
) -> Result<Frame<'p>, AllocError>
    requires few { length procedure.now.names.items < 2 ^ 32 }
    requires references { procedure.now.references ≤ length procedure.now.names.items }
    ensures { IfOk result (λ frame. frame_of frame ≡ entry_frame f (procedure_of procedure.now)) }
{
    let references = entry_spots(alloc, procedure.references)?;
    let todo = first_todo(alloc, &procedure.body)?;
    Ok(Frame {
        procedure: f,
        references,
        room: Room {
            event: 0,
            first: procedure.references,
            count: room_count(procedure),
        },
        todo,
    })
}

/// The frame of the procedure that sets the resources up, with its whole body to do: its slots come
/// from that index on.
pub(crate) fn init_frame<'p>(
    alloc: Global,
    n: ProcId,
    procedure: &'p Proc,
    first: u32,
) -> Result<Frame<'p>, AllocError>
    requires few { length procedure.now.names.items < 2 ^ 32 }
    requires references { procedure.now.references ≤ length procedure.now.names.items }
    ensures { IfOk result (λ frame. frame_of frame
        ≡ init_frame n (procedure_of procedure.now) first) }
{
    let todo = first_todo(alloc, &procedure.body)?;
    Ok(Frame {
        procedure: n,
        references: Vec::new(alloc),
        room: Room {
            event: 0,
            first,
            count: room_count(procedure),
        },
        todo,
    })
}

/// The slots that the first variables of the entry name: their own.
fn entry_spots(alloc: Global, count: u32) -> Result<Vec<Spot>, AllocError>
    ensures { IfOk result (λ spots. AreEntrySpots count spots.items) }
{
    let mut spots = Vec::with_capacity(alloc, count as usize)?;
    for i in 0..count {
        spots.push(Spot::Own(0, i as u64))?;
    }
    Ok(spots)
}
