//! The frames of callees, and their values.

ghost use Rattle.std.specs.Prelude.{◌≡◌, ◌*◌, ◌≤◌, ◌<◌, Some, IfOk, length, map};
ghost use Rattle.sf_base.specs.declared.limits.TheConstants.{OWN_VARIABLES};
ghost use Rattle.sf_core.specs.Machine.Config.{Common, evaluate};
ghost use Rattle.sf_core.specs.Machine.Step.{arguments, callee_frame, open_room, procedure_at, room_for};
ghost use Rattle.sf_core.specs.Program.ProgramView.{program_of};
ghost use Rattle.sf_core.specs.Program.Syntax.{Procedure};
ghost use Rattle.sf_core.specs.Program.View.{call_of};
ghost use Rattle.sf_frame.specs.Checked.Calls.{AreReferences};
ghost use Rattle.sf_frame.specs.Checked.Effects.{opened};
ghost use Rattle.sf_frame.specs.Stores.{store_of};
ghost use Rattle.sf_frame.specs.Frames.{fixed_of, frame_of, room_of};

use crate::effect::Opening;
use crate::entry::room_count;
use crate::frame::{Frame, Room};
use crate::spot::Spot;
use crate::store::Store;
use crate::todo::first_todo;
use crate::values::evaluate;
use sf_base::{ProcId, Value};
use sf_core::{Call, Expr, Occurrence, Program};
use std::alloc::{AllocError, Global};

/// A procedure that is called: the slots that come up for it, and its first frame.
#[derive(Drop)]
pub struct Callee<'p> {
    /// Its slots, with their values.
    pub opening: Opening,
    /// Its frame.
    pub frame: Frame<'p>,
}

/// The room that an event makes for a call of a procedure, from an index on.
pub(crate) fn room_for(p: &Program, callee: ProcId, event: u64, first: u32) -> Room
    requires { callee.0 < length p.now.procedures.items }
    ensures room { (g : Procedure) → procedure_at (program_of p.now) callee ≡ Some g
        → room_of result ≡ room_for g event first }
    ensures few { result.count ≤ 2 * OWN_VARIABLES }
{
    Room {
        event,
        first,
        count: room_count(p.proc(callee)),
    }
}

/// The first frame of a call, with its whole body to do.
pub(crate) fn callee_frame<'p>(
    alloc: Global,
    p: &'p Program,
    caller: &Frame<'p>,
    call: &Call,
    room: Room,
) -> Result<Frame<'p>, AllocError>
    requires { call.now.callee.0 < length p.now.procedures.items }
    ensures { IfOk result (λ frame. (g : Procedure)
        → procedure_at (program_of p.now) call.now.callee ≡ Some g
        → frame_of frame ≡ callee_frame (fixed_of caller.now).slots (call_of call.now) g
        (room_of room)) }
{
    let references = spots_of(alloc, caller, &call.references)?;
    let todo = first_todo(alloc, &p.proc(call.callee).body)?;
    Ok(Frame {
        procedure: call.callee,
        references,
        room,
        todo,
    })
}

/// The slots of the caller's variables that a call names.
fn spots_of(
    alloc: Global,
    caller: &Frame<'_>,
    references: &[Occurrence],
) -> Result<Vec<Spot>, AllocError>
    ensures { IfOk result
        (λ spots. AreReferences (fixed_of caller.now).slots references.now spots.items) }
{
    let mut spots = Vec::with_capacity(alloc, references.len())?;
    for x in references {
        spots.push(caller.spot(x.var))?;
    }
    Ok(spots)
}

/// The values in the room of a call at its start.
pub(crate) fn opening(
    alloc: Global,
    store: &Store,
    caller: &Frame<'_>,
    call: &Call,
    room: Room,
) -> Result<Opening, AllocError>
    ensures room { IfOk result (λ o. o.room ≡ room) }
    ensures opens { IfOk result (λ o. (s : Common) → opened o s ≡ open_room (room_of room)
        (arguments (fixed_of caller.now).slots (store_of store.now) (call_of call.now)) s) }
{
    let values = evaluate_all(alloc, store, caller, &call.values)?;
    Ok(Opening { room, values })
}

/// The values of expressions of a frame, in order.
fn evaluate_all(
    alloc: Global,
    store: &Store,
    frame: &Frame<'_>,
    all: &[Expr],
) -> Result<Vec<Value>, AllocError>
    ensures { IfOk result (λ values. values.items
        ≡ map (evaluate (fixed_of frame.now).slots (store_of store.now)) all.now) }
{
    let mut values = Vec::with_capacity(alloc, all.len())?;
    for e in all {
        values.push(evaluate(store, frame, *e))?;
    }
    Ok(values)
}
