//! What the event of a command would make, or why it is none.

ghost use Rattle.std.specs.Prelude.{◌≡◌, ◌<◌, ℕ, length, None, IfOk, OnErr};
ghost use Rattle.sf_base.specs.HeapStore.{Cell as C, own};
ghost use Rattle.sf_core.specs.Program.ProgramView.{program_of};
ghost use Rattle.sf_core.specs.Program.View.{call_of, command_of};
ghost use Rattle.sf_frame.specs.Commons.{common_of};
ghost use Rattle.sf_frame.specs.Stamps.{event_of};
ghost use Rattle.sf_frame.specs.Checked.Plans.{CallsSome, FitsPlan, IsReady, PlansCall, PlansFork, PlansStamp};
ghost use Rattle.sf_frame.specs.Stores.{store_of};
ghost use Rattle.sf_frame.specs.Frames.{fixed_of};

use crate::act::{Act, act_of};
use crate::calling::{Callee, callee_frame, opening, room_for};
use crate::effect::Effect;
use crate::frame::{Frame, Way};
use crate::refusal::Refusal;
use crate::shared::Shared;
use crate::stack::Change;
use crate::stamp::Stamp;
use sf_base::limits::TURNS;
use sf_core::{Call, Command, Program};
use std::alloc::AllocError;

/// What an event of a command would make, or why it is none.
#[derive(Drop)]
pub enum Plan<'p> {
    /// What is shared changes, and so do the frames.
    Acts(Effect, Change<'p>),
    /// The rooms of both callees come up, the left one's first; each is the first frame of a child,
    /// and the frames wait, the innermost after the fork.
    Forks(Callee<'p>, Callee<'p>),
    /// It is none.
    Refused(Refusal),
}

/// What the event of a command that comes next in a frame would make. An `Err` comes only where the
/// command calls a procedure: it says that memory ran out. More than an edit, or a frame more, comes
/// only of a command that makes a cell, enters a region or calls a procedure.
pub fn plan_command<'p>(
    p: &'p Program,
    shared: &Shared,
    event: &Stamp,
    frame: &Frame<'p>,
    command: &'p Command,
) -> Result<Plan<'p>, AllocError>
    requires { IsReady (program_of p.now) event.now.number (common_of shared.now)
        (fixed_of frame.now) (command_of command.now) }
    ensures plans { IfOk result (PlansStamp (program_of p.now) event.now (common_of shared.now)
        (fixed_of frame.now) (command_of command.now)) }
    ensures memory { OnErr result (CallsSome (command_of command.now)) }
    ensures room { IfOk result (FitsPlan (command_of command.now)) }
{
    match act_of(shared, event, frame, command) {
        Act::Edits(edit, way) => Ok(Plan::Acts(Effect::Edits(edit), Change::GoOn(way))),
        Act::Makes(spot) => Ok(Plan::Acts(Effect::Make(spot), Change::GoOn(Way::Past))),
        Act::Enters(r) => Ok(Plan::Acts(Effect::Hold(r), Change::GoOn(Way::Into))),
        Act::Calls(call) => plan_call(p, shared, event, frame, call),
        Act::Forks(one, two) => plan_fork(p, shared, event, frame, one, two),
        Act::Refused(why) => Ok(Plan::Refused(why)),
    }
}

/// `f(x; E)`.
fn plan_call<'p>(
    p: &'p Program,
    shared: &Shared,
    event: &Stamp,
    frame: &Frame<'p>,
    call: &'p Call,
) -> Result<Plan<'p>, AllocError>
    requires callee { call.now.callee.0 < length p.now.procedures.items }
    requires fresh { (i : ℕ) → store_of shared.now.store (own event.now.number i) ≡ None }
    ensures { IfOk result (λ plan. (cell : C) → PlansCall (program_of p.now)
        (event_of event.now cell) (common_of shared.now) (fixed_of frame.now) (call_of call.now)
        plan) }
{
    let room = room_for(p, call.callee, event.number, 0);
    let values = opening(shared.alloc, &shared.store, frame, call, room)?;
    let callee = callee_frame(shared.alloc, p, frame, call, room)?;
    Ok(Plan::Acts(Effect::Open(values), Change::Call(callee)))
}

/// `f(x; E) || g(y; F)`.
fn plan_fork<'p>(
    p: &'p Program,
    shared: &Shared,
    event: &Stamp,
    frame: &Frame<'p>,
    one: &'p Call,
    two: &'p Call,
) -> Result<Plan<'p>, AllocError>
    requires left { one.now.callee.0 < length p.now.procedures.items }
    requires right { two.now.callee.0 < length p.now.procedures.items }
    requires fresh { (i : ℕ) → store_of shared.now.store (own event.now.number i) ≡ None }
    ensures { IfOk result (λ plan. (cell : C) → PlansFork (program_of p.now)
        (event_of event.now cell) (common_of shared.now) (fixed_of frame.now) (call_of one.now)
        (call_of two.now) plan) }
{
    if event.task.len() >= TURNS {
        return Ok(Plan::Refused(Refusal::TooDeep));
    }
    let left_room = room_for(p, one.callee, event.number, 0);
    let right_room = room_for(p, two.callee, event.number, left_room.count);
    let left_values = opening(shared.alloc, &shared.store, frame, one, left_room)?;
    let right_values = opening(shared.alloc, &shared.store, frame, two, right_room)?;
    let left = callee_frame(shared.alloc, p, frame, one, left_room)?;
    let right = callee_frame(shared.alloc, p, frame, two, right_room)?;
    Ok(Plan::Forks(
        Callee {
            opening: left_values,
            frame: left,
        },
        Callee {
            opening: right_values,
            frame: right,
        },
    ))
}
