//! What a command does, or why it does nothing.

ghost use Rattle.std.specs.Prelude.{◌≡◌, true, is_some, MatchOption};
ghost use Rattle.sf_base.specs.HeapStore.{Cell as C, Slot};
ghost use Rattle.sf_core.specs.Machine.Bad.{IsAbsent};
ghost use Rattle.sf_core.specs.Machine.Enabled.{CommandWrites, variable};
ghost use Rattle.sf_core.specs.Program.Syntax.{Block, Program as P};
ghost use Rattle.sf_core.specs.Program.View.{command_of};
ghost use Rattle.sf_heap.specs.Cells.{heap_of};
ghost use Rattle.sf_frame.specs.Commons.{common_of};
ghost use Rattle.sf_frame.specs.Stamps.{event_of};
ghost use Rattle.sf_frame.specs.Checked.Acts.{ActsOf, ActsAssign, ActsDispose, ActsIf, ActsLookUp, ActsMutate, ActsNew, ActsWhile, ActsWith, FitsAct, IsCellAt, IsCellOf, IsEdit};
ghost use Rattle.sf_frame.specs.Checked.Plans.{SetsField};
ghost use Rattle.sf_frame.specs.Stores.{store_of};
ghost use Rattle.sf_frame.specs.Frames.{fixed_of};

use crate::effect::Edit;
use crate::frame::{Frame, Way};
use crate::refusal::Refusal;
use crate::shared::Shared;
use crate::spot::Spot;
use crate::stamp::Stamp;
use crate::values::{evaluate, is_true};
use sf_base::{FieldId, ResId, Value};
use sf_core::{Call, Command, Expr, Occurrence, Test};
use sf_heap::{Cell, Heap};

/// What a command does, or why its event is none.
#[derive(Drop)]
pub enum Act<'p> {
    /// What is shared is edited, and the frame goes on that way.
    Edits(Edit, Way),
    /// The event's cell comes up, whose location a variable gets, and the frame goes on past it.
    Makes(Spot),
    /// The task holds a resource, and the frame goes on into the region.
    Enters(ResId),
    /// A procedure is called.
    Calls(&'p Call),
    /// Two procedures are called in parallel.
    Forks(&'p Call, &'p Call),
    /// Its event is none.
    Refused(Refusal),
}

/// What a command does that comes next in a frame. It wants no memory. More than an edit comes only
/// of a command that makes a cell, calls a procedure or enters a region.
pub fn act_of<'p>(
    shared: &Shared,
    event: &Stamp,
    frame: &Frame<'p>,
    command: &'p Command,
) -> Act<'p>
    requires { (slot : Slot) → CommandWrites (fixed_of frame.now).slots
        (store_of shared.now.store) (command_of command.now) (variable slot)
        → is_some (store_of shared.now.store slot) ≡ true }
    ensures acts { (p : P) → SetsField p (command_of command.now) → (cell : C) → ActsOf p
        (event_of event.now cell) (common_of shared.now) (fixed_of frame.now)
        (command_of command.now) result }
    ensures room { FitsAct (command_of command.now) result }
{
    match command {
        Command::Assign(_, x, e) => assign(shared, frame, *x, *e),
        Command::LookUp(_, x, e, field) => look_up(shared, frame, *x, *e, *field),
        Command::Mutate(_, e, field, v) => mutate(shared, frame, *e, *field, *v),
        Command::New(_, x) => make(shared, event, frame, *x),
        Command::Dispose(_, e) => dispose(shared, frame, *e),
        Command::If(_, test, _, _) => choose(shared, frame, test),
        Command::While(_, test, _, _) => repeat(shared, frame, test),
        Command::Call(_, call) => Act::Calls(call),
        Command::Fork(_, one, two) => Act::Forks(one, two),
        Command::With(_, r, test, _) => enter(shared, frame, *r, test),
    }
}

/// `x = E`.
fn assign<'p>(shared: &Shared, frame: &Frame<'p>, x: Occurrence, e: Expr) -> Act<'p>
    requires { is_some (store_of shared.now.store ((fixed_of frame.now).slots x.var)) ≡ true }
    ensures acts { ActsAssign (common_of shared.now) (fixed_of frame.now) x e result }
    ensures edits { IsEdit result }
{
    let value = evaluate(&shared.store, frame, e);
    Act::Edits(Edit::Set(frame.spot(x.var), value), Way::Past)
}

/// `x = E->f`.
fn look_up<'p>(
    shared: &Shared,
    frame: &Frame<'p>,
    x: Occurrence,
    e: Expr,
    field: FieldId,
) -> Act<'p>
    requires { is_some (store_of shared.now.store ((fixed_of frame.now).slots x.var)) ≡ true }
    ensures acts { ActsLookUp (common_of shared.now) (fixed_of frame.now) x e field result }
    ensures edits { IsEdit result }
{
    let root = evaluate(&shared.store, frame, e);
    match cell_of(&shared.heap, root) {
        Some(cell) => Act::Edits(Edit::Set(frame.spot(x.var), cell.get(field)), Way::Past),
        None => Act::Refused(Refusal::Absent(root)),
    }
}

/// The cell at a value, where there is one.
fn cell_of(heap: &Heap, root: Value) -> Option<&Cell>
    ensures { MatchOption result (IsAbsent (heap_of heap.now) root)
        (λ cell. IsCellOf (heap_of heap.now) root cell.now) }
{
    match root {
        Value::Loc(at) => heap.get(at),
        Value::Nil => None,
        Value::Int(_) => None,
    }
}

/// The location of the cell at a value, where there is one.
fn cell_at(heap: &Heap, root: Value) -> Option<u64>
    ensures { MatchOption result (IsAbsent (heap_of heap.now) root)
        (IsCellAt (heap_of heap.now) root) }
{
    match root {
        Value::Loc(at) => {
            if heap.get(at).is_none() {
                return None;
            }
            Some(at)
        }
        Value::Nil => None,
        Value::Int(_) => None,
    }
}

/// `E->f = F`.
fn mutate<'p>(shared: &Shared, frame: &Frame<'p>, e: Expr, field: FieldId, v: Expr) -> Act<'p>
    ensures acts { ActsMutate (common_of shared.now) (fixed_of frame.now) e field v result }
    ensures edits { IsEdit result }
{
    let root = evaluate(&shared.store, frame, e);
    match cell_at(&shared.heap, root) {
        Some(at) => {
            let value = evaluate(&shared.store, frame, v);
            Act::Edits(Edit::Put(at, field, value), Way::Past)
        }
        None => Act::Refused(Refusal::Absent(root)),
    }
}

/// `x = new()`.
fn make<'p>(shared: &Shared, event: &Stamp, frame: &Frame<'p>, x: Occurrence) -> Act<'p>
    requires { is_some (store_of shared.now.store ((fixed_of frame.now).slots x.var)) ≡ true }
    ensures { (cell : C) → ActsNew (event_of event.now cell) (common_of shared.now)
        (fixed_of frame.now) x result }
{
    if event.at == 0 || shared.heap.get(event.at).is_some() {
        return Act::Refused(Refusal::Stale);
    }
    Act::Makes(frame.spot(x.var))
}

/// `dispose(E)`.
fn dispose<'p>(shared: &Shared, frame: &Frame<'p>, e: Expr) -> Act<'p>
    ensures acts { ActsDispose (common_of shared.now) (fixed_of frame.now) e result }
    ensures edits { IsEdit result }
{
    let root = evaluate(&shared.store, frame, e);
    match cell_at(&shared.heap, root) {
        Some(at) => Act::Edits(Edit::Remove(at), Way::Past),
        None => Act::Refused(Refusal::Absent(root)),
    }
}

/// `if (B) C else D`.
fn choose<'p>(shared: &Shared, frame: &Frame<'p>, test: &Test<Expr>) -> Act<'p>
    ensures acts { (this that : Block) → ActsIf (common_of shared.now) (fixed_of frame.now) test.now
        this that result }
    ensures edits { IsEdit result }
{
    if is_true(&shared.store, frame, test) {
        return Act::Edits(Edit::Nothing, Way::Into);
    }
    Act::Edits(Edit::Nothing, Way::Else)
}

/// `while (B) C`.
fn repeat<'p>(shared: &Shared, frame: &Frame<'p>, test: &Test<Expr>) -> Act<'p>
    ensures acts { (body : Block) → ActsWhile (common_of shared.now) (fixed_of frame.now) test.now body
        result }
    ensures edits { IsEdit result }
{
    if is_true(&shared.store, frame, test) {
        return Act::Edits(Edit::Nothing, Way::Into);
    }
    Act::Edits(Edit::Nothing, Way::Past)
}

/// `with r when (B) C`.
fn enter<'p>(shared: &Shared, frame: &Frame<'p>, r: ResId, test: &Test<Expr>) -> Act<'p>
    ensures { (body : Block) → ActsWith (common_of shared.now) (fixed_of frame.now) r test.now body
        result }
{
    if shared.held.contains_key(&r.0) || !is_true(&shared.store, frame, test) {
        return Act::Refused(Refusal::Waiting(r));
    }
    Act::Enters(r)
}
