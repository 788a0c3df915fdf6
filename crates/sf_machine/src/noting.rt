//! Notes of what a step reads and writes.

ghost use Rattle.std.specs.Prelude.{◌≡◌, ◌⊎◌, OnOk};
ghost use Rattle.sf_core.specs.Machine.Config.{evaluate};
ghost use Rattle.sf_core.specs.Machine.Enabled.{variable, cell, IsCellAt, IsInRoom, ReadsExpr, ReadsTest, ReadsAll, CommandReads, CommandWrites};
ghost use Rattle.sf_core.specs.Program.View.{command_of};
ghost use Rattle.sf_machine.specs.Checked.Noting.{AreFit, Notes};
ghost use Rattle.sf_frame.specs.Checked.Spots.{SlotFits};
ghost use Rattle.sf_frame.specs.Frames.{fixed_of, room_of, slots_in};
ghost use Rattle.sf_frame.specs.Spots.{slot_of};
ghost use Rattle.sf_frame.specs.Stores.{store_of};

use sf_base::{Slot, Thing, Value, Var};
use sf_core::{Command, Expr, Test};
use sf_frame::{Frame, Room, Spot, Store, evaluate};
use std::alloc::AllocError;

/// Notes the variable in a slot.
pub(crate) fn note_spot(things: &mut Vec<Thing>, spot: Spot) -> Result<(), AllocError>
    requires { SlotFits (slot_of spot) }
    ensures { OnOk result (Notes things.old.items things.new.items
        (λ t. t ≡ variable (slot_of spot))) }
{
    let thing = match spot {
        Spot::Shared(r, i) => Thing::Shared(r, i),
        Spot::Own(event, index) => Thing::Own(Slot {
            event,
            index: index as u32,
        }),
    };
    things.push(thing)?;
    Ok(())
}

/// Notes the cell at a value, where that is a location.
fn note_cell(things: &mut Vec<Thing>, value: Value) -> Result<(), AllocError>
    ensures { OnOk result (Notes things.old.items things.new.items (IsCellAt value)) }
{
    if let Value::Loc(at) = value {
        things.push(Thing::At(at))?;
    }
    Ok(())
}

/// Notes a variable of a frame.
fn note_variable(things: &mut Vec<Thing>, frame: &Frame<'_>, x: Var) -> Result<(), AllocError>
    requires { SlotFits (slots_in frame.now.references.items frame.now.room x) }
    ensures { OnOk result (Notes things.old.items things.new.items
        (λ t. t ≡ variable ((fixed_of frame.now).slots x))) }
{
    note_spot(things, frame.spot(x))
}

/// Notes the variable that an expression evaluates.
fn note_expr(things: &mut Vec<Thing>, frame: &Frame<'_>, e: Expr) -> Result<(), AllocError>
    requires { AreFit (ReadsExpr (fixed_of frame.now).slots e) }
    ensures { OnOk result (Notes things.old.items things.new.items
        (ReadsExpr (fixed_of frame.now).slots e)) }
{
    match e {
        Expr::Var(x) => note_variable(things, frame, x.var),
        Expr::Nil => Ok(()),
        Expr::Int(_) => Ok(()),
    }
}

/// Notes the variables that two expressions evaluate.
fn note_two(things: &mut Vec<Thing>, frame: &Frame<'_>, x: Expr, y: Expr) -> Result<(), AllocError>
    requires first { AreFit (ReadsExpr (fixed_of frame.now).slots x) }
    requires second { AreFit (ReadsExpr (fixed_of frame.now).slots y) }
    ensures { OnOk result (Notes things.old.items things.new.items
        (λ t. ReadsExpr (fixed_of frame.now).slots x t
        ⊎ ReadsExpr (fixed_of frame.now).slots y t)) }
{
    note_expr(things, frame, x)?;
    note_expr(things, frame, y)
}

/// Notes the variables that a test evaluates.
pub(crate) fn note_test(
    things: &mut Vec<Thing>,
    frame: &Frame<'_>,
    test: &Test<Expr>,
) -> Result<(), AllocError>
    requires { AreFit (ReadsTest (fixed_of frame.now).slots test.now) }
    ensures { OnOk result (Notes things.old.items things.new.items
        (ReadsTest (fixed_of frame.now).slots test.now)) }
{
    match test {
        Test::True => Ok(()),
        Test::Equal(x, y) => note_two(things, frame, *x, *y),
        Test::Differ(x, y) => note_two(things, frame, *x, *y),
    }
}

/// Notes the variables that expressions evaluate.
fn note_all(things: &mut Vec<Thing>, frame: &Frame<'_>, all: &[Expr]) -> Result<(), AllocError>
    requires { AreFit (ReadsAll (fixed_of frame.now).slots all.now) }
    ensures { OnOk result (Notes things.old.items things.new.items
        (ReadsAll (fixed_of frame.now).slots all.now)) }
{
    let mut left = all;
    'exprs: while let Some((e, others)) = left.split_first() {
        note_expr(things, frame, *e)?;
        left = others;
    }
    Ok(())
}

/// Notes the variables in the slots of a room.
pub(crate) fn note_room(things: &mut Vec<Thing>, room: Room) -> Result<(), AllocError>
    requires { AreFit (IsInRoom (room_of room)) }
    ensures { OnOk result (Notes things.old.items things.new.items (IsInRoom (room_of room))) }
{
    for i in 0..room.count {
        note_spot(things, room.spot(i))?;
    }
    Ok(())
}

/// Notes what the event of a command reads.
pub(crate) fn note_reads(
    things: &mut Vec<Thing>,
    store: &Store,
    frame: &Frame<'_>,
    command: &Command,
) -> Result<(), AllocError>
    requires { AreFit (CommandReads (fixed_of frame.now).slots (store_of store.now)
        (command_of command.now)) }
    ensures { OnOk result (Notes things.old.items things.new.items
        (CommandReads (fixed_of frame.now).slots (store_of store.now) (command_of command.now))) }
{
    match command {
        Command::Assign(_, _, e) => note_expr(things, frame, *e),
        Command::LookUp(_, _, e, _) => note_look_up(things, store, frame, *e),
        Command::Mutate(_, e, _, v) => note_two(things, frame, *e, *v),
        Command::New(_, _) => Ok(()),
        Command::Dispose(_, e) => note_expr(things, frame, *e),
        Command::If(_, test, _, _) => note_test(things, frame, test),
        Command::While(_, test, _, _) => note_test(things, frame, test),
        Command::Call(_, call) => note_all(things, frame, &call.values),
        Command::Fork(_, one, two) => note_both(things, frame, &one.values, &two.values),
        Command::With(_, _, test, _) => note_test(things, frame, test),
    }
}

/// Notes the variable that an expression evaluates, and the cell at its value.
fn note_look_up(
    things: &mut Vec<Thing>,
    store: &Store,
    frame: &Frame<'_>,
    e: Expr,
) -> Result<(), AllocError>
    requires { AreFit (ReadsExpr (fixed_of frame.now).slots e) }
    ensures { OnOk result (Notes things.old.items things.new.items
        (λ t. ReadsExpr (fixed_of frame.now).slots e t
        ⊎ IsCellAt (evaluate (fixed_of frame.now).slots (store_of store.now) e) t)) }
{
    note_expr(things, frame, e)?;
    note_cell(things, evaluate(store, frame, e))
}

/// Notes the variables that the expressions of two lists evaluate.
fn note_both(
    things: &mut Vec<Thing>,
    frame: &Frame<'_>,
    one: &[Expr],
    two: &[Expr],
) -> Result<(), AllocError>
    requires first { AreFit (ReadsAll (fixed_of frame.now).slots one.now) }
    requires second { AreFit (ReadsAll (fixed_of frame.now).slots two.now) }
    ensures { OnOk result (Notes things.old.items things.new.items
        (λ t. ReadsAll (fixed_of frame.now).slots one.now t
        ⊎ ReadsAll (fixed_of frame.now).slots two.now t)) }
{
    note_all(things, frame, one)?;
    note_all(things, frame, two)
}

/// Notes what the event of a command writes.
pub(crate) fn note_writes(
    things: &mut Vec<Thing>,
    store: &Store,
    frame: &Frame<'_>,
    command: &Command,
) -> Result<(), AllocError>
    requires { AreFit (CommandWrites (fixed_of frame.now).slots (store_of store.now)
        (command_of command.now)) }
    ensures { OnOk result (Notes things.old.items things.new.items
        (CommandWrites (fixed_of frame.now).slots (store_of store.now) (command_of command.now))) }
{
    match command {
        Command::Assign(_, x, _) => note_variable(things, frame, x.var),
        Command::LookUp(_, x, _, _) => note_variable(things, frame, x.var),
        Command::Mutate(_, e, _, _) => note_cell(things, evaluate(store, frame, *e)),
        Command::New(_, x) => note_variable(things, frame, x.var),
        Command::Dispose(_, e) => note_cell(things, evaluate(store, frame, *e)),
        Command::If(_, _, _, _) => Ok(()),
        Command::While(_, _, _, _) => Ok(()),
        Command::Call(_, _) => Ok(()),
        Command::Fork(_, _, _) => Ok(()),
        Command::With(_, _, _, _) => Ok(()),
    }
}
