//! Gates: the one that holds nobody up, and the one that holds callers for a while.

use sf_base::{ProcId, TaskPath};
use sf_io::{Gate, OpenGate, Point, TurnGate};
use std::test::Fail;
use std::thread::join;

/// Where callers are held.
const HELD: Point = Point::Worker(0, ProcId(0));
/// What is waited for.
const AWAITED: Point = Point::Worker(1, ProcId(1));

#[test]
fn an_open_gate_lets_a_point_pass(_rt: HostRuntime) {
    OpenGate.pass(&Point::Start(TaskPath::entry()));
}

#[test]
fn a_turn_gate_holds_a_caller_until_others_have_passed(rt: HostRuntime) -> Result<(), Fail> {
    let mut gate = TurnGate::new(rt.alloc(), 2, 1_000_000);
    gate.hold_at(&HELD)?;
    gate.wait_for(&AWAITED)?;
    let shared = &gate;
    join(
        &rt,
        || shared.pass(&HELD),
        || {
            shared.pass(&AWAITED);
            shared.pass(&AWAITED);
        },
    );
    assert_eq!(rt; gate.passes(&HELD), 1);
    assert_eq!(rt; gate.passes(&AWAITED), 2);
    assert!(rt; gate.turns_left() > 0);
    Ok(())
}

#[test]
fn a_turn_gate_lets_a_caller_go_once_its_turns_are_used_up(rt: HostRuntime) -> Result<(), Fail> {
    let mut gate = TurnGate::new(rt.alloc(), 2, 100);
    gate.hold_at(&HELD)?;
    gate.wait_for(&AWAITED)?;
    gate.pass(&AWAITED);
    assert_eq!(rt; gate.turns_left(), 100);
    gate.pass(&HELD);
    assert_eq!(rt; gate.turns_left(), 0);
    gate.pass(&HELD);
    assert_eq!(rt; gate.passes(&HELD), 2);
    assert_eq!(rt; gate.passes(&AWAITED), 1);
    Ok(())
}

#[test]
fn a_turn_gate_counts_the_points_that_it_was_told_of(rt: HostRuntime) -> Result<(), Fail> {
    let mut gate = TurnGate::new(rt.alloc(), 1, 100);
    gate.count_at(&AWAITED)?;
    gate.pass(&HELD);
    gate.pass(&AWAITED);
    assert_eq!(rt; gate.passes(&HELD), 0);
    assert_eq!(rt; gate.passes(&AWAITED), 1);
    assert_eq!(rt; gate.turns_left(), 100);
    Ok(())
}
