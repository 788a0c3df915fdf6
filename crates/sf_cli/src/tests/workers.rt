//! Workers that search side by side.

use super::compared::{FAILED, PROVED};
use super::files::mm;
use super::{says, says_at, shelf_with, status_of};
use sf_base::ProcId;
use sf_io::{MemShelf, Point, TurnGate};
use std::alloc::Global;
use std::test::Fail;

/// The points at which that worker claims a procedure of `mm.sf`, which has two.
fn points_of(worker: u32) -> [Point; 2] {
    [
        Point::Worker(worker, ProcId(0)),
        Point::Worker(worker, ProcId(1)),
    ]
}

/// A gate that holds the first worker until the second one has claimed a procedure, or a million
/// turns are used up.
fn gate_of_two(alloc: Global) -> Result<TurnGate, Fail> {
    let mut gate = TurnGate::new(alloc, 1, 1_000_000);
    for point in points_of(0) {
        gate.hold_at(&point)?;
    }
    for point in points_of(1) {
        gate.wait_for(&point)?;
    }
    Ok(gate)
}

#[test]
fn two_workers_search_side_by_side(rt: HostRuntime) -> Result<(), Fail> {
    let alloc = rt.alloc();
    let gate = gate_of_two(alloc)?;
    let mut shelf = shelf_with(alloc, "")?;
    let words = ["verify", "mm.sf", "--workers", "2"];
    says_at(&rt, &words, &mut shelf, (mm::PROOF, 0), &gate)?;
    let [one, other] = points_of(1);
    assert!(rt; gate.passes(&one) > 0 || gate.passes(&other) > 0);
    assert!(rt; gate.turns_left() > 0);
    Ok(())
}

#[test]
fn every_number_of_workers_has_the_answer_of_one(rt: HostRuntime) -> Result<(), Fail> {
    let alloc = rt.alloc();
    for workers in ["1", "2", "4", "64"] {
        let words = ["verify", "p.sf", "--workers", workers];
        for (text, answer) in PROVED.iter().chain(&FAILED) {
            let mut shelf = MemShelf::new(alloc);
            shelf.add("p.sf", text.as_bytes())?;
            says(&rt, &words, &mut shelf, (answer, status_of(answer)))?;
        }
    }
    Ok(())
}
