//! Doubly linked lists: programs, proofs, runs, schedules and witnesses, worked out by hand.

mod programs;
mod proofs;
mod runs;
mod witnesses;

use super::proofs::are_rechecked;
use super::replays::are_replayed;
use super::{are_answered, are_said};
use programs::{FAILED_DOUBLES, PROVED_DOUBLES};
use proofs::{NO_PROOFS_OF_DOUBLES, PROOFS_OF_DOUBLES};
use runs::{REPLAYS_OF_DOUBLES, RUNS_OF_DOUBLES};
use std::test::Fail;
use witnesses::WITNESSES_OF_DOUBLES;

#[test]
fn doubly_linked_lists_have_their_answers(rt: HostRuntime) -> Result<(), Fail> {
    are_answered(&rt, &PROVED_DOUBLES)?;
    are_answered(&rt, &FAILED_DOUBLES)?;
    are_said(&rt, &WITNESSES_OF_DOUBLES)?;
    are_said(&rt, &RUNS_OF_DOUBLES)?;
    are_replayed(&rt, &REPLAYS_OF_DOUBLES)
}

#[test]
fn proofs_of_doubly_linked_lists_have_their_answers(rt: HostRuntime) -> Result<(), Fail> {
    are_rechecked(&rt, &PROOFS_OF_DOUBLES)?;
    are_rechecked(&rt, &NO_PROOFS_OF_DOUBLES)
}
