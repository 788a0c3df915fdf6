//! Runs at their limits: as many events and tries as may be given, and parallel calls inside one
//! another until there are no more units to share.

use super::super::are_said;
use crate::top::smallfoot;
use sf_io::{MemShelf, MemSink, OpenGate};
use std::test::Fail;

/// Runs with the largest numbers.
const LARGEST: [(&str, &str, &str, u8); 3] = [
    (
        "run two.sf two given --steps 281474976710656",
        "x = nil\n",
        "finished\nx = 1\n",
        0,
    ),
    (
        "run two.sf two given --waits 16777216",
        "x = nil\n",
        "finished\nx = 1\n",
        0,
    ),
    (
        "run tree.sf disp_tree given --steps 281474976710656 --waits 16777216",
        "p = @1\n@1 l=@2 r=@3\n@2\n@3\n",
        "finished\np = @1\n",
        0,
    ),
];

/// Procedures that call themselves beside one that does nothing.
const CALLS_ITSELF: &str = "skip() { }
left() { left() || skip(); }
right() { skip() || right(); }";

/// The entry, how often which turn is taken, and what comes after it. Of 2^48 units the fork takes one,
/// and of the others the left child gets half: 2^47 - 1, and so on until the 48th has none. The right
/// child gets 2^47, and so on until the 47th has two, one for its fork and one for its right child.
const HALVED: [(&str, &str, usize, &str); 2] = [("left", ".1", 48, ""), ("right", ".2", 47, ".1")];

#[test]
fn runs_may_have_the_largest_numbers(rt: HostRuntime) -> Result<(), Fail> {
    are_said(&rt, &LARGEST)
}

#[test]
fn forks_halve_the_largest_supply_down_to_nothing(rt: HostRuntime) -> Result<(), Fail> {
    let alloc = rt.alloc();
    for (entry, turn, count, last) in HALVED {
        let mut shelf = MemShelf::new(alloc);
        shelf.add("p.sf", CALLS_ITSELF.as_bytes())?;
        shelf.add("state", b"")?;
        let mut sink = MemSink::new(alloc, usize::MAX);
        let words = ["run", "p.sf", entry, "state", "--steps", "281474976710656"];
        let status = smallfoot(&rt, alloc, &words, &mut shelf, &mut sink, &OpenGate);
        let turns = turn.repeat(alloc, count)?;
        let answer = format!(in alloc; "spent steps: task 0{turns}{last} used 0\n")?;
        assert_eq!(rt; sink.bytes(), answer.as_bytes());
        assert_eq!(rt; status, 6);
    }
    Ok(())
}
