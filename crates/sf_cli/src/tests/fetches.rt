//! What a command asks the shelf for: each file once, in the order of its work, and of each one byte
//! more than it may have, so that a file that is too long is seen to be.

use super::shelf_with;
use crate::top::smallfoot;
use sf_io::{MemSink, OpenGate};
use std::test::Fail;

/// The most bytes that are asked for of a program's file, of a proof's, of a state's and of a
/// schedule's.
const OF_FILE: usize = 1_048_577;

const OF_PROOF: usize = 33_554_433;

const OF_STATE: usize = 67_108_865;

const OF_SCHEDULE: usize = 67_108_865;

/// Words, and what they ask for.
const REQUESTS: [(&[&str], &[(&str, usize)]); 31] = [
    (&[], &[]),
    (&["verify"], &[]),
    (&["demo", "2"], &[]),
    (&["verify", "set.sf"], &[("set.sf", OF_FILE)]),
    (&["verify", "mm.sf", "--workers=4"], &[("mm.sf", OF_FILE)]),
    (&["verify", "none.sf"], &[("none.sf", OF_FILE)]),
    (
        &["recheck", "set.sf", "given"],
        &[("set.sf", OF_FILE), ("given", OF_PROOF)],
    ),
    (
        &["recheck", "set.sf", "none"],
        &[("set.sf", OF_FILE), ("none", OF_PROOF)],
    ),
    (&["recheck", "bad.sf", "given"], &[("bad.sf", OF_FILE)]),
    (&["recheck", "none.sf", "given"], &[("none.sf", OF_FILE)]),
    (
        &["run", "two.sf", "two", "given"],
        &[("two.sf", OF_FILE), ("given", OF_STATE)],
    ),
    (
        &["run", "two.sf", "two", "none"],
        &[("two.sf", OF_FILE), ("none", OF_STATE)],
    ),
    (
        &["run", "tree.sf", "disp_tree", "given"],
        &[("tree.sf", OF_FILE), ("given", OF_STATE)],
    ),
    (&["run", "none.sf", "two", "given"], &[("none.sf", OF_FILE)]),
    (&["run", "bad.sf", "f", "given"], &[("bad.sf", OF_FILE)]),
    (
        &["run", "leak.sf", "disp_tree", "given"],
        &[("leak.sf", OF_FILE)],
    ),
    (&["run", "two.sf", "none", "given"], &[("two.sf", OF_FILE)]),
    (&["run", "free.sf", "f", "given"], &[("free.sf", OF_FILE)]),
    (&["order", "mm.sf"], &[("mm.sf", OF_FILE)]),
    (&["order", "none.sf"], &[("none.sf", OF_FILE)]),
    (
        &["journal", "two.sf", "two", "given"],
        &[("two.sf", OF_FILE), ("given", OF_STATE)],
    ),
    (
        &["journal", "two.sf", "two", "none"],
        &[("two.sf", OF_FILE), ("none", OF_STATE)],
    ),
    (
        &["journal", "leak.sf", "disp_tree", "given"],
        &[("leak.sf", OF_FILE)],
    ),
    (
        &["journal", "two.sf", "none", "given"],
        &[("two.sf", OF_FILE)],
    ),
    (
        &["replay", "two.sf", "two", "given", "none"],
        &[
            ("two.sf", OF_FILE),
            ("given", OF_STATE),
            ("none", OF_SCHEDULE),
        ],
    ),
    (
        &["replay", "two.sf", "two", "none", "given"],
        &[("two.sf", OF_FILE), ("none", OF_STATE)],
    ),
    (
        &["replay", "set.sf", "set", "given", "given"],
        &[("set.sf", OF_FILE), ("given", OF_STATE)],
    ),
    (
        &["replay", "leak.sf", "disp_tree", "given", "given"],
        &[("leak.sf", OF_FILE), ("given", OF_STATE)],
    ),
    (
        &["replay", "two.sf", "none", "given", "given"],
        &[("two.sf", OF_FILE)],
    ),
    (
        &["replay", "free.sf", "f", "given", "given"],
        &[("free.sf", OF_FILE)],
    ),
    (
        &["replay", "bad.sf", "f", "given", "given"],
        &[("bad.sf", OF_FILE)],
    ),
];

#[test]
fn each_file_is_fetched_once_when_it_is_due(rt: HostRuntime) -> Result<(), Fail> {
    let alloc = rt.alloc();
    for (words, files) in REQUESTS {
        let mut shelf = shelf_with(alloc, "x = nil")?;
        let mut sink = MemSink::new(alloc, usize::MAX);
        smallfoot(&rt, alloc, words, &mut shelf, &mut sink, &OpenGate);
        assert_eq!(rt; shelf.requests().len(), files.len());
        for (request, (name, most)) in shelf.requests().iter().zip(files) {
            assert_eq!(rt; request.name.as_bytes(), name.as_bytes());
            assert_eq!(rt; request.most, *most);
        }
    }
    Ok(())
}
