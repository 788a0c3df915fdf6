//! Runs whose events are told. Which units they take is worked out by hand; where tasks meet at no
//! region, none of it depends on which of them goes first.

use super::{Host, are_said, says, shelf_with};
use crate::top::smallfoot;
use sf_io::{MemSink, OpenGate};
use std::test::Fail;

/// What a run ends with, and its events.
const JOURNALS: [(&str, &str, &str, u8); 6] = [
    (
        "journal mm.sf alloc given",
        "x = nil\nmm.f = nil\n",
        "finished\nx = @3\nmm.f = nil\n@3 hd=nil tl=nil l=nil r=nil\nschedule\n0 1\n0 2\n0 3\n0 4\n",
        0,
    ),
    (
        "journal tree.sf disp_tree given --steps 12",
        "p = @1\n@1\n",
        "finished\np = @1\nschedule\n0 2\n0 3\n0 4\n0 5\n0.1 6\n0.2 10\n0.1 7\n0.2 11\n0 8\n0 9\n",
        0,
    ),
    (
        "journal --steps=2 two.sf --waits 1 -- two given",
        "x = nil",
        "finished\nx = 1\nschedule\n0 1\n0 2\n",
        0,
    ),
    (
        "journal mi.sf alloc given",
        "x = nil\n",
        "finished\nx = @5\nmm.f = nil\n@5 hd=nil tl=nil l=nil r=nil\n\
         schedule\n0 1\n0 2\n0 3\n0 4\n0 5\n0 6\n",
        0,
    ),
    (
        "journal fork.sf e given --steps 6",
        "x = nil\n",
        "finished\nx = 1\nr.v = nil\nschedule\n0 1\n0.1 2\n0.2 4\n0 3\n0 5\n0 6\n",
        0,
    ),
    (
        "journal fork.sf e given",
        "x = nil\nr.v = 4\n",
        "finished\nx = 1\nr.v = 4\nschedule\n0 1\n",
        0,
    ),
];

/// What is said where there is no end: as of a run.
const UNFINISHED: [(&str, &str, &str, u8); 9] = [
    (
        "journal fork.sf e given --steps 5",
        "x = nil\n",
        "spent steps: task 0 used 5\n",
        6,
    ),
    (
        "journal stay.sf stay given --waits 5",
        "r.v = nil\n",
        "spent waits: task 0 resource r tries 5\n",
        6,
    ),
    (
        "journal two.sf two given",
        "x = nil\n@7\n",
        "start refused: 75 LeftOver @7\n",
        5,
    ),
    (
        "journal mi.sf init none",
        "",
        "start refused: 76 FreeEntry init\n",
        5,
    ),
    (
        "journal leak.sf disp_tree none",
        "",
        super::files::leak::FAILURE,
        1,
    ),
    (
        "journal bad.sf f none",
        "",
        "file refused: 1 BadByte at 1:7\n",
        3,
    ),
    ("journal two.sf two none", "", "read fault: none\n", 7),
    ("journal none.sf two given", "", "read fault: none.sf\n", 7),
    (
        "journal two.sf two given --steps=0",
        "x = nil",
        crate::usage::USAGE,
        2,
    ),
];

/// Runs whose tasks meet at a region or make cells side by side: a file, an entry and a state.
const RETOLD: [(&str, &str, &str); 6] = [
    ("buf.sf", "main", "buf.c = nil\nbuf.full = 0\n"),
    ("tree.sf", "disp_tree", "p = @1\n@1 l=@2 r=@3\n@2\n@3\n"),
    ("copy.sf", "copy", "q = 7\np = @1\n@1 l=@2\n@2\n"),
    ("fork.sf", "e", "x = nil\n"),
    ("mi.sf", "alloc", "x = nil\n"),
    ("rev.sf", "reverse", "o = nil\ni = @1\n@1 tl=@2\n@2\n"),
];

#[test]
fn runs_are_told_with_their_events(rt: HostRuntime) -> Result<(), Fail> {
    are_said(&rt, &JOURNALS)?;
    are_said(&rt, &UNFINISHED)
}

/// What `journal` says of such a run is a schedule for `replay`, of which every event is one.
fn is_retold(rt: &impl Host, run: (&str, &str, &str)) -> Result<(), Fail> {
    let alloc = rt.alloc();
    let (file, entry, state) = run;
    let mut shelf = shelf_with(alloc, state)?;
    let mut sink = MemSink::new(alloc, usize::MAX);
    let words = ["journal", file, entry, "given"];
    let status = smallfoot(rt, alloc, &words, &mut shelf, &mut sink, &OpenGate);
    assert_eq!(rt; status, 0);
    shelf.add("told", sink.bytes())?;
    let words = ["replay", file, entry, "given", "told"];
    says(rt, &words, &mut shelf, ("no such step\n", 0))
}

#[test]
fn what_is_told_is_replayed(rt: HostRuntime) -> Result<(), Fail> {
    for run in RETOLD {
        is_retold(&rt, run)?;
    }
    Ok(())
}
