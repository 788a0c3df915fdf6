//! Runs: files, words, states and what is said, worked out by hand.

use super::files::{leak, mi};
use super::{are_no_commands, are_said};
use std::test::Fail;

/// What a run ends with, or why it stops, why there is no start, and what comes before the state is
/// fetched.
const OUTCOMES: [(&str, &str, &str, u8); 46] = [
    // What a run ends with, or why it stops
    (
        "run stay.sf stay given --waits 5",
        "r.v = nil\n",
        "spent waits: task 0 resource r tries 5\n",
        6,
    ),
    (
        "run stay.sf stay given --steps=1",
        "r.v = @3",
        "spent waits: task 0 resource r tries 1000000\n",
        6,
    ),
    (
        "run two.sf two given --steps 1",
        "x = nil",
        "spent steps: task 0 used 1\n",
        6,
    ),
    (
        "run two.sf two given --steps=2",
        "x = nil",
        "finished\nx = 1\n",
        0,
    ),
    (
        "run --steps=2 two.sf --waits 1 -- two given",
        "finished\n# any value\n\tx=-3\r\n",
        "finished\nx = 1\n",
        0,
    ),
    (
        "run rev.sf reverse given --steps 13",
        "o = nil\ni = @1\n@1 tl=@2\n@2\n",
        "finished\no = @2\ni = @1\n@1 hd=nil tl=nil l=nil r=nil\n@2 hd=nil tl=@1 l=nil r=nil\n",
        0,
    ),
    (
        "run rev.sf reverse given --steps 12",
        "o = nil\ni = @1\n@1 tl=@2\n@2\n",
        "spent steps: task 0 used 12\n",
        6,
    ),
    (
        "run rev.sf reverse given",
        "@7 hd=5 tl=@3\n@3 hd=-6\ni = @7\no = 4\n",
        "finished\no = @3\ni = @7\n@3 hd=-6 tl=@7 l=nil r=nil\n@7 hd=5 tl=nil l=nil r=nil\n",
        0,
    ),
    (
        "run mm.sf alloc given",
        "x = nil\nmm.f = nil\n",
        "finished\nx = @3\nmm.f = nil\n@3 hd=nil tl=nil l=nil r=nil\n",
        0,
    ),
    (
        "run mm.sf alloc given",
        "x = 1\nmm.f = @4\n@4 tl=@2\n@2 hd=9\n",
        "finished\nx = @4\nmm.f = @2\n@2 hd=9 tl=nil l=nil r=nil\n@4 hd=nil tl=@2 l=nil r=nil\n",
        0,
    ),
    (
        "run mm.sf dealloc given",
        "mm.f = @2\n@2\ny = @1\n@1 tl=8 r=NULL\n",
        "finished\ny = @1\nmm.f = @1\n@1 hd=nil tl=@2 l=nil r=nil\n@2 hd=nil tl=nil l=nil r=nil\n",
        0,
    ),
    (
        "run mi.sf alloc given",
        "x = nil\n",
        "finished\nx = @5\nmm.f = nil\n@5 hd=nil tl=nil l=nil r=nil\n",
        0,
    ),
    (
        "run mi.sf alloc given --steps 1",
        "x = nil\n",
        "spent steps: task 0 used 1\n",
        6,
    ),
    (
        "run mi.sf alloc given",
        "x = nil\nmm.f = nil\n",
        "finished\nx = @3\nmm.f = nil\n@3 hd=nil tl=nil l=nil r=nil\n",
        0,
    ),
    (
        "run fork.sf e given",
        "x = nil\nr.v = 4\n",
        "finished\nx = 1\nr.v = 4\n",
        0,
    ),
    (
        "run calls.sf both given",
        "a = nil\nb = @5\n@5 val=1\n",
        "finished\na = @5\nb = @5\n@5 val=1 next=@7\n@7 val=7 next=nil\n",
        0,
    ),
    (
        "run calls.sf again given --steps 8",
        "a = nil\nb = @5\n@5 val=1\n",
        "finished\na = @5\nb = @5\n@5 val=1 next=@8\n@8 val=7 next=nil\n",
        0,
    ),
    (
        "run calls.sf again given --steps 7",
        "a = nil\nb = @5\n@5 val=1\n",
        "spent steps: task 0 used 7\n",
        6,
    ),
    // Why there is no start
    (
        "run two.sf two given",
        "x = nil\n@7\n",
        "start refused: 75 LeftOver @7\n",
        5,
    ),
    (
        "run vac.sf v given",
        "x = @1\n@1\n",
        "start refused: 74 Unmet pre\n",
        5,
    ),
    (
        "run mm.sf alloc given",
        "x = nil\nmm.f = 3\n",
        "start refused: 74 Unmet resource mm\n",
        5,
    ),
    (
        "run two.sf two given",
        "",
        "start refused: 72 Missing x\n",
        5,
    ),
    (
        "run mm.sf alloc given",
        "x = 1\n",
        "start refused: 72 Missing mm.f\n",
        5,
    ),
    (
        "run two.sf two given",
        "x = @0",
        "start refused: 70 BadLine line 1\n",
        5,
    ),
    (
        "run two.sf two given",
        "x = 1\nx = 2",
        "start refused: 71 Twice x\n",
        5,
    ),
    (
        "run two.sf two given",
        "x = 1\n@3\n@3",
        "start refused: 71 Twice @3\n",
        5,
    ),
    (
        "run two.sf two given",
        "y = 1",
        "start refused: 73 Unknown y\n",
        5,
    ),
    (
        "run two.sf two given",
        "@1 to=3",
        "start refused: 73 Unknown to\n",
        5,
    ),
    (
        "run two.sf none given",
        "x = 1",
        "start refused: 73 Unknown none\n",
        5,
    ),
    (
        "run mi.sf init given",
        "x = nil\n",
        "start refused: 76 FreeEntry init\n",
        5,
    ),
    (
        "run mi.sf alloc given",
        "",
        "start refused: 72 Missing x\n",
        5,
    ),
    (
        "run mi.sf alloc given",
        "mm.f = nil\n",
        "start refused: 72 Missing x\n",
        5,
    ),
    (
        "run mi.sf dealloc given",
        "y = @1\n@1\n@2\n",
        "start refused: 75 LeftOver @2\n",
        5,
    ),
    (
        "run mi.sf alloc given",
        "x = nil\nmm.f = 3\n",
        "start refused: 74 Unmet resource mm\n",
        5,
    ),
    (
        "run free.sf f given",
        "x = nil\na.v = nil\n",
        "start refused: 76 FreeEntry f\n",
        5,
    ),
    // What comes before the state is fetched, which isn't there; and that it is due then
    ("run leak.sf disp_tree none", "", leak::FAILURE, 1),
    ("run leak.sf other none", "", leak::FAILURE, 1),
    ("run tree.sf disp_tree none", "", "read fault: none\n", 7),
    (
        "run tree.sf other none",
        "",
        "start refused: 73 Unknown other\n",
        5,
    ),
    (
        "run free.sf f none",
        "",
        "start refused: 76 FreeEntry f\n",
        5,
    ),
    (
        "run mi.sf init none",
        "",
        "start refused: 76 FreeEntry init\n",
        5,
    ),
    ("run mi3.sf init none", "", mi::FAILURE, 1),
    ("run fork.sf e none", "", "read fault: none\n", 7),
    (
        "run bad.sf f none",
        "",
        "file refused: 1 BadByte at 1:7\n",
        3,
    ),
    ("run two.sf two none", "", "read fault: none\n", 7),
    ("run none.sf two none", "", "read fault: none.sf\n", 7),
];

/// Words that are no run.
const NO_RUNS: [&[&str]; 9] = [
    &["run"],
    &["run", "two.sf", "two"],
    &["run", "two.sf", "two", "given", "more"],
    &["run", "two.sf", "two", "-"],
    &["run", "two.sf", "two", "given", "--workers", "1"],
    &["run", "two.sf", "two", "given", "--steps", "0"],
    &[
        "run",
        "two.sf",
        "two",
        "given",
        "--steps",
        "281474976710657",
    ],
    &["run", "two.sf", "two", "given", "--waits", "16777217"],
    &[
        "run", "two.sf", "two", "given", "--waits", "1", "--waits", "1",
    ],
];

#[test]
fn runs_have_their_outcomes(rt: HostRuntime) -> Result<(), Fail> {
    are_said(&rt, &OUTCOMES)
}

#[test]
fn words_that_are_no_run_are_answered_with_the_usage(rt: HostRuntime) -> Result<(), Fail> {
    are_no_commands(&rt, &NO_RUNS)
}
