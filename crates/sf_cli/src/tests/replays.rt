//! Schedules of a file's procedure, and what is said of them, worked out by hand. A row has a file,
//! the name of an entry, the texts of a state and of a schedule, the line that `replay` says, and its
//! status.

use super::{Host, are_said, says};
use sf_io::MemShelf;
use std::test::Fail;

/// Two that write, beside each other.
const RC: &str = "w(x) [] { x->tl = nil; }
m(x) [x|->] { w(x) || w(x); } [x|->]";

/// Three tasks at one cell, of which the last two begin later; two that read it; one that reads and
/// one that writes it.
const MANY: &str = "w(x) [] { x->tl = nil; }
r(x) [] { local t; t = x->tl; }
p(x) [] { w(x) || w(x); }
m(x) [x|->] { w(x) || p(x); }
n(x) [x|->] { p(x) || w(x); }
s(x) [x|->] { r(x) || r(x); }
t(x) [x|->] { r(x) || w(x); }
u(x) [x|->] { w(x) || r(x); }
d(x) [x|->] { r(x) || free(x); }
free(x) [] { dispose(x); }";

/// A cell that is disposed of twice, a look-up of none, and one after a choice.
const GONE: &str = "twice(x) [x|->] { dispose(x); dispose(x); }
get(x) [] { local t; t = x->tl; }
late(x, y) [] { if (x == y) { y = nil; } else { x->tl = y; } }
beside(x) [x|->] { get(nil) || get(x); }";

/// Two cells that are made.
const MADE: &str = "f() [] { local s, t; s = new(); t = new(); s->tl = t; t->tl = nil; }
g() [] { local s; s = new(); s = s->tl; s->tl = nil; }";

/// A region that is held, and one whose condition may be false.
const HELD: &str = "resource q (v) []
one() [] { with q when (v == nil) { v = nil; } }
two() [] { one() || one(); }";

/// A schedule, of which lines are skipped, with blanks, a comment and returns.
const SKIPPED: &str = "finished
x = @1
@1 tl=nil
 schedule\t\r
# the fork, and then nothing

 0\t2 \r
0.1 2
";

/// `replay` says what is in the row of its file, entry, state and schedule.
fn is_replayed(rt: &impl Host, row: (&str, &str, &str, &str, &str, u8)) -> Result<(), Fail> {
    let alloc = rt.alloc();
    let (file, entry, state, schedule, answer, status) = row;
    let mut shelf = MemShelf::new(alloc);
    shelf.add("p.sf", file.as_bytes())?;
    shelf.add("state", state.as_bytes())?;
    shelf.add("schedule", schedule.as_bytes())?;
    let words = ["replay", "p.sf", entry, "state", "schedule"];
    let line = format!(in alloc; "{answer}\n")?;
    says(rt, &words, &mut shelf, (line.as_str(), status))
}

/// `replay` says what is in each of the rows.
pub fn are_replayed(
    rt: &impl Host,
    rows: &[(&str, &str, &str, &str, &str, u8)],
) -> Result<(), Fail> {
    for row in rows {
        is_replayed(rt, *row)?;
    }
    Ok(())
}

/// What is bad first: tasks that race, and cells that are absent.
const BAD_STEPS: [(&str, &str, &str, &str, &str, u8); 24] = [
    // A race, before which nothing is bad, and an event that is none
    (
        RC,
        "m",
        "x = @1\n@1",
        "0 2",
        "step 1: tasks 0.1 0.2 race on @1",
        10,
    ),
    (RC, "m", "x = @1\n@1", "", "no such step", 0),
    (
        RC,
        "m",
        "x = @1\n@1",
        "0.1 2",
        "schedule refused: 82 NotAnEvent line 1 NoTask",
        11,
    ),
    (RC, "w", "x = nil", "", "step 0: task 0 absent nil", 10),
    // What comes after something bad doesn't matter
    (
        RC,
        "m",
        "x = @1\n@1",
        "0 2\n0.1 2\n0 2",
        "step 1: tasks 0.1 0.2 race on @1",
        10,
    ),
    (RC, "w", "x = nil", "0.1 5", "step 0: task 0 absent nil", 10),
    // Values at which there is no cell
    (RC, "w", "x = -7", "", "step 0: task 0 absent -7", 10),
    (RC, "w", "x = @3", "", "step 0: task 0 absent @3", 10),
    (GONE, "get", "x = @12", "", "step 0: task 0 absent @12", 10),
    // A cell that is gone, and one that is looked for only after a choice
    (GONE, "twice", "x = @1\n@1", "", "no such step", 0),
    (
        GONE,
        "twice",
        "x = @1\n@1",
        "0 1",
        "step 1: task 0 absent @1",
        10,
    ),
    (
        GONE,
        "twice",
        "x = @1\n@1",
        "0 1\n0 2",
        "step 1: task 0 absent @1",
        10,
    ),
    (
        GONE,
        "late",
        "x = 1\ny = 1",
        "0 9\n0 8\n0 7",
        "no such step",
        0,
    ),
    (GONE, "late", "x = 1\ny = 2", "0 9", "no such step", 0),
    (
        GONE,
        "late",
        "x = 1\ny = 2",
        "0 9\n0 8",
        "step 2: task 0 absent 1",
        10,
    ),
    // The first task at an absent cell
    (
        GONE,
        "beside",
        "x = @1\n@1",
        "0 2",
        "step 1: task 0.1 absent nil",
        10,
    ),
    // The first pair of tasks that conflict
    (MANY, "m", "x = @1\n@1", "0 2", "no such step", 0),
    (
        MANY,
        "m",
        "x = @1\n@1",
        "0 2\n0.2 3",
        "step 2: tasks 0.1 0.2.1 race on @1",
        10,
    ),
    (
        MANY,
        "n",
        "x = @1\n@1",
        "0 2\n0.1 3",
        "step 2: tasks 0.1.1 0.1.2 race on @1",
        10,
    ),
    (
        MANY,
        "m",
        "x = @1\n@1",
        "0 2\n0.1 4\n0.2 3",
        "step 3: tasks 0.2.1 0.2.2 race on @1",
        10,
    ),
    // Reading beside reading, beside writing, and beside disposing
    (
        MANY,
        "s",
        "x = @1\n@1",
        "0 2\n0.1 3\n0.2 4\n0.2 5\n0.1 6\n0 7",
        "no such step",
        0,
    ),
    (
        MANY,
        "t",
        "x = @1\n@1",
        "0 2",
        "step 1: tasks 0.1 0.2 race on @1",
        10,
    ),
    (
        MANY,
        "u",
        "x = @1\n@1",
        "0 2",
        "step 1: tasks 0.1 0.2 race on @1",
        10,
    ),
    (
        MANY,
        "d",
        "x = @1\n@1",
        "0 2",
        "step 1: tasks 0.1 0.2 race on @1",
        10,
    ),
];

#[test]
fn replays_find_what_is_bad_first(rt: HostRuntime) -> Result<(), Fail> {
    are_replayed(&rt, &BAD_STEPS)
}

/// What is an event, and what is none.
const EVENTS: [(&str, &str, &str, &str, &str, u8); 15] = [
    // A parent waits for its children
    (
        MANY,
        "s",
        "x = @1\n@1",
        "0 2\n0 3",
        "schedule refused: 82 NotAnEvent line 2 NoTask",
        11,
    ),
    // Numbers that were used, a task that has ended, one that isn't there
    (
        MANY,
        "s",
        "x = @1\n@1",
        "0 2\n0.1 2",
        "schedule refused: 82 NotAnEvent line 2 Stale",
        11,
    ),
    (
        RC,
        "w",
        "x = @1\n@1",
        "",
        "start refused: 75 LeftOver @1",
        5,
    ),
    (
        "f() { }",
        "f",
        "",
        "0 1",
        "schedule refused: 82 NotAnEvent line 1 NoTask",
        11,
    ),
    (
        MANY,
        "s",
        "x = @1\n@1",
        "0 2\n\n# the left one\n0.1.1 3",
        "schedule refused: 82 NotAnEvent line 4 NoTask",
        11,
    ),
    // Where the cells of `new` are, and what is in them
    (MADE, "f", "", "0 1\n0 2\n0 3\n0 4", "no such step", 0),
    (MADE, "f", "", "0 1 @7\n0 2 @8\n0 3\n0 4", "no such step", 0),
    (
        MADE,
        "f",
        "",
        "0 1\n0 2 @1",
        "schedule refused: 82 NotAnEvent line 2 Stale",
        11,
    ),
    (
        MADE,
        "f",
        "",
        "0 1 @2\n0 2",
        "schedule refused: 82 NotAnEvent line 2 Stale",
        11,
    ),
    (MADE, "g", "", "0 1\n0 2", "step 2: task 0 absent nil", 10),
    (MADE, "g", "", "0 1 @4 tl=@4\n0 2\n0 3", "no such step", 0),
    (
        MADE,
        "g",
        "",
        "0 1 @4 l=@4 tl=-3\n0 2",
        "step 2: task 0 absent -3",
        10,
    ),
    // A region that is held, or whose condition is false
    (
        HELD,
        "two",
        "q.v = nil",
        "0 1\n0.1 2\n0.2 3",
        "schedule refused: 82 NotAnEvent line 3 Waiting",
        11,
    ),
    (
        HELD,
        "one",
        "q.v = 1",
        "0 2",
        "schedule refused: 82 NotAnEvent line 1 Waiting",
        11,
    ),
    (
        HELD,
        "two",
        "q.v = nil",
        "0 1\n0.1 2\n0.1 3\n0.1 4\n0.2 5\n0.2 6\n0.2 7\n0.2 8\n0.1 9\n0 10",
        "no such step",
        0,
    ),
];

#[test]
fn replays_end_at_what_is_no_event(rt: HostRuntime) -> Result<(), Fail> {
    are_replayed(&rt, &EVENTS)
}

/// How the lines of a schedule are read.
const LINES: [(&str, &str, &str, &str, &str, u8); 13] = [
    // Lines that are skipped, which count
    (
        RC,
        "m",
        "x = @1\n@1",
        SKIPPED,
        "step 1: tasks 0.1 0.2 race on @1",
        10,
    ),
    (
        RC,
        "m",
        "x = @1\n@1",
        "any\nschedule\n\n0.1 1",
        "schedule refused: 82 NotAnEvent line 4 NoTask",
        11,
    ),
    (
        RC,
        "m",
        "x = @1\n@1",
        "schedule\nschedule\n0 2",
        "schedule refused: 80 BadLine line 2",
        11,
    ),
    // Lines of no form
    (
        RC,
        "m",
        "x = @1\n@1",
        "0",
        "schedule refused: 80 BadLine line 1",
        11,
    ),
    (
        RC,
        "m",
        "x = @1\n@1",
        "0 0",
        "schedule refused: 80 BadLine line 1",
        11,
    ),
    (
        RC,
        "m",
        "x = @1\n@1",
        "0 2\n0.3 1",
        "schedule refused: 80 BadLine line 2",
        11,
    ),
    (
        RC,
        "m",
        "x = @1\n@1",
        "0 2\n0 9223372036854775808",
        "schedule refused: 80 BadLine line 2",
        11,
    ),
    (
        RC,
        "m",
        "x = @1\n@1",
        "0 2 @1 tl=nil tl=nil",
        "schedule refused: 80 BadLine line 1",
        11,
    ),
    (
        RC,
        "m",
        "x = @1\n@1",
        "0 2 tl=nil",
        "schedule refused: 80 BadLine line 1",
        11,
    ),
    // What is refused before the schedule
    (
        RC,
        "none",
        "x = @1\n@1",
        "0",
        "start refused: 73 Unknown none",
        5,
    ),
    (RC, "m", "x = @1", "0", "start refused: 74 Unmet pre", 5),
    (RC, "m", "y = @1", "0", "start refused: 73 Unknown y", 5),
    (
        "f() { @ }",
        "f",
        "",
        "0",
        "file refused: 1 BadByte at 1:7",
        3,
    ),
];

/// Words over the files of `files`, and what is said of them.
const REPLAYED_FILES: [(&str, &str, &str, u8); 5] = [
    (
        "replay two.sf two given given",
        "x = nil",
        "schedule refused: 80 BadLine line 1\n",
        11,
    ),
    (
        "replay two.sf two given none",
        "x = nil",
        "read fault: none\n",
        7,
    ),
    ("replay two.sf two none none", "", "read fault: none\n", 7),
    (
        "replay none.sf two given none",
        "",
        "read fault: none.sf\n",
        7,
    ),
    (
        "replay free.sf f none none",
        "",
        "start refused: 76 FreeEntry f\n",
        5,
    ),
];

#[test]
fn schedules_are_read_line_by_line(rt: HostRuntime) -> Result<(), Fail> {
    are_replayed(&rt, &LINES)?;
    are_said(&rt, &REPLAYED_FILES)
}
