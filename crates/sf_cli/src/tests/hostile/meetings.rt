//! Runs whose tasks meet at resources, and searches by several workers, under each kind of hostile
//! gate. Which answers may come of some order of the steps is worked out by hand.

use super::super::files::{buffer, forking, late, mm, stay, tree};
use super::super::tables::STACK;
use super::super::{Host, joined, says, says_at, shelf_with};
use super::gates::{HostileGate, MANNERS, Manner};
use crate::top::smallfoot;
use sf_base::{ResId, TaskPath, Turn};
use sf_io::{MemShelf, MemSink, Point, TurnGate};
use std::alloc::Global;
use std::test::Fail;

/// How many turns a gate has: so many that others get far meanwhile, and so few that a busy machine
/// comes to their end.
const TURNS: u64 = 2_000;

/// A run whose tasks meet.
#[derive(Clone, Copy, Debug)]
struct Meeting<'a> {
    /// The parts of the program's text.
    file: &'a [&'a str],
    /// The procedure with which it starts.
    entry: &'a str,
    /// The text of its start.
    state: &'a str,
    /// What it may end with.
    ends: &'a [&'a str],
    /// The tasks that may use up their tries, each with the resource at which it may.
    spent: &'a [(&'a str, &'a str)],
}

/// A cell is handed over through a buffer.
const HANDED_OVER: Meeting<'static> = Meeting {
    file: &[buffer::PUT, buffer::GET],
    entry: "main",
    state: "buf.c = nil\nbuf.full = 0\n",
    ends: &["finished\nbuf.c = @1\nbuf.full = 0\n"],
    spent: &[("0.1", "buf"), ("0.2", "buf")],
};

/// Two tasks that enter the same two regions, in opposite order.
const OPPOSITE: Meeting<'static> = Meeting {
    file: &[
        "resource orders (last) [emp]
resource stock (pieces) [emp]
sell() { with orders when (true) { with stock when (true) { pieces = last; } } }
count() { with stock when (true) { with orders when (true) { last = pieces; } } }
main() { sell() || count(); }",
    ],
    entry: "main",
    state: "orders.last = nil\nstock.pieces = 7\n",
    ends: &[
        "finished\norders.last = nil\nstock.pieces = nil\n",
        "finished\norders.last = 7\nstock.pieces = 7\n",
    ],
    spent: &[
        ("0.1", "orders"),
        ("0.1", "stock"),
        ("0.2", "orders"),
        ("0.2", "stock"),
    ],
};

/// Four tasks that each write the same variable.
const FOUR_WRITERS: Meeting<'static> = Meeting {
    file: &[
        "resource r (v) []
set(x) { with r when (true) { v = x; } }
two(x, y) { set(x) || set(y); }
main() { two(1, 2) || two(3, 4); }",
    ],
    entry: "main",
    state: "r.v = nil\n",
    ends: &[
        "finished\nr.v = 1\n",
        "finished\nr.v = 2\n",
        "finished\nr.v = 3\n",
        "finished\nr.v = 4\n",
    ],
    spent: &[
        ("0.1.1", "r"),
        ("0.1.2", "r"),
        ("0.2.1", "r"),
        ("0.2.2", "r"),
    ],
};

/// One task that puts a cell onto a stack, and one that takes it from there.
const STACKED: Meeting<'static> = Meeting {
    file: &[STACK],
    entry: "main",
    state: "value = nil\nstack.top = nil\n",
    ends: &["finished\nvalue = 1\nstack.top = nil\n"],
    spent: &[("0.1", "stack"), ("0.2", "stack")],
};

/// Two tasks that wait for what nobody puts there: the left one's stop is answered.
const NEVER_FILLED: Meeting<'static> = Meeting {
    file: &[buffer::PUT, buffer::GET, buffer::PAIR],
    entry: "pair",
    state: "y = nil\nz = nil\nbuf.c = nil\nbuf.full = 0\n",
    ends: &[],
    spent: &[("0.1", "buf")],
};

/// One task that waits for what is never true.
const NEVER_TRUE: Meeting<'static> = Meeting {
    file: &[stay::FILE],
    entry: "stay",
    state: "r.v = nil\n",
    ends: &[],
    spent: &[("0", "r")],
};

/// Tasks that meet nowhere.
const SUBTREES: Meeting<'static> = Meeting {
    file: &[tree::FILE],
    entry: "disp_tree",
    state: "p = @1\n@1 l=@2 r=@3\n@2 l=@4 r=@5\n@3 l=@6 r=@7\n@4\n@5\n@6\n@7\n",
    ends: &["finished\np = @1\n"],
    spent: &[],
};

/// Tasks that meet nowhere, before the run begins.
const SET_UP: Meeting<'static> = Meeting {
    file: &[forking::FILE],
    entry: "e",
    state: "x = nil\n",
    ends: &["finished\nx = 1\nr.v = nil\n"],
    spent: &[],
};

/// Whether that answer may come of the run, where a task has so many tries.
fn may_come(
    alloc: Global,
    meeting: &Meeting,
    tries: &str,
    answer: (&str, u8),
) -> Result<bool, Fail> {
    let (text, status) = answer;
    if status == 0 {
        return Ok(meeting.ends.contains(&text));
    }
    for (task, resource) in meeting.spent {
        let line = format!(in alloc;
            "spent waits: task {task} resource {resource} tries {tries}\n"
        )?;
        if line.as_str() == text {
            return Ok(status == 6);
        }
    }
    Ok(false)
}

/// Under that gate the run, in which a task has so many tries, has an answer that may come of it.
fn is_run_under(
    rt: &impl Host,
    meeting: &Meeting,
    tries: &str,
    gate: &HostileGate,
) -> Result<(), Fail> {
    let alloc = rt.alloc();
    let mut shelf = MemShelf::new(alloc);
    shelf.add("p.sf", joined(alloc, meeting.file)?.as_bytes())?;
    shelf.add("state", meeting.state.as_bytes())?;
    let mut sink = MemSink::new(alloc, usize::MAX);
    let words = ["run", "p.sf", meeting.entry, "state", "--waits", tries];
    let status = smallfoot(rt, alloc, &words, &mut shelf, &mut sink, gate);
    let text = String::from_utf8_lossy(alloc, sink.bytes())?;
    let answer = (text.as_str(), status);
    assert!(rt; may_come(alloc, meeting, tries, answer)?, "{text}");
    Ok(())
}

/// So it is under each kind of gate, where a task has one try, two, or a thousand; and gates that
/// hold the first caller, or who came last, have held somebody.
fn is_run(rt: &impl Host, meeting: &Meeting) -> Result<(), Fail> {
    for manner in MANNERS {
        for tries in ["1", "2", "1000"] {
            let gate = HostileGate::new(manner, TURNS);
            is_run_under(rt, meeting, tries, &gate)?;
            let always_holds = manner == Manner::First || manner == Manner::Latest;
            assert!(rt; gate.has_held() || !always_holds, "{manner:?}");
        }
    }
    Ok(())
}

#[test]
fn a_cell_is_handed_over_under_each_gate(rt: HostRuntime) -> Result<(), Fail> {
    is_run(&rt, &HANDED_OVER)
}

#[test]
fn opposite_orders_end_or_use_up_tries(rt: HostRuntime) -> Result<(), Fail> {
    is_run(&rt, &OPPOSITE)
}

#[test]
fn one_of_four_writers_is_the_last(rt: HostRuntime) -> Result<(), Fail> {
    is_run(&rt, &FOUR_WRITERS)
}

#[test]
fn what_is_pushed_is_popped_under_each_gate(rt: HostRuntime) -> Result<(), Fail> {
    is_run(&rt, &STACKED)
}

#[test]
fn waits_that_never_end_use_up_their_tries(rt: HostRuntime) -> Result<(), Fail> {
    is_run(&rt, &NEVER_FILLED)?;
    is_run(&rt, &NEVER_TRUE)
}

#[test]
fn gates_change_nothing_where_no_tasks_meet(rt: HostRuntime) -> Result<(), Fail> {
    is_run(&rt, &SUBTREES)?;
    is_run(&rt, &SET_UP)
}

/// Under that gate the run's journal, where the run has ended, is a schedule in which `replay` finds
/// nothing bad.
fn is_replayed_from(rt: &impl Host, meeting: &Meeting, gate: &HostileGate) -> Result<(), Fail> {
    let alloc = rt.alloc();
    let mut shelf = MemShelf::new(alloc);
    shelf.add("p.sf", joined(alloc, meeting.file)?.as_bytes())?;
    shelf.add("state", meeting.state.as_bytes())?;
    let mut sink = MemSink::new(alloc, usize::MAX);
    let words = [
        "journal",
        "p.sf",
        meeting.entry,
        "state",
        "--waits",
        "1000000",
    ];
    let status = smallfoot(rt, alloc, &words, &mut shelf, &mut sink, gate);
    if status == 0 {
        shelf.add("schedule", sink.bytes())?;
        let words = ["replay", "p.sf", meeting.entry, "state", "schedule"];
        says(rt, &words, &mut shelf, ("no such step\n", 0))?;
    } else {
        assert_eq!(rt; status, 6);
    }
    Ok(())
}

#[test]
fn what_a_journal_has_is_replayed_under_each_gate(rt: HostRuntime) -> Result<(), Fail> {
    for meeting in [HANDED_OVER, FOUR_WRITERS, STACKED, SUBTREES, SET_UP] {
        for manner in MANNERS {
            let gate = HostileGate::new(manner, TURNS);
            is_replayed_from(&rt, &meeting, &gate)?;
        }
    }
    Ok(())
}

/// Under that manner of gates `verify` says what it says with one worker.
fn is_verified(rt: &impl Host, manner: Manner) -> Result<(), Fail> {
    let alloc = rt.alloc();
    for workers in ["2", "4", "64"] {
        for (name, answer) in [("mm.sf", (mm::PROOF, 0)), ("late.sf", (late::FAILURE, 1))] {
            let gate = HostileGate::new(manner, TURNS);
            let mut shelf = shelf_with(alloc, "")?;
            let words = ["verify", name, "--workers", workers];
            says_at(rt, &words, &mut shelf, answer, &gate)?;
        }
    }
    Ok(())
}

#[test]
fn gates_change_no_verdict(rt: HostRuntime) -> Result<(), Fail> {
    for manner in MANNERS {
        is_verified(&rt, manner)?;
    }
    Ok(())
}

/// The tries of that child at the buffer.
fn tries_of(turn: Turn) -> Point {
    Point::Region(TaskPath::entry().child(turn), ResId(0))
}

/// A gate that holds the left child at the buffer until the right one has come there three times, or
/// a million turns are used up.
fn gate_at_buffer(alloc: Global) -> Result<TurnGate, Fail> {
    let mut gate = TurnGate::new(alloc, 3, 1_000_000);
    gate.hold_at(&tries_of(Turn::Left))?;
    gate.wait_for(&tries_of(Turn::Right))?;
    Ok(gate)
}

/// The run, in which a task has so many tries, has ended, or one of the two has used them up and has
/// come to the buffer as often.
fn is_run_with(rt: &impl Host, tries: u64) -> Result<(), Fail> {
    let alloc = rt.alloc();
    let gate = gate_at_buffer(alloc)?;
    let mut shelf = shelf_with(alloc, HANDED_OVER.state)?;
    let mut sink = MemSink::new(alloc, usize::MAX);
    let number = format!(in alloc; "{tries}")?;
    let words = ["run", "buf.sf", "main", "given", "--waits", number.as_str()];
    let status = smallfoot(rt, alloc, &words, &mut shelf, &mut sink, &gate);
    let text = String::from_utf8_lossy(alloc, sink.bytes())?;
    let answer = (text.as_str(), status);
    assert!(rt;
        may_come(alloc, &HANDED_OVER, number.as_str(), answer)?,
        "{text}"
    );
    let turn = if text.starts_with("spent waits: task 0.1") {
        Turn::Left
    } else {
        Turn::Right
    };
    assert!(rt; status == 0 || gate.passes(&tries_of(turn)) >= tries);
    Ok(())
}

#[test]
fn a_task_is_held_at_its_region_until_the_other_has_tried(rt: HostRuntime) -> Result<(), Fail> {
    for tries in [3, 4, 1_000_000] {
        is_run_with(&rt, tries)?;
    }
    Ok(())
}
