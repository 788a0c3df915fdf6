//! Runs whose tasks fork. What they end with, how many events they have and which units these take
//! is worked out by hand; none of it depends on which task goes first. That children run side by
//! side is seen at gates that hold each of them until all have come.

use super::{are_said, says_at, shelf_with};
use sf_base::{ResId, TaskPath, Turn};
use sf_io::{Point, TurnGate};
use std::alloc::Global;
use std::test::Fail;

/// What a run ends with, or why it stops.
const FORKED: [(&str, &str, &str, u8); 15] = [
    (
        "run tree.sf disp_tree given",
        "p = @1\n@1 l=@2 r=@3\n@2\n@3\n",
        "finished\np = @1\n",
        0,
    ),
    (
        "run tree.sf disp_tree given --steps 28",
        "p = @1\n@1 l=@2 r=@3\n@2\n@3\n",
        "finished\np = @1\n",
        0,
    ),
    (
        "run tree.sf disp_tree given --steps 27",
        "p = @1\n@1 l=@2 r=@3\n@2\n@3\n",
        "spent steps: task 0 used 27\n",
        6,
    ),
    (
        "run tree.sf disp_tree given --steps 25",
        "p = @1\n@1 l=@2 r=@3\n@2\n@3\n",
        "spent steps: task 0.1 used 10\n",
        6,
    ),
    (
        "run tree.sf disp_tree given --steps 4",
        "p = @1\n@1 l=@2 r=@3\n@2\n@3\n",
        "spent steps: task 0.1 used 0\n",
        6,
    ),
    (
        "run tree.sf disp_tree given --steps 14",
        "p = @1\n@1 l=@2 r=@3\n@2\n@3\n",
        "spent steps: task 0.1.1 used 0\n",
        6,
    ),
    (
        "run tree.sf disp_tree given",
        "p = @1\n@1 l=@2 r=@3\n@2\n",
        "start refused: 74 Unmet pre\n",
        5,
    ),
    (
        "run copy.sf copy given --steps 60",
        "q = 7\np = @1\n@1 l=@2\n@2\n",
        "finished\nq = @20\np = @1\n@1 hd=nil tl=nil l=@2 r=nil\n@2 hd=nil tl=nil l=nil r=nil\n\
         @15 hd=nil tl=nil l=nil r=nil\n@20 hd=nil tl=nil l=@15 r=nil\n",
        0,
    ),
    (
        "run pair.sf pair given --waits 3",
        "y = nil\nz = nil\nbuf.c = nil\nbuf.full = 0\n",
        "spent waits: task 0.1 resource buf tries 3\n",
        6,
    ),
    (
        "run pair.sf get given --waits 3",
        "y = nil\nbuf.c = nil\nbuf.full = 0\n",
        "spent waits: task 0 resource buf tries 3\n",
        6,
    ),
    (
        "run fork.sf e given",
        "x = nil\n",
        "finished\nx = 1\nr.v = nil\n",
        0,
    ),
    (
        "run fork.sf e given --steps 6",
        "x = nil\n",
        "finished\nx = 1\nr.v = nil\n",
        0,
    ),
    (
        "run fork.sf e given --steps 5",
        "x = nil\n",
        "spent steps: task 0 used 5\n",
        6,
    ),
    (
        "run fork.sf e given --steps 2",
        "x = nil\n",
        "spent steps: task 0.1 used 0\n",
        6,
    ),
    (
        "run fork.sf e given",
        "x = nil\n@1\n",
        "start refused: 75 LeftOver @1\n",
        5,
    ),
];

/// The tasks of the children of a child of the entry's task.
fn grandchildren(turn: Turn) -> [TaskPath; 2] {
    let child = TaskPath::entry().child(turn);
    [child.child(Turn::Left), child.child(Turn::Right)]
}

/// A gate that holds each of those tasks at its start until all have come there, or a million turns
/// are used up.
fn gate_at_starts(alloc: Global, tasks: &[TaskPath], times: u64) -> Result<TurnGate, Fail> {
    let mut gate = TurnGate::new(alloc, times, 1_000_000);
    for task in tasks {
        let start = Point::Start(*task);
        gate.hold_at(&start)?;
        gate.wait_for(&start)?;
    }
    Ok(gate)
}

#[test]
fn forked_runs_have_their_outcomes(rt: HostRuntime) -> Result<(), Fail> {
    are_said(&rt, &FORKED)
}

#[test]
fn two_children_run_side_by_side(rt: HostRuntime) -> Result<(), Fail> {
    let alloc = rt.alloc();
    let entry = TaskPath::entry();
    let tasks = [entry.child(Turn::Left), entry.child(Turn::Right)];
    let gate = gate_at_starts(alloc, &tasks, 2)?;
    let mut shelf = shelf_with(alloc, "buf.c = nil\nbuf.full = 0\n")?;
    let words = ["run", "buf.sf", "main", "given"];
    let answer = ("finished\nbuf.c = @1\nbuf.full = 0\n", 0);
    says_at(&rt, &words, &mut shelf, answer, &gate)?;
    for task in tasks {
        assert_eq!(rt; gate.passes(&Point::Start(task)), 1);
    }
    assert!(rt; gate.turns_left() > 0);
    Ok(())
}

#[test]
fn four_grandchildren_run_side_by_side(rt: HostRuntime) -> Result<(), Fail> {
    let alloc = rt.alloc();
    let [one, two] = grandchildren(Turn::Left);
    let [three, four] = grandchildren(Turn::Right);
    let tasks = [one, two, three, four];
    let gate = gate_at_starts(alloc, &tasks, 4)?;
    let mut shelf = shelf_with(alloc, "p = @1\n@1 l=@2 r=@3\n@2\n@3\n")?;
    let words = ["run", "tree.sf", "disp_tree", "given"];
    says_at(&rt, &words, &mut shelf, ("finished\np = @1\n", 0), &gate)?;
    for task in tasks {
        assert_eq!(rt; gate.passes(&Point::Start(task)), 1);
    }
    assert!(rt; gate.turns_left() > 0);
    Ok(())
}

#[test]
fn a_gate_is_passed_before_each_try_at_a_region(rt: HostRuntime) -> Result<(), Fail> {
    let alloc = rt.alloc();
    let tries = Point::Region(TaskPath::entry(), ResId(0));
    let mut gate = TurnGate::new(alloc, 1, 1);
    gate.count_at(&tries)?;
    let mut shelf = shelf_with(alloc, "r.v = nil\n")?;
    let words = ["run", "stay.sf", "stay", "given", "--waits", "5"];
    let answer = ("spent waits: task 0 resource r tries 5\n", 6);
    says_at(&rt, &words, &mut shelf, answer, &gate)?;
    assert_eq!(rt; gate.passes(&tries), 5);
    Ok(())
}
