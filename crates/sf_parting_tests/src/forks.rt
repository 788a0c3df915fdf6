//! Tasks that fork: which units, numbers and stamps they have, and what they meet with at a region.
//! All of them are worked out by hand.

use crate::parts::field;
use crate::programs::{FELLED, FREE_CELLS, SMALL_TREE};
use sf_base::{ResId, TaskPath, Turn, Value};
use sf_files::fitted;
use sf_frame::Spot;
use sf_part::{Local, Stamped};
use sf_turns::ends::closed;
use sf_turns::forks::{first_other_of, fork_at, join_at};
use sf_turns::orders::run_in_order;
use sf_turns::turns::{Comes, sit};
use std::alloc::{AllocError, Global};
use std::test::Fail;

const MM: ResId = ResId(0);

const ENTRY: &[Turn] = &[];

const LEFT: &[Turn] = &[Turn::Left];

const RIGHT: &[Turn] = &[Turn::Right];

/// Entries of a log that follow each other: the stamp of the first, the turns of their task, the number
/// of the first, and how many there are. Stamps and numbers go up by one.
type Row<'t> = (u64, &'t [Turn], u64, u64);

/// Appends the entries of a row, each as a row of its own.
fn push_entries<'t>(all: &mut Vec<Row<'t>>, row: Row<'t>) -> Result<(), AllocError> {
    let (stamp, task, unit, count) = row;
    for i in 0..count {
        all.push((stamp.saturating_add(i), task, unit.saturating_add(i), 1))?;
    }
    Ok(())
}

/// The entries of these rows, each as a row of its own.
fn single<'t>(alloc: Global, rows: &[Row<'t>]) -> Result<Vec<Row<'t>>, AllocError> {
    let mut all = Vec::new(alloc);
    for row in rows {
        push_entries(&mut all, *row)?;
    }
    Ok(all)
}

/// The number of the first entry of a log that isn't what is said, or where only one of the two ends.
fn first_other_entry(
    alloc: Global,
    log: &[Stamped],
    rows: &[Row<'_>],
) -> Result<Option<usize>, AllocError> {
    let all = single(alloc, rows)?;
    for (number, (entry, (stamp, task, unit, _))) in log.iter().zip(&all).enumerate() {
        if entry.stamp != *stamp || entry.number != *unit || entry.task.turns() != *task {
            return Ok(Some(number));
        }
    }
    if log.len() == all.len() {
        Ok(None)
    } else {
        Ok(Some(log.len().min(all.len())))
    }
}

/// While the left child is inside, the right one misses; then it enters with what the left one left.
const ONE_AFTER_THE_OTHER: [(Turn, Comes); 15] = [
    (Turn::Left, Comes::Entered(MM)),
    (Turn::Right, Comes::Missed(MM, 1)),
    (Turn::Left, Comes::Moved),
    (Turn::Left, Comes::Moved),
    (Turn::Right, Comes::Missed(MM, 2)),
    (Turn::Left, Comes::Moved),
    (Turn::Left, Comes::Left(MM)),
    (Turn::Right, Comes::Entered(MM)),
    (Turn::Right, Comes::Moved),
    (Turn::Left, Comes::Moved),
    (Turn::Left, Comes::Other(Local::Done)),
    (Turn::Right, Comes::Moved),
    (Turn::Right, Comes::Left(MM)),
    (Turn::Right, Comes::Moved),
    (Turn::Right, Comes::Other(Local::Done)),
];

/// The log of that run, with 100 units from 4 on: the right child's stamps go on from the left one's
/// exit.
const ROWS_OF_BOTH: [Row<'static>; 4] = [
    (1, ENTRY, 4, 1),
    (2, LEFT, 5, 6),
    (7, RIGHT, 54, 5),
    (12, ENTRY, 11, 1),
];

#[test]
fn a_child_enters_with_what_the_other_left(rt: HostRuntime) -> Result<(), Fail> {
    let alloc = rt.alloc();
    let p = fitted(alloc, FREE_CELLS).expect(&rt, "a program");
    let text = b"x = nil\ny = @1\nmm.f = @2\n@1\n@2 tl=@3\n@3";
    let at = sit(alloc, &p, "both", text, 100, true)?.expect(&rt, "a start");
    let at = fork_at(at)?.expect(&rt, "a parallel call");
    let (at, other) = first_other_of(at, &ONE_AFTER_THE_OTHER)?;
    assert_eq!(rt; other, None);
    let at = join_at(at)?.expect(&rt, "a join");
    let mut end = closed(at)?.expect(&rt, "an end");
    assert!(rt; end.vars.own.as_slice() == [Value::Loc(2), Value::Loc(1)].as_slice());
    assert_eq!(rt; end.heap.len(), 1);
    assert_eq!(rt; field(&end.heap, 2, 1), Some(Value::Loc(3)));
    assert_eq!(rt;
        first_other_entry(alloc, end.log.entries.as_slice(), &ROWS_OF_BOTH)?,
        None
    );
    assert_eq!(rt; end.contents.len(), 1);
    let content = end.contents.pop().expect(&rt, "a content");
    let (store, left) = content.into_parts();
    assert_eq!(rt; store.find(Spot::Shared(MM, 0)), Some(Value::Loc(1)));
    assert_eq!(rt; left.len(), 2);
    assert_eq!(rt; field(&left, 1, 1), Some(Value::Loc(3)));
    Ok(())
}

const LEFT_LEFT: &[Turn] = &[Turn::Left, Turn::Left];

const LEFT_RIGHT: &[Turn] = &[Turn::Left, Turn::Right];

const RIGHT_LEFT: &[Turn] = &[Turn::Right, Turn::Left];

const RIGHT_RIGHT: &[Turn] = &[Turn::Right, Turn::Right];

/// The tasks of the run over a tree of three cells, with as many units as they were given of 28.
const GIVENS_OF_TREE: [(&[Turn], u64); 7] = [
    (ENTRY, 28),
    (LEFT, 12),
    (LEFT_LEFT, 4),
    (LEFT_RIGHT, 4),
    (RIGHT, 12),
    (RIGHT_LEFT, 4),
    (RIGHT_RIGHT, 4),
];

/// Its log, with units from 4 on: of each task the test, two look-ups and the fork, its children's,
/// the join, the disposal and the return; a task at nil has a test and a return alone.
const ROWS_OF_TREE: [Row<'static>; 13] = [
    (1, ENTRY, 4, 4),
    (5, LEFT, 8, 4),
    (9, LEFT_LEFT, 12, 2),
    (9, LEFT_RIGHT, 16, 2),
    (11, LEFT, 14, 2),
    (13, LEFT, 18, 1),
    (5, RIGHT, 20, 4),
    (9, RIGHT_LEFT, 24, 2),
    (9, RIGHT_RIGHT, 28, 2),
    (11, RIGHT, 26, 2),
    (13, RIGHT, 30, 1),
    (14, ENTRY, 19, 1),
    (15, ENTRY, 31, 1),
];

/// Whether the tasks are these, with as many units as is said.
fn are_given(givens: &[(TaskPath, u64)], rows: &[(&[Turn], u64)]) -> bool {
    givens.len() == rows.len()
        && givens.iter().zip(rows).all(|((task, units), (turns, count))| task.turns() == *turns
            && units == count)
}

/// All 28 units are used: those that a child leaves are the first that its parent takes.
#[test]
fn the_units_and_stamps_of_a_tree_are_those_worked_out(rt: HostRuntime) -> Result<(), Fail> {
    let alloc = rt.alloc();
    let p = fitted(alloc, FELLED).expect(&rt, "a program");
    let at = sit(alloc, &p, "disp_tree", SMALL_TREE, 28, true)?.expect(&rt, "a start");
    let course = run_in_order(alloc, at, 2, &[0, 0, 0])?.expect(&rt, "an end");
    assert!(rt; are_given(course.givens.as_slice(), &GIVENS_OF_TREE));
    assert!(rt; course.dues.as_slice() == [2, 1, 1].as_slice());
    let end = &course.end;
    assert!(rt; end.vars.own.as_slice() == [Value::Loc(1)].as_slice());
    assert_eq!(rt; end.heap.len(), 0);
    assert_eq!(rt;
        first_other_entry(alloc, end.log.entries.as_slice(), &ROWS_OF_TREE)?,
        None
    );
    Ok(())
}
