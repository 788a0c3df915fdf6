//! Joins in every order. Numbers of events and stamps are worked out by hand.

use crate::programs::{FELLED, TREE_OF_SEVEN};
use sf_base::{TaskPath, Value};
use sf_files::fitted;
use sf_part::Stamped;
use sf_precise::Arranged;
use sf_turns::ends::End;
use sf_turns::orders::{Course, run_in_order};
use sf_turns::turns::sit;
use std::alloc::{AllocError, Global};
use std::test::Fail;

/// What the run over a tree of seven cells comes to, whose tasks fork three levels down, with its
/// joins in that order.
fn felled(alloc: Global, p: &Arranged, order: &[usize]) -> Result<Option<Course>, AllocError> {
    let Some(at) = sit(alloc, p, "disp_tree", TREE_OF_SEVEN, 1_000, true)? else {
        return Ok(None);
    };
    run_in_order(alloc, at, 3, order)
}

/// Goes on to the next order: the last number that may be greater is, and those behind it are 0.
/// Whether there is one.
fn next_order(order: &mut [usize], dues: &[usize]) -> bool {
    for at in (0..order.len()).rev() {
        let next = order[at].saturating_add(1);
        if dues.get(at).is_some_and(|due| next < *due) {
            order[at] = next;
            return true;
        }
        order[at] = 0;
    }
    false
}

/// Whether a run ends with just its parameter and that log.
fn ends_with(end: &End, log: &[Stamped]) -> bool {
    end.vars.own.as_slice() == [Value::Loc(1)].as_slice()
        && end.heap.len() == 0
        && end.contents.len() == 0
        && end.log.entries.as_slice() == log
}

/// How many orders there are, up to 1,000, if each has that log, and leaves nothing.
fn orders_with_log(
    alloc: Global,
    p: &Arranged,
    log: &[Stamped],
) -> Result<Option<u32>, AllocError> {
    let mut order = [0; 7];
    for count in 1..1_000 {
        let Some(course) = felled(alloc, p, &order)? else {
            return Ok(None);
        };
        if !ends_with(&course.end, log) {
            return Ok(None);
        }
        if !next_order(&mut order, course.dues.as_slice()) {
            return Ok(Some(count));
        }
    }
    Ok(None)
}

/// Seven joins of which each comes after those below it can be made in 7! / (7 * 3 * 3) orders. A
/// task's numbers and stamps are its own, so the log is always one and the same.
#[test]
fn joins_in_every_order_come_to_one_end(rt: HostRuntime) -> Result<(), Fail> {
    let alloc = rt.alloc();
    let p = fitted(alloc, FELLED).expect(&rt, "a program");
    let first = felled(alloc, &p, &[0; 7])?.expect(&rt, "an end");
    assert!(rt; first.dues.as_slice() == [4, 3, 3, 2, 1, 1, 1].as_slice());
    assert_eq!(rt; first.end.heap.len(), 0);
    let entries = first.end.log.entries.as_slice();
    assert_eq!(rt; entries.len(), 64);
    let last = Stamped {
        stamp: 22,
        task: TaskPath::entry(),
        number: 29,
    };
    assert_eq!(rt; entries.last().copied(), Some(last));
    assert_eq!(rt; orders_with_log(alloc, &p, entries)?, Some(80));
    Ok(())
}
