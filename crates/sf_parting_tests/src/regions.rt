//! What a task enters with, leaves and gets again at the regions of resources, and what it misses.
//! Numbers of events, stamps and values are worked out by hand.

use crate::parts::field;
use crate::programs::FREE_CELLS;
use sf_base::{ResId, TaskPath, Value};
use sf_files::fitted;
use sf_frame::Spot;
use sf_part::{Local, Stamped};
use sf_turns::ends::{End, closed};
use sf_turns::turns::{Comes, first_other, sit};
use std::alloc::{AllocError, Global};
use std::test::Fail;

const MM: ResId = ResId(0);

/// A call that takes the first cell of the list, twice: the call, the region with a test and two
/// steps, and the return.
const TAKEN_TWICE: [Comes; 15] = [
    Comes::Moved,
    Comes::Entered(MM),
    Comes::Moved,
    Comes::Moved,
    Comes::Moved,
    Comes::Left(MM),
    Comes::Moved,
    Comes::Moved,
    Comes::Entered(MM),
    Comes::Moved,
    Comes::Moved,
    Comes::Moved,
    Comes::Left(MM),
    Comes::Moved,
    Comes::Other(Local::Done),
];

#[test]
fn what_is_left_is_got_at_the_next_entry(rt: HostRuntime) -> Result<(), Fail> {
    let alloc = rt.alloc();
    let p = fitted(alloc, FREE_CELLS).expect(&rt, "a program");
    let text = b"x = nil\ny = nil\nmm.f = @1\n@1 tl=@2\n@2 tl=@3\n@3";
    let at = sit(alloc, &p, "two", text, 1_000, true)?.expect(&rt, "a start");
    let (at, other) = first_other(at, &TAKEN_TWICE)?;
    assert_eq!(rt; other, None);
    let mut end = closed(at)?.expect(&rt, "an end");
    assert!(rt; end.vars.own.as_slice() == [Value::Loc(1), Value::Loc(2)].as_slice());
    assert_eq!(rt; end.heap.len(), 2);
    assert_eq!(rt; end.log.entries.len(), 14);
    let last = Stamped {
        stamp: 14,
        task: TaskPath::entry(),
        number: 17,
    };
    assert_eq!(rt; end.log.entries.as_slice().last().copied(), Some(last));
    assert_eq!(rt; end.contents.len(), 1);
    let content = end.contents.pop().expect(&rt, "a content");
    assert_eq!(rt; content.resource(), MM);
    let (store, left) = content.into_parts();
    assert_eq!(rt; store.find(Spot::Shared(MM, 0)), Some(Value::Loc(3)));
    assert_eq!(rt; left.len(), 1);
    assert_eq!(rt; field(&left, 3, 1), Some(Value::Nil));
    Ok(())
}

#[test]
fn a_condition_that_is_false_is_a_miss(rt: HostRuntime) -> Result<(), Fail> {
    let alloc = rt.alloc();
    let p = fitted(alloc, FREE_CELLS).expect(&rt, "a program");
    let at = sit(alloc, &p, "some", b"mm.f = @7\n@7", 1_000, true)?.expect(&rt, "a start");
    let turns = [Comes::Missed(MM, 1), Comes::Missed(MM, 2)];
    let (_, other) = first_other(at, &turns)?;
    assert_eq!(rt; other, None);
    Ok(())
}

#[test]
fn an_exit_without_the_invariant_leaves_nothing(rt: HostRuntime) -> Result<(), Fail> {
    let alloc = rt.alloc();
    let p = fitted(alloc, FREE_CELLS).expect(&rt, "a program");
    let at = sit(alloc, &p, "bad", b"mm.f = nil", 1_000, true)?.expect(&rt, "a start");
    let turns = [
        Comes::Entered(MM),
        Comes::Moved,
        Comes::Lacking(MM),
        Comes::Lacking(MM),
    ];
    let (_, other) = first_other(at, &turns)?;
    assert_eq!(rt; other, None);
    Ok(())
}

/// A procedure for each of so many resources, which enters its region and calls the next one there;
/// the first has the outermost region.
fn nested(alloc: Global, count: u32) -> Result<Vec<u8>, AllocError> {
    let mut file = Vec::new(alloc);
    for number in 0..count {
        let line = format!(in alloc; "resource r{number} () [] ")?;
        file.extend_from_slice(line.as_bytes())?;
    }
    for number in 0..count {
        let line = format!(in alloc; "p{number}() {{ with r{number} when (true) {{ ")?;
        file.extend_from_slice(line.as_bytes())?;
        if number + 1 < count {
            let line = format!(in alloc; "p{}(); ", number + 1)?;
            file.extend_from_slice(line.as_bytes())?;
        }
        file.extend_from_slice(b"} } ")?;
    }
    Ok(file)
}

/// The turns of a task that enters so many regions, each but the first one in a call, and leaves
/// them, the innermost first.
fn in_and_out(alloc: Global, count: u32) -> Result<Vec<Comes>, AllocError> {
    let mut turns = Vec::new(alloc);
    for number in 0..count {
        if number > 0 {
            turns.push(Comes::Moved)?;
        }
        turns.push(Comes::Entered(ResId(number)))?;
    }
    for number in (0..count).rev() {
        turns.push(Comes::Left(ResId(number)))?;
        if number > 0 {
            turns.push(Comes::Moved)?;
        }
    }
    turns.push(Comes::Other(Local::Done))?;
    Ok(turns)
}

/// Of the events 128 are entries and exits, and 126 calls and returns.
#[test]
fn regions_of_64_resources_are_left_innermost_first(rt: HostRuntime) -> Result<(), Fail> {
    let alloc = rt.alloc();
    let file = nested(alloc, 64)?;
    let p = fitted(alloc, file.as_slice()).expect(&rt, "a program");
    let at = sit(alloc, &p, "p0", b"", 254, true)?.expect(&rt, "a start");
    let turns = in_and_out(alloc, 64)?;
    let (at, other) = first_other(at, turns.as_slice())?;
    assert_eq!(rt; other, None);
    let End { log, contents, .. } = closed(at)?.expect(&rt, "an end");
    assert_eq!(rt; log.entries.len(), 254);
    assert_eq!(rt; contents.len(), 64);
    Ok(())
}
