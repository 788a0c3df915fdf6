//! Each command over shelves and sinks that fail: at each of its fetches, and after each number of
//! bytes. What is said where nothing fails was worked out by hand.

use super::super::files::{leak, set, tree};
use super::super::{Host, says, shelf_with, text_of, words_of};
use crate::top::smallfoot;
use crate::usage::USAGE;
use sf_io::{MemSink, OpenGate};
use std::test::Fail;

/// A line of words, the text under the name `given`, what is said and its status, and the files that are
/// fetched, in order: one row at least for each command, and for each status but 8 and 9.
const CASES: [(&str, &str, &str, u8, &[&str]); 23] = [
    ("verify tree.sf", "", tree::PROOF, 0, &["tree.sf"]),
    ("verify set.sf --workers 4", "", set::PROOF, 0, &["set.sf"]),
    ("verify leak.sf", "", leak::FAILURE, 1, &["leak.sf"]),
    (
        "verify bad.sf",
        "",
        "file refused: 1 BadByte at 1:7\n",
        3,
        &["bad.sf"],
    ),
    (
        "verify none.sf",
        "",
        "read fault: none.sf\n",
        7,
        &["none.sf"],
    ),
    (
        "recheck tree.sf given",
        tree::PROOF,
        "accepted\n",
        0,
        &["tree.sf", "given"],
    ),
    (
        "recheck tree.sf given",
        "accepted\n",
        "proof refused: line 2 kind 61\n",
        4,
        &["tree.sf", "given"],
    ),
    (
        "recheck bad.sf given",
        "accepted\n",
        "file refused: 1 BadByte at 1:7\n",
        3,
        &["bad.sf"],
    ),
    (
        "run tree.sf disp_tree given",
        "p = @1\n@1 l=@2 r=@3\n@2\n@3\n",
        "finished\np = @1\n",
        0,
        &["tree.sf", "given"],
    ),
    (
        "run two.sf none given",
        "",
        "start refused: 73 Unknown none\n",
        5,
        &["two.sf"],
    ),
    (
        "run two.sf two given",
        "x = nil\n@7\n",
        "start refused: 75 LeftOver @7\n",
        5,
        &["two.sf", "given"],
    ),
    (
        "run two.sf two given --steps 1",
        "x = nil\n",
        "spent steps: task 0 used 1\n",
        6,
        &["two.sf", "given"],
    ),
    (
        "run pair.sf pair given --waits 3",
        "y = nil\nz = nil\nbuf.c = nil\nbuf.full = 0\n",
        "spent waits: task 0.1 resource buf tries 3\n",
        6,
        &["pair.sf", "given"],
    ),
    (
        "journal mm.sf alloc given",
        "x = nil\nmm.f = nil\n",
        "finished\nx = @3\nmm.f = nil\n@3 hd=nil tl=nil l=nil r=nil\nschedule\n0 1\n0 2\n0 3\n0 4\n",
        0,
        &["mm.sf", "given"],
    ),
    (
        "journal stay.sf stay given --waits 2",
        "r.v = nil\n",
        "spent waits: task 0 resource r tries 2\n",
        6,
        &["stay.sf", "given"],
    ),
    (
        "replay fork.sf g given given",
        "",
        "no such step\n",
        0,
        &["fork.sf", "given", "given"],
    ),
    (
        "replay two.sf two given given",
        "x = nil\n",
        "schedule refused: 80 BadLine line 1\n",
        11,
        &["two.sf", "given", "given"],
    ),
    ("witness set.sf", "", "accepted\n", 0, &["set.sf"]),
    (
        "witness leak.sf",
        "",
        "witness disp_tree at 8:1 Leak\np = @1\ni = @2\nj = @3\n@1 hd=nil tl=nil l=@2 r=@3\nwant fails\n",
        1,
        &["leak.sf"],
    ),
    ("order mm.sf", "", "order\n0 mm\n", 0, &["mm.sf"]),
    (
        "order given",
        "resource a (v) []
resource b (w) []
f() { with a when (true) { with b when (true) { } } }
g() { with b when (true) { with a when (true) { } } }",
        "cycle: a b a\n",
        12,
        &["given"],
    ),
    (
        "demo 2",
        "",
        "demo 2: 2 procedures, 198 bytes, 28 tags\n",
        0,
        &[],
    ),
    ("", "", USAGE, 2, &[]),
];

/// Into a sink that takes so many bytes at a call, and fails at that call, come the first `kept`
/// bytes of the answer with status 8, where it has more, and else all of it with its status.
fn is_kept(
    rt: &impl Host,
    case: (&str, &str, &str, u8),
    sink: (usize, u64),
    kept: usize,
) -> Result<(), Fail> {
    let alloc = rt.alloc();
    let (line, given, answer, status) = case;
    let (most, failing) = sink;
    let words = words_of(alloc, line)?;
    let mut shelf = shelf_with(alloc, given)?;
    let mut sink = MemSink::new(alloc, most);
    sink.fail_at(failing)?;
    let ended = smallfoot(rt, alloc, &words, &mut shelf, &mut sink, &OpenGate);
    let text = text_of(alloc, answer)?;
    let wanted = if kept < text.len() { 8 } else { status };
    assert_eq!(rt; ended, wanted, "after {kept} bytes");
    assert_eq!(rt; sink.bytes().len(), text.len().min(kept));
    assert!(rt; text.as_bytes().starts_with(sink.bytes()));
    Ok(())
}

/// So it is whatever the number of bytes after which the sink fails: at its second call, where it
/// takes all of them at once, and at a later one, where it takes one at a call.
fn is_cut_anywhere(rt: &impl Host, case: (&str, &str, &str, u8)) -> Result<(), Fail> {
    let text = text_of(rt.alloc(), case.2)?;
    for (call, kept) in (1..).zip(0..=text.len()) {
        is_kept(rt, case, (kept, 2), kept)?;
        is_kept(rt, case, (1, call), kept)?;
    }
    Ok(())
}

#[test]
fn what_a_sink_has_taken_is_a_prefix_of_the_answer(rt: HostRuntime) -> Result<(), Fail> {
    for (line, given, answer, status, _) in CASES {
        is_cut_anywhere(&rt, (line, given, answer, status))?;
    }
    Ok(())
}

/// The numbers of the call that fails, and of the bytes that are taken before it, 16 at a call.
const SIXTEENS: [(u64, usize); 10] = [
    (1, 0),
    (2, 16),
    (3, 32),
    (4, 48),
    (5, 64),
    (6, 80),
    (7, 96),
    (8, 112),
    (9, 128),
    (10, 144),
];

#[test]
fn a_sink_of_sixteen_bytes_at_a_call_may_fail_at_each(rt: HostRuntime) -> Result<(), Fail> {
    let case = ("verify tree.sf", "", tree::PROOF, 0);
    assert_eq!(rt; text_of(rt.alloc(), tree::PROOF)?.len(), 144);
    for (call, kept) in SIXTEENS {
        is_kept(&rt, case, (16, call), kept)?;
    }
    Ok(())
}

/// Where that fetch fails, that file can't be read; where nothing can be written either, nothing is
/// said.
fn is_unread(
    rt: &impl Host,
    (words, given): (&[&str], &str),
    (fetch, name): (u64, &str),
) -> Result<(), Fail> {
    let alloc = rt.alloc();
    let mut shelf = shelf_with(alloc, given)?;
    shelf.fail_at(fetch)?;
    let line = format!(in alloc; "read fault: {name}\n")?;
    says(rt, words, &mut shelf, (line.as_str(), 7))?;
    let mut shelf = shelf_with(alloc, given)?;
    shelf.fail_at(fetch)?;
    let mut sink = MemSink::new(alloc, usize::MAX);
    sink.fail_at(1)?;
    let ended = smallfoot(rt, alloc, words, &mut shelf, &mut sink, &OpenGate);
    assert_eq!(rt; ended, 8);
    assert!(rt; sink.bytes().is_empty());
    Ok(())
}

/// The files can each fail to be read, and are all that is fetched: where a later fetch is to fail,
/// the answer is as ever.
fn is_unread_anywhere(
    rt: &impl Host,
    case: (&str, &str, &str, u8),
    fetched: &[&str],
) -> Result<(), Fail> {
    let alloc = rt.alloc();
    let (line, given, answer, status) = case;
    let words = words_of(alloc, line)?;
    for (fetch, name) in (1..).zip(fetched) {
        is_unread(rt, (&words, given), (fetch, name))?;
    }
    let mut shelf = shelf_with(alloc, given)?;
    shelf.fail_at(fetched.len() as u64 + 1)?;
    says(rt, &words, &mut shelf, (answer, status))
}

#[test]
fn each_fetch_may_fail(rt: HostRuntime) -> Result<(), Fail> {
    for (line, given, answer, status, fetched) in CASES {
        is_unread_anywhere(&rt, (line, given, answer, status), fetched)?;
    }
    Ok(())
}
