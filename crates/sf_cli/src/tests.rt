//! The command as a whole, over a shelf and a sink in memory. The answers were worked out by hand.

mod commands;
mod compared;
mod doubles;
mod examples;
mod fetches;
mod files;
mod forks;
mod hostile;
mod journals;
mod numbers;
mod orders;
mod proofs;
mod rankings;
mod replays;
mod runs;
mod sets;
mod tables;
mod verdicts;
mod wide;
mod witnesses;
mod workers;

use crate::top::smallfoot;
use crate::usage::USAGE;
use files::{FILES, set};
use sf_io::{Gate, MemShelf, MemSink, OpenGate};
use std::alloc::{AllocGlobal, Global};
use std::process::Abort;
use std::sync::Wait;
use std::test::Fail;
use std::thread::Threads;

/// What a test runs on.
trait Host: Threads + Wait + Sync + Abort + AllocGlobal {}

impl<R: Threads + Wait + Sync + Abort + AllocGlobal> Host for R {}

/// The text that is meant. In that of a proof `; ` stands for a line feed, so that a line here has
/// several tags.
fn text_of(alloc: Global, text: &str) -> Result<String, Fail> {
    let text = if text.starts_with("accepted") {
        text.replace(alloc, "; ", "\n")?
    } else {
        String::from_str(alloc, text)?
    };
    Ok(text)
}

/// The command says that to the words over that shelf, with that status, where threads pass that
/// gate.
fn says_at(
    rt: &impl Host,
    words: &[&str],
    shelf: &mut MemShelf,
    answer: (&str, u8),
    gate: &impl Gate,
) -> Result<(), Fail> {
    let alloc = rt.alloc();
    let mut sink = MemSink::new(alloc, usize::MAX);
    let status = smallfoot(rt, alloc, words, shelf, &mut sink, gate);
    let out = String::from_utf8_lossy(alloc, sink.bytes())?;
    assert_eq!(rt; out.as_str(), text_of(alloc, answer.0)?.as_str());
    assert_eq!(rt; status, answer.1);
    Ok(())
}

/// The command says that to the words over that shelf, with that status.
fn says(
    rt: &impl Host,
    words: &[&str],
    shelf: &mut MemShelf,
    answer: (&str, u8),
) -> Result<(), Fail> {
    says_at(rt, words, shelf, answer, &OpenGate)
}

/// The texts, one behind the other.
fn joined(alloc: Global, parts: &[&str]) -> Result<String, Fail> {
    let mut text = String::new(alloc);
    for part in parts {
        text.push_str(part)?;
    }
    Ok(text)
}

/// A shelf with the files of `files`, and with that text under the name `given`.
fn shelf_with(alloc: Global, given: &str) -> Result<MemShelf, Fail> {
    let mut shelf = MemShelf::new(alloc);
    for (name, parts) in FILES {
        shelf.add(name, joined(alloc, parts)?.as_bytes())?;
    }
    shelf.add("given", text_of(alloc, given)?.as_bytes())?;
    Ok(shelf)
}

/// The words of a line.
fn words_of(alloc: Global, line: &str) -> Result<Vec<&str>, Fail> {
    let words = line.split_whitespace().collect(alloc)?;
    Ok(words)
}

/// Over such a shelf the words of the line are answered with the text and the status that are beside
/// them.
fn are_said(rt: &impl Host, cases: &[(&str, &str, &str, u8)]) -> Result<(), Fail> {
    let alloc = rt.alloc();
    for (line, given, answer, status) in cases {
        let words = words_of(alloc, line)?;
        let mut shelf = shelf_with(alloc, given)?;
        says(rt, &words, &mut shelf, (answer, *status))?;
    }
    Ok(())
}

/// The words are answered with the usage.
fn are_no_commands(rt: &impl Host, cases: &[&[&str]]) -> Result<(), Fail> {
    let alloc = rt.alloc();
    let mut shelf = shelf_with(alloc, "")?;
    for words in cases {
        says(rt, words, &mut shelf, (USAGE, 2))?;
    }
    Ok(())
}

/// The status that goes with such an answer to a file.
fn status_of(answer: &str) -> u8 {
    if answer.starts_with("accepted") {
        0
    } else if answer.starts_with("failed") {
        1
    } else {
        3
    }
}

/// `verify` gives that answer to a file of those bytes.
fn is_answered(rt: &impl Host, bytes: &[u8], answer: &str) -> Result<(), Fail> {
    let alloc = rt.alloc();
    let mut shelf = MemShelf::new(alloc);
    shelf.add("p.sf", bytes)?;
    says(
        rt,
        &["verify", "p.sf"],
        &mut shelf,
        (answer, status_of(answer)),
    )
}

/// `verify` refuses a file of those bytes for that.
fn is_refused(rt: &impl Host, bytes: &[u8], fault: &str) -> Result<(), Fail> {
    let alloc = rt.alloc();
    let line = format!(in alloc; "file refused: {fault}\n")?;
    is_answered(rt, bytes, line.as_str())
}

/// Each of the files has the answer beside it.
fn are_answered(rt: &impl Host, cases: &[(&str, &str)]) -> Result<(), Fail> {
    for (text, answer) in cases {
        is_answered(rt, text.as_bytes(), answer)?;
    }
    Ok(())
}

#[test]
fn limits_of_files(rt: HostRuntime) -> Result<(), Fail> {
    let alloc = rt.alloc();
    let mut bytes = vec![in alloc; b' '; 1_048_576]?;
    is_answered(&rt, bytes.as_slice(), "accepted\n")?;
    bytes.push(b' ')?;
    is_refused(&rt, bytes.as_slice(), "5 LongFile at 1:1")
}

#[test]
fn faults_of_the_shelf(rt: HostRuntime) -> Result<(), Fail> {
    let alloc = rt.alloc();
    let mut shelf = shelf_with(alloc, "")?;
    shelf.fail_at(2)?;
    let cases = [
        ("none.sf", ("read fault: none.sf\n", 7)),
        ("set.sf", ("read fault: set.sf\n", 7)),
        ("set.sf", (set::PROOF, 0)),
    ];
    for (name, answer) in cases {
        says(&rt, &["verify", name], &mut shelf, answer)?;
    }
    Ok(())
}

/// What comes out of a sink that takes so many bytes at a call and fails at that call, and the
/// status.
fn put_into(rt: &impl Host, name: &str, most: usize, failing: u64) -> Result<(String, u8), Fail> {
    let alloc = rt.alloc();
    let mut shelf = shelf_with(alloc, "")?;
    let mut sink = MemSink::new(alloc, most);
    sink.fail_at(failing)?;
    let words = ["verify", name];
    let status = smallfoot(rt, alloc, &words, &mut shelf, &mut sink, &OpenGate);
    Ok((String::from_utf8_lossy(alloc, sink.bytes())?, status))
}

#[test]
fn faults_of_the_sink(rt: HostRuntime) -> Result<(), Fail> {
    let cases = [
        ("tree.sf", 16, 2, "accepted\nprocedu", 8),
        ("set.sf", 16, 1, "", 8),
        ("set.sf", 1, 1000, set::PROOF, 0),
        ("none.sf", 5, 3, "read fault", 8),
    ];
    for (name, most, failing, text, status) in cases {
        let (out, code) = put_into(&rt, name, most, failing)?;
        assert_eq!(rt; out.as_str(), text);
        assert_eq!(rt; code, status);
    }
    Ok(())
}
