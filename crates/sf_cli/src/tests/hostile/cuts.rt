//! Texts of proofs that are cut off after each byte and each line, or lack a line: each is refused,
//! where it was worked out by hand.

use super::super::compared::reverse;
use super::super::files::{FILES, buffer, link_first, mi, mm, set, stay, tree, vacuous};
use super::super::{Host, joined, says, text_of};
use crate::top::smallfoot;
use sf_io::{MemShelf, MemSink, OpenGate};
use std::alloc::Global;
use std::test::Fail;

/// Names of files, with their proofs.
const PROVED: [(&str, &str); 9] = [
    ("set.sf", set::PROOF),
    ("tree.sf", tree::PROOF),
    ("mm.sf", mm::PROOF),
    ("mi.sf", mi::PROOF),
    ("buf.sf", buffer::PROOF),
    ("rev.sf", reverse::PROOF),
    ("k.sf", link_first::PROOF),
    ("stay.sf", stay::PROOF),
    ("vac.sf", vacuous::PROOF),
];

/// A line of the proof of tree.sf that is left out, counted from 1, and the line and the kind at
/// which the rest is refused.
const LEFT_OUT: [(usize, u32, u32); 19] = [
    (1, 1, 50),
    (2, 2, 60),
    (3, 4, 60),
    (4, 4, 60),
    (5, 7, 60),
    (6, 6, 60),
    (7, 7, 60),
    (8, 8, 60),
    (9, 10, 60),
    (10, 10, 60),
    (11, 12, 60),
    (12, 12, 60),
    (13, 13, 60),
    (14, 14, 60),
    (15, 15, 60),
    (16, 16, 60),
    (17, 17, 60),
    (18, 18, 60),
    (19, 19, 61),
];

/// The shelf with that file of `files` alone, and that text of a proof.
fn shelf_of(alloc: Global, file: &str, proof: &[u8]) -> Result<MemShelf, Fail> {
    let mut shelf = MemShelf::new(alloc);
    for (name, parts) in FILES {
        if name == file {
            shelf.add(name, joined(alloc, parts)?.as_bytes())?;
        }
    }
    shelf.add("p.proof", proof)?;
    Ok(shelf)
}

/// The text of a proof of tree.sf is refused at that line, for that kind.
fn is_refused_at(rt: &impl Host, proof: &str, (line, kind): (u32, u32)) -> Result<(), Fail> {
    let alloc = rt.alloc();
    let mut shelf = shelf_of(alloc, "tree.sf", proof.as_bytes())?;
    let words = ["recheck", "tree.sf", "p.proof"];
    let answer = format!(in alloc; "proof refused: line {line} kind {kind}\n")?;
    says(rt, &words, &mut shelf, (answer.as_str(), 4))
}

#[test]
fn a_proof_without_its_last_lines_has_goals_left(rt: HostRuntime) -> Result<(), Fail> {
    let alloc = rt.alloc();
    let proof = text_of(alloc, tree::PROOF)?;
    let mut kept = String::new(alloc);
    for (line, next) in proof.as_str().lines().zip(2..) {
        kept.push_str(line)?;
        kept.push_str("\n")?;
        if next < 20 {
            is_refused_at(&rt, kept.as_str(), (next, 61))?;
        }
    }
    assert_eq!(rt; kept.as_str(), proof.as_str());
    Ok(())
}

/// The text without that line, counted from 1.
fn without_line(alloc: Global, text: &str, left_out: usize) -> Result<String, Fail> {
    let mut kept = String::new(alloc);
    for (number, line) in (1..).zip(text.lines()) {
        if number != left_out {
            kept.push_str(line)?;
            kept.push_str("\n")?;
        }
    }
    Ok(kept)
}

#[test]
fn a_proof_without_one_line_is_refused(rt: HostRuntime) -> Result<(), Fail> {
    let alloc = rt.alloc();
    let proof = text_of(alloc, tree::PROOF)?;
    for (left_out, line, kind) in LEFT_OUT {
        let kept = without_line(alloc, proof.as_str(), left_out)?;
        is_refused_at(&rt, kept.as_str(), (line, kind))?;
    }
    Ok(())
}

/// Whether that is one of the refusals of a text that was cut off in or after that line: it can't be
/// read, is no next rule, or leaves goals.
fn is_refusal_of_cut(alloc: Global, answer: &str, line: usize) -> Result<bool, Fail> {
    let next = line.saturating_add(1);
    let refusals = [
        format!(in alloc; "proof refused: line {line} kind 50\n")?,
        format!(in alloc; "proof refused: line {line} kind 60\n")?,
        format!(in alloc; "proof refused: line {next} kind 61\n")?,
    ];
    Ok(refusals.iter().any(|refusal| refusal.as_str() == answer))
}

/// The text of a proof that is cut off after so many bytes is refused where it was cut.
fn is_refused_cut(rt: &impl Host, file: &str, proof: &[u8]) -> Result<(), Fail> {
    let alloc = rt.alloc();
    let mut shelf = shelf_of(alloc, file, proof)?;
    let mut sink = MemSink::new(alloc, usize::MAX);
    let words = ["recheck", file, "p.proof"];
    let status = smallfoot(rt, alloc, &words, &mut shelf, &mut sink, &OpenGate);
    let answer = String::from_utf8_lossy(alloc, sink.bytes())?;
    let whole_lines = proof.iter().filter(|byte| **byte == b'\n').count();
    let line = if proof.ends_with(b"\n") {
        whole_lines
    } else {
        whole_lines.saturating_add(1)
    };
    assert_eq!(rt; status, 4, "{answer}");
    assert!(rt;
        is_refusal_of_cut(alloc, answer.as_str(), line)?,
        "{answer}"
    );
    Ok(())
}

/// So it is after each number of bytes but all of them; without its last line feed it is whole.
fn is_refused_cut_anywhere(rt: &impl Host, file: &str, proof: &[u8]) -> Result<(), Fail> {
    let alloc = rt.alloc();
    let Some((_, whole)) = proof.split_last() else {
        return Ok(());
    };
    for end in 0..whole.len() {
        is_refused_cut(rt, file, &whole[..end])?;
    }
    let mut shelf = shelf_of(alloc, file, whole)?;
    let words = ["recheck", file, "p.proof"];
    says(rt, &words, &mut shelf, ("accepted\n", 0))
}

#[test]
fn a_proof_that_is_cut_off_anywhere_is_refused(rt: HostRuntime) -> Result<(), Fail> {
    let alloc = rt.alloc();
    for (file, proof) in PROVED {
        let text = text_of(alloc, proof)?;
        is_refused_cut_anywhere(&rt, file, text.as_bytes())?;
    }
    Ok(())
}
