//! How many tags a proof may have: procedures whose proof doubles with each of their commands.

use super::Host;
use crate::top::smallfoot;
use sf_io::{MemShelf, MemSink, OpenGate};
use std::alloc::{AllocError, Global};
use std::test::Fail;

/// Appends a procedure that tests so many values in a row, on one line: each test holds or doesn't,
/// so its proof has 5 * 2^tests - 3 tags.
fn add_wide(alloc: Global, file: &mut String, name: &str, tests: u32) -> Result<(), AllocError> {
    file.push_str(name)?;
    file.push_str("(")?;
    for i in 0..tests {
        file.push_str(format!(in alloc; "x{}, ", i + 1)?.as_str())?;
    }
    file.push_str("y) {")?;
    for i in 0..tests {
        file.push_str(format!(in alloc; " if (x{} == y) {{ }}", i + 1)?.as_str())?;
    }
    file.push_str(" }\n")
}

/// What is said of that file, and with which status.
fn verified(rt: &impl Host, file: &str) -> Result<(Vec<u8>, u8), Fail> {
    let alloc = rt.alloc();
    let mut shelf = MemShelf::new(alloc);
    shelf.add("wide.sf", file.as_bytes())?;
    let mut sink = MemSink::new(alloc, usize::MAX);
    let words = ["verify", "wide.sf"];
    let status = smallfoot(rt, alloc, &words, &mut shelf, &mut sink, &OpenGate);
    Ok((Vec::from_slice(alloc, sink.bytes())?, status))
}

#[test]
fn the_largest_proof_is_printed(rt: HostRuntime) -> Result<(), Fail> {
    let alloc = rt.alloc();
    let mut file = String::new(alloc);
    add_wide(alloc, &mut file, "w", 15)?;
    let (text, status) = verified(&rt, file.as_str())?;
    assert_eq!(rt; status, 0);
    assert!(rt;
        text.as_slice()
            .starts_with(b"accepted\nprocedure w\nsplit s0 s15\nthen\n")
    );
    assert!(rt; text.as_slice().ends_with(b"\nreturn\nend\n"));
    let lines = text.iter().filter(|byte| **byte == b'\n').count();
    assert_eq!(rt; lines, 2 + 163_837);
    Ok(())
}

#[test]
fn a_proof_may_be_too_large(rt: HostRuntime) -> Result<(), Fail> {
    let alloc = rt.alloc();
    let mut one = String::new(alloc);
    add_wide(alloc, &mut one, "w", 16)?;
    let mut four = String::new(alloc);
    for name in ["w1", "w2", "w3", "w4"] {
        add_wide(alloc, &mut four, name, 15)?;
    }
    let cases: [(&str, &[u8]); 2] = [
        (one.as_str(), b"failed w at 1:1 TooLarge\n"),
        (four.as_str(), b"failed w4 at 4:1 TooLarge\n"),
    ];
    for (file, answer) in cases {
        let (text, status) = verified(&rt, file)?;
        assert_eq!(rt; text.as_slice(), answer);
        assert_eq!(rt; status, 1);
    }
    Ok(())
}
