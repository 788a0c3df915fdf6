//! What no clause says: what texts written by hand read as, with ample memory.

use super::programs::empty;
use sf_base::ProcId;
use sf_proof::{Lined, ProofFault, proof_text, read};
use sf_sym::{Tag, Term};
use std::alloc::{AllocError, Global};

/// Whether the text reads as these tags on these lines.
fn reads_as(alloc: Global, text: &[u8], tags: &[Tag], lines: &[u32]) -> bool {
    match read(alloc, &empty(alloc), text) {
        Ok(
            Lined {
                tags: found,
                lines: numbers,
            },
        ) => found.as_slice() == tags && numbers.as_slice() == lines,
        Err(_) => false,
    }
}

/// Why the text is refused, if it is.
fn refusal(alloc: Global, text: &[u8]) -> Option<ProofFault> {
    match read(alloc, &empty(alloc), text) {
        Ok(_) => None,
        Err(fault) => Some(fault),
    }
}

#[test]
fn texts_read_as_their_tags(rt: HostRuntime) {
    let most = Term::Sym(4_294_967_295);
    let cases: [(&[u8], &[Tag], &[u32]); 10] = [
        (b"accepted", &[], &[]),
        (b" \taccepted\t \r", &[], &[]),
        (b"accepted\nend", &[Tag::End], &[2]),
        (b"accepted\r\nend\r\n", &[Tag::End], &[2]),
        (
            b"accepted\n\n \t\n\r\nadd\n\n end \t\n\n",
            &[Tag::Add, Tag::End],
            &[5, 7],
        ),
        (
            b"accepted\n\tsplit  s00\tnil \nsplit -0 s4294967295",
            &[
                Tag::Split(Term::Sym(0), Term::Nil),
                Tag::Split(Term::Int(0), most),
            ],
            &[2, 3],
        ),
        (
            b"accepted\nsplit -9223372036854775808 9223372036854775807",
            &[Tag::Split(Term::Int(i64::MIN), Term::Int(i64::MAX))],
            &[2],
        ),
        (
            b"accepted\ncell 004294967295",
            &[Tag::Cell(4_294_967_295)],
            &[2],
        ),
        (
            b"accepted\nprocedure nobody",
            &[Tag::Procedure(ProcId(0))],
            &[2],
        ),
        (
            b"accepted\ndrop 1\nforce 2\nunroll 3\nback 12\nlook 4\nmutate 5\ndispose 6\nexact 7\nhead 8\njoin 9\nnode 10",
            &[
                Tag::Drop(1),
                Tag::Force(2),
                Tag::Unroll(3),
                Tag::Back(12),
                Tag::Look(4),
                Tag::Mutate(5),
                Tag::Dispose(6),
                Tag::Exact(7),
                Tag::Head(8),
                Tag::Join(9),
                Tag::Node(10),
            ],
            &[2, 3, 4, 5, 6, 7, 8, 9, 10, 11, 12],
        ),
    ];
    for (text, tags, lines) in cases {
        assert!(rt; reads_as(rt.alloc(), text, tags, lines));
    }
}

/// The tags that stand alone, each with its word.
const ALONE: [(Tag, &str); 18] = [
    (Tag::Absurd, "absurd"),
    (Tag::Assign, "assign"),
    (Tag::New, "new"),
    (Tag::Then, "then"),
    (Tag::Else, "else"),
    (Tag::Loop, "loop"),
    (Tag::Around, "around"),
    (Tag::Again, "again"),
    (Tag::Call, "call"),
    (Tag::Fork, "fork"),
    (Tag::Enter, "enter"),
    (Tag::Exit, "exit"),
    (Tag::Return, "return"),
    (Tag::Give, "give"),
    (Tag::Bind, "bind"),
    (Tag::Same, "same"),
    (Tag::Apart, "apart"),
    (Tag::Empty, "empty"),
];

#[test]
fn words_alone_read_as_their_tags(rt: HostRuntime) -> Result<(), AllocError> {
    let alloc = rt.alloc();
    let mut text = Vec::from_slice(alloc, b"accepted")?;
    let mut tags = Vec::new(alloc);
    let mut lines = Vec::new(alloc);
    for ((tag, word), line) in ALONE.iter().zip(2..) {
        text.push(b'\n')?;
        text.extend_from_slice(word.as_bytes())?;
        tags.push(*tag)?;
        lines.push(line)?;
    }
    assert!(rt; reads_as(alloc, &text, &tags, &lines));
    Ok(())
}

/// Texts that are no proof, and the first of their lines that is none.
const NO_PROOFS: [(&[u8], u32); 32] = [
    (b"", 1),
    (b"\n", 1),
    (b"\naccepted", 1),
    (b"acceptedend", 1),
    (b"accepted end", 1),
    (b"Accepted", 1),
    (b"accepted\r\r", 1),
    (b"accepted\r ", 1),
    (b"end\nfoo", 1),
    (b"accepted\naccepted", 2),
    (b"accepted\n\n\nfoo\nbar", 4),
    (b"accepted\nend\nEnd", 3),
    (b"accepted\nend end", 2),
    (b"accepted\nend 1", 2),
    (b"accepted\ncell", 2),
    (b"accepted\ncell 1 2", 2),
    (b"accepted\ncell x", 2),
    (b"accepted\ncell -1", 2),
    (b"accepted\ncell +1", 2),
    (b"accepted\ncell 4294967296", 2),
    (b"accepted\ncell 1\r\r\nend", 2),
    (b"accepted\nback", 2),
    (b"accepted\nback s1", 2),
    (b"accepted\nback 1 1", 2),
    (b"accepted\nsplit s0", 2),
    (b"accepted\nsplit s0 s1 s2", 2),
    (b"accepted\nsplit s0 s4294967296", 2),
    (b"accepted\nsplit nil 9223372036854775808", 2),
    (b"accepted\nsplit nil NULL", 2),
    (b"accepted\nprocedure", 2),
    (b"accepted\nprocedure nil", 2),
    (b"accepted\nprocedure _f", 2),
];

#[test]
fn the_first_line_that_is_none_is_named(rt: HostRuntime) {
    for (text, line) in NO_PROOFS {
        assert!(rt; refusal(rt.alloc(), text) == Some(ProofFault::BadLine(line)));
    }
}

#[test]
fn names_have_a_limit(rt: HostRuntime) -> Result<(), AllocError> {
    let mut text = Vec::from_slice(rt.alloc(), b"accepted\nprocedure ")?;
    for _ in 0..64 {
        text.push(b'a')?;
    }
    assert!(rt; refusal(rt.alloc(), text.as_slice()).is_none());
    text.push(b'a')?;
    assert!(rt; refusal(rt.alloc(), text.as_slice()) == Some(ProofFault::BadLine(2)));
    Ok(())
}

#[test]
fn what_is_written_is_read_back(rt: HostRuntime) -> Result<(), AllocError> {
    let tags = [
        Tag::Split(Term::Int(-7), Term::Nil),
        Tag::Back(9),
        Tag::Join(4),
        Tag::End,
    ];
    let text = proof_text(rt.alloc(), &empty(rt.alloc()), &tags)?;
    assert!(rt; reads_as(rt.alloc(), text.as_slice(), &tags, &[2, 3, 4, 5]));
    Ok(())
}
