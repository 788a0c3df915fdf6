//! Texts of proofs, and what is said of them, worked out by hand.

use super::{Host, says, shelf_with, text_of};
use sf_io::MemShelf;
use std::test::Fail;

/// A procedure that calls another; the proof of the call, and without the row that takes the cell.
const CALL_PROOFS: [(&[u8], &str, &str); 2] = [
    (
        b"f(x) [x|->] { dispose(x); }\ng(x) [x|->] { f(x); }\n",
        "accepted; procedure f
add; dispose 1; return; end
procedure g
add; call; cell 1; give; return; end
",
        "accepted\n",
    ),
    (
        b"f(x) [x|->] { dispose(x); }\ng(x) [x|->] { f(x); }\n",
        "accepted; procedure f
add; dispose 1; return; end
procedure g
add; call; give; return; end
",
        "proof refused: line 10 kind 60\n",
    ),
];

/// How texts read: blanks, empty lines, carriage returns and zeros count for nothing, and the first
/// fault is told.
const TEXTS: [(&[u8], &str, &str); 19] = [
    (
        b"set(x) [x|->] { x->tl = 3; } [x|->tl:3]",
        "accepted\nprocedure set\nadd\nmutate 1\nreturn\ncell 1\nend\n",
        "accepted\n",
    ),
    (
        b"set(x) [x|->] { x->tl = 3; } [x|->tl:3]",
        "accepted\nprocedure set\nadd\nmutate 1\nreturn\ncell 1\nend",
        "accepted\n",
    ),
    (
        b"set(x) [x|->] { x->tl = 3; } [x|->tl:3]",
        " accepted\t\r\n\n  procedure\t set \r\nadd\r\n\r\nmutate 0001\n\treturn\ncell 1\nend\r",
        "accepted\n",
    ),
    (
        b"set(x) [x|->] { x->tl = 3; } [x|->tl:3]",
        "accepted\n",
        "proof refused: line 2 kind 61\n",
    ),
    (
        b"set(x) [x|->] { x->tl = 3; } [x|->tl:3]",
        "accepted\n\n\n",
        "proof refused: line 2 kind 61\n",
    ),
    (
        b"set(x) [x|->] { x->tl = 3; } [x|->tl:3]",
        "\naccepted\nprocedure set\nadd\nmutate 1\nreturn\ncell 1\nend\n",
        "proof refused: line 1 kind 50\n",
    ),
    (
        b"set(x) [x|->] { x->tl = 3; } [x|->tl:3]",
        "accepted\n\nprocedure nil\n",
        "proof refused: line 3 kind 50\n",
    ),
    (
        b"set(x) [x|->] { x->tl = 3; } [x|->tl:3]",
        "accepted\n\nprocedure other\nend\n",
        "proof refused: line 3 kind 60\n",
    ),
    (
        b"set(x) [x|->] { x->tl = 3; } [x|->tl:3]",
        "accepted\nadd\n",
        "proof refused: line 2 kind 60\n",
    ),
    (
        b"set(x) [x|->] { x->tl = 3; } [x|->tl:3]",
        "accepted\nprocedure set\nadd\n\nmutate 2\nreturn\ncell 1\nend\n",
        "proof refused: line 5 kind 60\n",
    ),
    (
        b"set(x) [x|->] { x->tl = 3; } [x|->tl:3]",
        "accepted\nprocedure set\nadd\nmutate 4294967296\n",
        "proof refused: line 4 kind 50\n",
    ),
    (
        b"set(x) [x|->] { x->tl = 3; } [x|->tl:3]",
        "accepted\nprocedure set\nadd\nmutate 4294967295\n",
        "proof refused: line 4 kind 60\n",
    ),
    (
        b"set(x) [x|->] { x->tl = 3; } [x|->tl:3]",
        "accepted\nprocedure set\nadd\nsplit 9223372036854775808 nil\n",
        "proof refused: line 4 kind 50\n",
    ),
    (
        b"set(x) [x|->] { x->tl = 3; } [x|->tl:3]",
        "accepted\nprocedure set\nadd\nmutate 1\n\n\n",
        "proof refused: line 5 kind 61\n",
    ),
    (
        b"set(x) [x|->] { x->tl = 3; } [x|->tl:3]",
        "accepted\nprocedure set\nadd\nmutate 1\nreturn\ncell 1\nend\n\nend\nno tag\n",
        "proof refused: line 10 kind 50\n",
    ),
    (b"", "accepted\n", "accepted\n"),
    (b"", "accepted\nend\n", "proof refused: line 2 kind 62\n"),
    (
        b"k(x) [ls(_y,nil) * x|->tl:_y] { } [ls(x,nil)]",
        "accepted\nprocedure k\nadd\nadd\nreturn\nhead 1\nexact 2\nend\n",
        "accepted\n",
    ),
    (
        b"cat(x, y, z) [x != z * ls(x,y) * ls(y,z)] {\n} [ls(x,z)]\n",
        "accepted\nprocedure cat\nadd\nadd\nadd\nreturn\njoin 1\nexact 2\nend\n",
        "proof refused: line 7 kind 60\n",
    ),
];

/// Proofs by each of the rules of states and of subtraction.
const ACCEPTED: [(&[u8], &str, &str); 14] = [
    (
        b"f(x,y) [ls(x,y) * list(y)] { } [list(x)]\n",
        "accepted; procedure f
add; add; return; split s0 nil; force 1; drop 1; drop 2; empty; end; join 1; exact 2; end
",
        "accepted\n",
    ),
    (
        b"f(x,y,z) [ls(x,y) * ls(y,z) * z|->] { } [z|-> * ls(x,z)]\n",
        "accepted\nprocedure f\nadd\nadd\nadd\nreturn\ncell 3\njoin 1\nexact 2\nend\n",
        "accepted\n",
    ),
    (
        b"f(x) [x|->r:_a,l:_b * tree(_a) * tree(_b)] { x->hd = 1; } [tree(x)]\n",
        "accepted\nprocedure f\nadd\nadd\nadd\nmutate 1\nreturn\nnode 1\nexact 3\nexact 2\nend\n",
        "accepted\n",
    ),
    (
        b"f(x) [list(x)] { } [if x == nil then emp else x|->tl:_y * list(_y)]\n",
        "accepted; procedure f
add; return; split s0 nil; drop 1; then; end; else; unroll 1; cell 2; exact 3; end
",
        "accepted\n",
    ),
    (
        b"f(x) [x|->tl:3] { } [x|->tl:_y * _y == 3]\n",
        "accepted\nprocedure f\nadd\nreturn\ncell 1\nsame\nend\n",
        "accepted\n",
    ),
    (
        b"f(x) [x|->tl:nil] { } [_y == x * _y|->tl:nil]\n",
        "accepted\nprocedure f\nadd\nreturn\nbind\ncell 1\nend\n",
        "accepted\n",
    ),
    (
        b"f(x,y) [x|-> * y|->] { } [x != y * x|-> * y|->]\n",
        "accepted\nprocedure f\nadd\nadd\nreturn\napart\ncell 1\ncell 2\nend\n",
        "accepted\n",
    ),
    (
        b"f(x) [ls(3,x)] { } [x == 3]\n",
        "accepted\nprocedure f\nadd\nforce 1\ndrop 1\nreturn\nsame\nend\n",
        "accepted\n",
    ),
    (
        b"f(x) [tree(x) * x == 3] { }\n",
        "accepted\nprocedure f\nadd\nadd\nabsurd\n",
        "accepted\n",
    ),
    (
        b"f(x;) { local t; t = new(); t->tl = t; x = t; dispose(x); }\n",
        "accepted\nprocedure f\nnew\nmutate 1\nassign\ndispose 1\nreturn\nend\n",
        "accepted\n",
    ),
    (
        b"f() { while (true) { } }\n",
        "accepted\nprocedure f\nloop\naround\nagain\nend\nadd\nabsurd\n",
        "accepted\n",
    ),
    (
        b"f(x,y) [x != nil * list(x) * list(y)] { } [list(x) * (if x == y then emp else list(y))]
",
        "accepted; procedure f
add; add; add; return; exact 1; split s0 s1; absurd; else; exact 2; end
",
        "accepted\n",
    ),
    (
        b"f(x,y) [list(x)] { local t; t = x; while (t != nil) [ls(x,t) * list(t)] { if (x == t) { } else { } t = t->tl; } } [list(x)]
",
        "accepted; procedure f
add; assign; loop; empty; exact 1; around; add; add; add; split s0 s2; drop 2; then; unroll 3
look 4; again; split s0 s3; absurd; head 4; empty; exact 5; end; else; unroll 3; look 4; again
split s0 s3; force 5; absurd; split s3 nil; drop 5; join 2; head 4; empty; empty; end; join 2
head 4; empty; exact 5; end; add; add; add; drop 3; return; exact 2; end
",
        "accepted\n",
    ),
    (
        b"set(x) [x|->] { x->tl = 3; } [x|->tl:3]\n",
        "accepted\nprocedure set\nsplit nil 3\nabsurd\nadd\nmutate 1\nreturn\ncell 1\nend\n",
        "accepted\n",
    ),
];

/// Proofs with one tag that has no row, by some condition of its rule.
const REFUSED: [(&[u8], &str, &str); 9] = [
    (
        b"f(x,y,z) [ls(x,y) * ls(y,z)] { } [ls(x,z)]\n",
        "accepted\nprocedure f\nadd\nadd\nreturn\njoin 1\n",
        "proof refused: line 6 kind 60\n",
    ),
    (
        b"f(x,y,z) [ls(x,y) * ls(y,z) * z|->] { } [z|-> * ls(x,z)]\n",
        "accepted\nprocedure f\nadd\nadd\nadd\nreturn\njoin 1\nexact 2\n",
        "proof refused: line 7 kind 60\n",
    ),
    (
        b"f(x) [x|->] { } [x|->tl:_y,hd:_y]\n",
        "accepted\nprocedure f\nadd\nreturn\ncell 1\n",
        "proof refused: line 5 kind 60\n",
    ),
    (
        b"f(x) [_a == x * x|->tl:_b * list(_b)] { } [x|->tl:_y * list(_y)]\n",
        "accepted\nprocedure f\nsplit s1 nil\n",
        "proof refused: line 3 kind 60\n",
    ),
    (
        b"f(x) [x|->hd:3] { } [list(x)]\n",
        "accepted\nprocedure f\nadd\nreturn\nhead 1\nsplit s1 nil\nempty\nend\nabsurd\n",
        "proof refused: line 9 kind 60\n",
    ),
    (
        b"f(x) [x|->l:nil] { } [tree(x)]\n",
        "accepted\nprocedure f\nadd\nreturn\nnode 1\nsplit s2 nil\n",
        "proof refused: line 6 kind 60\n",
    ),
    (
        b"set(x) [x|->] { x->tl = 3; } [x|->tl:3]\n",
        "accepted\nprocedure set\nsplit s1 nil\n",
        "proof refused: line 3 kind 60\n",
    ),
    (
        b"set(x) [x|->] { x->tl = 3; } [x|->tl:3]\n",
        "accepted\nprocedure set\nsplit s0 s0\n",
        "proof refused: line 3 kind 60\n",
    ),
    (
        b"set(x) [x|->] { x->tl = 3; } [x|->tl:3]\n",
        "accepted\nprocedure set\nadd\nmutate 1\nreturn\ncell 1\nend\nend\n",
        "proof refused: line 8 kind 62\n",
    ),
];

/// `recheck` says what is beside them of the files and the texts of their proofs.
pub fn are_rechecked(rt: &impl Host, cases: &[(&[u8], &str, &str)]) -> Result<(), Fail> {
    let alloc = rt.alloc();
    for (file, proof, answer) in cases {
        let mut shelf = MemShelf::new(alloc);
        shelf.add("p.sf", file)?;
        shelf.add("p.proof", text_of(alloc, proof)?.as_bytes())?;
        let words = ["recheck", "p.sf", "p.proof"];
        let status = if answer.starts_with("accepted") { 0 } else { 4 };
        says(rt, &words, &mut shelf, (answer, status))?;
    }
    Ok(())
}

#[test]
fn proofs_have_their_answers(rt: HostRuntime) -> Result<(), Fail> {
    are_rechecked(&rt, &CALL_PROOFS)?;
    are_rechecked(&rt, &TEXTS)?;
    are_rechecked(&rt, &ACCEPTED)?;
    are_rechecked(&rt, &REFUSED)
}

#[test]
fn a_proof_may_be_too_long(rt: HostRuntime) -> Result<(), Fail> {
    let alloc = rt.alloc();
    let mut shelf = shelf_with(alloc, "")?;
    let long = vec![in alloc; b' '; 33_554_433]?;
    shelf.add("long", long.as_slice())?;
    let words = ["recheck", "set.sf", "long"];
    let answer = ("proof refused: line 1 kind 51\n", 4);
    says(&rt, &words, &mut shelf, answer)
}
