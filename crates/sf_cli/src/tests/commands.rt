//! Commands over the files of `files`, and what they say, worked out by hand.

use super::are_said;
use super::compared::reverse;
use super::files::{buffer, chain, late, leak, link_first, mi, mm, set, stay, tree, vacuous};
use std::test::Fail;

/// Files that are verified, by one worker or more, and what is said of them.
const VERDICTS: [(&str, &str, &str, u8); 17] = [
    ("verify set.sf", "", set::PROOF, 0),
    ("verify tree.sf", "", tree::PROOF, 0),
    ("verify leak.sf", "", leak::FAILURE, 1),
    ("verify mm.sf", "", mm::PROOF, 0),
    ("verify mm.sf --workers 4", "", mm::PROOF, 0),
    ("verify mi.sf", "", mi::PROOF, 0),
    ("verify mi3.sf", "", mi::FAILURE, 1),
    ("verify buf.sf", "", buffer::PROOF, 0),
    ("verify late.sf", "", late::FAILURE, 1),
    ("verify late.sf --workers 4", "", late::FAILURE, 1),
    ("verify rev.sf", "", reverse::PROOF, 0),
    ("verify cat.sf", "", chain::FAILURE, 1),
    ("verify k.sf", "", link_first::PROOF, 0),
    ("verify stay.sf", "", stay::PROOF, 0),
    ("verify vac.sf", "", vacuous::PROOF, 0),
    ("verify bad.sf", "", "file refused: 1 BadByte at 1:7\n", 3),
    ("verify none.sf", "", "read fault: none.sf\n", 7),
];

/// Files that are made and verified, and how large they and their proofs are.
const DEMOS: [(&str, &str, &str, u8); 3] = [
    (
        "demo 1",
        "",
        "demo 1: 1 procedures, 136 bytes, 17 tags\n",
        0,
    ),
    (
        "demo 2",
        "",
        "demo 2: 2 procedures, 198 bytes, 28 tags\n",
        0,
    ),
    (
        "demo 1000",
        "",
        "demo 1000: 1000 procedures, 89809 bytes, 14000 tags\n",
        0,
    ),
];

/// Texts of proofs that are given, whole or with one line other than due, and what is said of them.
const RECHECKS: [(&str, &str, &str, u8); 19] = [
    ("recheck tree.sf given", tree::PROOF, "accepted\n", 0),
    (
        "recheck tree.sf given",
        "accepted; procedure disp_tree
add; split s0 nil; drop 1; then; return; end; else; unroll 1; look 2; look 2; fork; exact 3
exact 4; give; dispose 2; return
",
        "proof refused: line 19 kind 61\n",
        4,
    ),
    (
        "recheck tree.sf given",
        "accepted; procedure disp_tree
add; split s0 nil; drop 1; drop 1; then; return; end; else; unroll 1; look 2; look 2; fork
exact 3; exact 4; give; dispose 2; return; end
",
        "proof refused: line 6 kind 60\n",
        4,
    ),
    (
        "recheck tree.sf given",
        "accepted; procedure disp_tree
add; split s0 nil; drop 1; then; return; end; else; unroll 1; look 2; look 2; fork; exact 3
exact 4; give; dispose 2; return; end; end
",
        "proof refused: line 20 kind 62\n",
        4,
    ),
    (
        "recheck tree.sf given",
        "accepted; procedure disp_tree
add; spilt s0 nil; drop 1; then; return; end; else; unroll 1; look 2; look 2; fork; exact 3
exact 4; give; dispose 2; return; end
",
        "proof refused: line 4 kind 50\n",
        4,
    ),
    (
        "recheck tree.sf given",
        "",
        "proof refused: line 1 kind 50\n",
        4,
    ),
    ("recheck rev.sf given", reverse::PROOF, "accepted\n", 0),
    (
        "recheck rev.sf given",
        "accepted; procedure reverse
add; assign; assign; loop; empty; exact 1; around; add; add; add; unroll 3; look 4; mutate 4
assign; assign; again; head 4; exact 2; exact 5; end; add; add; add; drop 3; return; exact 2
",
        "proof refused: line 29 kind 61\n",
        4,
    ),
    (
        "recheck rev.sf given",
        "accepted; procedure reverse
add; assign; assign; loop; empty; exact 1; around; add; add; add; unroll 3; look 4; mutate 4
assign; assign; again; head 4; exact 2; exact 5; end; add; add; add; drop 3; return; exact 2; end
end
",
        "proof refused: line 30 kind 62\n",
        4,
    ),
    ("recheck mm.sf given", mm::PROOF, "accepted\n", 0),
    (
        "recheck mm.sf given",
        "accepted; procedure alloc
enter; add; split s1 nil; drop 1; then; new; exit; exact 2; give; return; cell 2; end; else
assign; unroll 1; look 2; exit; exact 3; give; return; cell 2; end
procedure dealloc
add; enter; add; mutate 1; assign; exit; head 1; exact 2; give; return; end
",
        "proof refused: line 10 kind 60\n",
        4,
    ),
    (
        "recheck mm.sf given",
        "accepted; procedure alloc
enter; add; split s1 nil; drop 1; then; new; exit; empty; give; return; cell 2; end; else; assign
unroll 1; look 2; exit; exact 3; give; return; cell 2; end
procedure dealloc
add; enter; add; mutate 1; assign; exit; head 1; exact 2; give; return
",
        "proof refused: line 36 kind 61\n",
        4,
    ),
    ("recheck buf.sf given", buffer::PROOF, "accepted\n", 0),
    (
        "recheck buf.sf given",
        "accepted; procedure put
add; enter; split s2 0; then; add; assign; assign; exit; else; cell 1; give; return; end; else
add; add; absurd
procedure main
enter; split s2 0; then; add; absurd; else; add; add; assign; assign; exit; then; give; return
cell 1; end
procedure main
new; fork; cell 1; give; add; dispose 2; return; end
",
        "proof refused: line 20 kind 60\n",
        4,
    ),
    ("recheck k.sf given", link_first::PROOF, "accepted\n", 0),
    ("recheck set.sf none", "", "read fault: none\n", 7),
    ("recheck none.sf none", "", "read fault: none.sf\n", 7),
    (
        "recheck bad.sf none",
        "",
        "file refused: 1 BadByte at 1:7\n",
        3,
    ),
    (
        "recheck set.sf set.sf",
        "",
        "proof refused: line 1 kind 50\n",
        4,
    ),
];

#[test]
fn made_files_are_proved(rt: HostRuntime) -> Result<(), Fail> {
    are_said(&rt, &DEMOS)
}

#[test]
fn commands_have_their_answers(rt: HostRuntime) -> Result<(), Fail> {
    are_said(&rt, &VERDICTS)?;
    are_said(&rt, &RECHECKS)
}
