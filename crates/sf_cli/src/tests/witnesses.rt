//! Files with failed obligations, and the concrete states that `witness` shows, worked out by hand.

use super::are_said;
use std::test::Fail;

/// Words, a file that they may name, what is said and its status.
const WITNESSES: [(&str, &str, &str, u8); 13] = [
    (
        "witness leak.sf",
        "",
        "witness disp_tree at 8:1 Leak\np = @1\ni = @2\nj = @3\n@1 hd=nil tl=nil l=@2 r=@3\nwant fails\n",
        1,
    ),
    (
        "witness late.sf",
        "",
        "witness put at 4:3 NoCell\nx = @1\nwant fails\n",
        1,
    ),
    // A segment from one up to another that may lie in the first
    (
        "witness given",
        "cat(x, y, z) [x != z * ls(x,y) * ls(y,z)] {
} [ls(x,z)]",
        "witness cat at 2:1 EndNotAllocated\nx = @1\ny = @2\nz = @3\n@1 hd=nil tl=@2 l=nil r=nil\n@2 hd=nil tl=@3 l=nil r=nil\nwant holds\n",
        1,
    ),
    // A field that is known
    (
        "witness given",
        "f(x) [x|->tl:3] { } [x|->tl:4]",
        "witness f at 1:19 NotEqual\nx = @1\n@1 hd=nil tl=3 l=nil r=nil\nwant fails\n",
        1,
    ),
    // One that isn't, and has to be what another is that isn't either
    (
        "witness given",
        "f(x) [x|->] { } [x|->hd:_v,tl:_v]",
        "witness f at 1:15 NotEqual\nx = @1\n@1 hd=nil tl=nil l=nil r=nil\nwant holds\n",
        1,
    ),
    // One that has to be what another is that isn't known
    (
        "witness given",
        "f(x) [x|->tl:3] { } [x|->hd:_v,tl:_v]",
        "witness f at 1:19 NotEqual\nx = @1\n@1 hd=nil tl=3 l=nil r=nil\nwant fails\n",
        1,
    ),
    // Two terms that nothing keeps apart
    (
        "witness given",
        "f(x,y) [] { } [x != y]",
        "witness f at 1:13 NotDifferent\nx = @1\ny = @2\nwant holds\n",
        1,
    ),
    // A list that isn't there
    (
        "witness given",
        "f(x) [] { } [list(x)]",
        "witness f at 1:11 NoAtom\nx = @1\nwant fails\n",
        1,
    ),
    // What was handed over is shown, and isn't counted
    (
        "witness given",
        "leak(x, y) [x|-> * y|->] {
  y->tl = x;
} [y|->tl:x]",
        "witness leak at 3:1 Leak\nx = @1\ny = @2\n@1 hd=nil tl=nil l=nil r=nil\n@2 hd=nil tl=@1 l=nil r=nil\nwant fails\n",
        1,
    ),
    // Two lists in a circle
    (
        "witness given",
        "f(x, y, z) [ls(x,y) * ls(y,z)] { } [ls(x,z)]",
        "witness f at 1:34 Leak\nx = @1\ny = @2\nz = @1\n@1 hd=nil tl=@2 l=nil r=nil\n@2 hd=nil tl=@1 l=nil r=nil\nwant fails\n",
        1,
    ),
    // Nothing fails
    ("witness set.sf", "", "accepted\n", 0),
    (
        "witness given",
        "f() { @ }",
        "file refused: 1 BadByte at 1:7\n",
        3,
    ),
    ("witness none.sf", "", "read fault: none.sf\n", 7),
];

#[test]
fn failed_obligations_have_witnesses(rt: HostRuntime) -> Result<(), Fail> {
    are_said(&rt, &WITNESSES)
}
