//! The examples of docs/LANGUAGE.md.

use crate::tests::files::{buffer, set};

/// A cell comes to the front of a list.
const PUSH: &str = "push(top; value) [list(top)] {
  local cell;
  cell = new();
  cell->hd = value;
  cell->tl = top;
  top = cell;
} [list(top)]
";

/// A list is disposed of.
const CLEAR: &str = "clear(top;) [list(top)] {
  local cell;
  while (top != nil) [list(top)] {
    cell = top;
    top = cell->tl;
    dispose(cell);
  }
} [top == nil]
";

/// A cell comes to the front of a list that is shared.
const SHARED_PUSH: &str = "resource stack (top) [list(top)]
push(value) {
  local cell;
  cell = new();
  cell->hd = value;
  with stack when (true) { cell->tl = top; top = cell; }
}
";

/// As there, and it is taken from the list by another task.
pub const STACK: &str = "resource stack (top) [list(top)]
push(value) {
  local cell;
  cell = new();
  cell->hd = value;
  with stack when (true) { cell->tl = top; top = cell; }
}
pop(value;) {
  local cell;
  with stack when (top != nil) { cell = top; top = cell->tl; }
  value = cell->hd;
  dispose(cell);
}
main(value;) { push(1) || pop(value;); }
";

/// A walk over a list.
const WALK: &str = "walk(x) [list(x)] {
  local t;
  t = x;
  while (t != nil) [ls(x,t) * list(t)] { t = t->tl; }
} [list(x)]
";

/// The examples of docs/LANGUAGE.md, copied, but for the one that is a file of `files`.
pub const LANGUAGE: [(&str, &str); 23] = [
    ("set(x) [x|->] { x->tl = 3; } [x|->tl:3]", set::PROOF),
    (
        "key, next;\nmark(x) [x|->] { x->key = 1; x->next = nil; } [x|->next:nil,key:1]",
        "accepted\nprocedure mark\nadd\nmutate 1\nmutate 1\nreturn\ncell 1\nend\n",
    ),
    (
        "second(x) [ls(_y,nil) * x|->tl:_y] { } [ls(x,nil)]",
        "accepted\nprocedure second\nadd\nadd\nreturn\nhead 1\nexact 2\nend\n",
    ),
    (
        "resource r (v) [tree(_x)]",
        "file refused: 40 Undetermined at 1:17\n",
    ),
    ("resource r (v) [v|->tl:_x * tree(_x)]", "accepted\n"),
    (
        "resource buf (c, full) [if full == 0 then emp else c|->]
put(x) [x|->] { with buf when (full == 0) { c = x; full = 1; } } [emp]
get(y;) [emp] { with buf when (full != 0) { y = c; full = 0; } } [y|->]
main() { local x, y; x = new(); put(x) || get(y;); dispose(y); }",
        buffer::PROOF,
    ),
    (
        "f(x) [if x == nil then x == _y else x|->tl:_y] { }",
        "failed f at 1:50 Leak\nvars x = s0\napart s0 != nil\n\
         atoms 1: s0|->tl:s1\ntaken\nwant emp\n",
    ),
    (
        "resource mm (f) [list(f)]\npeek(x;) { x = f; }",
        "file refused: 30 NotHeld at 2:16 f\n",
    ),
    (
        "resource mm (f) [list(f)]
peek(x;) { with mm when (true) { x = f; } }
look(x;) [f == nil] { x = f; }",
        "accepted; procedure peek
enter; add; assign; exit; exact 1; give; return; end
procedure look
add; assign; return; end
",
    ),
    (
        "resource r (v) []
a() { with r when (true) { v = nil; } }
b() { with r when (true) { a(); } }",
        "file refused: 31 Reentered at 3:28 r\n",
    ),
    (
        "f(x; y) { x = y; }\np(a;) { f(a; nil) || f(a; nil); }",
        "file refused: 34 ParallelShares at 2:9 a\n",
    ),
    (
        "f(x; y) { x = y; }\np(a, b;) { f(a; nil) || f(b; nil); }",
        "accepted\nprocedure f\nassign\nreturn\nend\nprocedure p\nfork\ngive\nreturn\nend\n",
    ),
    (
        PUSH,
        "accepted; procedure push
add; new; mutate 2; mutate 2; assign; return; head 2; exact 1; end
",
    ),
    (
        CLEAR,
        "accepted; procedure clear
add; loop; exact 1; around; add; add; assign; unroll 2; look 3; dispose 3; again; exact 4; end
add; add; drop 2; return; same; end
",
    ),
    (
        SHARED_PUSH,
        "accepted; procedure push
new; mutate 1; enter; add; mutate 1; assign; exit; head 1; exact 2; give; return; end
",
    ),
    (
        STACK,
        "accepted; procedure push
new; mutate 1; enter; add; mutate 1; assign; exit; head 1; exact 2; give; return; end
procedure pop
enter; add; add; assign; unroll 1; look 2; exit; exact 3; give; look 2; dispose 2; return; end
procedure main
fork; give; return; end
",
    ),
    (
        WALK,
        "failed walk at 4:3 Leak
vars x = s0, t = s0
apart s1 != nil, s1 != s0
atoms 2: ls(s0,s1), 4: s1|->tl:s0
taken 5: ls(s0,nil)
want emp
",
    ),
    (
        "f(x) [] { x->tl = 3; } []",
        "failed f at 1:11 NoCell\nvars x = s0\napart\natoms\ntaken\nwant cell s0\n",
    ),
    (
        "f(x) [x|->tl:3] { } [x|->tl:4]",
        "failed f at 1:19 NotEqual\nvars x = s0\napart s0 != nil\n\
         atoms 1: s0|->tl:3\ntaken\nwant 3 == 4\n",
    ),
    (
        "f(x,y) [] { } [x != y]",
        "failed f at 1:13 NotDifferent\nvars x = s0, y = s1\napart\natoms\ntaken\nwant s0 != s1\n",
    ),
    (
        "f(x) [] { } [list(x)]",
        "failed f at 1:11 NoAtom\nvars x = s0\napart s0 != nil\natoms\ntaken\nwant ls(s0,nil)\n",
    ),
    (
        "f(x) [x|->] { } []",
        "failed f at 1:15 Leak\nvars x = s0\napart s0 != nil\natoms 1: s0|->\ntaken\nwant emp\n",
    ),
    (
        "f(x, y, z) [x != y * x != z * ls(x,y)] { } [ls(x,z)]",
        "failed f at 1:42 EndNotAllocated
vars x = s0, y = s1, z = s2
apart s1 != s0, s2 != s0
atoms 1: ls(s0,s1)
taken
want ls(s0,s2)
",
    ),
];

/// Its examples with one line other: that line, and the one in its place.
pub const CHANGED: [(&str, &str, &str, &str); 3] = [
    (
        PUSH,
        "  cell->tl = top;\n",
        "  cell->tl = nil;\n",
        "failed push at 7:1 Leak
vars top = s2, value = s1, cell = s2
apart s0 != nil, s2 != nil
atoms 1: ls(s0,nil)
taken 2: s2|->hd:s1,tl:nil
want emp
",
    ),
    (
        CLEAR,
        "  while (top != nil) [list(top)] {\n",
        "  while (top != nil) {\n",
        "failed clear at 5:5 NoCell
vars top = s1, cell = s1
apart s1 != nil
atoms
taken
want cell s1
",
    ),
    (
        SHARED_PUSH,
        "  cell->hd = value;
  with stack when (true) { cell->tl = top; top = cell; }
",
        "  with stack when (true) { cell->tl = top; top = cell; }
  cell->hd = value;
",
        "failed push at 6:3 NoCell
vars value = s0, cell = s1
apart s1 != nil
atoms
taken
want cell s1
",
    ),
];
