//! Programs by subject, and the verdicts on them, worked out by hand.

use super::are_answered;
use std::test::Fail;

/// Programs, by what is shown by them.
const PROGRAMS: [(&str, &str); 42] = [
    // Lists and segments
    (
        "push(x; v) [list(x)] { local n; n = new(); n->hd = v; n->tl = x; x = n; } [list(x)]",
        "accepted; procedure push
add; new; mutate 2; mutate 2; assign; return; head 2; exact 1; end
",
    ),
    (
        "pop(x;) [x != nil * list(x)] { local n; n = x; x = n->tl; dispose n; } [list(x)]",
        "accepted; procedure pop
add; add; assign; unroll 1; look 2; dispose 2; return; exact 3; end
",
    ),
    (
        "chain(x, y) [ls(x,y) * list(y)] { } [list(x)]",
        "accepted; procedure chain
add; add; return; split s0 nil; force 1; drop 1; drop 2; empty; end; join 1; exact 2; end
",
    ),
    (
        "chain(x, y, z) [x != z * ls(x,y) * ls(y,z)] { } [ls(x,z)]",
        "failed chain at 1:47 EndNotAllocated
vars x = s0, y = s1, z = s2
apart s1 != s0, s2 != s0, s2 != s1
atoms 1: ls(s0,s1), 2: ls(s1,s2)
taken
want ls(s0,s2)
",
    ),
    (
        "chain(x, y, z) [ls(x,y) * ls(y,z) * z|->] { } [ls(x,z) * z|->]",
        "accepted; procedure chain
add; add; add; return; split s0 s2; force 1; drop 1; drop 2; empty; cell 3; end; join 1; exact 2
cell 3; end
",
    ),
    (
        "loose(x, y) [ls(x,y)] { } [list(x)]",
        "failed loose at 1:25 NoAtom
vars x = s0, y = s0
apart s0 != nil
atoms
taken 1: ls(s0,s0)
want ls(s0,nil)
",
    ),
    // Trees
    (
        "leaf(p;) { p = new(); p->l = nil; p->r = nil; } [tree(p)]",
        "accepted\nprocedure leaf\nnew\nmutate 1\nmutate 1\nreturn\nnode 1\nempty\nempty\nend\n",
    ),
    (
        "mirror(p) [tree(p)] { local i, j; if (p != nil) { i = p->l; j = p->r; mirror(i); mirror(j); p->l = j; p->r = i; } } [tree(p)]",
        "accepted; procedure mirror
add; split s0 nil; drop 1; else; return; empty; end; then; unroll 1; look 2; look 2; call; exact 3
give; add; call; exact 4; give; add; mutate 2; mutate 2; return; node 2; exact 6; exact 5; end
",
    ),
    (
        "graft(p, q) [tree(p) * tree(q)] { if (p != nil) p->l = q; } [tree(p)]",
        "failed graft at 1:59 Leak
vars p = nil, q = s1
apart s1 != nil
atoms 2: tree(s1)
taken
want emp
",
    ),
    (
        "both(p) [p != nil * tree(p)] { local i; i = p->l; p->r = i; } [tree(p)]",
        "failed both at 1:61 Leak
vars p = s0, i = nil
apart s0 != nil, s2 != nil
atoms 4: tree(s2)
taken 2: s0|->l:nil,r:nil, 3: tree(nil)
want emp
",
    ),
    // Loops and their invariants
    (
        "resource r (v) [list(v)] f() { while (true) { with r when (true) { if (v == nil) v = nil; } } }",
        "accepted; procedure f
loop; around; enter; add; split s0 nil; drop 1; then; assign; exit; empty; give; again; end; else
exit; exact 1; give; again; end; add; absurd
",
    ),
    (
        "drain(x) [list(x)] { local t; while (x != nil) [list(x)] { t = x; x = t->tl; dispose(t); } }",
        "accepted; procedure drain
add; assign; loop; exact 1; around; add; add; assign; unroll 2; look 3; dispose 3; again; exact 4
end; add; add; drop 2; return; end
",
    ),
    (
        "forgets(x) [list(x)] { while (x != nil) { x = nil; } } [list(x)]",
        "accepted; procedure forgets
add; assign; loop; around; add; assign; again; end; add; return; exact 1; end
",
    ),
    (
        "spins(x) [x|->] { while (true) [x|->] { x->hd = 1; } } [emp]",
        "accepted; procedure spins
add; loop; cell 1; around; add; mutate 2; again; cell 2; end; add; add; absurd
",
    ),
    (
        "loses(x) [x|->] { while (true) { x->hd = 1; } } [x|->]",
        "failed loses at 1:34 NoCell\nvars x = s0\napart s0 != nil\natoms\ntaken\nwant cell s0\n",
    ),
    // Calls, with references and values
    (
        "swap(x, y;) [list(x) * tree(y)] { local t; t = x; x = y; y = t; } [tree(x) * list(y)] p(a, b;) [tree(a) * list(b)] { swap(b, a;); } [list(a) * tree(b)]",
        "accepted; procedure swap
add; add; assign; assign; assign; return; exact 2; exact 1; end
procedure p
add; add; call; exact 2; exact 1; give; add; add; return; exact 4; exact 3; end
",
    ),
    (
        "set(x; v) { x = v; } [x == v] p(a;) { set(a; 3); set(a; a); } [a == 3]",
        "accepted; procedure set
assign; return; same; end
procedure p
call; give; add; call; give; add; return; same; end
",
    ),
    (
        "set(x; v) { x = v; } p(a;) { set(a; 3); } [a == 3]",
        "failed p at 1:41 NotEqual\nvars a = s1\napart\natoms\ntaken\nwant s1 == 3\n",
    ),
    (
        "end(x) [x|->] { dispose(x); } p(a) [a|->] { end(a); end(a); }",
        "failed p at 1:53 NoAtom\nvars a = s0\napart s0 != nil\natoms\ntaken\nwant s0|->\n",
    ),
    // Procedures that call themselves and each other
    (
        "copy(c; x) [list(x)] { local t, d; if (x == nil) c = nil; else { t = x->tl; copy(d; t); c = new(); c->tl = d; } } [list(x) * list(c)]",
        "accepted; procedure copy
add; split s1 nil; drop 1; then; assign; return; empty; empty; end; else; unroll 1; look 2; call
exact 3; give; add; add; new; mutate 6; return; head 2; exact 4; head 6; exact 5; end
",
    ),
    (
        "even(x; y) [list(y)] { if (y == nil) x = 1; else { y = y->tl; odd(x; y); } } [list(y)] odd(x; y) [list(y)] { if (y == nil) x = 0; else { y = y->tl; even(x; y); } } [list(y)]",
        "accepted; procedure even
add; assign; split s1 nil; drop 1; then; assign; return; empty; end; else; unroll 1; look 2; call
exact 3; give; add; return; head 2; exact 4; end
procedure odd
add; assign; split s1 nil; drop 1; then; assign; return; empty; end; else; unroll 1; look 2; call
exact 3; give; add; return; head 2; exact 4; end
",
    ),
    (
        "ever(x) [x|->] { ever(x); } [x != x]",
        "accepted\nprocedure ever\nadd\ncall\ncell 1\ngive\nadd\nabsurd\n",
    ),
    // Resources, entered and left
    (
        "resource r (v) [v|->hd:1] f() { with r when (true) { v->hd = 2; v->hd = 1; } }",
        "accepted\nprocedure f\nenter\nadd\nmutate 1\nmutate 1\nexit\ncell 1\ngive\nreturn\nend\n",
    ),
    (
        "resource r (v) [v|->hd:1] f() { with r when (true) { v->hd = 2; } }",
        "failed f at 1:33 NotEqual
vars r.v = s0
apart s0 != nil
atoms 1: s0|->hd:2
taken
want 2 == 1
",
    ),
    (
        "resource r (v) [list(v)] clear() { local t; with r when (v != nil) { while (v != nil) [list(v)] { t = v; v = t->tl; dispose(t); } } }",
        "accepted; procedure clear
enter; add; add; loop; exact 1; around; add; add; assign; unroll 2; look 3; dispose 3; again
exact 4; end; add; add; drop 2; exit; empty; give; return; end
",
    ),
    (
        "resource r (v) [list(v)] f(x) [list(v) * x|->] { x->tl = v; v = x; } [list(v)] g(x) [x|->] { with r when (true) { f(x); } }",
        "accepted; procedure f
add; add; mutate 2; assign; return; head 2; exact 1; end
procedure g
add; enter; add; call; exact 2; cell 1; give; add; exit; exact 3; give; return; end
",
    ),
    (
        "resource r (v) [if v == 0 then emp else v|->] f(x) [x|->] { with r when (v != 0) { dispose(v); } with r when (v == 0) { v = x; } }",
        "failed f at 1:61 NoAtom
vars x = s0, r.v = s1
apart s0 != nil, s1 != nil, s1 != 0
atoms 1: s0|->
taken
want s1|->
",
    ),
    // Two calls at once
    (
        "mark(x) [x|->] { x->hd = 1; } [x|->hd:1] p(x, y) [x|-> * y|->] { mark(x) || mark(y); } [x|->hd:1 * y|->hd:1]",
        "accepted; procedure mark
add; mutate 1; return; cell 1; end
procedure p
add; add; fork; cell 1; cell 2; give; add; add; return; cell 3; cell 4; end
",
    ),
    (
        "resource r (v) [list(v)] clear() [list(v)] { local t; while (v != nil) [list(v)] { t = v; v = t->tl; dispose(t); } } [v == nil] put(x) [x|->] { dispose(x); } p(x) [x|->] { with r when (true) { clear() || put(x); } }",
        "accepted; procedure clear
add; loop; exact 1; around; add; add; assign; unroll 2; look 3; dispose 3; again; exact 4; end
add; add; drop 2; return; same; end
procedure put
add; dispose 1; return; end
procedure p
add; enter; add; fork; exact 2; cell 1; give; add; exit; empty; give; return; end
",
    ),
    (
        "mark(x) [x|->] { x->hd = 1; } [x|->] p(x, y) [x|-> * y|->] { local z; z = x; mark(x) || mark(z); } [x|-> * y|->]",
        "failed p at 1:89 NoAtom
vars x = s0, y = s1, z = s0
apart s0 != nil, s1 != nil
atoms 2: s1|->
taken 1: s0|->
want s0|->
",
    ),
    (
        "make(x;) { x = new(); } [x|->] end(x) [x|->] { dispose(x); } p(a;) [a|->] { local b; end(a) || make(b;); a = b; } [a|->]",
        "accepted; procedure make
new; return; cell 1; end
procedure end
add; dispose 1; return; end
procedure p
add; fork; cell 1; give; add; assign; return; cell 2; end
",
    ),
    (
        "halves(p) [tree(p)] { local i, j; if (p != nil) { i = p->l; j = p->r; halves(i) || halves(j); } } [tree(p)]",
        "accepted; procedure halves
add; split s0 nil; drop 1; else; return; empty; end; then; unroll 1; look 2; look 2; fork; exact 3
exact 4; give; add; add; return; node 2; exact 5; exact 6; end
",
    ),
    // Existentials
    (
        "ring(x;) { x = new(); x->tl = x; } [x|->tl:_y * ls(_y,x)]",
        "accepted\nprocedure ring\nnew\nmutate 1\nreturn\ncell 1\nempty\nend\n",
    ),
    (
        "turn(x;) [x|->tl:_y * ls(_y,x)] { x = x->tl; } [x|->tl:_y * ls(_y,x)]",
        "accepted; procedure turn
add; add; look 1; return; split s1 s0; drop 2; cell 1; empty; end; unroll 2; cell 3; split s2 s1
absurd; join 4; head 1; empty; end
",
    ),
    (
        "same(x, y) [x|->hd:_v * y|->hd:_v] { } [y|->hd:_w * x|->hd:_w]",
        "accepted\nprocedure same\nadd\nadd\nreturn\ncell 2\ncell 1\nend\n",
    ),
    (
        "same(x, y) [x|->hd:_v * y|->hd:_u] { } [y|->hd:_w * x|->hd:_w]",
        "failed same at 1:38 NotEqual
vars x = s0, y = s1
apart s0 != nil, s1 != nil
atoms 1: s0|->hd:s2
taken 2: s1|->hd:s3
want s2 == s3
",
    ),
    (
        "named(x, y) [x|->tl:y] { } [_z == y * x|->tl:_z]",
        "accepted\nprocedure named\nadd\nreturn\nbind\ncell 1\nend\n",
    ),
    // Choices, as commands and among conjuncts
    (
        "either(x, b) [if b == 0 then list(x) else tree(x)] { } [if b != 0 then tree(x) else list(x)]",
        "accepted; procedure either
split s1 0; then; add; return; else; exact 1; end; else; add; return; then; exact 1; end
",
    ),
    (
        "pick(x; a, b) { if (a == b) x = a; else x = b; } [x == b]",
        "accepted; procedure pick
split s1 s2; then; assign; return; same; end; else; assign; return; same; end
",
    ),
    (
        "pick(x; a, b) { if (a == b) x = a; else x = b; } [x == a]",
        "failed pick at 1:48 NotEqual
vars x = s2, a = s1, b = s2
apart s2 != s1
atoms
taken
want s2 == s1
",
    ),
    (
        "known(x, y) [x|-> * y|->] { if (x == y) { x->hd = 1; dispose(x); } } [x|-> * y|-> * x != y]",
        "accepted\nprocedure known\nadd\nadd\nelse\nreturn\ncell 1\ncell 2\napart\nend\n",
    ),
    (
        "full(x, b) [if b == 1 then x|->tl:_n * list(_n) else x == nil] { } [list(x)]",
        "accepted; procedure full
split s1 1; then; add; add; return; head 1; exact 2; end; else; add; return; empty; end
",
    ),
];

#[test]
fn programs_have_their_verdicts(rt: HostRuntime) -> Result<(), Fail> {
    are_answered(&rt, &PROGRAMS)
}
