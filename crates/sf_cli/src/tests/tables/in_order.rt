//! Files that are near to ones that are refused, and are in order.

use super::answers::EMPTY;

/// Files with which nothing is wrong, and what is said of them.
pub const IN_ORDER: [(&str, &str); 29] = [
    (
        "f() [__ == nil] { }",
        "accepted\nprocedure f\nadd\nreturn\nend\n",
    ),
    ("f() { } /* \u{e4} @ */", EMPTY),
    (
        "f(x) { x->tl = -9223372036854775808; }",
        "failed f at 1:8 NoCell\nvars x = s0\napart\natoms\ntaken\nwant cell s0\n",
    ),
    (
        "f(x) { x->tl = 9223372036854775807; }",
        "failed f at 1:8 NoCell\nvars x = s0\napart\natoms\ntaken\nwant cell s0\n",
    ),
    ("f(;) { }", EMPTY),
    ("f(x;) { }", EMPTY),
    ("resource r () []", "accepted\n"),
    (
        "f(x) { dispose x; dispose(x); }",
        "failed f at 1:8 NoCell\nvars x = s0\napart\natoms\ntaken\nwant cell s0\n",
    ),
    (
        "f(x) { nil->tl = 3; 3->hd = nil; }",
        "failed f at 1:8 NoCell\nvars x = s0\napart\natoms\ntaken\nwant cell nil\n",
    ),
    (
        "f(x) [if x == nil then emp else if (x != nil) then emp else emp * x == nil] { }",
        "accepted\nprocedure f\nsplit s0 nil\nthen\nreturn\nend\nelse\nthen\nreturn\nend\n",
    ),
    (
        "f(x) [if x == nil then x == _y else x|->tl:_y] { }",
        "failed f at 1:50 Leak
vars x = s0
apart s0 != nil
atoms 1: s0|->tl:s1
taken
want emp
",
    ),
    (
        "f(x) [ls(_a,_b) * _b|->tl:_a * x|->tl:_b] { }",
        "failed f at 1:45 Leak
vars x = s0
apart s0 != nil, s1 != nil
atoms 1: s0|->tl:s1, 2: s1|->tl:s1
taken
want emp
",
    ),
    (
        "f(x) [_a == _b * _b == x] { }",
        "accepted\nprocedure f\nadd\nadd\nreturn\nend\n",
    ),
    (
        "f(x) [if x == nil then (if x == nil then _z == x * list(_z) else _z == nil) else emp] { }",
        "accepted; procedure f
split s0 nil; then; then; add; add; drop 1; return; end; else; return; end
",
    ),
    (
        "resource r (v) [] f() { with r when (v == nil) { v = nil; } }",
        "accepted\nprocedure f\nenter\nadd\nassign\nexit\ngive\nreturn\nend\n",
    ),
    (
        "resource r (v) [] resource s (w) [] f() { with r when (true) { with s when (v == w) { } } }",
        "accepted\nprocedure f\nenter\nenter\nadd\nexit\ngive\nexit\ngive\nreturn\nend\n",
    ),
    (
        "resource r (v) [] f() { local v; v = nil; } [v == nil]",
        "failed f at 1:43 NotEqual\nvars v = nil, r.v = s0\napart\natoms\ntaken\nwant s0 == nil\n",
    ),
    (
        "f(y) { } p(a;) { f(a) || f(a); }",
        "accepted\nprocedure f\nreturn\nend\nprocedure p\nfork\ngive\nreturn\nend\n",
    ),
    (
        "resource r (v) [] g(y) { } p() [v == nil] { g(v) || g(v); }",
        "accepted\nprocedure g\nreturn\nend\nprocedure p\nadd\nfork\ngive\nreturn\nend\n",
    ),
    (
        "resource r (v) [] f() [v == nil] { v = nil; g(); } g() { } h() { with r when (true) { f(); } }",
        "failed h at 1:87 NotEqual\nvars r.v = s0\napart\natoms\ntaken\nwant s0 == nil\n",
    ),
    (
        "f(x) [_a == _a * _a == x] { }",
        "accepted\nprocedure f\nadd\nadd\nreturn\nend\n",
    ),
    (
        "f(x) [_a != x * x|->tl:_a] { }",
        "failed f at 1:30 Leak
vars x = s0
apart s0 != nil, s1 != s0
atoms 1: s0|->tl:s1
taken
want emp
",
    ),
    (
        "resource r (v) [] f(v;) { v = nil; }",
        "accepted\nprocedure f\nassign\nreturn\nend\n",
    ),
    (
        "resource r (v) [] f(v;) [v == nil] { } g(x;) { f(x;); }",
        "failed g at 1:48 NotEqual\nvars x = s0\napart\natoms\ntaken\nwant s0 == nil\n",
    ),
    (
        "resource r (v) [] f() { local v; while (v != nil) [v == nil] { } }",
        "accepted\nprocedure f\nloop\nsame\naround\nadd\nadd\nabsurd\nadd\nadd\nreturn\nend\n",
    ),
    (
        "f() { with r when (v == nil) { } } resource r (v) []",
        "accepted\nprocedure f\nenter\nadd\nexit\ngive\nreturn\nend\n",
    ),
    (
        "a; tl; f(x) [list(x)] { }",
        "failed f at 1:25 Leak
vars x = s0
apart s0 != nil
atoms 1: ls(s0,nil)
taken
want emp
",
    ),
    ("f; resource f (f) [] f(g;) { }", EMPTY),
    (
        "f(x) [(if x == nil then _y == nil else emp) * (if x == nil then emp else _y == nil)] { }",
        "accepted; procedure f
split s0 nil; then; add; then; return; end; else; else; add; return; end
",
    ),
];
