//! Files with what is said of them: small ones, of each part of the language.

use crate::tests::files::set;

pub const KEPT: &str = "accepted\nprocedure f\nadd\nreturn\ncell 1\nend\n";

pub const EMPTY: &str = "accepted\nprocedure f\nreturn\nend\n";

pub const WRITTEN: &str = "accepted\nprocedure f\nadd\nmutate 1\nreturn\ncell 1\nend\n";

/// Files with what is said of them.
pub const ANSWERS: [(&str, &str); 36] = [
    ("", "accepted\n"),
    ("set(x) [x|->] { x->tl = 3; } [x|->tl:3]", set::PROOF),
    (
        "set(x) [] { x->tl = 3; }",
        "failed set at 1:13 NoCell\nvars x = s0\napart\natoms\ntaken\nwant cell s0\n",
    ),
    (
        "v(x) [x|-> * x|->] { }",
        "accepted\nprocedure v\nadd\nadd\nabsurd\n",
    ),
    ("f(x;) { }", EMPTY),
    ("f() { }", EMPTY),
    ("/* c */ f() { }", EMPTY),
    ("f() { { } {{ }} }", EMPTY),
    (
        "f() { } g() { }",
        "accepted\nprocedure f\nreturn\nend\nprocedure g\nreturn\nend\n",
    ),
    (
        "f() { } g(x) [x|->] { } h(x) [x|->] { }",
        "failed g at 1:23 Leak\nvars x = s0\napart s0 != nil\natoms 1: s0|->\ntaken\nwant emp\n",
    ),
    (
        "f(x) [x|->hd:9223372036854775807] { } [x|->hd:9223372036854775807]",
        KEPT,
    ),
    (
        "f(x) [x|->hd:-9223372036854775808] { } [x|->hd:-9223372036854775808]",
        KEPT,
    ),
    ("f(x) [x|->hd:-0] { } [x|->hd:0]", KEPT),
    ("f(x) [x|->hd:NULL] { } [x|->hd:nil]", KEPT),
    ("f(x) [(x|-> * emp)] { } [((x|->))]", KEPT),
    ("f(x) [x|->hd:x,tl:x] { } [x|->tl:x]", KEPT),
    ("f\t(\r\nx )\n[ x|-> ]\n{ }\n[ x |-> ]\n", KEPT),
    ("f(x) [nil|->] { }", "accepted\nprocedure f\nadd\nabsurd\n"),
    (
        "f(x) [x|->hd:1] { } [x|->hd:2]",
        "failed f at 1:19 NotEqual
vars x = s0
apart s0 != nil
atoms 1: s0|->hd:1
taken
want 1 == 2
",
    ),
    (
        "f(x) [x|->] { } [x|->hd:nil]",
        "failed f at 1:15 NotEqual
vars x = s0
apart s0 != nil
atoms 1: s0|->
taken
want ? == nil
",
    ),
    (
        "f(x) [x|->] { }",
        "failed f at 1:15 Leak\nvars x = s0\napart s0 != nil\natoms 1: s0|->\ntaken\nwant emp\n",
    ),
    (
        "f(x) { } [x|->]",
        "failed f at 1:8 NoAtom\nvars x = s0\napart\natoms\ntaken\nwant s0|->\n",
    ),
    ("f(x) [x|->] { x->hd = 007; } [x|->hd:7]", WRITTEN),
    ("f(x) [x|->] { {x->hd = 1;} } [x|->hd:1]", WRITTEN),
    ("a; f(x) [x|->a:1] { x->a = 2; } [x|->a:2]", WRITTEN),
    ("f(y) [y|->] { local x; y->hd = x; } [y|->hd:nil]", WRITTEN),
    ("f(y;) [y|->] { y->hd = y; } [y|->hd:y]", WRITTEN),
    (
        "f(x, y) [x|-> * y|->] { x->hd = y; y->tl = nil; } [y|->tl:nil * x|->hd:y]",
        "accepted\nprocedure f\nadd\nadd\nmutate 1\nmutate 2\nreturn\ncell 2\ncell 1\nend\n",
    ),
    (
        "f(x; y) [x|-> * y|->] { x->hd = y; } [x|->hd:y * y|->]",
        "accepted\nprocedure f\nadd\nadd\nmutate 1\nreturn\ncell 1\ncell 2\nend\n",
    ),
    ("f(x) [x|->hd:_y] { } [x|->]", KEPT),
    (
        "f(x) [x == nil] { }",
        "accepted\nprocedure f\nadd\nreturn\nend\n",
    ),
    (
        "f(x) { } [list(x)]",
        "failed f at 1:8 NoAtom\nvars x = s0\napart s0 != nil\natoms\ntaken\nwant ls(s0,nil)\n",
    ),
    (
        "f(x) { x = nil; }",
        "accepted\nprocedure f\nassign\nassign\nreturn\nend\n",
    ),
    (
        "f(x;) { x = new(); }",
        "failed f at 1:20 Leak\nvars x = s1\napart s1 != nil\natoms 1: s1|->\ntaken\nwant emp\n",
    ),
    (
        "f() { } g() { f(); }",
        "accepted\nprocedure f\nreturn\nend\nprocedure g\ncall\ngive\nreturn\nend\n",
    ),
    ("resource r () []", "accepted\n"),
];
