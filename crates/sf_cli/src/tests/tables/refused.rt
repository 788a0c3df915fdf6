//! Files that are refused, with the kind and the place.

use super::super::{Host, is_refused};
use std::test::Fail;

/// Files that are refused for their words, with the kind and the place.
const BAD_WORDS: [(&[u8], &str); 11] = [
    (
        b"x\n _a123456789012345678901234567890123456789012345678901234567890123;",
        "2 LongWord at 2:2",
    ),
    (b"/* x", "3 OpenComment at 1:1"),
    (
        b"f(x) [x|->hd:9223372036854775808] { }",
        "4 BadNumber at 1:14",
    ),
    (
        b"f(x) [x|->hd:-9223372036854775809] { }",
        "4 BadNumber at 1:14",
    ),
    (b"f(x) [x|->hd:1a] { }", "4 BadNumber at 1:14"),
    (
        b"f() { x->tl = 9223372036854775808; }",
        "4 BadNumber at 1:15",
    ),
    (b"f() { @ }", "1 BadByte at 1:7"),
    (b"f(x) [x | -> ] { }", "1 BadByte at 1:9"),
    (
        b"a1234567890123456789012345678901234567890123456789012345678901234;",
        "2 LongWord at 1:1",
    ),
    (b"\xff", "1 BadByte at 1:1"),
    (b"\0", "1 BadByte at 1:1"),
];

/// Files that are refused by the grammar.
const BAD_GRAMMAR: [(&[u8], &str); 9] = [
    (b"f() { } ]", "10 Unexpected at 1:9"),
    (b"f(x)", "10 Unexpected at 1:5"),
    (b"f(nil) { }", "10 Unexpected at 1:3"),
    (b"f(x) { x->hd = x }", "10 Unexpected at 1:18"),
    (b"f() { x = ; }", "10 Unexpected at 1:11"),
    (b"dll() { }", "10 Unexpected at 1:1"),
    (b"f(dll) { }", "10 Unexpected at 1:3"),
    (b"f(x) { x->dll = x; }", "10 Unexpected at 1:11"),
    (b"tl, pv; f(x) [dll(x,nil,x)] { }", "10 Unexpected at 1:26"),
];

/// Files that are refused for names, with the name.
const BAD_NAMES: [(&[u8], &str); 46] = [
    (b"f(x) { g(x); }", "20 UnknownName at 1:8 g"),
    (b"f(x,x) { }", "21 Twice at 1:5 x"),
    (b"f(x) { f(x;); }", "22 Arity at 1:8 f"),
    (
        b"resource a (v) [] resource b (v) []",
        "23 OwnedTwice at 1:31 v",
    ),
    (b"init(x) { }", "28 InitShape at 1:6 init"),
    (b"init() { } f() { init(); }", "29 InitCalled at 1:18 init"),
    (b"init(x;) { }", "28 InitShape at 1:6 init"),
    (b"init() [nil == nil] { }", "28 InitShape at 1:9 init"),
    (b"init() { init(); }", "29 InitCalled at 1:10 init"),
    (b"resource a (v) [w == nil]", "24 ForeignVariable at 1:17 w"),
    (b"q; f(x) [list(x)] { }", "25 MissingField at 1:10 tl"),
    (
        b"f() { with r when (x == nil) { } }",
        "20 UnknownName at 1:12 r",
    ),
    (b"q; f(x) { x->tl = 1; }", "20 UnknownName at 1:14 tl"),
    (b"f(x) [x|->q:1] { }", "20 UnknownName at 1:11 q"),
    (b"f() { local x; } [x == nil]", "20 UnknownName at 1:19 x"),
    (b"f() { } f() { }", "21 Twice at 1:9 f"),
    (b"f(x; x) { }", "21 Twice at 1:6 x"),
    (b"a; b; a;", "21 Twice at 1:7 a"),
    (b"resource a (v, v) []", "21 Twice at 1:16 v"),
    (b"f(x) [x|->tl:1,hd:2,tl:3] { }", "21 Twice at 1:21 tl"),
    (
        b"resource a (v) [] resource b (w, v) []",
        "23 OwnedTwice at 1:34 v",
    ),
    (
        b"resource a (v) [w == nil] resource b (w) []",
        "24 ForeignVariable at 1:17 w",
    ),
    (
        b"q, tl; f(x) [list(x) * tree(x)] { }",
        "25 MissingField at 1:24 l",
    ),
    (b"q; f(x) [tree(y)] { }", "25 MissingField at 1:10 l"),
    (b"f(x) { f(y,y); }", "22 Arity at 1:8 f"),
    (b"f(x;) { f(x); }", "22 Arity at 1:9 f"),
    (b"f(x) [x|->hd:1,hd:2] { }", "21 Twice at 1:16 hd"),
    (b"f(x) [x|->next:1] { }", "20 UnknownName at 1:11 next"),
    (b"f(x) [y|->] { }", "20 UnknownName at 1:7 y"),
    (b"a; f(x) [x|->hd:1] { }", "20 UnknownName at 1:14 hd"),
    (b"l; f(x) [tree(x)] { }", "25 MissingField at 1:10 r"),
    (b"g() { f(nil); } f() { } f(x) { }", "22 Arity at 1:7 f"),
    (b"g() { f(); } f() { } f(x) { }", "21 Twice at 1:22 f"),
    (b"f(x) { local x; }", "21 Twice at 1:14 x"),
    (b"f() { local a, b; local a; }", "21 Twice at 1:25 a"),
    (b"f(x) [list(x)] { } q;", "25 MissingField at 1:7 tl"),
    (
        b"resource a (v) [] resource b (v, v) []",
        "23 OwnedTwice at 1:31 v",
    ),
    (b"a,b,c,d,e,f,g,h,i,j,k,l,m,n,o,p,a;", "21 Twice at 1:33 a"),
    (b"f(x) [dll(x,nil,x,nil)] { }", "25 MissingField at 1:7 pv"),
    (
        b"pv; f(x) [dll(x,nil,x,nil)] { }",
        "25 MissingField at 1:11 tl",
    ),
    (
        b"q; f(x) [dll(y,nil,x,nil)] { }",
        "25 MissingField at 1:10 tl",
    ),
    (
        b"tl; f(x) [list(x) * dll(x,nil,y,nil)] { }",
        "25 MissingField at 1:21 pv",
    ),
    (
        b"tl, pv; f(x) [dll(y,nil,x,nil)] { }",
        "20 UnknownName at 1:19 y",
    ),
    (
        b"tl, pv; f(x) [dll(x,y,z,w)] { }",
        "20 UnknownName at 1:21 y",
    ),
    (
        b"tl, pv; f(x) [dll(x,x,z,w)] { }",
        "20 UnknownName at 1:23 z",
    ),
    (
        b"tl, pv; f(x) [dll(x,x,x,w)] { }",
        "20 UnknownName at 1:25 w",
    ),
];

/// Files that break conditions on variables.
const BROKEN_CONDITIONS: [(&[u8], &str); 24] = [
    (
        b"resource r (v) [] f() [tree(_x)] { v = nil; }",
        "30 NotHeld at 1:36 v",
    ),
    (
        b"h(x,y;) { } p(a;) { h(a,a;) || h(a,a;); }",
        "32 SameReference at 1:25 a",
    ),
    (
        b"resource mm (f) [list(f)]\npeek(x;) {\n  x = f;\n}",
        "30 NotHeld at 3:7 f",
    ),
    (
        b"resource r (v) []
a() { with r when (true) { } }
b() { a(); }
c() { b(); }
d() { with r when (true) { c(); } }",
        "31 Reentered at 5:28 r",
    ),
    (
        b"h(x,y;) { }\nq(x;) { h(x,x;); }",
        "32 SameReference at 2:13 x",
    ),
    (
        b"resource a (v) [] f(x;) [v == nil] { }\np() { with a when (true) { f(v;); } }",
        "33 ReferenceIsFree at 2:30 v",
    ),
    (
        b"f(x;) { }\ng(x;) { }\np(x;) { f(x;) || g(x;); }",
        "34 ParallelShares at 3:9 x",
    ),
    (
        b"resource r (v) [] f() { with r when (true) { with r when (true) { } } }",
        "31 Reentered at 1:46 r",
    ),
    (
        b"h(x,y,z;) { } q(x;y) { local z; h(x,z,x;); }",
        "32 SameReference at 1:39 x",
    ),
    (
        b"f(x;y) { } g(x;) { } p(a;) { f(a;nil) || g(a;); }",
        "34 ParallelShares at 1:30 a",
    ),
    (
        b"resource r (v) [] f() { v = nil; }",
        "30 NotHeld at 1:25 v",
    ),
    (
        b"resource r (v) [] f() { v = nil; } g() { v = nil; }",
        "30 NotHeld at 1:25 v",
    ),
    (
        b"resource r (v) [] resource s (w) [] f() [v == nil] { with r when (w == nil) { } }",
        "30 NotHeld at 1:67 w",
    ),
    (
        b"resource r (v) [] resource s (w) [] f() [v == nil] { with r when (true) { w = nil; } }",
        "31 Reentered at 1:54 r",
    ),
    (
        b"resource r (v) [] resource s (w) [] g(x;) [v == nil] { } f() { g(w;); }",
        "30 NotHeld at 1:64 v",
    ),
    (
        b"resource r (v) [] resource s (w) [] g() [w == nil * v == nil] { } f() { g(); }",
        "30 NotHeld at 1:73 v",
    ),
    (
        b"resource r (v, w) [] g(x) [v == nil * w == nil] { } p() [v == nil] { g(nil) || g(w); }",
        "34 ParallelShares at 1:70 w",
    ),
    (
        b"h(x,y;) { } q(x) { h(x,x;); }",
        "32 SameReference at 1:24 x'",
    ),
    (
        b"f(a;) { } g(a;) { } p(x) { f(x;) || g(x;); }",
        "34 ParallelShares at 1:28 x'",
    ),
    (
        b"resource r (v) [] f() { while (true) [v == nil] { } }",
        "30 NotHeld at 1:39 v",
    ),
    (
        b"resource r (v) [] a() { with r when (true) { } } b() { } c() { with r when (true) { b() || a(); } }",
        "31 Reentered at 1:92 r",
    ),
    (
        b"resource r (v) [] f(x;) [v == nil] { } k(z;) { } p(z;) { with r when (true) { k(z;) || f(v;); } }",
        "33 ReferenceIsFree at 1:90 v",
    ),
    (
        b"resource r (v) [] f() { local v; } [v == nil] g() { f(); }",
        "30 NotHeld at 1:53 v",
    ),
    (
        b"resource r (v) [] resource s (w) [] f() { with r when (true) { with r when (w == nil) { } } }",
        "30 NotHeld at 1:77 w",
    ),
];

/// Files with annotations that aren't determined.
const UNDETERMINED: [(&[u8], &str); 13] = [
    (b"resource r (v) [tree(_x)]", "40 Undetermined at 1:17"),
    (
        b"f(x) [(if x == nil then _y == nil else emp) * ls(x,_y)] { }",
        "40 Undetermined at 1:8",
    ),
    (
        b"f(x) [if _y == nil then emp else emp * list(x)] { }",
        "40 Undetermined at 1:7",
    ),
    (b"f(x) [_a|->tl:x] { }", "40 Undetermined at 1:7"),
    (
        b"f(x) { } [list(_q)] resource r (v) [list(_w)]",
        "40 Undetermined at 1:11",
    ),
    (b"f(x) [_a == _a] { }", "40 Undetermined at 1:7"),
    (
        b"f(x) [if x == nil then list(_z) else emp] { }",
        "40 Undetermined at 1:7",
    ),
    (
        b"f(x) { while (true) [list(_l)] { } }",
        "40 Undetermined at 1:22",
    ),
    (
        b"tl, pv; f(x) [dll(_a,x,x,x)] { }",
        "40 Undetermined at 1:15",
    ),
    (
        b"tl, pv; f(x) [dll(x,_a,x,x)] { }",
        "40 Undetermined at 1:15",
    ),
    (
        b"tl, pv; f(x) [dll(x,x,_a,x)] { }",
        "40 Undetermined at 1:15",
    ),
    (
        b"tl, pv; f(x) [dll(x,x,x,_a)] { }",
        "40 Undetermined at 1:15",
    ),
    (
        b"tl, pv; f(x) [dll(_n,x,_p,nil) * x|->tl:_n] { }",
        "40 Undetermined at 1:15",
    ),
];

/// Each of the files is refused for what is beside it.
fn are_refused(rt: &impl Host, cases: &[(&[u8], &str)]) -> Result<(), Fail> {
    for (bytes, fault) in cases {
        is_refused(rt, bytes, fault)?;
    }
    Ok(())
}

#[test]
fn files_are_refused_at_their_first_fault(rt: HostRuntime) -> Result<(), Fail> {
    let tables: [&[(&[u8], &str)]; 5] = [
        &BAD_WORDS,
        &BAD_GRAMMAR,
        &BAD_NAMES,
        &BROKEN_CONDITIONS,
        &UNDETERMINED,
    ];
    for table in tables {
        are_refused(&rt, table)?;
    }
    Ok(())
}
