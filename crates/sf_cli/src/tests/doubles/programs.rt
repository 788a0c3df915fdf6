//! Programs with doubly linked lists, and the verdicts on them.

/// Programs with doubly linked lists that are proved.
pub const PROVED_DOUBLES: [(&str, &str); 15] = [
    (
        "tl, pv; cat(x,m,y,l) [dll(x,nil,m,y) * dll(y,m,l,nil)] { } [dll(x,nil,l,nil)]",
        "accepted; procedure cat
add; add; return; split s0 nil; force 1; force 1; drop 1; force 2; drop 2; empty; end; join 1
exact 2; end
",
    ),
    (
        "tl, pv; last(v; x, l) [x != nil * dll(x,nil,l,nil)] { v = l->pv; } [dll(x,nil,l,nil)]",
        "accepted; procedure last
add; add; back 1; look 3; return; join 2; head 3; empty; end
",
    ),
    (
        "tl, pv; first(v; x, l) [x != nil * dll(x,nil,l,nil)] { v = x->tl; } [dll(x,nil,l,nil)]",
        "accepted; procedure first
add; add; unroll 1; look 2; return; head 2; exact 3; end
",
    ),
    (
        "tl, pv; one(x;) { x = new(); x->tl = nil; x->pv = nil; } [dll(x,nil,x,nil)]",
        "accepted; procedure one
new; mutate 1; mutate 1; return; head 1; empty; end
",
    ),
    (
        "tl, pv; push(x, l;) [dll(x,nil,l,nil)] { local n; n = new(); n->tl = x; n->pv = nil; if (x == nil) l = n; else x->pv = n; x = n; } [dll(x,nil,l,nil)]",
        "accepted; procedure push
add; new; mutate 2; mutate 2; split s0 nil; force 1; drop 1; then; assign; assign; return; head 2
empty; end; else; unroll 1; mutate 3; assign; return; head 2; head 3; exact 4; end
",
    ),
    (
        "tl, pv; pop(x, l;) [x != nil * dll(x,nil,l,nil)] { local n; n = l->pv; dispose(l); if (n == nil) x = nil; else n->tl = nil; l = n; } [dll(x,nil,l,nil)]",
        "accepted; procedure pop
add; add; back 1; look 3; dispose 3; split s2 nil; then; assign; assign; return; empty
split s0 s1; drop 2; end; absurd; else; split s0 s1; force 2; absurd; back 2; mutate 5; assign
return; join 4; head 5; empty; end
",
    ),
    (
        "tl, pv; all(x, l) [dll(x,nil,l,nil)] { local p; while (l != nil) [dll(x,nil,l,nil)] { p = l->pv; if (p == nil) x = nil; else p->tl = nil; dispose(l); l = p; } }",
        "accepted; procedure all
add; assign; assign; loop; exact 1; around; add; add; split s3 nil; force 2; absurd; back 2
look 4; split s5 nil; then; assign; dispose 4; assign; again; empty; split s3 s4; drop 3; end
absurd; else; split s3 s4; force 3; absurd; back 3; mutate 6; dispose 4; assign; again; join 5
head 6; empty; end; add; add; return; split s3 nil; drop 2; end; absurd
",
    ),
    (
        "tl, pv; both(x, l) [x != nil * dll(x,nil,l,nil)] { } [l != nil * dll(x,nil,l,nil)]",
        "accepted; procedure both
add; add; return; apart; exact 1; end
",
    ),
    (
        "tl, pv; nothing(x, p, l) [dll(x,p,l,x)] { } [p == l]",
        "accepted; procedure nothing
add; force 1; drop 1; return; same; end
",
    ),
    (
        "tl, pv; gone(x, y, l) [x|-> * dll(x,nil,l,y)] { } [x|-> * x == y * l == nil]",
        "accepted; procedure gone
add; add; force 2; force 2; drop 2; return; cell 1; same; same; end
",
    ),
    (
        "tl, pv; none(x) [dll(x,nil,nil,x)] { }",
        "accepted; procedure none
add; drop 1; return; end
",
    ),
    (
        "tl, pv; single(x) [x != nil * dll(x,nil,x,nil)] { } [x|->tl:nil,pv:nil]",
        "accepted; procedure single
add; add; return; unroll 1; split s1 nil; drop 3; cell 2; end; absurd
",
    ),
    (
        "hd, tl, pv; ends(h) [h|->hd:_a,tl:_b * dll(_a,nil,_b,nil)] { } [h|->hd:_c,tl:_d * dll(_c,nil,_d,nil)]",
        "accepted; procedure ends
add; add; return; cell 1; exact 2; end
",
    ),
    (
        "tl, pv; at(v; a, x, b, c) [x != c * dll(a,nil,x,nil) * dll(x,nil,b,c)] { v = x->tl; } [dll(x,nil,b,c) * a == nil * x == nil]",
        "accepted; procedure at
add; add; add; unroll 2; look 3; return; head 3; exact 4; split s1 nil; force 1; absurd; absurd
",
    ),
    (
        "tl, pv; middle(x, a, b, l) [x != nil * dll(a,nil,b,x) * x|->tl:_n,pv:b * dll(_n,x,l,nil)] { } [dll(a,nil,l,nil)]",
        "accepted; procedure middle
add; add; add; add; return; split s1 nil; absurd; join 1; head 2; exact 3; end
",
    ),
];

/// Programs with doubly linked lists that aren't, of each kind.
pub const FAILED_DOUBLES: [(&str, &str); 10] = [
    (
        "tl, pv; w(x,l) [x != nil * dll(x,nil,l,nil)] { } [dll(x,x,l,nil)]",
        "failed w at 1:48 NotEqual
vars x = s0, l = s1
apart s0 != nil
atoms 1: dll(s0,nil,s1,nil)
taken
want nil == s0
",
    ),
    (
        "tl, pv; one(x;) { x = new(); x->tl = nil; x->pv = nil; } [dll(x,nil,nil,nil)]",
        "failed one at 1:56 NotEqual
vars x = s1
apart s1 != nil
atoms
taken 1: s1|->tl:nil,pv:nil
want s1 == nil
",
    ),
    (
        "tl, pv; one(x;) { x = new(); x->tl = nil; } [dll(x,nil,x,nil)]",
        "failed one at 1:43 NotEqual
vars x = s1
apart s1 != nil
atoms 1: s1|->tl:nil
taken
want ? == nil
",
    ),
    (
        "tl, pv; one(x;) { x = new(); x->tl = nil; x->pv = x; } [dll(x,nil,x,nil)]",
        "failed one at 1:54 NotEqual
vars x = s1
apart s1 != nil
atoms 1: s1|->tl:nil,pv:s1
taken
want s1 == nil
",
    ),
    (
        "tl, pv; lost(x, l) { } [dll(x,nil,l,nil)]",
        "failed lost at 1:22 NotEqual
vars x = nil, l = s1
apart
atoms
taken
want nil == s1
",
    ),
    (
        "tl, pv; cat(x,m,y,l,z) [x != z * dll(x,nil,m,y) * dll(y,m,l,z)] { } [dll(x,nil,l,z)]",
        "failed cat at 1:67 EndNotAllocated
vars x = s0, m = s1, y = s2, l = s3, z = s4
apart s2 != s0, s4 != s0, s4 != s2
atoms 1: dll(s0,nil,s1,s2), 2: dll(s2,s1,s3,s4)
taken
want dll(s0,nil,s3,s4)
",
    ),
    (
        "tl, pv; kept(x, l) [dll(x,nil,l,nil)] { }",
        "failed kept at 1:41 Leak
vars x = s0, l = s1
apart s0 != nil
atoms 1: dll(s0,nil,s1,nil)
taken
want emp
",
    ),
    (
        "tl, pv; last(v; x, l) [dll(x,nil,l,nil)] { v = l->pv; } [dll(x,nil,l,nil)]",
        "failed last at 1:44 NoCell
vars v = s0, x = nil, l = nil
apart
atoms
taken
want cell nil
",
    ),
    (
        "tl, pv; flat(x, l) [x != nil * dll(x,nil,l,nil)] { } [list(x)]",
        "failed flat at 1:52 NoAtom
vars x = s0, l = s1
apart s0 != nil
atoms 1: dll(s0,nil,s1,nil)
taken
want ls(s0,nil)
",
    ),
    (
        "tl, pv; between(x, m, y, l) [dll(x,nil,m,y) * y|->tl:nil * l == y] { } [dll(x,nil,l,nil)]",
        "failed between at 1:70 NotEqual
vars x = s0, m = s1, y = s0, l = s0
apart s0 != nil
atoms 2: s0|->tl:nil
taken 1: dll(s0,nil,s1,s0)
want ? == s1
",
    ),
];
