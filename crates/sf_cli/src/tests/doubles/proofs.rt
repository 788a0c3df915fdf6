//! Texts of proofs that tell of doubly linked segments, and what is said of them.

/// Proofs that the search doesn't find, by each rule of doubly linked segments.
pub const PROOFS_OF_DOUBLES: [(&[u8], &str, &str); 10] = [
    (
        b"tl, pv; f(x, l) [x != nil * dll(x,nil,l,nil)] { } [dll(x,nil,l,nil)]",
        "accepted; procedure f
add; add; return; back 1; join 2; head 3; empty; end
",
        "accepted\n",
    ),
    (
        b"tl, pv; f(x, l) [x != nil * dll(x,nil,l,nil)] { } [dll(x,nil,l,nil)]",
        "accepted; procedure f
add; add; return; unroll 0001; head 2; exact 3; end
",
        "accepted\n",
    ),
    (
        b"tl, pv; f(x, l) [x != nil * dll(x,nil,l,nil)] { } [dll(x,nil,l,nil)]",
        "accepted; procedure f
add; add; unroll 1; split s2 nil; force 3; drop 3; return; head 2; empty; end; back 3; return; head 2; join 4; head 5; empty; end
",
        "accepted\n",
    ),
    (
        b"tl, pv; f(x, p, l) [dll(x,p,l,x)] { } [dll(x,p,l,x)]",
        "accepted; procedure f
add; return; exact 1; end
",
        "accepted\n",
    ),
    (
        b"tl, pv; f(x, p, l) [dll(x,p,l,x)] { } [dll(x,p,l,x)]",
        "accepted; procedure f
add; force 1; return; empty; drop 1; end
",
        "accepted\n",
    ),
    (
        b"tl, pv; f(x, p, l) [dll(3,p,l,x)] { } [x == 3]",
        "accepted; procedure f
add; force 1; force 1; drop 1; return; same; end
",
        "accepted\n",
    ),
    (
        b"tl, pv; f(x, p, l) [dll(x,p,l,x) * x != x] { }",
        "accepted; procedure f
add; add; absurd
",
        "accepted\n",
    ),
    (
        b"tl, pv; f(x, l) [x|-> * dll(nil,x,l,x)] { }",
        "accepted; procedure f
add; add; force 2; absurd
",
        "accepted\n",
    ),
    (
        b"tl, pv; f(x, l) [x|-> * x != l * dll(l,nil,x,nil)] { } [l == nil]",
        "accepted; procedure f
add; add; add; split s1 nil; force 2; absurd; absurd
",
        "accepted\n",
    ),
    (
        b"tl, pv; f(x, m, y, l) [dll(x,nil,m,y) * dll(y,m,l,nil)] { } [dll(x,nil,l,nil)]",
        "accepted; procedure f
add; add; return; join 1; join 2; empty; end
",
        "accepted\n",
    ),
];

/// Proofs with one tag that has no row, or a line that is no tag.
pub const NO_PROOFS_OF_DOUBLES: [(&[u8], &str, &str); 25] = [
    (
        b"tl, pv; f(x, p, l) [dll(x,p,l,x)] { }",
        "accepted; procedure f
add; drop 1
",
        "proof refused: line 4 kind 60\n",
    ),
    (
        b"tl, pv; f(x, p) [dll(x,p,p,x)] { }",
        "accepted; procedure f
add; force 1
",
        "proof refused: line 4 kind 60\n",
    ),
    (
        b"tl, pv; f(x, l) [dll(x,nil,l,nil)] { }",
        "accepted; procedure f
add; force 1
",
        "proof refused: line 4 kind 60\n",
    ),
    (
        b"tl, pv; f(x, l) [dll(x,nil,l,nil)] { }",
        "accepted; procedure f
add; unroll 1
",
        "proof refused: line 4 kind 60\n",
    ),
    (
        b"tl, pv; f(x, l) [dll(x,nil,l,nil)] { }",
        "accepted; procedure f
add; back 1
",
        "proof refused: line 4 kind 60\n",
    ),
    (
        b"tl, pv; f(x) [x != nil * list(x)] { }",
        "accepted; procedure f
add; add; back 1
",
        "proof refused: line 5 kind 60\n",
    ),
    (
        b"tl, pv; f(x) [x|->] { }",
        "accepted; procedure f
add; back 1
",
        "proof refused: line 4 kind 60\n",
    ),
    (
        b"tl, pv; f(x, l) [x != nil * dll(x,nil,l,nil)] { }",
        "accepted; procedure f
add; add; back 2
",
        "proof refused: line 5 kind 60\n",
    ),
    (
        b"tl, pv; f(x, p, l) { } [dll(x,p,l,x)]",
        "accepted; procedure f
return; empty
",
        "proof refused: line 4 kind 60\n",
    ),
    (
        b"tl, pv; f(x, l) [dll(x,nil,l,nil)] { } [dll(x,nil,x,nil)]",
        "accepted; procedure f
add; return; exact 1
",
        "proof refused: line 5 kind 60\n",
    ),
    (
        b"tl, pv; f(x, l) [dll(x,nil,l,nil)] { } [list(x)]",
        "accepted; procedure f
add; return; exact 1
",
        "proof refused: line 5 kind 60\n",
    ),
    (
        b"tl, pv; f(x, l) [dll(x,nil,l,nil)] { } [dll(x,x,l,nil)]",
        "accepted; procedure f
add; return; join 1
",
        "proof refused: line 5 kind 60\n",
    ),
    (
        b"tl, pv; f(x, y, l) [dll(x,nil,l,y)] { } [dll(x,nil,l,y)]",
        "accepted; procedure f
add; return; join 1
",
        "proof refused: line 5 kind 60\n",
    ),
    (
        b"tl, pv; f(x, l) [dll(x,nil,l,nil)] { } [list(x)]",
        "accepted; procedure f
add; return; join 1
",
        "proof refused: line 5 kind 60\n",
    ),
    (
        b"tl, pv; f(x) [x|->tl:nil] { } [dll(x,nil,x,nil)]",
        "accepted; procedure f
add; return; head 1
",
        "proof refused: line 5 kind 60\n",
    ),
    (
        b"tl, pv; f(x) [x|->tl:nil,pv:x] { } [dll(x,nil,x,nil)]",
        "accepted; procedure f
add; return; head 1
",
        "proof refused: line 5 kind 60\n",
    ),
    (
        b"tl, pv; f(x, y) [x|->tl:y,pv:nil] { } [dll(x,nil,x,y)]",
        "accepted; procedure f
add; return; head 1
",
        "proof refused: line 5 kind 60\n",
    ),
    (
        b"tl, pv; f(x, l) [x != nil * dll(x,nil,l,nil)] { } [dll(x,nil,l,nil)]",
        "accepted; procedure f
add; add; return; back
",
        "proof refused: line 6 kind 50\n",
    ),
    (
        b"tl, pv; f(x, l) [x != nil * dll(x,nil,l,nil)] { } [dll(x,nil,l,nil)]",
        "accepted; procedure f
add; add; return; back x
",
        "proof refused: line 6 kind 50\n",
    ),
    (
        b"tl, pv; f(x, l) [x != nil * dll(x,nil,l,nil)] { } [dll(x,nil,l,nil)]",
        "accepted; procedure f
add; add; return; back nil
",
        "proof refused: line 6 kind 50\n",
    ),
    (
        b"tl, pv; f(x, l) [x != nil * dll(x,nil,l,nil)] { } [dll(x,nil,l,nil)]",
        "accepted; procedure f
add; add; return; back -1
",
        "proof refused: line 6 kind 50\n",
    ),
    (
        b"tl, pv; f(x, l) [x != nil * dll(x,nil,l,nil)] { } [dll(x,nil,l,nil)]",
        "accepted; procedure f
add; add; return; back 1 2
",
        "proof refused: line 6 kind 50\n",
    ),
    (
        b"tl, pv; f(x, l) [x != nil * dll(x,nil,l,nil)] { } [dll(x,nil,l,nil)]",
        "accepted; procedure f
add; add; return; back 4294967296
",
        "proof refused: line 6 kind 50\n",
    ),
    (
        b"tl, pv; f(x, l) [x != nil * dll(x,nil,l,nil)] { } [dll(x,nil,l,nil)]",
        "accepted; procedure f
add; add; return; Back 1
",
        "proof refused: line 6 kind 50\n",
    ),
    (
        b"tl, pv; f(x, l) [x != nil * dll(x,nil,l,nil)] { } [dll(x,nil,l,nil)]",
        "accepted; procedure f
add; add; return; back 4294967295
",
        "proof refused: line 6 kind 60\n",
    ),
];
