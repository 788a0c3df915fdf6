//! Files whose resources are ranked, and what is said of them, worked out by hand.

use super::{are_said, says, shelf_with};
use std::test::Fail;

/// Files, what `order` says of them, and its status.
const RANKINGS: [(&str, &str, u8); 19] = [
    // The one inside the other
    (
        "resource a (v) []
resource b (w) []
f() { with a when (true) { with b when (true) { } } }",
        "order\n0 a\n1 b\n",
        0,
    ),
    // In opposite order
    (
        "resource a (v) []
resource b (w) []
f() { with a when (true) { with b when (true) { } } }
g() { with b when (true) { with a when (true) { } } }",
        "cycle: a b a\n",
        12,
    ),
    // The first in the file is the inner one
    (
        "resource a (v) []
resource b (w) []
f() { with b when (true) { with a when (true) { } } }",
        "order\n0 b\n1 a\n",
        0,
    ),
    // By a call, and by what that calls
    (
        "resource a (v) []
resource b (w) []
f() { with a when (true) { g(); } }
g() { h(); }
h() { with b when (true) { } }",
        "order\n0 a\n1 b\n",
        0,
    ),
    // A cycle by a call
    (
        "resource a (v) []
resource b (w) []
f() { with a when (true) { g(); } }
g() { with b when (true) { } }
h() { with b when (true) { k(); } }
k() { with a when (true) { } }",
        "cycle: a b a\n",
        12,
    ),
    // By the second of two parallel calls
    (
        "resource a (v) []
resource b (w) []
f() { with a when (true) { h() || g(); } }
g() { with b when (true) { } }
h() { }",
        "order\n0 a\n1 b\n",
        0,
    ),
    // Inside a loop and a choice
    (
        "resource a (v) []
resource b (w) []
f(x) { with a when (true) { while (x == nil) [] { if (x == nil) { with b when (true) { } } else { } } } }",
        "order\n0 a\n1 b\n",
        0,
    ),
    // A call beside a region
    (
        "resource a (v) []
resource b (w) []
f() { with a when (true) { } g(); }
g() { with b when (true) { } }",
        "order\n0 a\n0 b\n",
        0,
    ),
    // The longest way counts
    (
        "resource a (v) []
resource b (w) []
resource c (u) []
f() { with a when (true) { with c when (true) { } g(); } }
g() { with b when (true) { with c when (true) { } } }",
        "order\n0 a\n1 b\n2 c\n",
        0,
    ),
    // A cycle that the first resource isn't on
    (
        "resource a (v) []
resource b (w) []
resource c (u) []
f() { with a when (true) { with b when (true) { with c when (true) { } } } }
g() { with c when (true) { with b when (true) { } } }",
        "cycle: b c b\n",
        12,
    ),
    // The shortest one
    (
        "resource a (v) []
resource b (w) []
resource c (u) []
f() { with a when (true) { with b when (true) { with c when (true) { } } } }
g() { with c when (true) { with a when (true) { } } }",
        "cycle: a c a\n",
        12,
    ),
    // As short, the first one
    (
        "resource a (v) []
resource b (w) []
resource c (u) []
f() { with c when (true) { with a when (true) { } } with b when (true) { with a when (true) { } } }
g() { with a when (true) { with c when (true) { } with b when (true) { } } }",
        "cycle: a b a\n",
        12,
    ),
    // Of three
    (
        "resource a (v) []
resource b (w) []
resource c (u) []
f() { with a when (true) { with c when (true) { } } }
g() { with c when (true) { with b when (true) { } } }
h() { with b when (true) { with a when (true) { } } }",
        "cycle: a c b a\n",
        12,
    ),
    // Not proved, and ranked all the same
    (
        "resource a (v) []
f(x) { dispose(x); }",
        "order\n0 a\n",
        0,
    ),
    // Two of another implementation's
    (
        "tl, l, r, pv;
resource r (v) [emp]
f(x; y) [emp] {
  with r when (true) {
    {
      v = y;
    }
  }
  x = y;
} [emp]
g(x; y) [emp] {
  f(x; y);
  f(y; x);
} [emp]
",
        "order\n0 r\n",
        0,
    ),
    (
        "tl, l, r, pv;
resource g (k) [k|->tl:_n * ls(_n,nil)]
resource h (u, v) [(if u == v then emp else u|->tl:v)]
add(; x) [x|->] {
  local n;
  with g when (true) {
    {
      n = k->tl;
      x->tl = n;
      k->tl = x;
    }
  }
} [emp]
cut(x; ) [emp] {
  local n;
  with g when (true) {
    {
      x = k->tl;
      if (x != nil) {
        {
          n = x->tl;
          k->tl = n;
        }
      } else {
      }
    }
  }
} [(if x == nil then emp else x|->)]
get(x; ) [emp] {
  with h when (u != v) {
    {
      x = u;
      u = v;
    }
  }
} [x|->]
mix(a, b; ) [emp] {
  local c;
  c = new();
  cut(a; ) || cut(b; );
  add(; c);
  if (a != nil) {
    {
      dispose(a);
      a = nil;
    }
  } else {
  }
  if (b != nil) {
    {
      dispose(b);
      b = nil;
    }
  } else {
  }
} [a == nil * b == nil]
inner(p; ) [ls(u,nil)] {
  local t;
  p = u;
  u = nil;
} [ls(p,nil)]
",
        "order\n0 g\n0 h\n",
        0,
    ),
    // Nothing to rank
    ("f() { }", "order\n", 0),
    // No file at all
    ("", "order\n", 0),
    // Refused
    (
        "resource a (v) []
f() { with a when (true) { with a when (true) { } } }",
        "file refused: 31 Reentered at 2:28 a\n",
        3,
    ),
];

/// Files of `files`, and what is said of them.
const RANKED_FILES: [(&str, &str, &str, u8); 4] = [
    ("order tree.sf", "", "order\n", 0),
    ("order mm.sf", "", "order\n0 mm\n", 0),
    ("order -- set.sf", "", "order\n", 0),
    ("order none.sf", "", "read fault: none.sf\n", 7),
];

#[test]
fn resources_are_ranked(rt: HostRuntime) -> Result<(), Fail> {
    let alloc = rt.alloc();
    for (file, answer, status) in RANKINGS {
        let mut shelf = shelf_with(alloc, file)?;
        says(&rt, &["order", "given"], &mut shelf, (answer, status))?;
    }
    are_said(&rt, &RANKED_FILES)
}
