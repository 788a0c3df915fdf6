//! Fails: that a segment's ends differ doesn't give it a cell.

/// The file, and the answer to it.
pub const FILE: (&str, &str) = (
    "/* expect: failed walk_all Leak */
/* The walk is right; but that a segment's ends differ doesn't give it a cell. */
/* The textbook walk over a list. */
walk_all(x) [list(x)] {
  local t;
  t = x;
  while (t != nil) [ls(x,t) * list(t)] { t = t->tl; }
} [list(x)]
",
    "failed walk_all at 7:3 Leak
vars x = s0, t = s0
apart s1 != nil, s1 != s0
atoms 2: ls(s0,s1), 4: s1|->tl:s0
taken 5: ls(s0,nil)
want emp
",
);
