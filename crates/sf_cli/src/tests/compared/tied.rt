//! Fails: an append that ties the last cell to the first one.

/// The file, and the answer to it.
pub const FILE: (&str, &str) = (
    "/* expect: failed append NoAtom */
/* The last cell is tied to the first one instead of to the second list. */
append(x; y) [x != nil * list(x) * list(y)] {
  local t, n;
  t = x;
  n = t->tl;
  while (n != nil) [ls(x,t) * t|->tl:n * list(n) * list(y)] { t = n; n = t->tl; }
  t->tl = x;
} [list(x)]
",
    "failed append at 9:1 NoAtom
vars x = s0, y = nil, t = s0, n = nil
apart s0 != nil
atoms
taken 5: ls(s0,s0), 6: s0|->tl:s0
want ls(s0,nil)
",
);
