//! Fails: the previous cell may be the one that was just disposed.

/// The file, and the answer to it.
pub const FILE: (&str, &str) = (
    "/* expect: failed filter NoCell */
/* The classic slip: the previous cell may be the one that was just disposed. */
filter(x; k) [x != nil * list(x)] {
  local p, c, v;
  p = x;
  c = x->tl;
  while (c != nil) [ls(x,p) * p|->tl:c * list(c)] {
    v = c->hd;
    if (v == k) {
      dispose(c);
      v = c->tl;
      p->tl = v;
      c = v;
    } else {
      p = c;
      c = c->tl;
    }
  }
} [list(x)]
",
    "failed filter at 11:7 NoCell
vars x = s0, k = s1, p = s0, c = s4, v = s1
apart s0 != nil, s4 != nil
atoms 5: s0|->tl:s4
taken
want cell s4
",
);
