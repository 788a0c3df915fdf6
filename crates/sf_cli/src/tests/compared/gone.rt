//! Fails: a link is read from a cell that is gone.

/// The file, and the answer to it.
pub const FILE: (&str, &str) = (
    "/* expect: failed dispose_loop NoCell */
/* The link is read from a cell that is gone. */
dispose_loop(x) [list(x)] {
  local t;
  while (x != nil) [list(x)] {
    dispose(x);
    x = x->tl;
  }
} [emp]
",
    "failed dispose_loop at 7:5 NoCell
vars x = s0, t = nil, x' = s1
apart s1 != nil
atoms
taken
want cell s1
",
);
