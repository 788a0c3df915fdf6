//! Fails: an invariant forgets the part that is reversed already.

/// The file, and the answer to it.
pub const FILE: (&str, &str) = (
    "/* expect: failed reverse Leak */
/* The invariant forgets the part that is reversed already, so it can't be given at the end. */
reverse(o; i) [list(i)] {
  local t;
  o = nil;
  while (i != nil) [list(i)] { t = i->tl; i->tl = o; o = i; i = t; }
} [list(o)]
",
    "failed reverse at 6:3 Leak
vars o = s4, i = s1, t = nil, i' = nil
apart s4 != nil
atoms 3: s4|->tl:s2
taken 4: ls(nil,nil)
want emp
",
);
