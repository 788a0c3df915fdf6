//! Fails: a parallel disposal of a tree without that of the root.

/// The file, and the answer to it.
pub const FILE: (&str, &str) = (
    "/* expect: failed disp_tree Leak */
/* The parallel tree disposal without the dispose of the root. */
disp_tree(p) [tree(p)] {
  local i, j;
  if (p == nil) { } else {
    i = p->l;
    j = p->r;
    disp_tree(i) || disp_tree(j);
  }
} [emp]
",
    "failed disp_tree at 10:1 Leak
vars p = s0, i = s1, j = s2
apart s0 != nil
atoms 2: s0|->l:s1,r:s2
taken
want emp
",
);
