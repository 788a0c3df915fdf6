//! As `tree`, but the root is never given up.

/// The file.
pub const FILE: &str = "disp_tree(p) [tree(p)] {
  local i, j;
  if (p == nil) { } else {
    i = p->l;
    j = p->r;
    disp_tree(i) || disp_tree(j);
  }
} [emp]
";

/// Why it has no proof.
pub const FAILURE: &str = "failed disp_tree at 8:1 Leak
vars p = s0, i = s1, j = s2
apart s0 != nil
atoms 2: s0|->l:s1,r:s2
taken
want emp
";
