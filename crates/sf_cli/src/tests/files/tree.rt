//! A tree is given up, the subtrees by two threads at once.

/// The file.
pub const FILE: &str = "disp_tree(p) [tree(p)] {
  local i, j;
  if (p == nil) { } else {
    i = p->l;
    j = p->r;
    disp_tree(i) || disp_tree(j);
    dispose(p);
  }
} [emp]
";

/// Its proof.
pub const PROOF: &str = "accepted; procedure disp_tree
add; split s0 nil; drop 1; then; return; end; else; unroll 1; look 2; look 2; fork; exact 3
exact 4; give; dispose 2; return; end
";
