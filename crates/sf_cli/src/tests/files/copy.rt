//! A tree is copied, the subtrees by two threads at once.

/// The file.
pub const FILE: &str = "copy(q; p) [tree(p)] {
  local i, j, a, b;
  if (p == nil) { q = nil; } else {
    i = p->l;
    j = p->r;
    copy(a; i) || copy(b; j);
    q = new();
    q->l = a;
    q->r = b;
  }
} [tree(p) * tree(q)]
";
