//! A tree is copied.

/// The file, and the answer to it.
pub const FILE: (&str, &str) = (
    "/* expect: accepted */
copy(c; p) [tree(p)] {
  local i, j, a, b;
  if (p == nil) { c = nil; }
  else {
    i = p->l;
    j = p->r;
    copy(a; i);
    copy(b; j);
    c = new();
    c->l = a;
    c->r = b;
  }
} [tree(p) * tree(c)]
/* The two halves copied beside each other. */
copy_par(c; p) [tree(p)] {
  local i, j, a, b;
  if (p == nil) c = nil;
  else {
    i = p->l;
    j = p->r;
    copy_par(a; i) || copy_par(b; j);
    c = new();
    c->l = a;
    c->r = b;
  }
} [tree(p) * tree(c)]
",
    "accepted; procedure copy
add; split s1 nil; drop 1; then; assign; return; empty; empty; end; else; unroll 1; look 2; look 2
call; exact 3; give; add; add; call; exact 4; give; add; add; new; mutate 9; mutate 9; return
node 2; exact 5; exact 7; node 9; exact 6; exact 8; end
procedure copy_par
add; split s1 nil; drop 1; then; assign; return; empty; empty; end; else; unroll 1; look 2; look 2
fork; exact 3; exact 4; give; add; add; add; add; new; mutate 9; mutate 9; return; node 2; exact 5
exact 7; node 9; exact 6; exact 8; end
",
);
