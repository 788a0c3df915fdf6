//! Two lists are swapped by reference, and the contents of two cells.

/// The file, and the answer to it.
pub const FILE: (&str, &str) = (
    "/* expect: accepted */
/* Swaps two lists by reference, and the contents of two cells. */
swap(x, y;) [list(x) * list(y)] {
  local t;
  t = x;
  x = y;
  y = t;
} [list(x) * list(y)]
swap_heads(x, y) [x|->hd:_a * y|->hd:_b] {
  local u, v;
  u = x->hd;
  v = y->hd;
  x->hd = v;
  y->hd = u;
} [x|->hd:_b * y|->hd:_a]
twice(x, y;) [list(x) * list(y)] {
  swap(x, y;);
  swap(y, x;);
} [list(x) * list(y)]
",
    "accepted; procedure swap
add; add; assign; assign; assign; return; exact 2; exact 1; end
procedure swap_heads
add; add; look 1; look 2; mutate 1; mutate 2; return; cell 1; cell 2; end
procedure twice
add; add; call; exact 1; exact 2; give; add; add; call; exact 4; exact 3; give; add; add; return
exact 6; exact 5; end
",
);
