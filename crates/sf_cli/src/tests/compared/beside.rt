//! Two reversals beside each other.

/// The file, and the answer to it.
pub const FILE: (&str, &str) = (
    "/* expect: accepted */
/* Two reversals beside each other, one of them in a nested group. */
reverse(o; i) [list(i)] {
  local t;
  o = nil;
  while (i != nil) [list(o) * list(i)] { t = i->tl; i->tl = o; o = i; i = t; }
} [list(o)]
two(a, b; x, y) [list(x) * list(y)] {
  reverse(a; x) || reverse(b; y);
} [list(a) * list(b)]
four(a, b, c, d;) [list(a) * list(b) * list(c) * list(d)] {
  local p, q, r, s;
  two(p, q; a, b) || two(r, s; c, d);
  a = p;
  b = q;
  c = r;
  d = s;
} [list(a) * list(b) * list(c) * list(d)]
",
    "accepted; procedure reverse
add; assign; assign; loop; empty; exact 1; around; add; add; add; unroll 3; look 4; mutate 4
assign; assign; again; head 4; exact 2; exact 5; end; add; add; add; drop 3; return; exact 2; end
procedure two
add; add; fork; exact 1; exact 2; give; add; add; return; exact 3; exact 4; end
procedure four
add; add; add; add; fork; exact 1; exact 2; exact 3; exact 4; give; add; add; add; add; assign
assign; assign; assign; return; exact 5; exact 6; exact 7; exact 8; end
",
);
