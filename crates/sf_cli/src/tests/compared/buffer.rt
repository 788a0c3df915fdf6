//! A buffer of one place that passes whole lists.

/// The file, and the answer to it.
pub const FILE: (&str, &str) = (
    "/* expect: accepted */
/* The buffer passes whole lists; nil is a list too, so a flag tells whether it is full. */
resource buf (c, full) [if full == 1 then list(c) else emp]
send(x) [list(x)] {
  with buf when (full == 0) { c = x; full = 1; }
} [emp]
receive(y;) [emp] {
  with buf when (full == 1) { y = c; full = 0; }
} [list(y)]
build(x; n) [emp] {
  local t;
  x = nil;
  while (n != t) [list(x)] {
    t = new();
    t->tl = x;
    x = t;
  }
} [list(x)]
drop(x) [list(x)] {
  local t;
  while (x != nil) [list(x)] { t = x->tl; dispose(x); x = t; }
} [emp]
left() { local x; build(x; nil); send(x); }
right() { local y; receive(y;); drop(y); }
main() { left() || right(); }
",
    "accepted; procedure send
add; enter; split s2 1; then; add; add; absurd; else; add; assign; assign; exit; then; exact 1
give; return; end
procedure receive
enter; split s2 1; then; add; add; assign; assign; exit; else; give; return; exact 1; end; else
add; absurd
procedure build
assign; loop; empty; around; add; add; new; mutate 2; assign; again; head 2; exact 1; end; add
add; return; exact 1; end
procedure drop
add; assign; loop; exact 1; around; add; add; unroll 2; look 3; dispose 3; assign; again; exact 4
end; add; add; drop 2; return; end
procedure left
call; give; add; call; exact 1; give; return; end
procedure right
call; give; add; call; exact 1; give; return; end
procedure main
fork; give; return; end
",
);
