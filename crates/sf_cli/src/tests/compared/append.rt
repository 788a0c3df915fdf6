//! The classic append with a segment up to the last cell.

/// The file, and the answer to it.
pub const FILE: (&str, &str) = (
    "/* expect: accepted */
/* The classic append with a segment up to the last cell. */
append(x; y) [list(x) * list(y)] {
  local t, n;
  if (x == nil) {
    x = y;
  } else {
    t = x;
    n = t->tl;
    while (n != nil) [ls(x,t) * t|->tl:n * list(n)] {
      t = n;
      n = t->tl;
    }
    t->tl = y;
  }
} [list(x)]
/* The recursive version. */
append_rec(x; y) [list(x) * list(y)] {
  local n;
  if (x == nil) x = y;
  else {
    n = x->tl;
    append_rec(n; y);
    x->tl = n;
  }
} [list(x)]
three(x; y, z) [list(x) * list(y) * list(z)] {
  append(x; y);
  append_rec(x; z);
} [list(x)]
",
    "accepted; procedure append
add; add; split s0 nil; drop 1; then; assign; return; exact 2; end; else; assign; unroll 1; look 3
loop; empty; cell 3; exact 4; around; add; add; add; add; assign; unroll 7; look 8; again
split s0 s4; force 5; absurd; join 5; head 6; empty; cell 8; exact 9; end; add; add; add; add
drop 7; mutate 6; return; join 5; head 6; exact 2; end
procedure append_rec
add; add; split s0 nil; drop 1; then; assign; return; exact 2; end; else; unroll 1; look 3; call
exact 4; exact 2; give; add; mutate 3; return; head 3; exact 5; end
procedure three
add; add; add; call; exact 1; exact 2; give; add; call; exact 4; exact 3; give; add; return
exact 5; end
",
);
