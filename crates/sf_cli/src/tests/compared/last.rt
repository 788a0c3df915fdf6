//! The last cell of a list that isn't empty.

/// The file, and the answer to it.
pub const FILE: (&str, &str) = (
    "/* expect: accepted */
/* The last cell of a list that isn't empty; a cell put before the end of a segment. */
last(y; x) [x != nil * list(x)] {
  local n;
  y = x;
  n = y->tl;
  while (n != nil) [ls(x,y) * y|->tl:n * list(n)] {
    y = n;
    n = n->tl;
  }
} [ls(x,y) * y|->tl:nil]
insert_before_end(x, y) [x != y * ls(x,y) * y|->] {
  local t, n;
  t = x;
  n = t->tl;
  while (n != y) [ls(x,t) * t|->tl:n * ls(n,y) * y|->] { t = n; n = t->tl; }
  n = new();
  t->tl = n;
  n->tl = y;
} [ls(x,y) * y|->]
remove_last(x;) [x != nil * list(x)] {
  local p, n, m;
  n = x->tl;
  if (n == nil) { dispose(x); x = nil; }
  else {
    p = x;
    m = n->tl;
    while (m != nil) [ls(x,p) * p|->tl:n * n|->tl:m * list(m)] {
      p = n;
      n = m;
      m = n->tl;
    }
    dispose(n);
    p->tl = nil;
  }
} [list(x)]
",
    "accepted; procedure last
add; add; assign; unroll 1; look 2; loop; empty; cell 2; exact 3; around; add; add; add; add
assign; unroll 6; look 7; again; split s1 s4; force 4; absurd; join 4; head 5; empty; cell 7
exact 8; end; add; add; add; add; drop 6; return; exact 4; cell 5; end
procedure insert_before_end
add; add; add; assign; unroll 1; look 3; loop; empty; cell 3; exact 4; cell 2; around; add; add
add; add; add; assign; unroll 7; look 9; again; split s0 s4; force 5; absurd; join 5; head 6
empty; cell 9; exact 10; cell 8; end; add; add; add; add; add; drop 7; new; mutate 6; mutate 9
return; join 5; head 6; head 9; empty; cell 8; end
procedure remove_last
add; add; unroll 1; look 2; split s1 nil; drop 3; then; dispose 2; assign; return; empty; end
else; assign; unroll 3; look 4; loop; empty; cell 2; cell 4; exact 5; around; add; add; add; add
add; assign; assign; unroll 9; look 10; again; split s0 s4; force 6; absurd; join 6; head 7; empty
cell 8; cell 10; exact 11; end; add; add; add; add; add; drop 9; dispose 8; mutate 7; return
join 6; head 7; empty; end
",
);
