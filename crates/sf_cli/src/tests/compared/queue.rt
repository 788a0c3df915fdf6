//! A queue from its front up to a dummy cell.

/// The file, and the answer to it.
pub const FILE: (&str, &str) = (
    "/* expect: accepted */
/* A queue from front f up to a dummy cell r. */
make(f, r;) [emp] {
  r = new();
  f = r;
} [ls(f,r) * r|->]
enqueue(r; f, v) [ls(f,r) * r|->] {
  local n;
  n = new();
  r->hd = v;
  r->tl = n;
  r = n;
} [ls(f,r) * r|->]
dequeue(f, v; r) [ls(f,r) * r|->] {
  local t;
  v = nil;
  if (f != r) {
    t = f;
    v = t->hd;
    f = t->tl;
    dispose(t);
  }
} [ls(f,r) * r|->]
destroy(f, r) [ls(f,r) * r|->] {
  local t;
  while (f != r) [ls(f,r) * r|->] { t = f; f = f->tl; dispose t; }
  dispose r;
} [emp]
",
    "accepted; procedure make
new; assign; return; empty; cell 1; end
procedure enqueue
add; add; new; mutate 2; mutate 2; assign; return; split s1 s3; force 1; absurd; join 1; head 2
empty; cell 3; end
procedure dequeue
add; add; assign; split s0 s2; drop 1; else; return; empty; cell 2; end; then; assign; unroll 1
look 3; look 3; dispose 3; return; exact 4; cell 2; end
procedure destroy
add; add; assign; loop; exact 1; cell 2; around; add; add; add; assign; unroll 3; look 5
dispose 5; again; exact 6; cell 4; end; add; add; add; drop 3; dispose 4; return; end
",
);
