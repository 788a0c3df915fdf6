//! A ring: one cell in hand and a segment back to it.

/// The file, and the answer to it.
pub const FILE: (&str, &str) = (
    "/* expect: accepted */
/* A ring: one cell in hand and a segment back to it. */
ring(x;) [emp] {
  x = new();
  x->tl = x;
} [x|->tl:_y * ls(_y,x)]
insert(x; v) [x|->tl:_y * ls(_y,x)] {
  local n, t;
  n = new();
  n->hd = v;
  t = x->tl;
  n->tl = t;
  x->tl = n;
} [x|->tl:_y * ls(_y,x)]
step(x;) [x|->tl:_y * ls(_y,x)] {
  x = x->tl;
} [x|->tl:_y * ls(_y,x)]
remove(x;) [x|->tl:_y * ls(_y,x)] {
  local t, u;
  t = x->tl;
  if (t != x) {
    u = t->tl;
    x->tl = u;
    dispose(t);
  }
} [x|->tl:_y * ls(_y,x)]
",
    "accepted; procedure ring
new; mutate 1; return; cell 1; empty; end
procedure insert
add; add; new; mutate 3; look 1; mutate 3; mutate 1; return; cell 1; head 3; exact 2; end
procedure step
add; add; look 1; return; split s1 s0; drop 2; cell 1; empty; end; unroll 2; cell 3; split s2 s1
absurd; join 4; head 1; empty; end
procedure remove
add; add; look 1; split s1 s0; drop 2; else; return; cell 1; empty; end; then; unroll 2; look 3
mutate 1; dispose 3; return; cell 1; exact 4; end
",
);
