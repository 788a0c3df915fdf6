//! Doubly linked lists of which a start is made.

/// The cell before the last one.
pub const LAST: &str =
    "tl, pv; last(v; x, l) [x != nil * dll(x,nil,l,nil)] { v = l->pv; } [dll(x,nil,l,nil)]
";

/// A cell is added at the end, or taken out of the middle; a part of a list.
pub const ENDS: &str = "tl, pv;
add(x, l;) [dll(x,nil,l,nil)] {
  local n;
  n = new();
  n->tl = nil;
  n->pv = l;
  if (l == nil) x = n; else l->tl = n;
  l = n;
} [dll(x,nil,l,nil)]
drop(x, l; m) [dll(x,nil,_b,m) * m|->tl:_a,pv:_b * dll(_a,m,l,nil)] {
  local a, b;
  b = m->pv;
  a = m->tl;
  dispose(m);
  if (b == nil) x = a; else b->tl = a;
  if (a == nil) l = b; else a->pv = b;
} [dll(x,nil,l,nil)]
part(x, p, l, y) [dll(x,p,l,y)] { } [dll(x,p,l,y)]
";

/// A list that is shared: a cell is put at its end, and taken from there.
pub const SHARED: &str = "tl, pv;
resource d (a, b) [dll(a,nil,b,nil)]
init() { a = nil; b = nil; }
put() {
  local n;
  n = new();
  n->tl = nil;
  with d when (true) { n->pv = b; if (b == nil) a = n; else b->tl = n; b = n; }
}
take(x;) {
  with d when (b != nil) { x = b; b = x->pv; if (b == nil) a = nil; else b->tl = nil; }
} [x|->]
";
