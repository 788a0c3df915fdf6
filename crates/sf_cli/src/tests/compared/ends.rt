//! One cell more at the end of a list, linked one way or both; the first one given up.

/// The file, and the answer to it.
pub const FILE: (&str, &str) = (
    "tl, l, r, pv;
mid(; x, y, z) [ls(x,y) * y|->tl:z * ls(z,nil)] {
} [ls(x,nil)]
dmid(; x, p, m, y, e) [dll(x,p,m,y) * y|->tl:nil,pv:m * e == y] {
} [dll(x,p,e,nil)]
dfirst(o; x, e) [x != nil * dll(x,nil,e,nil)] {
  local n;
  n = x->tl;
  if (n == nil) {
    {
    }
  } else {
    {
      e = x;
      n->pv = nil;
    }
  }
  dispose(x);
  o = n;
} [(if o == nil then emp else dll(o,nil,e,nil))]
mv(x, e, f; ) [dll(x,nil,e,nil)] {
  f = x;
  x = nil;
} [dll(f,nil,e,nil)]
",
    "accepted; procedure mid
add; add; add; return; split s0 nil; absurd; join 1; head 2; exact 3; end
procedure dmid
add; add; add; return; split s0 nil; absurd; join 1; head 2; empty; end
procedure dfirst
add; add; assign; unroll 1; look 2; split s3 nil; force 3; drop 3; then; dispose 2; assign; return
then; end; else; assign; unroll 3; mutate 4; dispose 2; assign; return; else; head 4; exact 5; end
procedure mv
add; assign; assign; return; exact 1; end
",
);
