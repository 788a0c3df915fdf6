//! A list that is linked both ways: the cell at its end, one that is put before it, all given up from the
//! back, and two that are one.

/// The file, and the answer to it.
pub const FILE: (&str, &str) = (
    "tl, l, r, pv;
last(v; x, e) [x != nil * dll(x,nil,e,nil)] {
} [dll(x,nil,e,nil)]
push(x, e; ) [dll(x,nil,e,nil)] {
  local n;
  n = new();
  n->tl = x;
  n->pv = nil;
  if (x == nil) {
    {
      e = n;
    }
  } else {
    {
      x->pv = n;
    }
  }
  x = n;
} [dll(x,nil,e,nil)]
back(x; e) [dll(x,nil,e,nil)] {
  local p;
  while (e != nil) [dll(x,nil,e,nil)] {
    {
      p = e->pv;
      if (p == nil) {
        {
          x = nil;
        }
      } else {
        {
          p->tl = nil;
        }
      }
      dispose(e);
      e = p;
    }
  }
} [emp]
cat(; x, m, y, e) [dll(x,nil,m,y) * dll(y,m,e,nil)] {
} [dll(x,nil,e,nil)]
",
    "accepted; procedure last
add; add; return; exact 1; end
procedure push
add; new; mutate 2; mutate 2; split s0 nil; force 1; drop 1; then; assign; assign; return; head 2
empty; end; else; unroll 1; mutate 3; assign; return; head 2; head 3; exact 4; end
procedure back
add; assign; loop; exact 1; around; add; add; split s2 nil; force 2; absurd; back 2; look 4
split s5 nil; then; assign; dispose 4; assign; again; empty; split s2 s4; drop 3; end; absurd
else; split s2 s4; force 3; absurd; back 3; mutate 6; dispose 4; assign; again; join 5; head 6
empty; end; add; add; return; split s2 nil; drop 2; end; absurd
procedure cat
add; add; return; split s0 nil; force 1; force 1; drop 1; force 2; drop 2; empty; end; join 1
exact 2; end
",
);
