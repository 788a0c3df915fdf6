//! A list that is linked both ways, and is to be one that is linked one way.

/// The file, and the answer to it.
pub const FILE: (&str, &str) = (
    "tl, pv;
as_list(; x, l) [dll(x,nil,l,nil)] {
  local t, p;
  t = x;
  p = nil;
  while (t != nil) [ls(x,t) * dll(t,p,l,nil)] {
    {
      p = t;
      t = t->tl;
    }
  }
} [ls(x,nil)]
",
    "failed as_list at 6:3 Leak
vars x = s0, l = s1, t = s0, p = s2
apart s2 != nil, s2 != s0
atoms 2: ls(s0,s2), 4: s2|->tl:s0,pv:s3
taken 5: dll(s0,s2,s1,nil)
want emp
",
);
