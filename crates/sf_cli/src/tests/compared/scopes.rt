//! Existentials whose scopes are branches, and one whose scope is the whole assertion.

/// The file, and the answer to it.
pub const FILE: (&str, &str) = (
    "/* expect: accepted */
/* Existentials whose scopes are branches, and one whose scope is the whole assertion. */
pick(x, y, b) [if b == 0 then x|->tl:_n * _n|-> else y|->tl:_n * list(_n)] {
  if (b == 0) { free2(x); }
  else { freel(y); }
} [emp]
free2(x) [x|->tl:_n * _n|->] {
  local n;
  n = x->tl;
  dispose(n);
  dispose(x);
}
freel(y) [y|->tl:_n * list(_n)] {
  local t;
  while (y != nil) [list(y)] { t = y->tl; dispose y; y = t; }
}
shared(x) [ls(_n,nil) * x|->tl:_n,hd:_v * if _v == nil then emp else _n != nil] {
  local n;
  n = x->hd;
  if (n != nil) { n = x->tl; n = n->hd; }
} [list(x)]
",
    "accepted; procedure pick
split s2 0; then; add; add; then; call; cell 1; cell 2; give; return; end; else; add; add; else
call; cell 1; exact 2; give; return; end
procedure free2
add; add; look 1; dispose 2; dispose 1; return; end
procedure freel
add; add; assign; loop; head 1; exact 2; around; add; add; unroll 3; look 4; dispose 4; assign
again; exact 5; end; add; add; drop 3; return; end
procedure shared
add; add; split s2 nil; then; look 1; else; return; head 1; exact 2; end; else; add; look 1; then
look 1; unroll 2; look 3; return; head 1; head 3; exact 4; end
",
);
