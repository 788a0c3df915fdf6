//! A buffer for one cell, between two threads.

/// The file up to the end of what `put` does.
pub const PUT: &str = "resource buf (c, full) [if full == 0 then emp else c|->]
put(x) [x|->] {
  with buf when (full == 0) { c = x; full = 1; }
";

/// The rest of the file.
pub const GET: &str = "} [emp]
get(y;) [emp] {
  with buf when (full != 0) { y = c; full = 0; }
} [y|->]
main() {
  local x, y;
  x = new();
  put(x) || get(y;);
  dispose(y);
}
";

/// Its proof.
pub const PROOF: &str = "accepted; procedure put
add; enter; split s2 0; then; add; assign; assign; exit; else; cell 1; give; return; end; else
add; add; absurd
procedure get
enter; split s2 0; then; add; absurd; else; add; add; assign; assign; exit; then; give; return
cell 1; end
procedure main
new; fork; cell 1; give; add; dispose 2; return; end
";

/// What comes behind the file: two threads that each take a cell out.
pub const PAIR: &str = "pair(y, z;) [emp] { get(y;) || get(z;); } [y|-> * z|->]\n";
