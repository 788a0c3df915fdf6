//! In-place reversal of a list.

/// The text of the file.
pub const TEXT: &str = "/* expect: accepted */
/* In-place reversal of a list; the value parameter is assigned, so the body works on a fresh local. */
reverse(o; i) [list(i)] {
  local t;
  o = nil;
  while (i != nil) [list(o) * list(i)] {
    t = i->tl;
    i->tl = o;
    o = i;
    i = t;
  }
} [list(o)]
";

/// Its proof.
pub const PROOF: &str = "accepted; procedure reverse
add; assign; assign; loop; empty; exact 1; around; add; add; add; unroll 3; look 4; mutate 4
assign; assign; again; head 4; exact 2; exact 5; end; add; add; add; drop 3; return; exact 2; end
";

/// The file, and the answer to it.
pub const FILE: (&str, &str) = (TEXT, PROOF);
