//! A precondition that no heap meets.

/// The file.
pub const FILE: &str = "v(x) [x|-> * x|->] { }";

/// Its proof.
pub const PROOF: &str = "accepted
procedure v
add
add
absurd
";
