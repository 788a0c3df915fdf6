//! A region whose condition is never true.

/// The file.
pub const FILE: &str = "resource r (v) []
stay() { with r when (v != v) { } }";

/// Its proof.
pub const PROOF: &str = "accepted
procedure stay
enter
add
absurd
";
