//! Two assignments.

/// The file.
pub const FILE: &str = "two(x;) { x = nil; x = 1; }";
