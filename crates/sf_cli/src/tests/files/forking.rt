//! A procedure that makes no parallel call, where the one that sets the resources up makes one.

/// The file.
pub const FILE: &str = "resource r (v) []
g() { }
init() { g() || g(); }
e(x;) { x = 1; }";
