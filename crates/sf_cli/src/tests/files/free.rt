//! A procedure whose precondition has a variable of a resource.

/// The file.
pub const FILE: &str = "resource a (v) [] f(x;) [v == nil] { }";
