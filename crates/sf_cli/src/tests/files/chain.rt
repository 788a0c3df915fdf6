//! Two segments in a row: the one from x may hold z.

/// The file.
pub const FILE: &str = "cat(x, y, z) [x != z * ls(x,y) * ls(y,z)] {
} [ls(x,z)]
";

/// Why it has no proof.
pub const FAILURE: &str = "failed cat at 2:1 EndNotAllocated
vars x = s0, y = s1, z = s2
apart s1 != s0, s2 != s0, s2 != s1
atoms 1: ls(s0,s1), 2: ls(s1,s2)
taken
want ls(s0,s2)
";
