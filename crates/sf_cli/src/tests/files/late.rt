//! As `buffer`, but the cell is also given up by the one who has put it.

/// What stands between the two parts of that file: the end of what `put` does.
pub const DISPOSAL: &str = "  dispose(x);\n";

/// Why it has no proof.
pub const FAILURE: &str = "failed put at 4:3 NoCell
vars x = s0
apart s0 != nil
atoms
taken
want cell s0
";
