//! How many new symbols at once are too many for a row.

/// A row that would need this many new symbols at once doesn't apply, and no row does where fewer
/// numbers than these are left for symbols or for atoms: so no number is used twice. No goal of a
/// program needs as many: a cell has 16 fields at most, a procedure and the resources have 512
/// variables at most, and two calls side by side, with 256 references each, share none of the 256
/// variables of resources. If both could set all of those, they would need as many.
pub const TOO_MANY: usize = 1_024;
