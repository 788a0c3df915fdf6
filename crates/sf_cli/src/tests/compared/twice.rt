//! Fails: a cell is disposed twice.

/// The file, and the answer to it.
pub const FILE: (&str, &str) = (
    "/* expect: failed twice NoCell */
twice(x) [x|->] {
  dispose(x);
  dispose(x);
} [emp]
",
    "failed twice at 4:3 NoCell\nvars x = s0\napart s0 != nil\natoms\ntaken\nwant cell s0\n",
);
