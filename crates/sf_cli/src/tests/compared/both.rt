//! Fails: both children want the one cell.

/// The file, and the answer to it.
pub const FILE: (&str, &str) = (
    "/* expect: failed main NoAtom */
/* Both children want the one cell. */
write(x) [x|->] { x->hd = 1; } [x|->]
main(x) [x|->] { write(x) || write(x); } [x|->]
",
    "failed main at 4:30 NoAtom
vars x = s0
apart s0 != nil
atoms
taken 1: s0|->
want s0|->
",
);
