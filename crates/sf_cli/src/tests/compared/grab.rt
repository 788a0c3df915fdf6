//! Fails: a region is left with its free list gone.

/// The file, and the answer to it.
pub const FILE: (&str, &str) = (
    "/* expect: failed grab NoAtom */
/* The region is left with its free list gone. */
resource mm (f) [list(f)]
grab(x;) [emp] {
  with mm when (f != nil) { x = f; }
} [list(x)]
",
    "failed grab at 6:1 NoAtom\nvars x = s1\napart s1 != nil\natoms\ntaken\nwant ls(s1,nil)\n",
);
