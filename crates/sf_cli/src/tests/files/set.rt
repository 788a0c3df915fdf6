//! A field is written.

/// The file, which doesn't end its line.
pub const FILE: &str = "set(x) [x|->] { x->tl = 3; } [x|->tl:3]";

/// Its proof.
pub const PROOF: &str = "accepted
procedure set
add
mutate 1
return
cell 1
end
";
