//! An annotation whose second conjunct is taken first.

/// The file.
pub const FILE: &str = "k(x) [ls(_y,nil) * x|->tl:_y] { } [ls(x,nil)]";

/// Its proof.
pub const PROOF: &str = "accepted
procedure k
add
add
return
head 1
exact 2
end
";
