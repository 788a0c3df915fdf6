//! As `mm`, but the list is set up first: empty, or by a value that is no list.

/// What comes behind the file of `mm`.
pub const INIT: &str = "init() { f = nil; }\n";

/// The proof of both.
pub const PROOF: &str = "accepted; procedure alloc
enter; add; split s1 nil; drop 1; then; new; exit; empty; give; return; cell 2; end; else; assign
unroll 1; look 2; exit; exact 3; give; return; cell 2; end
procedure dealloc
add; enter; add; mutate 1; assign; exit; head 1; exact 2; give; return; end
procedure init
assign; return; empty; end
";

/// What comes there, where what is set up is no list.
pub const WRONG_INIT: &str = "init() { f = 3; }\n";

/// Why that has no proof.
pub const FAILURE: &str = "failed init at 10:17 NoAtom
vars mm.f = 3
apart
atoms
taken
want ls(3,nil)
";
