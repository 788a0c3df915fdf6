ghost use Rattle.std.specs.Prelude.{◌≡◌, ◌≢◌, ◌≤◌, ℕ, List, ◌++◌, take, Option, IsOk, OnOk, OnErr, IfSome, IsSomeAnd, IsErrOf};
ghost use Rattle.sf_io.specs.Increased.{Increased};
ghost use Rattle.sf_io.specs.Shelf.{Files, GrewAtMost};

use std::alloc::AllocError;
use thiserror::Error;

/// Why a file's bytes weren't handed out.
#[derive(Clone, Copy, Debug, PartialEq, Eq, Error)]
pub enum FetchFault {
    /// There is no such file, or reading it failed.
    #[error("the file can't be read")]
    Failed,
    /// There is no memory for its bytes.
    #[error("out of memory")]
    OutOfMemory,
}

impl From<AllocError> for FetchFault {
    ghost use Rattle.std.specs.Prelude.{◌≡◌};
    ghost use Rattle.sf_io.specs.declared.shelf.FetchFault.TheVariants.{OutOfMemory};

    ghost from_gives = { λ _ e. e ≡ OutOfMemory };

    fn from(_error: AllocError) -> FetchFault {
        FetchFault::OutOfMemory
    }
}

/// A map from names to bytes, and for each name a count of faults. A shelf that tells its map has
/// it as `files`; whether it tells it or not, no call changes the map, and no count ever falls.
pub trait Shelf {
    // The bytes under each name, where the shelf tells them.
    ghost files: { Self → Option Files };

    // How many faults there were at each name.
    ghost faults: { Self → List ℕ → ℕ };

    /// Appends the first `most` bytes of the file with that name, or all of it where it is shorter.
    /// A name that isn't in the map is a fault. `Failed` comes only where the count of that name
    /// increased.
    /// After an `Err` the list is as before.
    fn fetch(&mut self, name: &str, most: usize, out: &mut Vec<u8>) -> Result<(), FetchFault>
        ensures files_stay { files self.new ≡ files self.old }
        ensures told { OnOk result (IfSome (files self.old) (λ all. IsSomeAnd (all name.now)
            (λ bytes. out.new.items ≡ out.old.items ++ take most bytes))) }
        ensures appended { OnOk result (GrewAtMost most out.old.items out.new.items) }
        ensures refused { OnErr result (out.new.items ≡ out.old.items) }
        ensures failed { IsErrOf result FetchFault.Failed
            → Increased (faults self.old name.now) (faults self.new name.now) }
        ensures others { (other : List ℕ) → other ≢ name.now
            → faults self.new other ≡ faults self.old other }
        ensures counts { (any : List ℕ) → faults self.old any ≤ faults self.new any }
        ensures ok { OnOk result ((any : List ℕ) → faults self.new any ≡ faults self.old any) }
        ensures out_of_memory { IsErrOf result FetchFault.OutOfMemory
            → ((any : List ℕ) → faults self.new any ≡ faults self.old any) };
}
