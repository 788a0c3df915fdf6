//! Why tags are refused.

use std::alloc::AllocError;

/// Why tags don't prove a program. The number of the tag at which that shows stands beside it.
#[derive(Clone, Copy, Debug, PartialEq, Eq)]
pub enum Refusal {
    /// The tag can't be taken: it has no row at the open goal, or, with none open, isn't the next
    /// procedure's.
    NotARule,
    /// The tags end while goals are open or procedures are left. The number is that of all tags.
    Unfinished,
    /// The tag comes after all is proved.
    Leftover,
}

/// Why a check makes no proof.
#[derive(Clone, Copy, Debug, PartialEq, Eq)]
pub enum CheckFault {
    /// The tags don't prove the program. The tag of that number, counted from 0, is refused.
    Refused(usize, Refusal),
    /// Memory ran out.
    OutOfMemory,
}

impl From<AllocError> for CheckFault {
    ghost use Rattle.std.specs.Prelude.{◌≡◌};
    ghost use Rattle.sf_check.specs.declared.refusal.CheckFault.TheVariants.{OutOfMemory};

    ghost from_gives = { λ _ e. e ≡ OutOfMemory };

    fn from(_error: AllocError) -> CheckFault {
        CheckFault::OutOfMemory
    }
}
