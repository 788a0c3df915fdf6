use sf_base::Name;
use std::alloc::{AllocError, AllocFailed};
use thiserror::Error;

/// Why a procedure and a text are no start. What a variant holds is what is printed after its
/// kind.
#[derive(Debug, Drop, Error)]
pub enum StartFault {
    /// Kind 70: the number, from 1, of the first line that has none of the forms.
    #[error("a line that is none of a state")]
    BadLine(u32),
    /// Kind 71: a variable, a cell or a field of one cell is given again.
    #[error("something that is given twice")]
    Twice(Name),
    /// Kind 72: a parameter or a resource's variable isn't given, the first in canonical order.
    #[error("a variable that isn't given")]
    Missing(Name),
    /// Kind 73: the entry, a variable or a field isn't there.
    #[error("an unknown name")]
    Unknown(Name),
    /// Kind 74: the precondition, or this resource, has no footprint in what the earlier ones left.
    #[error("an assertion that isn't met")]
    Unmet(Name),
    /// Kind 75: cells are left over, and this is the least location of one.
    #[error("a cell that is left over")]
    LeftOver(u64),
    /// Kind 76: variables of resources occur in the entry's pre or post.
    #[error("an entry that holds a resource")]
    FreeEntry(Name),
    /// Kind 77: the text has too many bytes or cells.
    #[error("a state longer than 67,108,864 bytes, or of more than 1,000,000 cells")]
    TooLong,
    /// Memory ran out.
    #[error("out of memory")]
    OutOfMemory,
}

impl From<AllocError> for StartFault {
    ghost use Rattle.std.specs.Prelude.{◌≡◌};
    ghost use Rattle.sf_state.specs.declared.fault.StartFault.TheVariants.{OutOfMemory};

    ghost from_gives = { λ _ e. e ≡ OutOfMemory };

    fn from(_error: AllocError) -> StartFault {
        StartFault::OutOfMemory
    }
}

impl<T: Drop> From<AllocFailed<T>> for StartFault {
    ghost use Rattle.std.specs.Prelude.{◌≡◌};
    ghost use Rattle.sf_state.specs.declared.fault.StartFault.TheVariants.{OutOfMemory};

    ghost from_gives = { λ _ e. e ≡ OutOfMemory };

    fn from(_error: AllocFailed<T>) -> StartFault {
        StartFault::OutOfMemory
    }
}
