use std::alloc::{AllocError, AllocFailed};
use thiserror::Error;

/// Why bytes are no text of a proof.
#[derive(Clone, Copy, Debug, PartialEq, Eq, Error)]
pub enum ProofFault {
    /// Kind 50: the number, from 1, of the first line that isn't as it has to be.
    #[error("a line that is none of a proof")]
    BadLine(u32),
    /// Kind 51: more bytes than a proof may have. It comes before the other.
    #[error("a proof longer than 33,554,432 bytes")]
    TooLong,
    /// Memory ran out.
    #[error("out of memory")]
    OutOfMemory,
}

impl From<AllocError> for ProofFault {
    ghost use Rattle.std.specs.Prelude.{◌≡◌};
    ghost use Rattle.sf_proof.specs.declared.fault.ProofFault.TheVariants.{OutOfMemory};

    ghost from_gives = { λ _ e. e ≡ OutOfMemory };

    fn from(_error: AllocError) -> ProofFault {
        ProofFault::OutOfMemory
    }
}

impl<T: Drop> From<AllocFailed<T>> for ProofFault {
    ghost use Rattle.std.specs.Prelude.{◌≡◌};
    ghost use Rattle.sf_proof.specs.declared.fault.ProofFault.TheVariants.{OutOfMemory};

    ghost from_gives = { λ _ e. e ≡ OutOfMemory };

    fn from(_error: AllocFailed<T>) -> ProofFault {
        ProofFault::OutOfMemory
    }
}
