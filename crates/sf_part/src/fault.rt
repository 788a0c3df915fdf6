//! Why a part gives nothing up.

use std::alloc::AllocError;

/// Why a part gives nothing up: the contents of a resource, or the shares of two children.
#[derive(Clone, Copy, Debug, PartialEq, Eq)]
pub enum PartFault {
    /// An assertion that asks for cells has no footprint in what the part has, or in what is left
    /// of it for that assertion; or two children would have a variable in common.
    NoFootprint,
    /// Memory ran out.
    OutOfMemory,
}

impl From<AllocError> for PartFault {
    ghost use Rattle.std.specs.Prelude.{◌≡◌};
    ghost use Rattle.sf_part.specs.declared.fault.PartFault.TheVariants.{OutOfMemory};

    ghost from_gives = { λ _ e. e ≡ OutOfMemory };

    fn from(_error: AllocError) -> PartFault {
        PartFault::OutOfMemory
    }
}
