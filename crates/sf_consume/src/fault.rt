use std::alloc::AllocError;

/// What comes of a step: `None` exactly where it isn't there to be taken, an `Err` for want of memory.
pub(crate) type Tried = Result<Option<()>, AllocError>;

/// Why a tag leaves nothing of a subtraction.
#[derive(Clone, Copy, Debug, PartialEq, Eq, Drop)]
pub enum ConsumeFault {
    /// The tag has no row there: it isn't one of subtraction, or the condition of its row doesn't
    /// hold.
    NotARule,
    /// Out of memory.
    OutOfMemory,
}

impl From<AllocError> for ConsumeFault {
    ghost use Rattle.std.specs.Prelude.{◌≡◌};
    ghost use Rattle.sf_consume.specs.declared.fault.ConsumeFault.TheVariants.{OutOfMemory};

    ghost from_gives = { λ _ e. e ≡ OutOfMemory };

    fn from(_error: AllocError) -> ConsumeFault {
        ConsumeFault::OutOfMemory
    }
}
