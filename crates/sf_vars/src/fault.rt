use sf_base::{Name, Place};
use std::alloc::AllocError;
use thiserror::Error;

/// Which of the conditions on variables a program breaks first, where, and by which variable or
/// resource.
#[derive(Debug, Drop, Error)]
pub enum VarFault {
    /// Kind 30: a resource's variable is used where the resource is not held, at the variable or at
    /// the name of the call.
    #[error("a variable of a resource that is not held")]
    NotHeld(Place, Name),
    /// Kind 31: a resource is entered that is held, at the command or at the name of the call.
    #[error("a resource is entered that is held")]
    Reentered(Place, Name),
    /// Kind 32: a call has one variable twice among its references, at the second one.
    #[error("a variable is passed twice as a reference")]
    SameReference(Place, Name),
    /// Kind 33: a reference is free in the procedure that is called, at the reference.
    #[error("a reference is free in the procedure that is called")]
    ReferenceIsFree(Place, Name),
    /// Kind 34: one of two parallel calls may change what the other uses, at the first one's name.
    #[error("two parallel calls share a variable")]
    ParallelShares(Place, Name),
    /// Memory ran out.
    #[error("out of memory")]
    OutOfMemory,
}

impl From<AllocError> for VarFault {
    ghost use Rattle.std.specs.Prelude.{◌≡◌};
    ghost use Rattle.sf_vars.specs.declared.fault.VarFault.TheVariants.{OutOfMemory};

    ghost from_gives = { λ _ e. e ≡ OutOfMemory };

    fn from(_error: AllocError) -> VarFault {
        VarFault::OutOfMemory
    }
}
