//! Why the resources aren't set up.

use sf_base::TaskPath;
use std::alloc::AllocError;

/// Why the resources aren't set up.
#[derive(Drop)]
pub enum SetUpStop {
    /// The task at that path would go on, and has used as many units as it was given.
    Steps(TaskPath, u64),
    /// Memory ran out.
    OutOfMemory,
}

impl From<AllocError> for SetUpStop {
    ghost use Rattle.std.specs.Prelude.{◌≡◌};
    ghost use Rattle.sf_setup.specs.declared.stop.SetUpStop.TheVariants.{OutOfMemory};

    ghost from_gives = { λ _ e. e ≡ OutOfMemory };

    fn from(_error: AllocError) -> SetUpStop {
        SetUpStop::OutOfMemory
    }
}
