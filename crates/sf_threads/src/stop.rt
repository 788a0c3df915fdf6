//! Why a run stops before its end.

use sf_base::{ResId, TaskPath};
use sf_region::Misses;
use std::alloc::AllocError;

/// Why a run stops before its end.
#[derive(Drop)]
pub enum Stop<'p> {
    /// The task at that path would go on, or waits for two children that have ended, and neither it
    /// nor they have a unit left; so many it was given.
    Steps(TaskPath, u64),
    /// The task at that path tried the region of that resource in vain, as often as one may: the
    /// receipt counts as many misses since its last event.
    Waits(TaskPath, ResId, Misses<'p>),
    /// Memory ran out.
    OutOfMemory,
}

impl<'p> From<AllocError> for Stop<'p> {
    ghost use Rattle.std.specs.Prelude.{◌≡◌};
    ghost use Rattle.sf_threads.specs.declared.stop.Stop.TheVariants.{OutOfMemory};

    ghost from_gives = { λ _ s. s ≡ OutOfMemory };

    fn from(_error: AllocError) -> Stop<'p> {
        Stop::OutOfMemory
    }
}
