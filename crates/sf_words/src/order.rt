use std::alloc::AllocError;
use thiserror::Error;

/// A command with its words and numbers.
#[derive(Clone, Copy, Debug, PartialEq, Eq)]
pub enum Order<'a> {
    /// Search for a proof of a file, have it checked, and print it.
    Verify {
        /// The file's name.
        file: &'a str,
        /// How many workers search side by side: 1 to 64.
        workers: u32,
    },
    /// Check a given proof of a file.
    Recheck {
        /// The file's name.
        file: &'a str,
        /// The name of the proof's file.
        proof: &'a str,
    },
    /// Verify a file, and run one of its procedures from a state.
    Run {
        /// The file's name.
        file: &'a str,
        /// The procedure that is run.
        entry: &'a str,
        /// The name of the state's file.
        state: &'a str,
        /// The most events that the run may have: 1 to 2^48.
        steps: u64,
        /// The most tries in a row at one region: 1 to 16,777,216.
        waits: u32,
    },
    /// Make a file of so many procedures, and verify it.
    Demo {
        /// How many procedures: 1 to 1,000.
        procedures: u32,
    },
    /// Rank the resources of a file.
    Ranking {
        /// The file's name.
        file: &'a str,
    },
    /// Replay a schedule of events of a file's procedure from a state.
    Replay {
        /// The file's name.
        file: &'a str,
        /// The procedure that is run.
        entry: &'a str,
        /// The name of the state's file.
        state: &'a str,
        /// The name of the schedule's file.
        schedule: &'a str,
    },
    /// Show a concrete state of a file's failed obligation.
    Witness {
        /// The file's name.
        file: &'a str,
    },
    /// Run as `Run` does, and tell the events that the run had.
    Journal {
        /// The file's name.
        file: &'a str,
        /// The procedure that is run.
        entry: &'a str,
        /// The name of the state's file.
        state: &'a str,
        /// The most events that the run may have: 1 to 2^48.
        steps: u64,
        /// The most tries in a row at one region: 1 to 16,777,216.
        waits: u32,
    },
}

/// Why words were not read.
#[derive(Clone, Copy, Debug, PartialEq, Eq, Error)]
pub enum WordFault {
    /// The words are not in the grammar.
    #[error("the words are no command")]
    Usage,
    /// Memory ran out.
    #[error("out of memory")]
    OutOfMemory,
}

impl From<AllocError> for WordFault {
    ghost use Rattle.std.specs.Prelude.{◌≡◌};
    ghost use Rattle.sf_words.specs.declared.order.WordFault.TheVariants.{OutOfMemory};

    ghost from_gives = { λ _ e. e ≡ OutOfMemory };

    fn from(_error: AllocError) -> WordFault {
        WordFault::OutOfMemory
    }
}
