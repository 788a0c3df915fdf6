use std::alloc::AllocError;

/// Why reading stops short of what is owed, named by how many tokens are left at the fault.
#[derive(Clone, Copy, Debug, PartialEq, Eq)]
pub enum Stop {
    /// The first of these tokens fits nothing that is owed; with none left, the end of the file.
    Unexpected(usize),
    /// The first of these tokens begins a command or an assertion for which there is no level.
    TooDeep(usize),
    /// Memory ran out.
    OutOfMemory,
}

impl From<AllocError> for Stop {
    ghost use Rattle.std.specs.Prelude.{◌≡◌};
    ghost use Rattle.sf_parse.specs.declared.stop.Stop.TheVariants.{OutOfMemory};

    ghost from_gives = { λ _ e. e ≡ OutOfMemory };

    fn from(_error: AllocError) -> Stop {
        Stop::OutOfMemory
    }
}
