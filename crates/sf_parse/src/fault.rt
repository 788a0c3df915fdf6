use sf_base::Place;
use thiserror::Error;

/// Why tokens are no file.
#[derive(Clone, Copy, Debug, PartialEq, Eq, Error)]
pub enum ParseFault {
    /// Kind 10: the first token that can't continue any file, at its place, or the end of the file.
    #[error("an unexpected token")]
    Unexpected(Place),
    /// Kind 11: the first token of a command or an assertion that would be the 65th of its nest.
    #[error("a command or an assertion deeper than 64")]
    TooDeep(Place),
    /// Memory ran out.
    #[error("out of memory")]
    OutOfMemory,
}
