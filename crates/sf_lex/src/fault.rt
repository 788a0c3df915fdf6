use sf_base::Place;
use thiserror::Error;

/// Why the bytes of a file are no tokens.
#[derive(Clone, Copy, Debug, PartialEq, Eq, Error)]
pub enum LexFault {
    /// Kind 1: a byte that begins no token, at its place.
    #[error("a byte that begins no token")]
    BadByte(Place),
    /// Kind 2: a name or existential longer than 64 bytes, at its first byte.
    #[error("a name or existential longer than 64 bytes")]
    LongWord(Place),
    /// Kind 3: a comment without an end, at its first byte.
    #[error("a comment without an end")]
    OpenComment(Place),
    /// Kind 4: a number outside `i64`, or directly before a letter or `_`, at its first byte.
    #[error("a bad number")]
    BadNumber(Place),
    /// Kind 5: more bytes than a file may have. It comes before the others.
    #[error("a file longer than 1,048,576 bytes")]
    LongFile,
    /// Memory ran out.
    #[error("out of memory")]
    OutOfMemory,
}
