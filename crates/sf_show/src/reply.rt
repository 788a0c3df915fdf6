//! What is said, with which status; and what is fetched of a file.

ghost use Rattle.std.specs.Prelude.{◌<◌, ◌^◌, ◌-◌};

use sf_hints::put;
use sf_io::{FetchFault, Shelf};
use std::alloc::{AllocError, Global};

/// What is said, and the status that goes with it.
#[derive(Debug, Drop)]
pub struct Said {
    /// The whole text.
    pub text: Vec<u8>,
    /// The status.
    pub status: u8,
}

/// Why nothing can be said.
#[derive(Debug, Drop)]
pub enum Unsaid {
    /// The file of that name can't be read.
    Unread(Vec<u8>),
    /// Memory ran out.
    OutOfMemory,
}

impl From<AllocError> for Unsaid {
    ghost use Rattle.std.specs.Prelude.{◌≡◌};
    ghost use Rattle.sf_show.specs.declared.reply.Unsaid.TheVariants.{OutOfMemory};

    ghost from_gives = { λ _ e. e ≡ OutOfMemory };

    fn from(_error: AllocError) -> Unsaid {
        Unsaid::OutOfMemory
    }
}

/// That text, with that status.
pub fn say(alloc: Global, text: &str, status: u8) -> Result<Said, AllocError> {
    Ok(Said {
        text: Vec::from_slice(alloc, text.as_bytes())?,
        status,
    })
}

/// That the file of that name can't be read. An `Err` says that memory ran out.
pub fn say_unread(alloc: Global, name: &[u8]) -> Result<Said, AllocError> {
    let mut text = Vec::from_slice(alloc, b"read fault: ")?;
    text.extend_from_slice(name)?;
    put(&mut text, "\n")?;
    Ok(Said { text, status: 7 })
}

/// The bytes of a file; of one of more bytes than the limit, one more than that.
pub fn fetch_up_to<S: Shelf>(
    alloc: Global,
    name: &str,
    limit: usize,
    shelf: &mut S,
) -> Result<Vec<u8>, Unsaid> {
    let mut bytes = Vec::new(alloc);
    match shelf.fetch(name, limit.saturating_add(1), &mut bytes) {
        Ok(()) => Ok(bytes),
        Err(FetchFault::Failed) => {
            let unread = Vec::from_slice(alloc, name.as_bytes())?;
            Err(Unsaid::Unread(unread))
        }
        Err(FetchFault::OutOfMemory) => Err(Unsaid::OutOfMemory),
    }
}
