//! What a row leaves of a goal.

use crate::children::Children;
use std::alloc::AllocError;

/// The goals that a row leaves: `None` exactly where it isn't there, an `Err` for want of memory.
pub(crate) type Left<'a> = Result<Option<Children<'a>>, AllocError>;
