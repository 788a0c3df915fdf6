//! What a seat knows. No value of these types is made.

use sf_base::ResId;
use sf_core::Program;
use sf_part::{Content, Part};
use std::collections::LinkedList;

/// With what a table began: the program, the part of its task, and the contents in file order.
pub struct Begun<'p> {
    pub program: Program,
    pub part: Part<'p>,
    pub contents: LinkedList<Content>,
}

/// What a seat knows: a content in hand, its task's part as it was at the seat's last step, the
/// parts of children, and the misses since the task's last event. A seat that isn't live stands
/// for no part.
pub struct View<'p> {
    pub live: bool,
    pub hand: Option<Content>,
    pub part: Part<'p>,
    pub kids: LinkedList<Part<'p>>,
    pub missed: ResId,
    pub misses: u32,
    pub begun: Begun<'p>,
}
