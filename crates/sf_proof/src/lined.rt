use sf_base::Sequence;
use sf_sym::Tag;

/// The tags that a text says, and for each the number of its line, from 1.
#[derive(Debug, Drop)]
pub struct Lined {
    /// The tags, in order.
    pub tags: Sequence<Tag>,
    /// The numbers of their lines: as many, and in the same order.
    pub lines: Sequence<u32>,
}
