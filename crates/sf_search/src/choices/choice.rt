use sf_sym::{Stuck, Tag};

/// What the strategy does at a goal.
#[derive(Clone, Copy, Debug, PartialEq, Eq)]
pub enum Choice {
    /// It takes this tag.
    Takes(Tag),
    /// It is stuck there, for this reason.
    Stays(Stuck),
}
