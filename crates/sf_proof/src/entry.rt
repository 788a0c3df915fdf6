use sf_sym::Tag;

/// What a line of a proof's text says.
#[derive(Clone, Copy, Debug, PartialEq, Eq)]
pub enum Entry {
    /// Nothing that is kept: it is the verdict in the first line, or a line without words.
    Nothing,
    /// A tag.
    Says(Tag),
    /// It is no line of a proof's text.
    Bad,
}
