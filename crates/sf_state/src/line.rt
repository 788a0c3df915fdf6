use crate::fields::Setting;
use sf_base::{Name, Sequence, Value};

/// What a line of a state's text says.
#[derive(Debug, Drop)]
pub enum Entry {
    /// Nothing: it is the first line `finished`, a comment, or a line without words.
    Nothing,
    /// It is no line of a state's text.
    Bad,
    /// Something of a variable or a field that isn't there.
    Unknown(Name),
    /// The variable of that number, in canonical order, has that value.
    Variable(usize, Value),
    /// A cell is at that location, with these fields in the order of the text.
    Cell(u64, Sequence<Setting>),
}
