//! What is written into the box of a part of the heap.

use crate::model::{Part, Shape};

/// How many bytes of a text are drawn.
pub const CUT: usize = 24;

/// A line in the box of a part: a name with a term.
#[derive(Clone, Copy)]
pub struct Line<'a> {
    /// The name.
    pub name: &'a [u8],
    /// The term.
    pub term: &'a [u8],
    /// Whether the way there goes through more cells.
    pub loose: bool,
}

/// The address of a part.
pub fn address(part: &Part) -> &[u8] {
    match &part.shape {
        Shape::Cell { at, .. } => at,
        Shape::List { at, .. } => at,
        Shape::Tree { at } => at,
        Shape::Double { at, .. } => at,
    }
}

/// Which part it is: nothing is said of a cell.
pub fn kind(part: &Part) -> &'static [u8] {
    match &part.shape {
        Shape::Cell { .. } => b"",
        Shape::List { .. } => b" list",
        Shape::Tree { .. } => b" tree",
        Shape::Double { .. } => b" doubly",
    }
}

/// Whether a part is one cell.
pub fn is_cell(part: &Part) -> bool {
    matches!(&part.shape, Shape::Cell { .. })
}

/// How many lines the box of a part has.
pub fn line_count(part: &Part) -> usize {
    match &part.shape {
        Shape::Cell { fields, .. } => fields.len(),
        Shape::List { .. } => 1,
        Shape::Tree { .. } => 0,
        Shape::Double { .. } => 3,
    }
}

/// That line of the box of a part.
pub fn line_at(part: &Part, k: usize) -> Option<Line<'_>> {
    match &part.shape {
        Shape::Cell { fields, .. } => match fields.get(k) {
            Some(field) => Some(Line {
                name: &field.name,
                term: &field.term,
                loose: false,
            }),
            None => None,
        },
        Shape::List { to, .. } => Some(Line {
            name: b"to",
            term: to,
            loose: true,
        }),
        Shape::Tree { .. } => None,
        Shape::Double {
            before,
            last,
            to,
            ..
        } => Some(double_line(before, last, to, k)),
    }
}

/// That line of the box of a doubly linked segment.
fn double_line<'a>(before: &'a [u8], last: &'a [u8], to: &'a [u8], k: usize) -> Line<'a> {
    let (name, term): (&[u8], &[u8]) = match k {
        0 => (b"to", to),
        1 => (b"before", before),
        _ => (b"last", last),
    };
    Line {
        name,
        term,
        loose: true,
    }
}

/// Whether a term is nil, where no arrow goes and no name stands: an empty segment may be there.
pub fn is_nil(term: &[u8]) -> bool {
    term == b"nil".as_slice()
}

/// Whether a line of the box leads to that term.
pub fn points_at(part: &Part, term: &[u8]) -> bool {
    if is_nil(term) {
        return false;
    }
    for k in 0..line_count(part) {
        if let Some(line) = line_at(part, k)
            && line.term == term
        {
            return true;
        }
    }
    false
}

/// Whether a part is a segment whose last cell is at that address.
pub fn ends_at(part: &Part, term: &[u8]) -> bool {
    match &part.shape {
        Shape::Double { last, .. } => !is_nil(term) && last.as_slice() == term,
        Shape::Cell { .. } => false,
        Shape::List { .. } => false,
        Shape::Tree { .. } => false,
    }
}

/// How many letters of a text are drawn.
pub fn drawn_len(text: &[u8]) -> u32 {
    if text.len() > CUT {
        return CUT as u32;
    }
    text.len() as u32
}
