use sf_base::Place;

/// A name or an existential where it occurs in the file.
#[derive(Clone, Copy, Debug, PartialEq, Eq)]
pub struct Word {
    /// How many bytes come before its text.
    pub start: usize,
    /// How many bytes come before what follows its text.
    pub end: usize,
    /// The place of its first byte.
    pub place: Place,
}

/// One name or more, with commas between them.
#[derive(Debug, Drop)]
pub struct SurfaceNames {
    /// The left one.
    pub first: Word,
    /// Those after it, each after its comma.
    pub more: Vec<Word>,
}

/// An expression.
#[derive(Clone, Copy, Debug, PartialEq, Eq)]
pub enum SurfaceExpr {
    /// A variable.
    Name(Word),
    /// `nil`
    Nil(Place),
    /// `NULL`
    Null(Place),
    /// Digits, with a `-` before them or none: what they write, and where they are.
    Number(i64, Place),
}

/// What occurs in an assertion for a value.
#[derive(Clone, Copy, Debug, PartialEq, Eq)]
pub enum SurfaceOperand {
    /// An expression.
    Known(SurfaceExpr),
    /// `_x`
    Existential(Word),
}

/// A test of two values.
#[derive(Clone, Copy, Debug, PartialEq, Eq)]
pub enum SurfaceTest<E> {
    /// `true`
    True(Place),
    /// `E == F`
    Equal(E, E),
    /// `E != F`
    Differ(E, E),
}
