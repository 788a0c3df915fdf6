//! Assertions as numbered trees: operands, tests, conjuncts, levels.

use crate::command::Expr;
use sf_base::{FieldId, Name, Place};

/// A value in an assertion: something that has one, or an existential.
#[derive(Clone, Copy, Debug, PartialEq, Eq)]
pub enum Operand<E> {
    /// It has a value by itself.
    Known(E),
    /// The existential of that number. Each existential of an assertion has a number of its own.
    Exists(u32),
}

/// A test of two values.
#[derive(Clone, Copy, Debug, PartialEq, Eq)]
pub enum Test<E> {
    /// Always true.
    True,
    /// The two values are the same.
    Equal(E, E),
    /// The two values differ.
    Differ(E, E),
}

/// The existentials that one level makes: `count` of them, numbered from `first`.
#[derive(Clone, Copy, Debug, PartialEq, Eq)]
pub struct Scope {
    /// The number of its first existential.
    pub first: u32,
    /// How many it makes.
    pub count: u32,
}

/// One conjunct and the place of its first token.
#[cycle(assertion)]
#[derive(Debug, Drop)]
pub enum Conjunct<E> {
    /// The heap is empty and the test is true.
    Holds(Place, Test<Operand<E>>),
    /// Exactly one cell, at the root, with these values in these fields.
    Points(Place, Operand<E>, Vec<(FieldId, Operand<E>)>),
    /// A list segment along the field: from the first up to the second.
    Segment(Place, FieldId, Operand<E>, Operand<E>),
    /// A doubly linked segment along the first field and, backwards, the second: from the first
    /// operand up to the last one; before its first cell stands the second operand, and its last
    /// cell is at the third.
    Doubly(Place, FieldId, FieldId, Operand<E>, Operand<E>, Operand<E>, Operand<E>),
    /// A tree with its left and its right field.
    Tree(Place, FieldId, FieldId, Operand<E>),
    /// One of two levels.
    If(Place, Test<Operand<E>>, Level<E>, Level<E>),
}

/// The conjuncts of an assertion, or of a branch of one, and the existentials that are made there.
#[cycle(assertion)]
#[derive(Debug, Drop)]
pub struct Level<E> {
    /// The existentials that are made here.
    pub made: Scope,
    /// The conjuncts, in text order.
    pub conjuncts: Vec<Conjunct<E>>,
}

/// An assertion as it is written.
#[derive(Debug, Drop)]
pub struct Assertion {
    /// The names of its existentials, by number.
    pub names: Vec<Name>,
    /// Its outermost level.
    pub level: Level<Expr>,
}
