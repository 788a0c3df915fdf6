//! Assertions made flat, and the existentials that occur in a level.

ghost use Rattle.std.specs.Prelude.{◌≡◌, ◌∷◌, ◌++◌, [], map, IfOk};
ghost use Rattle.sf_base.specs.Results.{Appends};
ghost use Rattle.sf_ast.specs.View.{assertion_of, conjunct_of};
ghost use Rattle.sf_elab.specs.Annotations.Flat.{flat, flat_all, flat_of, flats, operand_place, words_in, words_in_fields, words_in_flat, words_in_operand, words_in_test};

use crate::env::expr_place;
use sf_ast::{
    SurfaceAssertion, SurfaceConjunct, SurfaceExpr, SurfaceField, SurfaceOperand, SurfaceTest, Word,
};
use sf_base::Place;
use std::alloc::{AllocError, Global};

/// One conjunct of a level, and the place of its first token. A level is a list of them.
#[derive(Drop)]
pub enum Flat {
    /// A test.
    Test(Place, SurfaceTest<SurfaceOperand>),
    /// A cell.
    Points(Place, SurfaceOperand, Vec<SurfaceField>),
    /// A segment.
    Segment(Place, SurfaceOperand, SurfaceOperand),
    /// A doubly linked segment.
    Doubly(Place, SurfaceOperand, SurfaceOperand, SurfaceOperand, SurfaceOperand),
    /// A tree.
    Tree(Place, SurfaceOperand),
    /// A choice of two levels.
    If(Place, SurfaceTest<SurfaceOperand>, Vec<Flat>, Vec<Flat>),
}

/// Where the first token of an operand is.
fn operand_place(x: SurfaceOperand) -> Place
    ensures { result ≡ operand_place x }
{
    match x {
        SurfaceOperand::Known(e) => expr_place(e),
        SurfaceOperand::Existential(word) => word.place,
    }
}

/// Appends a conjunct that was made.
fn push(one: Flat, done: &mut Vec<Flat>) -> Result<(), AllocError>
    ensures { Appends result (map flat_of done.old.items) (map flat_of done.new.items)
        (flat_of one ∷ []) }
{
    done.push(one)?;
    Ok(())
}

/// Appends a conjunct, or those in its parentheses.
#[cycle(flat)]
fn add_conjunct(alloc: Global, c: &SurfaceConjunct, done: &mut Vec<Flat>) -> Result<(), AllocError>
    ensures { Appends result (map flat_of done.old.items) (map flat_of done.new.items)
        (flat (conjunct_of c.now)) }
{
    match c {
        SurfaceConjunct::Emp(_) => Ok(()),
        SurfaceConjunct::Group(all) => add_all(alloc, all, done),
        SurfaceConjunct::If(p, _, test, this, that) => {
            let this = level(alloc, this)?;
            let that = level(alloc, that)?;
            push(Flat::If(*p, *test, this, that), done)
        }
        SurfaceConjunct::Equal(x, y) => {
            push(
                Flat::Test(operand_place(*x), SurfaceTest::Equal(*x, *y)),
                done,
            )
        }
        SurfaceConjunct::Differ(x, y) => {
            push(
                Flat::Test(operand_place(*x), SurfaceTest::Differ(*x, *y)),
                done,
            )
        }
        SurfaceConjunct::Points(x, fields) => {
            let fields = Vec::from_slice(alloc, fields)?;
            push(Flat::Points(operand_place(*x), *x, fields), done)
        }
        SurfaceConjunct::Ls(p, _, x, y) => push(Flat::Segment(*p, *x, *y), done),
        SurfaceConjunct::List(p, x) => {
            let nil = SurfaceOperand::Known(SurfaceExpr::Nil(*p));
            push(Flat::Segment(*p, *x, nil), done)
        }
        SurfaceConjunct::Dll(p, x, b, l, y) => push(Flat::Doubly(*p, *x, *b, *l, *y), done),
        SurfaceConjunct::Tree(p, x) => push(Flat::Tree(*p, *x), done),
    }
}

/// Appends the conjuncts of an assertion.
#[cycle(flat)]
fn add_all(
    alloc: Global,
    assertion: &SurfaceAssertion,
    done: &mut Vec<Flat>,
) -> Result<(), AllocError>
    ensures { Appends result (map flat_of done.old.items) (map flat_of done.new.items)
        (flat_all (assertion_of assertion.now)) }
{
    add_conjunct(alloc, &assertion.first, done)?;
    for c in &assertion.more {
        add_conjunct(alloc, c, done)?;
    }
    Ok(())
}

/// The level that an assertion is.
#[cycle(flat)]
pub fn level(alloc: Global, assertion: &SurfaceAssertion) -> Result<Vec<Flat>, AllocError>
    ensures { IfOk result (λ v. map flat_of v.items ≡ flat_all (assertion_of assertion.now)) }
{
    let mut done = Vec::new(alloc);
    add_all(alloc, assertion, &mut done)?;
    Ok(done)
}

/// Appends the existential that the operand is.
fn add_operand(x: &SurfaceOperand, words: &mut Vec<Word>) -> Result<(), AllocError>
    ensures { Appends result words.old.items words.new.items (words_in_operand x.now) }
{
    match x {
        SurfaceOperand::Known(_) => Ok(()),
        SurfaceOperand::Existential(word) => {
            words.push(*word)?;
            Ok(())
        }
    }
}

/// Appends the existentials that the two operands are.
fn add_both(x: &SurfaceOperand, y: &SurfaceOperand, words: &mut Vec<Word>) -> Result<(), AllocError>
    ensures { Appends result words.old.items words.new.items (words_in_operand x.now
        ++ words_in_operand y.now) }
{
    add_operand(x, words)?;
    add_operand(y, words)
}

/// Appends the existentials of the test.
fn add_test(test: &SurfaceTest<SurfaceOperand>, words: &mut Vec<Word>) -> Result<(), AllocError>
    ensures { Appends result words.old.items words.new.items (words_in_test test.now) }
{
    match test {
        SurfaceTest::True(_) => Ok(()),
        SurfaceTest::Equal(x, y) | SurfaceTest::Differ(x, y) => add_both(x, y, words),
    }
}

/// Appends those among the values of fields.
fn add_fields(fields: &[SurfaceField], words: &mut Vec<Word>) -> Result<(), AllocError>
    ensures { Appends result words.old.items words.new.items (words_in_fields fields.now) }
{
    for field in fields {
        add_operand(&field.value, words)?;
    }
    Ok(())
}

/// Appends the existentials of a level itself that occur in the conjunct.
fn add_words_in(c: &Flat, words: &mut Vec<Word>) -> Result<(), AllocError>
    ensures { Appends result words.old.items words.new.items (words_in_flat (flat_of c.now)) }
{
    match c {
        Flat::Test(_, test) | Flat::If(_, test, _, _) => add_test(test, words),
        Flat::Points(_, x, fields) => {
            add_operand(x, words)?;
            add_fields(fields, words)
        }
        Flat::Segment(_, x, y) => add_both(x, y, words),
        Flat::Doubly(_, x, b, l, y) => {
            add_operand(x, words)?;
            add_operand(b, words)?;
            add_both(l, y, words)
        }
        Flat::Tree(_, x) => add_operand(x, words),
    }
}

/// Appends the existentials of the level itself, in text order.
pub fn add_words(level: &[Flat], words: &mut Vec<Word>) -> Result<(), AllocError>
    ensures { Appends result words.old.items words.new.items
        (words_in (flats (map flat_of level.now))) }
{
    for c in level {
        add_words_in(c, words)?;
    }
    Ok(())
}
