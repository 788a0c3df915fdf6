//! Expressions and assertions with the terms that the variables have now.

ghost use Rattle.std.specs.Prelude.{◌≡◌, IfOk, None, map, replicate};
ghost use Rattle.sf_core.specs.Program.View.{conjunct_of, conjuncts, level_of};
ghost use Rattle.sf_rules.specs.Checked.Terms.{terms_of};
ghost use Rattle.sf_sym.specs.Mapped.{conjunct_with, conjuncts_with, level_with, operand_with, test_with};
ghost use Rattle.sf_sym.specs.State.{term};

use crate::words::Terms;
use sf_base::{FieldId, Var};
use sf_core::{Conjunct, Expr, Level, Operand, Test};
use sf_sym::{Term, term_at};
use std::alloc::{AllocError, Global};

/// The term of an expression.
pub(crate) fn term_of(vars: &[(Var, Term)], e: &Expr) -> Term
    ensures { result ≡ term vars.now e.now }
{
    match e {
        Expr::Var(x) => term_at(vars, x.var),
        Expr::Nil => Term::Nil,
        Expr::Int(i) => Term::Int(*i),
    }
}

/// That many existentials without a term.
pub(crate) fn unbound(alloc: Global, count: usize) -> Result<Vec<Option<Term>>, AllocError>
    ensures { IfOk result (λ bindings. bindings.items ≡ replicate count None) }
{
    vec![in alloc; None; count]
}

/// Conjuncts with terms in place of expressions, in the same order. An `Err` means out of memory.
#[cycle(terms)]
pub(crate) fn with_terms(
    alloc: Global,
    terms: Terms<'_>,
    from: &[Conjunct<Expr>],
) -> Result<Vec<Conjunct<Term>>, AllocError>
    ensures { IfOk result (λ cs. conjuncts (map conjunct_of cs.items)
        ≡ conjuncts_with (terms_of terms.entry) (conjuncts (map conjunct_of from.now))) }
{
    let mut made = Vec::with_capacity(alloc, from.len())?;
    for c in from {
        made.push(conjunct_with(alloc, terms, c)?)?;
    }
    Ok(made)
}

/// One conjunct with terms.
#[cycle(terms)]
fn conjunct_with(
    alloc: Global,
    terms: Terms<'_>,
    c: &Conjunct<Expr>,
) -> Result<Conjunct<Term>, AllocError>
    ensures { IfOk result (λ d. conjunct_of d
        ≡ conjunct_with (terms_of terms.entry) (conjunct_of c.now)) }
{
    match c {
        Conjunct::Holds(place, test) => Ok(Conjunct::Holds(*place, test_with(terms, test))),
        Conjunct::Points(place, root, fields) => {
            let fields = fields_with(alloc, terms, fields)?;
            Ok(Conjunct::Points(*place, operand_with(terms, root), fields))
        }
        Conjunct::Segment(place, next, from, to) => {
            Ok(Conjunct::Segment(
                *place,
                *next,
                operand_with(terms, from),
                operand_with(terms, to),
            ))
        }
        Conjunct::Doubly(place, next, back, from, before, last, to) => {
            Ok(Conjunct::Doubly(
                *place,
                *next,
                *back,
                operand_with(terms, from),
                operand_with(terms, before),
                operand_with(terms, last),
                operand_with(terms, to),
            ))
        }
        Conjunct::Tree(place, left, right, root) => {
            Ok(Conjunct::Tree(*place, *left, *right, operand_with(terms, root)))
        }
        Conjunct::If(place, test, this, that) => {
            let this = level_with(alloc, terms, this)?;
            let that = level_with(alloc, terms, that)?;
            Ok(Conjunct::If(*place, test_with(terms, test), this, that))
        }
    }
}

/// A level with terms.
#[cycle(terms)]
fn level_with(
    alloc: Global,
    terms: Terms<'_>,
    level: &Level<Expr>,
) -> Result<Level<Term>, AllocError>
    ensures { IfOk result (λ d. level_of d
        ≡ level_with (terms_of terms.entry) (level_of level.now)) }
{
    Ok(Level {
        made: level.made,
        conjuncts: with_terms(alloc, terms, &level.conjuncts)?,
    })
}

/// A test with terms.
fn test_with(terms: Terms<'_>, test: &Test<Operand<Expr>>) -> Test<Operand<Term>>
    ensures { result ≡ test_with (terms_of terms.entry) test.now }
{
    match test {
        Test::True => Test::True,
        Test::Equal(x, y) => Test::Equal(operand_with(terms, x), operand_with(terms, y)),
        Test::Differ(x, y) => Test::Differ(operand_with(terms, x), operand_with(terms, y)),
    }
}

/// An operand with its term.
fn operand_with(terms: Terms<'_>, x: &Operand<Expr>) -> Operand<Term>
    ensures { result ≡ operand_with (terms_of terms.entry) x.now }
{
    match x {
        Operand::Known(e) => Operand::Known(terms.of(e)),
        Operand::Exists(n) => Operand::Exists(*n),
    }
}

/// Fields with their terms.
fn fields_with(
    alloc: Global,
    terms: Terms<'_>,
    fields: &[(FieldId, Operand<Expr>)],
) -> Result<Vec<(FieldId, Operand<Term>)>, AllocError>
    ensures { IfOk result (λ fs. fs.items
        ≡ map (λ f. (f.0, operand_with (terms_of terms.entry) f.1)) fields.now) }
{
    let mut made = Vec::with_capacity(alloc, fields.len())?;
    for f in fields {
        made.push((f.0, operand_with(terms, &f.1)))?;
    }
    Ok(made)
}
