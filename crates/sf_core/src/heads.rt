//! What a command has in itself, apart from the commands inside it: the variables that occur in it.

ghost use Rattle.std.specs.Prelude.{map};
ghost use Rattle.std.specs.List.{flat_map};
ghost use Rattle.sf_base.specs.Results.{Appends};
ghost use Rattle.sf_core.specs.Program.Heads.{expr_occurrences, operand_occurrences, test_occurrences, level_occurrences, conjuncts_occurrences, conjunct_occurrences, call_occurrences, head_occurrences};
ghost use Rattle.sf_core.specs.Program.View.{call_of, command_of, conjunct_of, conjuncts, level_of};

use crate::assertion::{Conjunct, Level, Operand, Test};
use crate::command::{Call, Command, Expr, Occurrence};
use sf_base::FieldId;
use std::alloc::AllocError;

/// Appends what occurs in an expression.
fn add_expr(e: &Expr, found: &mut Vec<Occurrence>) -> Result<(), AllocError>
    ensures { Appends result found.old.items found.new.items (expr_occurrences e.now) }
{
    if let Expr::Var(x) = e {
        found.push(*x)?;
    }
    Ok(())
}

/// Appends what occurs in an operand.
fn add_operand(operand: &Operand<Expr>, found: &mut Vec<Occurrence>) -> Result<(), AllocError>
    ensures { Appends result found.old.items found.new.items (operand_occurrences operand.now) }
{
    if let Operand::Known(e) = operand {
        add_expr(e, found)?;
    }
    Ok(())
}

/// Appends what occurs in a test of commands.
fn add_test(test: &Test<Expr>, found: &mut Vec<Occurrence>) -> Result<(), AllocError>
    ensures { Appends result found.old.items found.new.items
        (test_occurrences expr_occurrences test.now) }
{
    match test {
        Test::True => Ok(()),
        Test::Equal(a, b) | Test::Differ(a, b) => {
            add_expr(a, found)?;
            add_expr(b, found)?;
            Ok(())
        }
    }
}

/// Appends what occurs in a test of assertions.
fn add_condition(test: &Test<Operand<Expr>>, found: &mut Vec<Occurrence>) -> Result<(), AllocError>
    ensures { Appends result found.old.items found.new.items
        (test_occurrences operand_occurrences test.now) }
{
    match test {
        Test::True => Ok(()),
        Test::Equal(a, b) | Test::Differ(a, b) => {
            add_operand(a, found)?;
            add_operand(b, found)?;
            Ok(())
        }
    }
}

/// Appends what occurs in the fields' operands.
fn add_fields(
    fields: &[(FieldId, Operand<Expr>)],
    found: &mut Vec<Occurrence>,
) -> Result<(), AllocError>
    ensures { Appends result found.old.items found.new.items
        (flat_map (λ f. operand_occurrences f.1) fields.now) }
{
    for f in fields {
        add_operand(&f.1, found)?;
    }
    Ok(())
}

/// Appends what occurs in a level, in text order. An `Err` means that memory ran out.
#[cycle(occurrences)]
pub fn add_level_occurrences(
    level: &Level<Expr>,
    found: &mut Vec<Occurrence>,
) -> Result<(), AllocError>
    ensures { Appends result found.old.items found.new.items
        (level_occurrences (level_of level.now)) }
{
    add_conjuncts(&level.conjuncts, found)?;
    Ok(())
}

/// Appends what occurs in conjuncts.
#[cycle(occurrences)]
fn add_conjuncts(cs: &[Conjunct<Expr>], found: &mut Vec<Occurrence>) -> Result<(), AllocError>
    ensures { Appends result found.old.items found.new.items
        (conjuncts_occurrences (conjuncts (map conjunct_of cs.now))) }
{
    for c in cs {
        add_conjunct(c, found)?;
    }
    Ok(())
}

/// Appends what occurs in one conjunct.
#[cycle(occurrences)]
fn add_conjunct(c: &Conjunct<Expr>, found: &mut Vec<Occurrence>) -> Result<(), AllocError>
    ensures { Appends result found.old.items found.new.items
        (conjunct_occurrences (conjunct_of c.now)) }
{
    match c {
        Conjunct::Holds(_, test) => {
            add_condition(test, found)?;
            Ok(())
        }
        Conjunct::Points(_, root, fields) => {
            add_operand(root, found)?;
            add_fields(fields, found)?;
            Ok(())
        }
        Conjunct::Segment(_, _, from, to) => {
            add_operand(from, found)?;
            add_operand(to, found)?;
            Ok(())
        }
        Conjunct::Doubly(_, _, _, from, before, last, to) => {
            add_operand(from, found)?;
            add_operand(before, found)?;
            add_operand(last, found)?;
            add_operand(to, found)?;
            Ok(())
        }
        Conjunct::Tree(_, _, _, root) => {
            add_operand(root, found)?;
            Ok(())
        }
        Conjunct::If(_, test, this, that) => {
            add_condition(test, found)?;
            add_level_occurrences(this, found)?;
            add_level_occurrences(that, found)?;
            Ok(())
        }
    }
}

/// Appends what occurs in a call: its references, and then its values. An `Err` means that memory
/// ran out.
pub fn add_call_occurrences(call: &Call, found: &mut Vec<Occurrence>) -> Result<(), AllocError>
    ensures { Appends result found.old.items found.new.items
        (call_occurrences (call_of call.now)) }
{
    for x in &call.references {
        found.push(*x)?;
    }
    add_values(&call.values, found)?;
    Ok(())
}

/// Appends what occurs in values.
fn add_values(values: &[Expr], found: &mut Vec<Occurrence>) -> Result<(), AllocError>
    ensures { Appends result found.old.items found.new.items
        (flat_map expr_occurrences values.now) }
{
    for e in values {
        add_expr(e, found)?;
    }
    Ok(())
}

/// Appends what occurs in the command itself, apart from its calls, in text order. An `Err` means
/// that memory ran out.
pub fn add_head_occurrences(c: &Command, found: &mut Vec<Occurrence>) -> Result<(), AllocError>
    ensures { Appends result found.old.items found.new.items
        (head_occurrences (command_of c.now)) }
{
    match c {
        Command::Assign(_, x, e) | Command::LookUp(_, x, e, _) => {
            found.push(*x)?;
            add_expr(e, found)?;
        }
        Command::Mutate(_, e, _, d) => {
            add_expr(e, found)?;
            add_expr(d, found)?;
        }
        Command::New(_, x) => found.push(*x)?,
        Command::Dispose(_, e) => add_expr(e, found)?,
        Command::If(_, test, _, _) | Command::With(_, _, test, _) => add_test(test, found)?,
        Command::While(_, test, invariant, _) => {
            add_test(test, found)?;
            add_level_occurrences(&invariant.level, found)?;
        }
        Command::Call(_, _) | Command::Fork(_, _, _) => {}
    }
    Ok(())
}
