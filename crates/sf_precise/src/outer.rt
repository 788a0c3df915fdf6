//! The existentials that occur in the parts of a conjunct, and those that a scope does not make.

ghost use Rattle.std.specs.Prelude.{◌≡◌, ◌&&◌, not, filter, flat_map};
ghost use Rattle.sf_base.specs.Results.{Appends};
ghost use Rattle.sf_core.specs.Assertions.Scopes.{is_made_by};
ghost use Rattle.sf_precise.specs.Checked.Outer.{existential, field_existentials, of_four, test_existentials};

use sf_base::FieldId;
use sf_core::{Expr, Operand, Scope, Test};
use std::alloc::AllocError;

/// Whether the existential of that number is made by the scope.
pub fn is_made_by(made: Scope, n: u32) -> bool
    ensures { result ≡ is_made_by made n }
{
    made.first <= n && n - made.first < made.count
}

/// Appends the existential that the operand is, if it is one.
pub fn add_existential(x: &Operand<Expr>, found: &mut Vec<u32>) -> Result<(), AllocError>
    ensures { Appends result found.old.items found.new.items (existential x.now) }
{
    if let Operand::Exists(n) = x {
        found.push(*n)?;
    }
    Ok(())
}

/// Appends those of a test.
pub fn add_of_test(test: &Test<Operand<Expr>>, found: &mut Vec<u32>) -> Result<(), AllocError>
    ensures { Appends result found.old.items found.new.items (test_existentials test.now) }
{
    match test {
        Test::True => Ok(()),
        Test::Equal(x, y) | Test::Differ(x, y) => {
            add_existential(x, found)?;
            add_existential(y, found)?;
            Ok(())
        }
    }
}

/// Appends those of the four operands of a doubly linked segment.
pub fn add_of_four(
    from: &Operand<Expr>,
    before: &Operand<Expr>,
    last: &Operand<Expr>,
    to: &Operand<Expr>,
    found: &mut Vec<u32>,
) -> Result<(), AllocError>
    ensures { Appends result found.old.items found.new.items
        (of_four from.now before.now last.now to.now) }
{
    add_existential(from, found)?;
    add_existential(before, found)?;
    add_existential(last, found)?;
    add_existential(to, found)?;
    Ok(())
}

/// Appends those among the values of fields.
pub fn add_of_fields(
    fields: &[(FieldId, Operand<Expr>)],
    found: &mut Vec<u32>,
) -> Result<(), AllocError>
    ensures { Appends result found.old.items found.new.items (field_existentials fields.now) }
{
    for f in fields {
        add_existential(&f.1, found)?;
    }
    Ok(())
}

/// Appends those of all the lists that the scope does not make.
pub fn add_all_not_made(
    made: Scope,
    lists: &[Vec<u32>],
    found: &mut Vec<u32>,
) -> Result<(), AllocError>
    ensures { Appends result found.old.items found.new.items
        (flat_map (λ ns. filter (λ n. not (is_made_by made n)) ns.items) lists.now) }
{
    for ns in lists {
        add_not_made(made, ns, found)?;
    }
    Ok(())
}

/// Appends those that the scope does not make.
fn add_not_made(made: Scope, ns: &[u32], found: &mut Vec<u32>) -> Result<(), AllocError>
    ensures { Appends result found.old.items found.new.items
        (filter (λ n. not (is_made_by made n)) ns.now) }
{
    for n in ns {
        if !is_made_by(made, *n) {
            found.push(*n)?;
        }
    }
    Ok(())
}
