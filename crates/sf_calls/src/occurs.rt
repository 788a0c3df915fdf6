//! Whether a variable occurs in the arguments of a call.

ghost use Rattle.std.specs.Prelude.{◌≡◌};
ghost use Rattle.sf_calls.specs.Checked.Tests.{in_expr, in_references, in_values};

use sf_base::Var;
use sf_core::{Expr, Occurrence};

/// Whether the variable occurs in the expression.
pub fn in_expr(x: Var, e: &Expr) -> bool
    ensures { result ≡ in_expr x e.now }
{
    match e {
        Expr::Var(y) => y.var.is_same(x),
        Expr::Nil => false,
        Expr::Int(_) => false,
    }
}

/// Whether the variable is one of those references.
pub fn in_references(x: Var, references: &[Occurrence]) -> bool
    ensures { result ≡ in_references x references.now }
{
    for y in references {
        if y.var.is_same(x) {
            return true;
        }
    }
    false
}

/// Whether the variable occurs in one of those values.
pub fn in_values(x: Var, values: &[Expr]) -> bool
    ensures { result ≡ in_values x values.now }
{
    for e in values {
        if in_expr(x, e) {
            return true;
        }
    }
    false
}
