//! The values of expressions and tests.

ghost use Rattle.std.specs.Prelude.{◌≡◌, ◌↔◌, IsTrue, IfOk, map};
ghost use Rattle.sf_core.specs.Assertions.Sat.{IsTrueOf};
ghost use Rattle.sf_core.specs.Machine.Config.{evaluate};
ghost use Rattle.sf_frame.specs.Frames.{fixed_of};

use crate::frame::Frame;
use crate::look::Look;
use sf_base::Value;
use sf_core::{Expr, Test};

/// The value of an expression of a frame, by the variables that are looked up.
pub fn evaluate<L: Look>(look: &L, frame: &Frame<'_>, e: Expr) -> Value
    ensures { result ≡ evaluate (fixed_of frame.now).slots (L.store look.now) e }
{
    match e {
        Expr::Var(x) => look.look(frame.spot(x.var)),
        Expr::Nil => Value::Nil,
        Expr::Int(i) => Value::Int(i),
    }
}

/// Whether a test is true in a frame, by the variables that are looked up.
pub fn is_true<L: Look>(look: &L, frame: &Frame<'_>, test: &Test<Expr>) -> bool
    ensures { IsTrue result
        ↔ IsTrueOf (evaluate (fixed_of frame.now).slots (L.store look.now)) test.now }
{
    match test {
        Test::True => true,
        Test::Equal(x, y) => is_same(evaluate(look, frame, *x), evaluate(look, frame, *y)),
        Test::Differ(x, y) => !is_same(evaluate(look, frame, *x), evaluate(look, frame, *y)),
    }
}

/// Whether the two are one value.
fn is_same(a: Value, b: Value) -> bool
    ensures { IsTrue result ↔ (a ≡ b) }
{
    a == b
}
