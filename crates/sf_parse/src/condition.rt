//! Tests of two values, over expressions and over operands.

ghost use Rattle.std.specs.Prelude.{◌≡◌, ◌∷◌, [], IfErr, IfOk};
ghost use Rattle.sf_parse.specs.Grammar.{expr, operand, test};
ghost use Rattle.sf_parse.specs.Checked.Machine as m;
ghost use Rattle.sf_parse.specs.Leaf.{leaves};
ghost use Rattle.sf_parse.specs.Checked.Parser.{FailsAt, Accepts};

use crate::front::eat;
use crate::leaf::{expression, operand};
use crate::stop::Stop;
use sf_ast::{SurfaceExpr, SurfaceOperand, SurfaceTest};
use sf_lex::{Kind, Token};

/// A test over expressions.
#[tactic(auto, using(crate::proofs::Parser::Choices::choices))]
pub fn test(tokens: &[Token]) -> Result<(SurfaceTest<SurfaceExpr>, &[Token]), Stop>
    ensures spelled { IfOk result (λ r. leaves tokens.now ≡ test expr r.0 (leaves r.1.now)) }
    ensures taken { IfOk result (λ r. Accepts (m.test ∷ []) tokens.now r.1.now) }
    ensures fault { IfErr result (λ e. FailsAt e (m.test ∷ []) tokens.now) }
{
    if let Some((place, rest)) = eat(tokens, Kind::True) {
        return Ok((SurfaceTest::True(place), rest));
    }
    let (left, rest) = expression(tokens)?;
    if let Some((_, rest)) = eat(rest, Kind::EqualEqual) {
        let (right, rest) = expression(rest)?;
        return Ok((SurfaceTest::Equal(left, right), rest));
    }
    if let Some((_, rest)) = eat(rest, Kind::NotEqual) {
        let (right, rest) = expression(rest)?;
        return Ok((SurfaceTest::Differ(left, right), rest));
    }
    Err(Stop::Unexpected(rest.len()))
}

/// A test over operands.
#[tactic(auto, using(crate::proofs::Parser::Choices::choices))]
pub fn operand_test(tokens: &[Token]) -> Result<(SurfaceTest<SurfaceOperand>, &[Token]), Stop>
    ensures spelled { IfOk result (λ r. leaves tokens.now ≡ test operand r.0 (leaves r.1.now)) }
    ensures taken { IfOk result (λ r. Accepts (m.operand_test ∷ []) tokens.now r.1.now) }
    ensures fault { IfErr result (λ e. FailsAt e (m.operand_test ∷ []) tokens.now) }
{
    if let Some((place, rest)) = eat(tokens, Kind::True) {
        return Ok((SurfaceTest::True(place), rest));
    }
    let (left, rest) = operand(tokens)?;
    if let Some((_, rest)) = eat(rest, Kind::EqualEqual) {
        let (right, rest) = operand(rest)?;
        return Ok((SurfaceTest::Equal(left, right), rest));
    }
    if let Some((_, rest)) = eat(rest, Kind::NotEqual) {
        let (right, rest) = operand(rest)?;
        return Ok((SurfaceTest::Differ(left, right), rest));
    }
    Err(Stop::Unexpected(rest.len()))
}
