//! What is predicted and is one token: a symbol or reserved word, a name, an expression or an
//! operand.

ghost use Rattle.std.specs.Prelude.{◌≡◌, ◌∷◌, [], IfErr, IfOk};
ghost use Rattle.sf_parse.specs.Grammar.{expr, operand};
ghost use Rattle.sf_parse.specs.Checked.Machine as m;
ghost use Rattle.sf_parse.specs.Leaf as k;
ghost use Rattle.sf_parse.specs.Leaf.{leaves};
ghost use Rattle.sf_parse.specs.Checked.Parser.{Accepts, FailsAt, IsMark, IsTerminal};
ghost use Rattle.sf_parse.specs.Checked.Parser.{mark, terminal_of};

use crate::front::{eat, eat_expression, eat_name, eat_operand};
use crate::stop::Stop;
use sf_ast::{SurfaceExpr, SurfaceOperand, Word};
use sf_base::Place;
use sf_lex::{Kind, Token};

/// A mark, which is one token that is owed as it is.
#[tactic(auto, using(crate::proofs::Parser::Fronts::fronts))]
pub fn expect(tokens: &[Token], kind: Kind) -> Result<(Place, &[Token]), Stop>
    requires kept { IsMark kind }
    requires exact { IsTerminal kind }
    ensures spelled { IfOk result (λ r. leaves tokens.now ≡ mark kind r.0 ∷ leaves r.1.now) }
    ensures taken { IfOk result (λ r.
        Accepts (m.exact (terminal_of kind) ∷ []) tokens.now r.1.now) }
    ensures fault { IfErr result (λ e. FailsAt e (m.exact (terminal_of kind) ∷ []) tokens.now) }
{
    eat(tokens, kind).ok_or(Stop::Unexpected(tokens.len()))
}

/// A name.
#[tactic(auto, using(crate::proofs::Parser::Fronts::fronts))]
pub fn name(tokens: &[Token]) -> Result<(Word, &[Token]), Stop>
    ensures spelled { IfOk result (λ r. leaves tokens.now ≡ k.Name r.0 ∷ leaves r.1.now) }
    ensures taken { IfOk result (λ r. Accepts (m.exact m.a_name ∷ []) tokens.now r.1.now) }
    ensures fault { IfErr result (λ e. FailsAt e (m.exact m.a_name ∷ []) tokens.now) }
{
    eat_name(tokens).ok_or(Stop::Unexpected(tokens.len()))
}

/// An expression.
#[tactic(auto, using(crate::proofs::Parser::Fronts::fronts))]
pub fn expression(tokens: &[Token]) -> Result<(SurfaceExpr, &[Token]), Stop>
    ensures spelled { IfOk result (λ r. leaves tokens.now ≡ expr r.0 ∷ leaves r.1.now) }
    ensures taken { IfOk result (λ r. Accepts (m.expression ∷ []) tokens.now r.1.now) }
    ensures fault { IfErr result (λ e. FailsAt e (m.expression ∷ []) tokens.now) }
{
    eat_expression(tokens).ok_or(Stop::Unexpected(tokens.len()))
}

/// An operand.
#[tactic(auto, using(crate::proofs::Parser::Fronts::fronts))]
pub fn operand(tokens: &[Token]) -> Result<(SurfaceOperand, &[Token]), Stop>
    ensures spelled { IfOk result (λ r. leaves tokens.now ≡ operand r.0 ∷ leaves r.1.now) }
    ensures taken { IfOk result (λ r. Accepts (m.operand ∷ []) tokens.now r.1.now) }
    ensures fault { IfErr result (λ e. FailsAt e (m.operand ∷ []) tokens.now) }
{
    eat_operand(tokens).ok_or(Stop::Unexpected(tokens.len()))
}
