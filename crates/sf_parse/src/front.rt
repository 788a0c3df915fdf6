//! What comes before the tokens that are left.

ghost use Rattle.std.specs.Prelude.{◌≡◌, ◌∷◌, false, IfSome, MatchOption};
ghost use Rattle.sf_parse.specs.Grammar.{expr, operand};
ghost use Rattle.sf_parse.specs.Leaf as k;
ghost use Rattle.sf_parse.specs.Leaf.{leaf, leaves};
ghost use Rattle.sf_parse.specs.Checked.Parser.{IsMark, NotNext, expression_next, mark};
ghost use Rattle.sf_parse.specs.Checked.Parser.{operand_next};

use sf_ast::{SurfaceExpr, SurfaceOperand, Word};
use sf_base::Place;
use sf_lex::{Kind, Token};

/// Where a token's text is.
pub fn word_of(token: &Token) -> Word
    ensures { result ≡ k.word_of token.now }
{
    Word {
        start: token.start,
        end: token.end,
        place: token.place,
    }
}

/// The next token where it is of that kind, and those after it.
fn eat_token(tokens: &[Token], kind: Kind) -> Option<(Token, &[Token])>
    ensures kind { MatchOption result (NotNext kind (leaves tokens.now)) (λ r. r.0.kind ≡ kind) }
    ensures spelled { IfSome result (λ r. leaves tokens.now ≡ leaf r.0 ∷ leaves r.1.now) }
{
    match tokens {
        [token, rest @ ..] => {
            if token.kind == kind {
                Some((*token, rest))
            } else {
                None
            }
        }
        _ => None,
    }
}

/// A name, and the tokens after it.
pub fn eat_name(tokens: &[Token]) -> Option<(Word, &[Token])>
    ensures spelled { MatchOption result (NotNext Kind.Name (leaves tokens.now))
        (λ r. leaves tokens.now ≡ k.Name r.0 ∷ leaves r.1.now) }
{
    let (token, rest) = eat_token(tokens, Kind::Name)?;
    Some((word_of(&token), rest))
}

/// The place of a token of that kind, and the tokens after it.
#[tactic(auto, using(crate::proofs::Parser::Fronts::fronts))]
pub fn eat(tokens: &[Token], kind: Kind) -> Option<(Place, &[Token])>
    requires { IsMark kind }
    ensures spelled { MatchOption result (NotNext kind (leaves tokens.now))
        (λ r. leaves tokens.now ≡ mark kind r.0 ∷ leaves r.1.now) }
{
    let (token, rest) = eat_token(tokens, kind)?;
    Some((token.place, rest))
}

/// An expression, and the tokens after it.
pub fn eat_expression(tokens: &[Token]) -> Option<(SurfaceExpr, &[Token])>
    ensures spelled { MatchOption result (expression_next (leaves tokens.now) ≡ false)
        (λ r. leaves tokens.now ≡ expr r.0 ∷ leaves r.1.now) }
{
    match tokens {
        [token, rest @ ..] => match token.kind {
            Kind::Name => Some((SurfaceExpr::Name(word_of(token)), rest)),
            Kind::Nil => Some((SurfaceExpr::Nil(token.place), rest)),
            Kind::Null => Some((SurfaceExpr::Null(token.place), rest)),
            Kind::Number => Some((SurfaceExpr::Number(token.value, token.place), rest)),
            _ => None,
        },
        _ => None,
    }
}

/// An operand, and the tokens after it.
#[tactic(auto, using(crate::proofs::Parser::Fronts::fronts))]
pub fn eat_operand(tokens: &[Token]) -> Option<(SurfaceOperand, &[Token])>
    ensures spelled { MatchOption result (operand_next (leaves tokens.now) ≡ false)
        (λ r. leaves tokens.now ≡ operand r.0 ∷ leaves r.1.now) }
{
    if let Some((known, rest)) = eat_expression(tokens) {
        return Some((SurfaceOperand::Known(known), rest));
    }
    let (token, rest) = eat_token(tokens, Kind::Existential)?;
    Some((SurfaceOperand::Existential(word_of(&token)), rest))
}
