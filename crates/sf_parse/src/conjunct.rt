//! Conjuncts with no assertion in them.

ghost use Rattle.std.specs.Prelude.{◌≡◌, ◌∷◌, ℕ, [], false, IfErr, IfOk};
ghost use Rattle.sf_ast.specs.View.{conjunct_of};
ghost use Rattle.sf_parse.specs.Grammar.{conjunct, operand};
ghost use Rattle.sf_parse.specs.Checked.Heads.{IsFlatConjunct, conjunct_next};
ghost use Rattle.sf_parse.specs.Checked.Machine as m;
ghost use Rattle.sf_parse.specs.Leaf as k;
ghost use Rattle.sf_parse.specs.Leaf.{leaves};
ghost use Rattle.sf_parse.specs.Checked.Parser.{Accepts, FailsAt, NotNext};
ghost use Rattle.sf_parse.specs.Checked.Parser.{operand_next};

use crate::fields::maybe_fields;
use crate::front::eat;
use crate::leaf::{expect, operand};
use crate::stop::Stop;
use sf_ast::{SurfaceConjunct, SurfaceOperand};
use sf_lex::{Kind, Token};
use std::alloc::Global;

/// `( E )`
fn one_operand(tokens: &[Token]) -> Result<(SurfaceOperand, &[Token]), Stop>
    ensures spelled { IfOk result (λ r.
        leaves tokens.now ≡ k.OpenRound ∷ operand r.0 ∷ k.CloseRound
        ∷ leaves r.1.now) }
    ensures taken { IfOk result (λ r. Accepts (m.operands_predicted 1) tokens.now r.1.now) }
    ensures fault { IfErr result (λ e. FailsAt e (m.operands_predicted 1) tokens.now) }
{
    let (_, rest) = expect(tokens, Kind::OpenRound)?;
    let (value, rest) = operand(rest)?;
    let (_, rest) = expect(rest, Kind::CloseRound)?;
    Ok((value, rest))
}

/// `( E , F )`
fn two_operands(tokens: &[Token]) -> Result<(SurfaceOperand, SurfaceOperand, &[Token]), Stop>
    ensures spelled { IfOk result (λ r. leaves tokens.now ≡ k.OpenRound ∷ operand r.0 ∷ k.Comma
        ∷ operand r.1 ∷ k.CloseRound ∷ leaves r.2.now) }
    ensures taken { IfOk result (λ r. Accepts (m.operands_predicted 2) tokens.now r.2.now) }
    ensures fault { IfErr result (λ e. FailsAt e (m.operands_predicted 2) tokens.now) }
{
    let (_, rest) = expect(tokens, Kind::OpenRound)?;
    let (from, rest) = operand(rest)?;
    let (_, rest) = expect(rest, Kind::Comma)?;
    let (to, rest) = operand(rest)?;
    let (_, rest) = expect(rest, Kind::CloseRound)?;
    Ok((from, to, rest))
}

/// Four operands in parentheses, and what comes after them.
fn four_operands(
    tokens: &[Token],
) -> Result<
    (
        SurfaceOperand,
        SurfaceOperand,
        SurfaceOperand,
        SurfaceOperand,
        &[Token],
    ),
    Stop,
>
    ensures spelled { IfOk result (λ r. leaves tokens.now ≡ k.OpenRound ∷ operand r.0 ∷ k.Comma
        ∷ operand r.1 ∷ k.Comma ∷ operand r.2 ∷ k.Comma ∷ operand r.3 ∷ k.CloseRound
        ∷ leaves r.4.now) }
    ensures taken { IfOk result (λ r. Accepts (m.operands_predicted 4) tokens.now r.4.now) }
    ensures fault { IfErr result (λ e. FailsAt e (m.operands_predicted 4) tokens.now) }
{
    let (_, rest) = expect(tokens, Kind::OpenRound)?;
    let (from, rest) = operand(rest)?;
    let (_, rest) = expect(rest, Kind::Comma)?;
    let (before, rest) = operand(rest)?;
    let (_, rest) = expect(rest, Kind::Comma)?;
    let (last, rest) = operand(rest)?;
    let (_, rest) = expect(rest, Kind::Comma)?;
    let (to, rest) = operand(rest)?;
    let (_, rest) = expect(rest, Kind::CloseRound)?;
    Ok((from, before, last, to, rest))
}

/// What comes after the operand that begins a conjunct.
#[tactic(auto, using(crate::proofs::Parser::Choices::choices))]
pub fn relation(
    alloc: Global,
    left: SurfaceOperand,
    tokens: &[Token],
) -> Result<(SurfaceConjunct, &[Token]), Stop>
    ensures spelled { IfOk result (λ r. operand left ∷ leaves tokens.now
        ≡ conjunct (conjunct_of r.0) (leaves r.1.now)) }
    ensures flat { IfOk result (λ r. IsFlatConjunct (conjunct_of r.0)) }
    ensures taken { IfOk result (λ r. Accepts (m.relation ∷ []) tokens.now r.1.now) }
    ensures fault { IfErr result (λ e. FailsAt e (m.relation ∷ []) tokens.now) }
{
    if let Some((_, rest)) = eat(tokens, Kind::EqualEqual) {
        let (right, rest) = operand(rest)?;
        return Ok((SurfaceConjunct::Equal(left, right), rest));
    }
    if let Some((_, rest)) = eat(tokens, Kind::NotEqual) {
        let (right, rest) = operand(rest)?;
        return Ok((SurfaceConjunct::Differ(left, right), rest));
    }
    if let Some((_, rest)) = eat(tokens, Kind::PointsTo) {
        let (fields, rest) = maybe_fields(alloc, rest)?;
        return Ok((SurfaceConjunct::Points(left, fields), rest));
    }
    Err(Stop::Unexpected(tokens.len()))
}

/// Whether a conjunct begins.
pub fn begins_conjunct(tokens: &[Token]) -> bool
    ensures { result ≡ conjunct_next (leaves tokens.now) }
{
    match tokens {
        [token, ..] => matches!(
            token.kind,
            Kind::Name
                | Kind::Nil
                | Kind::Null
                | Kind::Number
                | Kind::Existential
                | Kind::Emp
                | Kind::OpenRound
                | Kind::If
                | Kind::Ls
                | Kind::Lseg
                | Kind::List
                | Kind::Dll
                | Kind::Tree
        ),
        _ => false,
    }
}

/// `emp`, a segment, a list, a doubly linked segment or a tree.
#[tactic(auto, using(crate::proofs::Parser::Choices::choices))]
pub fn predicate(tokens: &[Token]) -> Result<(SurfaceConjunct, &[Token]), Stop>
    requires no_operand { operand_next (leaves tokens.now) ≡ false }
    requires no_group { NotNext Kind.OpenRound (leaves tokens.now) }
    requires no_choice { NotNext Kind.If (leaves tokens.now) }
    ensures spelled { IfOk result (λ r.
        leaves tokens.now ≡ conjunct (conjunct_of r.0) (leaves r.1.now)) }
    ensures flat { IfOk result (λ r. IsFlatConjunct (conjunct_of r.0)) }
    ensures taken { IfOk result (λ r. (d : ℕ) → Accepts (m.conjunct d ∷ []) tokens.now r.1.now) }
    ensures fault { IfErr result (λ e. (d : ℕ) → FailsAt e (m.conjunct d ∷ []) tokens.now) }
{
    let [token, rest @ ..] = tokens else {
        return Err(Stop::Unexpected(tokens.len()));
    };
    match token.kind {
        Kind::Emp => Ok((SurfaceConjunct::Emp(token.place), rest)),
        Kind::Ls => {
            let (from, to, rest) = two_operands(rest)?;
            Ok((SurfaceConjunct::Ls(token.place, false, from, to), rest))
        }
        Kind::Lseg => {
            let (from, to, rest) = two_operands(rest)?;
            Ok((SurfaceConjunct::Ls(token.place, true, from, to), rest))
        }
        Kind::List => {
            let (value, rest) = one_operand(rest)?;
            Ok((SurfaceConjunct::List(token.place, value), rest))
        }
        Kind::Dll => {
            let (from, before, last, to, rest) = four_operands(rest)?;
            let all = SurfaceConjunct::Dll(token.place, from, before, last, to);
            Ok((all, rest))
        }
        Kind::Tree => {
            let (value, rest) = one_operand(rest)?;
            Ok((SurfaceConjunct::Tree(token.place, value), rest))
        }
        _ => Err(Stop::Unexpected(tokens.len())),
    }
}
