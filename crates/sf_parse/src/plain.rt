//! Commands with no command in them.

ghost use Rattle.std.specs.Prelude.{◌≡◌, ◌∷◌, [], IfErr, IfOk};
ghost use Rattle.sf_ast.specs.View.{call_of, command_of};
ghost use Rattle.sf_parse.specs.Leaf as k;
ghost use Rattle.sf_parse.specs.Grammar as g;
ghost use Rattle.sf_parse.specs.Grammar.{command, expr};
ghost use Rattle.sf_parse.specs.Checked.Heads.{IsFlat};
ghost use Rattle.sf_parse.specs.Checked.Machine as m;
ghost use Rattle.sf_parse.specs.Leaf.{leaves};
ghost use Rattle.sf_parse.specs.Checked.Parser.{FailsAt, Accepts};

use crate::call::call;
use crate::front::eat;
use crate::leaf::{expect, expression, name};
use crate::stop::Stop;
use sf_ast::{SurfaceCall, SurfaceCommand, SurfaceExpr, Word};
use sf_base::Place;
use sf_lex::{Kind, Token};
use std::alloc::Global;

/// `E -> f = F ;` after its arrow.
pub fn mutated(object: SurfaceExpr, tokens: &[Token]) -> Result<(SurfaceCommand, &[Token]), Stop>
    ensures spelled { IfOk result (λ r. expr object ∷ k.Arrow ∷ leaves tokens.now
        ≡ command (command_of r.0) (leaves r.1.now)) }
    ensures flat { IfOk result (λ r. IsFlat (command_of r.0)) }
    ensures taken { IfOk result (λ r. Accepts m.mutated_predicted tokens.now r.1.now) }
    ensures fault { IfErr result (λ e. FailsAt e m.mutated_predicted tokens.now) }
{
    let (field, rest) = name(tokens)?;
    let (_, rest) = expect(rest, Kind::Equals)?;
    let (value, rest) = expression(rest)?;
    let (_, rest) = expect(rest, Kind::Semicolon)?;
    Ok((SurfaceCommand::Mutate(object, field, value), rest))
}

/// `x = E ;` or `x = E -> f ;` after its expression.
#[tactic(auto, using(crate::proofs::Parser::Heads::heads))]
fn looked_up(
    target: Word,
    value: SurfaceExpr,
    tokens: &[Token],
) -> Result<(SurfaceCommand, &[Token]), Stop>
    ensures spelled { IfOk result (λ r. k.Name target ∷ k.Equals ∷ expr value ∷ leaves tokens.now
        ≡ command (command_of r.0) (leaves r.1.now)) }
    ensures flat { IfOk result (λ r. IsFlat (command_of r.0)) }
    ensures taken { IfOk result (λ r. Accepts (m.look_up_or_end ∷ []) tokens.now r.1.now) }
    ensures fault { IfErr result (λ e. FailsAt e (m.look_up_or_end ∷ []) tokens.now) }
{
    if let Some((_, rest)) = eat(tokens, Kind::Semicolon) {
        return Ok((SurfaceCommand::Assign(target, value), rest));
    }
    let Some((_, rest)) = eat(tokens, Kind::Arrow) else {
        return Err(Stop::Unexpected(tokens.len()));
    };
    let (field, rest) = name(rest)?;
    let (_, rest) = expect(rest, Kind::Semicolon)?;
    Ok((SurfaceCommand::LookUp(target, value, field), rest))
}

/// `x = new ( ) ;` after its `new`.
fn made(target: Word, tokens: &[Token]) -> Result<(SurfaceCommand, &[Token]), Stop>
    ensures spelled { IfOk result (λ r. k.Name target ∷ k.Equals ∷ k.New ∷ leaves tokens.now
        ≡ command (command_of r.0) (leaves r.1.now)) }
    ensures flat { IfOk result (λ r. IsFlat (command_of r.0)) }
    ensures taken { IfOk result (λ r.
        Accepts (m.exact m.open_round ∷ m.exact m.close_round ∷ m.exact m.semicolon
        ∷ []) tokens.now r.1.now) }
    ensures fault { IfErr result
        (λ e. FailsAt e (m.exact m.open_round ∷ m.exact m.close_round ∷ m.exact m.semicolon
        ∷ []) tokens.now) }
{
    let (_, rest) = expect(tokens, Kind::OpenRound)?;
    let (_, rest) = expect(rest, Kind::CloseRound)?;
    let (_, rest) = expect(rest, Kind::Semicolon)?;
    Ok((SurfaceCommand::New(target), rest))
}

/// A command after its `x =`.
#[tactic(auto, using(crate::proofs::Parser::Heads::heads))]
fn assigned(target: Word, tokens: &[Token]) -> Result<(SurfaceCommand, &[Token]), Stop>
    ensures spelled { IfOk result (λ r. k.Name target ∷ k.Equals ∷ leaves tokens.now
        ≡ command (command_of r.0) (leaves r.1.now)) }
    ensures flat { IfOk result (λ r. IsFlat (command_of r.0)) }
    ensures taken { IfOk result (λ r. Accepts (m.assigned ∷ []) tokens.now r.1.now) }
    ensures fault { IfErr result (λ e. FailsAt e (m.assigned ∷ []) tokens.now) }
{
    if let Some((_, rest)) = eat(tokens, Kind::New) {
        return made(target, rest);
    }
    let (value, rest) = expression(tokens)?;
    looked_up(target, value, rest)
}

/// The second call of a fork, after the `||`.
fn forked(alloc: Global, tokens: &[Token]) -> Result<(SurfaceCall, &[Token]), Stop>
    ensures spelled { IfOk result (λ r.
        leaves tokens.now ≡ g.call (call_of r.0) (k.Semicolon ∷ leaves r.1.now)) }
    ensures taken { IfOk result (λ r. Accepts m.forked_predicted tokens.now r.1.now) }
    ensures fault { IfErr result (λ e. FailsAt e m.forked_predicted tokens.now) }
{
    let (procedure, rest) = name(tokens)?;
    let (_, rest) = expect(rest, Kind::OpenRound)?;
    let (right, rest) = call(alloc, procedure, rest)?;
    let (_, rest) = expect(rest, Kind::Semicolon)?;
    Ok((right, rest))
}

/// A call or two, after the first one's `(`.
#[tactic(auto, using(crate::proofs::Parser::Heads::heads))]
fn called(
    alloc: Global,
    procedure: Word,
    tokens: &[Token],
) -> Result<(SurfaceCommand, &[Token]), Stop>
    ensures spelled { IfOk result (λ r. k.Name procedure ∷ k.OpenRound ∷ leaves tokens.now
        ≡ command (command_of r.0) (leaves r.1.now)) }
    ensures flat { IfOk result (λ r. IsFlat (command_of r.0)) }
    ensures taken { IfOk result (λ r.
        Accepts (m.maybe_arguments ∷ m.exact m.close_round ∷ m.after_call
        ∷ []) tokens.now r.1.now) }
    ensures fault { IfErr result
        (λ e. FailsAt e (m.maybe_arguments ∷ m.exact m.close_round ∷ m.after_call
        ∷ []) tokens.now) }
{
    let (left, rest) = call(alloc, procedure, tokens)?;
    if let Some((_, rest)) = eat(rest, Kind::Semicolon) {
        return Ok((SurfaceCommand::Call(left), rest));
    }
    let Some((_, after)) = eat(rest, Kind::Bars) else {
        return Err(Stop::Unexpected(rest.len()));
    };
    let (right, after) = forked(alloc, after)?;
    Ok((SurfaceCommand::Fork(left, right), after))
}

/// A command after the name that begins it.
#[tactic(auto, using(crate::proofs::Parser::Heads::heads))]
pub fn named(
    alloc: Global,
    first: Word,
    tokens: &[Token],
) -> Result<(SurfaceCommand, &[Token]), Stop>
    ensures spelled { IfOk result (λ r.
        k.Name first ∷ leaves tokens.now ≡ command (command_of r.0) (leaves r.1.now)) }
    ensures flat { IfOk result (λ r. IsFlat (command_of r.0)) }
    ensures taken { IfOk result (λ r. Accepts (m.named ∷ []) tokens.now r.1.now) }
    ensures fault { IfErr result (λ e. FailsAt e (m.named ∷ []) tokens.now) }
{
    if let Some((_, rest)) = eat(tokens, Kind::Equals) {
        return assigned(first, rest);
    }
    if let Some((_, rest)) = eat(tokens, Kind::Arrow) {
        return mutated(SurfaceExpr::Name(first), rest);
    }
    if let Some((_, rest)) = eat(tokens, Kind::OpenRound) {
        return called(alloc, first, rest);
    }
    Err(Stop::Unexpected(tokens.len()))
}

/// A command after its `dispose`.
#[tactic(auto, using(crate::proofs::Parser::Heads::heads))]
pub fn disposed(place: Place, tokens: &[Token]) -> Result<(SurfaceCommand, &[Token]), Stop>
    ensures spelled { IfOk result (λ r.
        k.Dispose place ∷ leaves tokens.now ≡ command (command_of r.0) (leaves r.1.now)) }
    ensures flat { IfOk result (λ r. IsFlat (command_of r.0)) }
    ensures taken { IfOk result (λ r. Accepts (m.disposed ∷ []) tokens.now r.1.now) }
    ensures fault { IfErr result (λ e. FailsAt e (m.disposed ∷ []) tokens.now) }
{
    if let Some((_, rest)) = eat(tokens, Kind::OpenRound) {
        let (value, rest) = expression(rest)?;
        let (_, rest) = expect(rest, Kind::CloseRound)?;
        let (_, rest) = expect(rest, Kind::Semicolon)?;
        return Ok((SurfaceCommand::Dispose(place, true, value), rest));
    }
    let (value, rest) = expression(tokens)?;
    let (_, rest) = expect(rest, Kind::Semicolon)?;
    Ok((SurfaceCommand::Dispose(place, false, value), rest))
}
