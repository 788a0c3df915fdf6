//! Commands, of which each may have others in it.

ghost use Rattle.std.specs.Prelude.{◌≡◌, ◌<◌, ◌-◌, ◌∷◌, [], false, map, IfErr, IfOk};
ghost use Rattle.sf_ast.specs.Surface as s;
ghost use Rattle.sf_ast.specs.View.{command_of, commands, annotation_of};
ghost use Rattle.sf_parse.specs.Leaf as k;
ghost use Rattle.sf_parse.specs.Grammar as g;
ghost use Rattle.sf_parse.specs.Grammar.{command, expr};
ghost use Rattle.sf_parse.specs.Checked.Heads.{IsFlat, command_next};
ghost use Rattle.sf_parse.specs.Checked.Machine as m;
ghost use Rattle.sf_parse.specs.Nearest.{CommandNearest, CommandsNearest, Follows};
ghost use Rattle.sf_parse.specs.Nesting.{CommandWithin, CommandsWithin};
ghost use Rattle.sf_parse.specs.Leaf.{leaves};
ghost use Rattle.sf_parse.specs.Checked.Parser.{FailsAt, Accepts};
ghost use Rattle.std.specs.Option.{option_map};

use crate::annotation::maybe_annotation;
use crate::condition::test;
use crate::front::{eat, eat_expression, word_of};
use crate::leaf::{expect, name};
use crate::memory::add;
use crate::plain::{disposed, mutated, named};
use crate::stop::Stop;
use sf_ast::{SurfaceCommand, SurfaceExpr, SurfaceNote, SurfaceTest, Word};
use sf_base::Place;
use sf_lex::{Kind, Token};
use std::alloc::{AllocError, Global};

/// Whether a command begins.
fn begins_command(tokens: &[Token]) -> bool
    ensures { result ≡ command_next (leaves tokens.now) }
{
    match tokens {
        [token, ..] => matches!(
            token.kind,
            Kind::Name
                | Kind::Nil
                | Kind::Null
                | Kind::Number
                | Kind::Dispose
                | Kind::If
                | Kind::While
                | Kind::With
                | Kind::OpenBrace
        ),
        _ => false,
    }
}

/// Why there is no command where no level is left.
#[tactic(auto, using(crate::proofs::Parser::Levels::levels))]
fn no_level(tokens: &[Token]) -> Stop
    ensures { FailsAt result (m.command 0 ∷ []) tokens.now }
{
    if begins_command(tokens) {
        Stop::TooDeep(tokens.len())
    } else {
        Stop::Unexpected(tokens.len())
    }
}

/// `( B )`
fn round_test(tokens: &[Token]) -> Result<(SurfaceTest<SurfaceExpr>, &[Token]), Stop>
    ensures spelled { IfOk result (λ r. leaves tokens.now ≡ k.OpenRound
        ∷ g.test expr r.0 (k.CloseRound ∷ leaves r.1.now)) }
    ensures taken { IfOk result (λ r.
        Accepts (m.exact m.open_round ∷ m.test ∷ m.exact m.close_round ∷ []) tokens.now r.1.now) }
    ensures fault { IfErr result
        (λ e. FailsAt e (m.exact m.open_round ∷ m.test ∷ m.exact m.close_round ∷ []) tokens.now) }
{
    let (_, rest) = expect(tokens, Kind::OpenRound)?;
    let (condition, rest) = test(rest)?;
    let (_, rest) = expect(rest, Kind::CloseRound)?;
    Ok((condition, rest))
}

/// `E -> f = F ;` after its first expression.
fn value_first(object: SurfaceExpr, tokens: &[Token]) -> Result<(SurfaceCommand, &[Token]), Stop>
    ensures spelled { IfOk result (λ r.
        expr object ∷ leaves tokens.now ≡ command (command_of r.0) (leaves r.1.now)) }
    ensures flat { IfOk result (λ r. IsFlat (command_of r.0)) }
    ensures taken { IfOk result (λ r.
        Accepts (m.exact m.an_arrow ∷ m.mutated_predicted) tokens.now r.1.now) }
    ensures fault { IfErr result (λ e.
        FailsAt e (m.exact m.an_arrow ∷ m.mutated_predicted) tokens.now) }
{
    let (_, rest) = expect(tokens, Kind::Arrow)?;
    mutated(object, rest)
}

/// An `if` without an `else`.
fn if_alone_node(
    alloc: Global,
    place: Place,
    condition: SurfaceTest<SurfaceExpr>,
    then: SurfaceCommand,
) -> Result<SurfaceCommand, AllocError>
    ensures { IfOk result (λ c. command_of c ≡ s.if_alone place condition (command_of then)) }
{
    let then = Box::new(alloc, then)?;
    Ok(SurfaceCommand::IfAlone(place, condition, then))
}

/// An `if` with an `else`.
fn if_node(
    alloc: Global,
    place: Place,
    condition: SurfaceTest<SurfaceExpr>,
    then: SurfaceCommand,
    otherwise: SurfaceCommand,
) -> Result<SurfaceCommand, AllocError>
    ensures { IfOk result (λ c. command_of c
        ≡ s.if place condition (command_of then) (command_of otherwise)) }
{
    let then = Box::new(alloc, then)?;
    let otherwise = Box::new(alloc, otherwise)?;
    Ok(SurfaceCommand::If(place, condition, then, otherwise))
}

/// A `while`.
fn while_node(
    alloc: Global,
    place: Place,
    condition: SurfaceTest<SurfaceExpr>,
    invariant: Option<SurfaceNote>,
    body: SurfaceCommand,
) -> Result<SurfaceCommand, AllocError>
    ensures { IfOk result (λ c. command_of c
        ≡ s.while place condition (option_map annotation_of invariant) (command_of body)) }
{
    let body = Box::new(alloc, body)?;
    Ok(SurfaceCommand::While(place, condition, invariant, body))
}

/// A `with`.
fn with_node(
    alloc: Global,
    place: Place,
    resource: Word,
    condition: SurfaceTest<SurfaceExpr>,
    body: SurfaceCommand,
) -> Result<SurfaceCommand, AllocError>
    ensures { IfOk result (λ c. command_of c ≡ s.with place resource condition (command_of body)) }
{
    let body = Box::new(alloc, body)?;
    Ok(SurfaceCommand::With(place, resource, condition, body))
}

/// An `if` after its own word. An `else` belongs to the nearest one.
#[cycle(nest)]
#[tactic(auto, using(crate::proofs::Parser::Levels::levels))]
fn if_command(
    alloc: Global,
    place: Place,
    depth: usize,
    tokens: &[Token],
) -> Result<(SurfaceCommand, &[Token]), Stop>
    requires { 0 < depth }
    ensures spelled { IfOk result (λ r.
        k.If place ∷ leaves tokens.now ≡ command (command_of r.0) (leaves r.1.now)) }
    ensures nearest { IfOk result (λ r. CommandNearest (command_of r.0)) }
    ensures within { IfOk result (λ r. CommandWithin (command_of r.0) 0 depth (leaves r.1.now)) }
    ensures follows { IfOk result (λ r. Follows (command_of r.0) (leaves r.1.now)) }
    ensures taken { IfOk result (λ r. Accepts (m.if_predicted depth) tokens.now r.1.now) }
    ensures fault { IfErr result (λ e. FailsAt e (m.if_predicted depth) tokens.now) }
{
    let (condition, rest) = round_test(tokens)?;
    let (then, rest) = command(alloc, depth - 1, rest)?;
    let Some((_, after)) = eat(rest, Kind::Else) else {
        return Ok((if_alone_node(alloc, place, condition, then)?, rest));
    };
    let (otherwise, after) = command(alloc, depth - 1, after)?;
    Ok((if_node(alloc, place, condition, then, otherwise)?, after))
}

/// A `while` after its own word.
#[cycle(nest)]
#[tactic(auto, using(crate::proofs::Parser::Levels::levels))]
fn while_command(
    alloc: Global,
    place: Place,
    depth: usize,
    tokens: &[Token],
) -> Result<(SurfaceCommand, &[Token]), Stop>
    requires { 0 < depth }
    ensures spelled { IfOk result (λ r.
        k.While place ∷ leaves tokens.now ≡ command (command_of r.0) (leaves r.1.now)) }
    ensures nearest { IfOk result (λ r. CommandNearest (command_of r.0)) }
    ensures within { IfOk result (λ r. CommandWithin (command_of r.0) 0 depth (leaves r.1.now)) }
    ensures follows { IfOk result (λ r. Follows (command_of r.0) (leaves r.1.now)) }
    ensures taken { IfOk result (λ r. Accepts (m.while_predicted depth) tokens.now r.1.now) }
    ensures fault { IfErr result (λ e. FailsAt e (m.while_predicted depth) tokens.now) }
{
    let (condition, rest) = round_test(tokens)?;
    let (invariant, rest) = maybe_annotation(alloc, rest)?;
    let (body, rest) = command(alloc, depth - 1, rest)?;
    Ok((while_node(alloc, place, condition, invariant, body)?, rest))
}

/// A `with` after its own word.
#[cycle(nest)]
#[tactic(auto, using(crate::proofs::Parser::Levels::levels))]
fn with_command(
    alloc: Global,
    place: Place,
    depth: usize,
    tokens: &[Token],
) -> Result<(SurfaceCommand, &[Token]), Stop>
    requires { 0 < depth }
    ensures spelled { IfOk result (λ r.
        k.With place ∷ leaves tokens.now ≡ command (command_of r.0) (leaves r.1.now)) }
    ensures nearest { IfOk result (λ r. CommandNearest (command_of r.0)) }
    ensures within { IfOk result (λ r. CommandWithin (command_of r.0) 0 depth (leaves r.1.now)) }
    ensures follows { IfOk result (λ r. Follows (command_of r.0) (leaves r.1.now)) }
    ensures taken { IfOk result (λ r. Accepts (m.with_predicted depth) tokens.now r.1.now) }
    ensures fault { IfErr result (λ e. FailsAt e (m.with_predicted depth) tokens.now) }
{
    let (resource, rest) = name(tokens)?;
    let (_, rest) = expect(rest, Kind::When)?;
    let (condition, rest) = round_test(rest)?;
    let (body, rest) = command(alloc, depth - 1, rest)?;
    Ok((with_node(alloc, place, resource, condition, body)?, rest))
}

/// A block after its `{`.
#[cycle(nest)]
#[tactic(auto, using(crate::proofs::Parser::Levels::levels))]
fn block(
    alloc: Global,
    place: Place,
    depth: usize,
    tokens: &[Token],
) -> Result<(SurfaceCommand, &[Token]), Stop>
    requires { 0 < depth }
    ensures spelled { IfOk result (λ r.
        k.OpenBrace place ∷ leaves tokens.now ≡ command (command_of r.0) (leaves r.1.now)) }
    ensures nearest { IfOk result (λ r. CommandNearest (command_of r.0)) }
    ensures within { IfOk result (λ r. CommandWithin (command_of r.0) 0 depth (leaves r.1.now)) }
    ensures follows { IfOk result (λ r. Follows (command_of r.0) (leaves r.1.now)) }
    ensures taken { IfOk result (λ r.
        Accepts (m.commands (depth - 1) ∷ m.exact m.close_brace ∷ []) tokens.now r.1.now) }
    ensures fault { IfErr result
        (λ e. FailsAt e (m.commands (depth - 1) ∷ m.exact m.close_brace ∷ []) tokens.now) }
{
    let (inner, rest) = commands(alloc, depth - 1, tokens)?;
    let (close, rest) = expect(rest, Kind::CloseBrace)?;
    Ok((SurfaceCommand::Block(place, inner, close), rest))
}

/// One command of at most that many levels.
#[cycle(nest)]
#[tactic(auto, using(crate::proofs::Parser::Levels::levels))]
fn command(
    alloc: Global,
    depth: usize,
    tokens: &[Token],
) -> Result<(SurfaceCommand, &[Token]), Stop>
    ensures spelled { IfOk result (λ r.
        leaves tokens.now ≡ command (command_of r.0) (leaves r.1.now)) }
    ensures nearest { IfOk result (λ r. CommandNearest (command_of r.0)) }
    ensures within { IfOk result (λ r. CommandWithin (command_of r.0) 0 depth (leaves r.1.now)) }
    ensures follows { IfOk result (λ r. Follows (command_of r.0) (leaves r.1.now)) }
    ensures taken { IfOk result (λ r. Accepts (m.command depth ∷ []) tokens.now r.1.now) }
    ensures fault { IfErr result (λ e. FailsAt e (m.command depth ∷ []) tokens.now) }
{
    if depth == 0 {
        return Err(no_level(tokens));
    }
    let [token, rest @ ..] = tokens else {
        return Err(Stop::Unexpected(tokens.len()));
    };
    match token.kind {
        Kind::Name => named(alloc, word_of(token), rest),
        Kind::Dispose => disposed(token.place, rest),
        Kind::If => if_command(alloc, token.place, depth, rest),
        Kind::While => while_command(alloc, token.place, depth, rest),
        Kind::With => with_command(alloc, token.place, depth, rest),
        Kind::OpenBrace => block(alloc, token.place, depth, rest),
        _ => {
            let Some((object, rest)) = eat_expression(tokens) else {
                return Err(Stop::Unexpected(tokens.len()));
            };
            value_first(object, rest)
        }
    }
}

/// As many commands as come.
#[cycle(nest)]
#[tactic(auto, using(crate::proofs::Parser::Levels::levels))]
pub fn commands(
    alloc: Global,
    depth: usize,
    tokens: &[Token],
) -> Result<(Vec<SurfaceCommand>, &[Token]), Stop>
    ensures spelled { IfOk result (λ r. leaves tokens.now
        ≡ g.commands (commands (map command_of r.0.items)) (leaves r.1.now)) }
    ensures nearest { IfOk result (λ r.
        CommandsNearest (commands (map command_of r.0.items))) }
    ensures within { IfOk result (λ r.
        CommandsWithin (commands (map command_of r.0.items)) 0 depth (leaves r.1.now)) }
    ensures ended { IfOk result (λ r. command_next (leaves r.1.now) ≡ false) }
    ensures taken { IfOk result (λ r. Accepts (m.commands depth ∷ []) tokens.now r.1.now) }
    ensures fault { IfErr result (λ e. FailsAt e (m.commands depth ∷ []) tokens.now) }
{
    let mut found = Vec::new(alloc);
    let mut rest = tokens;
    while begins_command(rest) {
        let (one, after) = command(alloc, depth, rest)?;
        add(&mut found, one)?;
        rest = after;
    }
    Ok((found, rest))
}
