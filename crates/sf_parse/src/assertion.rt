//! Assertions, nested no deeper than their levels allow.

ghost use Rattle.std.specs.Prelude.{◌≡◌, ◌<◌, ◌-◌, ◌∷◌, ℕ, [], IfErr, IfOk, map};
ghost use Rattle.sf_ast.specs.Surface.{Conjunct};
ghost use Rattle.sf_ast.specs.View.{assertion_of, conjunct_of, conjuncts};
ghost use Rattle.sf_parse.specs.Grammar.{assertion, conjunct};
ghost use Rattle.sf_parse.specs.Checked.Machine as m;
ghost use Rattle.sf_parse.specs.Nearest.{AssertionNearest, ConjunctNearest};
ghost use Rattle.sf_parse.specs.Nesting.{AssertionWithin, ConjunctWithin};
ghost use Rattle.sf_parse.specs.Leaf as k;
ghost use Rattle.sf_parse.specs.Leaf.{leaves};
ghost use Rattle.sf_parse.specs.Checked.Parser.{Ends, NotStar, FailsAt, Accepts};

use crate::condition::operand_test;
use crate::conjunct::{begins_conjunct, predicate, relation};
use crate::front::{eat, eat_operand};
use crate::leaf::expect;
use crate::memory::{add, boxed};
use crate::stop::Stop;
use sf_ast::{SurfaceAssertion, SurfaceConjunct};
use sf_base::Place;
use sf_lex::{Kind, Token};
use std::alloc::Global;

/// The fault of an assertion for which there is no level.
#[tactic(auto, using(crate::proofs::Parser::Conjuncts::behind))]
fn no_level(tokens: &[Token]) -> Stop
    ensures { FailsAt result (m.assertion 0 ∷ []) tokens.now }
{
    if begins_conjunct(tokens) {
        Stop::TooDeep(tokens.len())
    } else {
        Stop::Unexpected(tokens.len())
    }
}

/// An assertion of at most that many levels.
#[cycle(assertion)]
#[tactic(auto, using(crate::proofs::Parser::Conjuncts::behind))]
pub fn assertion(
    alloc: Global,
    depth: usize,
    tokens: &[Token],
) -> Result<(SurfaceAssertion, &[Token]), Stop>
    ensures spelled { IfOk result (λ r.
        leaves tokens.now ≡ assertion (assertion_of r.0) (leaves r.1.now)) }
    ensures nearest { IfOk result (λ r. AssertionNearest (assertion_of r.0)) }
    ensures within { IfOk result (λ r.
        AssertionWithin (assertion_of r.0) 0 depth (leaves r.1.now)) }
    ensures ended { IfOk result (λ r. NotStar (leaves r.1.now)) }
    ensures taken { IfOk result (λ r. Accepts (m.assertion depth ∷ []) tokens.now r.1.now) }
    ensures fault { IfErr result (λ e. FailsAt e (m.assertion depth ∷ []) tokens.now) }
{
    if depth == 0 {
        return Err(no_level(tokens));
    }
    let (first, rest) = conjunct(alloc, depth, tokens)?;
    let (more, rest) = more_conjuncts(alloc, depth, rest)?;
    let first = boxed(alloc, first)?;
    Ok((SurfaceAssertion { first, more }, rest))
}

/// The conjuncts after a first one, whichever that is, each after its `*`.
#[cycle(assertion)]
#[tactic(auto, using(crate::proofs::Parser::Conjuncts::behind))]
fn more_conjuncts(
    alloc: Global,
    depth: usize,
    tokens: &[Token],
) -> Result<(Vec<SurfaceConjunct>, &[Token]), Stop>
    requires { 0 < depth }
    ensures spelled { IfOk result (λ r. (c : Conjunct)
        → conjunct c (leaves tokens.now)
        ≡ assertion (conjuncts c (map conjunct_of r.0.items)) (leaves r.1.now)) }
    ensures nearest { IfOk result (λ r. (c : Conjunct) → ConjunctNearest c
        → Ends c (leaves tokens.now)
        → AssertionNearest (conjuncts c (map conjunct_of r.0.items))) }
    ensures within { IfOk result (λ r. (c : Conjunct) → ConjunctWithin c 0 depth (leaves tokens.now)
        → AssertionWithin (conjuncts c (map conjunct_of r.0.items)) 0 depth (leaves r.1.now)) }
    ensures ended { IfOk result (λ r. NotStar (leaves r.1.now)) }
    ensures taken { IfOk result (λ r. Accepts (m.more_conjuncts depth ∷ []) tokens.now r.1.now) }
    ensures fault { IfErr result (λ e. FailsAt e (m.more_conjuncts depth ∷ []) tokens.now) }
{
    let mut found = Vec::new(alloc);
    let mut rest = tokens;
    while let Some((_, after)) = eat(rest, Kind::Star) {
        let (one, after) = conjunct(alloc, depth, after)?;
        add(&mut found, one)?;
        rest = after;
    }
    Ok((found, rest))
}

/// A conjunct of an assertion that has that many levels.
#[cycle(assertion)]
#[tactic(auto, using(crate::proofs::Parser::Conjuncts::behind))]
fn conjunct(
    alloc: Global,
    depth: usize,
    tokens: &[Token],
) -> Result<(SurfaceConjunct, &[Token]), Stop>
    requires { 0 < depth }
    ensures spelled { IfOk result (λ r.
        leaves tokens.now ≡ conjunct (conjunct_of r.0) (leaves r.1.now)) }
    ensures nearest { IfOk result (λ r. ConjunctNearest (conjunct_of r.0)) }
    ensures within { IfOk result (λ r. ConjunctWithin (conjunct_of r.0) 0 depth (leaves r.1.now)) }
    ensures ended { IfOk result (λ r. Ends (conjunct_of r.0) (leaves r.1.now)) }
    ensures taken { IfOk result (λ r. Accepts (m.conjunct depth ∷ []) tokens.now r.1.now) }
    ensures fault { IfErr result (λ e. FailsAt e (m.conjunct depth ∷ []) tokens.now) }
{
    if let Some((left, rest)) = eat_operand(tokens) {
        return relation(alloc, left, rest);
    }
    if let Some((_, rest)) = eat(tokens, Kind::OpenRound) {
        let (inner, rest) = assertion(alloc, depth - 1, rest)?;
        let (_, rest) = expect(rest, Kind::CloseRound)?;
        return Ok((SurfaceConjunct::Group(inner), rest));
    }
    if let Some((place, rest)) = eat(tokens, Kind::If) {
        return choice(alloc, depth - 1, place, rest);
    }
    predicate(tokens)
}

/// What comes after the `if` of a conjunct, each branch of at most that many levels.
#[cycle(assertion)]
#[tactic(auto, using(crate::proofs::Parser::Conjuncts::behind))]
fn choice(
    alloc: Global,
    depth: usize,
    place: Place,
    tokens: &[Token],
) -> Result<(SurfaceConjunct, &[Token]), Stop>
    ensures spelled { IfOk result (λ r.
        k.If place ∷ leaves tokens.now ≡ conjunct (conjunct_of r.0) (leaves r.1.now)) }
    ensures nearest { IfOk result (λ r. ConjunctNearest (conjunct_of r.0)) }
    ensures within { IfOk result (λ r. (d : ℕ) → d - 1 ≡ depth
        → ConjunctWithin (conjunct_of r.0) 0 d (leaves r.1.now)) }
    ensures ended { IfOk result (λ r. NotStar (leaves r.1.now)) }
    ensures taken { IfOk result (λ r. Accepts (m.choice_predicted depth) tokens.now r.1.now) }
    ensures fault { IfErr result (λ e. FailsAt e (m.choice_predicted depth) tokens.now) }
{
    if let Some((_, rest)) = eat(tokens, Kind::OpenRound) {
        let (test, rest) = operand_test(rest)?;
        let (_, rest) = expect(rest, Kind::CloseRound)?;
        let (then, otherwise, rest) = branches(alloc, depth, rest)?;
        return Ok((
            SurfaceConjunct::If(place, true, test, then, otherwise),
            rest,
        ));
    }
    let (test, rest) = operand_test(tokens)?;
    let (then, otherwise, rest) = branches(alloc, depth, rest)?;
    Ok((
        SurfaceConjunct::If(place, false, test, then, otherwise),
        rest,
    ))
}

/// The two branches after a test, each of at most that many levels.
#[cycle(assertion)]
fn branches(
    alloc: Global,
    depth: usize,
    tokens: &[Token],
) -> Result<(SurfaceAssertion, SurfaceAssertion, &[Token]), Stop>
    ensures spelled { IfOk result (λ r. leaves tokens.now ≡ k.Then
        ∷ assertion (assertion_of r.0) (k.Else
        ∷ assertion (assertion_of r.1) (leaves r.2.now))) }
    ensures first_nearest { IfOk result (λ r. AssertionNearest (assertion_of r.0)) }
    ensures second_nearest { IfOk result (λ r. AssertionNearest (assertion_of r.1)) }
    ensures first_within { IfOk result (λ r.
        AssertionWithin (assertion_of r.0) 0 depth (k.Else
        ∷ assertion (assertion_of r.1) (leaves r.2.now))) }
    ensures second_within { IfOk result (λ r.
        AssertionWithin (assertion_of r.1) 0 depth (leaves r.2.now)) }
    ensures ended { IfOk result (λ r. NotStar (leaves r.2.now)) }
    ensures taken { IfOk result (λ r. Accepts (m.branches_predicted depth) tokens.now r.2.now) }
    ensures fault { IfErr result (λ e. FailsAt e (m.branches_predicted depth) tokens.now) }
{
    let (_, rest) = expect(tokens, Kind::Then)?;
    let (then, rest) = assertion(alloc, depth, rest)?;
    let (_, rest) = expect(rest, Kind::Else)?;
    let (otherwise, rest) = assertion(alloc, depth, rest)?;
    Ok((then, otherwise, rest))
}
