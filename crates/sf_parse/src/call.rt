//! Calls, and what they are given.

ghost use Rattle.std.specs.Prelude.{◌≡◌, ◌∷◌, [], Bool, List, false, true, map};
ghost use Rattle.std.specs.Prelude.{IfErr, IfOk, MatchOption};
ghost use Rattle.sf_ast.specs.View.{arguments_of};
ghost use Rattle.sf_ast.specs.View.{call_of};
ghost use Rattle.sf_lex.specs.declared.token.Kind.TheVariants.{Comma};
ghost use Rattle.sf_parse.specs.Checked.Given.{NoMore, all_names, is_name, predicted_behind};
ghost use Rattle.sf_parse.specs.Grammar as g;
ghost use Rattle.sf_parse.specs.Grammar.{arguments, maybe_exprs, more_exprs};
ghost use Rattle.sf_parse.specs.Checked.Machine as m;
ghost use Rattle.sf_parse.specs.Checked.Machine.{Predicted, verdict};
ghost use Rattle.sf_parse.specs.Leaf as k;
ghost use Rattle.sf_parse.specs.Leaf.{leaves};
ghost use Rattle.sf_parse.specs.Checked.Parser.{NotNext, FailsAt, Accepts};

use crate::front::{eat, eat_expression};
use crate::leaf::expect;
use crate::memory::{add, with_first};
use crate::stop::Stop;
use sf_ast::{SurfaceArguments, SurfaceCall, SurfaceExpr, Word};
use sf_lex::{Kind, Token};
use std::alloc::{AllocError, Global};

/// Expressions after a first one, each after its comma.
#[tactic(auto, using(crate::proofs::Parser::Arguments::given))]
fn more_expressions(alloc: Global, tokens: &[Token]) -> Result<(Vec<SurfaceExpr>, &[Token]), Stop>
    ensures spelled { IfOk result (λ r. leaves tokens.now ≡ more_exprs r.0.items (leaves r.1.now)) }
    ensures ended { IfOk result (λ r. NotNext Comma (leaves r.1.now)) }
    ensures taken { IfOk result (λ r. Accepts (m.more_expressions ∷ []) tokens.now r.1.now) }
    ensures taken_rest { IfOk result (λ r. (b : Bool) (st : List Predicted)
        → verdict 0 (leaves tokens.now) (m.rest b ∷ st)
        ≡ verdict 0 (leaves r.1.now) (m.rest (all_names b r.0.items) ∷ st)) }
    ensures fault { IfErr result (λ e. FailsAt e (m.more_expressions ∷ []) tokens.now) }
    ensures fault_rest { IfErr result (λ e. (b : Bool) → FailsAt e (m.rest b ∷ []) tokens.now) }
{
    let mut found = Vec::new(alloc);
    let mut rest = tokens;
    while let Some((_, after)) = eat(rest, Kind::Comma) {
        let Some((value, after)) = eat_expression(after) else {
            return Err(Stop::Unexpected(after.len()));
        };
        add(&mut found, value)?;
        rest = after;
    }
    Ok((found, rest))
}

/// Expressions, or none.
#[tactic(auto, using(crate::proofs::Parser::Arguments::given))]
fn maybe_expressions(alloc: Global, tokens: &[Token]) -> Result<(Vec<SurfaceExpr>, &[Token]), Stop>
    ensures spelled { IfOk result (λ r.
        leaves tokens.now ≡ maybe_exprs r.0.items (leaves r.1.now)) }
    ensures ended { IfOk result (λ r. NoMore r.0.items (leaves r.1.now)) }
    ensures taken { IfOk result (λ r. Accepts (m.maybe_expressions ∷ []) tokens.now r.1.now) }
    ensures taken_arguments { IfOk result (λ r. (st : List Predicted)
        → verdict 0 (leaves tokens.now) (m.maybe_arguments ∷ st)
        ≡ verdict 0 (leaves r.1.now) (predicted_behind r.0.items ∷ st)) }
    ensures fault { IfErr result (λ e. FailsAt e (m.maybe_expressions ∷ []) tokens.now) }
    ensures fault_arguments { IfErr result (λ e. FailsAt e (m.maybe_arguments ∷ []) tokens.now) }
{
    let Some((first, rest)) = eat_expression(tokens) else {
        return Ok((Vec::new(alloc), tokens));
    };
    let (found, rest) = more_expressions(alloc, rest)?;
    Ok((with_first(first, found)?, rest))
}

/// The name that an expression is, if it is one.
fn name_of(value: &SurfaceExpr) -> Option<Word>
    ensures { MatchOption result (is_name value.now ≡ false) (λ x. value.now ≡ SurfaceExpr.Name x) }
{
    match value {
        SurfaceExpr::Name(word) => Some(*word),
        _ => None,
    }
}

/// The names that expressions are, if all are names.
#[tactic(auto, using(crate::proofs::Parser::Arguments::given))]
fn names_of(alloc: Global, values: &[SurfaceExpr]) -> Result<Option<Vec<Word>>, AllocError>
    ensures names { IfOk result (λ o.
        MatchOption o (all_names true values.now ≡ false) (λ ns. values.now
        ≡ map SurfaceExpr.Name ns.items)) }
    ensures all { IfOk result (λ o.
        MatchOption o (all_names true values.now ≡ false) (λ ns. all_names true values.now
        ≡ true)) }
{
    let mut names = Vec::new(alloc);
    for value in values {
        let Some(name) = name_of(value) else {
            return Ok(None);
        };
        names.push(name)?;
    }
    Ok(Some(names))
}

/// What a call is given. Where no `;` comes, or one of the expressions is no name, all are values.
#[tactic(auto, using(crate::proofs::Parser::Arguments::given))]
fn arguments(alloc: Global, tokens: &[Token]) -> Result<(SurfaceArguments, &[Token]), Stop>
    ensures spelled { IfOk result (λ r.
        leaves tokens.now ≡ arguments (arguments_of r.0) (leaves r.1.now)) }
    ensures taken { IfOk result (λ r. Accepts (m.maybe_arguments ∷ []) tokens.now r.1.now) }
    ensures fault { IfErr result (λ e. FailsAt e (m.maybe_arguments ∷ []) tokens.now) }
{
    let (given, rest) = maybe_expressions(alloc, tokens)?;
    let Some((_, after)) = eat(rest, Kind::Semicolon) else {
        return Ok((SurfaceArguments::Values(given), rest));
    };
    let Some(names) = names_of(alloc, given.as_slice())? else {
        return Ok((SurfaceArguments::Values(given), rest));
    };
    let (values, after) = maybe_expressions(alloc, after)?;
    Ok((SurfaceArguments::Both(names, values), after))
}

/// A call after its `(`.
pub fn call(alloc: Global, name: Word, tokens: &[Token]) -> Result<(SurfaceCall, &[Token]), Stop>
    ensures spelled { IfOk result (λ r. k.Name name ∷ k.OpenRound ∷ leaves tokens.now
        ≡ g.call (call_of r.0) (leaves r.1.now)) }
    ensures taken { IfOk result (λ r.
        Accepts (m.maybe_arguments ∷ m.exact m.close_round ∷ []) tokens.now r.1.now) }
    ensures fault { IfErr result (λ e.
        FailsAt e (m.maybe_arguments ∷ m.exact m.close_round ∷ []) tokens.now) }
{
    let (arguments, rest) = arguments(alloc, tokens)?;
    let (_, rest) = expect(rest, Kind::CloseRound)?;
    Ok((SurfaceCall { name, arguments }, rest))
}
