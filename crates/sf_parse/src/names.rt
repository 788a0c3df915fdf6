//! Names with commas between them.

ghost use Rattle.std.specs.Prelude.{◌≡◌, ◌∷◌, [], IfErr, IfOk};
ghost use Rattle.sf_ast.specs.View.{names_of, parameters_of};
ghost use Rattle.sf_parse.specs.Grammar.{maybe_names, more_names, names, parameters};
ghost use Rattle.sf_parse.specs.Checked.Machine as m;
ghost use Rattle.sf_parse.specs.Leaf.{leaves};
ghost use Rattle.sf_parse.specs.Checked.Parser.{FailsAt, Accepts};

use crate::front::{eat, eat_name};
use crate::leaf::name;
use crate::memory::{add, with_first};
use crate::stop::Stop;
use sf_ast::{SurfaceNames, SurfaceParameters, Word};
use sf_lex::{Kind, Token};
use std::alloc::Global;

/// Names after a first one, each after its comma.
#[tactic(auto, using(crate::proofs::Parser::Choices::choices))]
pub fn more_names(alloc: Global, tokens: &[Token]) -> Result<(Vec<Word>, &[Token]), Stop>
    ensures spelled { IfOk result (λ r. leaves tokens.now ≡ more_names r.0.items (leaves r.1.now)) }
    ensures taken { IfOk result (λ r. Accepts (m.more_names ∷ []) tokens.now r.1.now) }
    ensures fault { IfErr result (λ e. FailsAt e (m.more_names ∷ []) tokens.now) }
{
    let mut found = Vec::new(alloc);
    let mut rest = tokens;
    while let Some((_, after)) = eat(rest, Kind::Comma) {
        let (word, after) = name(after)?;
        add(&mut found, word)?;
        rest = after;
    }
    Ok((found, rest))
}

/// One name or more.
pub fn names(alloc: Global, tokens: &[Token]) -> Result<(SurfaceNames, &[Token]), Stop>
    ensures spelled { IfOk result (λ r. leaves tokens.now ≡ names (names_of r.0) (leaves r.1.now)) }
    ensures taken { IfOk result (λ r.
        Accepts (m.exact m.a_name ∷ m.more_names ∷ []) tokens.now r.1.now) }
    ensures fault { IfErr result (λ e.
        FailsAt e (m.exact m.a_name ∷ m.more_names ∷ []) tokens.now) }
{
    let (first, rest) = name(tokens)?;
    let (more, rest) = more_names(alloc, rest)?;
    Ok((SurfaceNames { first, more }, rest))
}

/// Names, or none.
#[tactic(auto, using(crate::proofs::Parser::Choices::choices))]
pub fn maybe_names(alloc: Global, tokens: &[Token]) -> Result<(Vec<Word>, &[Token]), Stop>
    ensures spelled { IfOk result (λ r.
        leaves tokens.now ≡ maybe_names r.0.items (leaves r.1.now)) }
    ensures taken { IfOk result (λ r. Accepts (m.maybe_names ∷ []) tokens.now r.1.now) }
    ensures fault { IfErr result (λ e. FailsAt e (m.maybe_names ∷ []) tokens.now) }
{
    let Some((first, rest)) = eat_name(tokens) else {
        return Ok((Vec::new(alloc), tokens));
    };
    let (found, rest) = more_names(alloc, rest)?;
    Ok((with_first(first, found)?, rest))
}

/// The parameters of a procedure.
#[tactic(auto, using(crate::proofs::Parser::Choices::choices))]
pub fn parameters(alloc: Global, tokens: &[Token]) -> Result<(SurfaceParameters, &[Token]), Stop>
    ensures spelled { IfOk result (λ r.
        leaves tokens.now ≡ parameters (parameters_of r.0) (leaves r.1.now)) }
    ensures taken { IfOk result (λ r.
        Accepts (m.maybe_names ∷ m.maybe_values ∷ []) tokens.now r.1.now) }
    ensures fault { IfErr result (λ e. FailsAt e (m.maybe_names ∷ m.maybe_values ∷ []) tokens.now) }
{
    let (first, rest) = maybe_names(alloc, tokens)?;
    let Some((_, after)) = eat(rest, Kind::Semicolon) else {
        return Ok((SurfaceParameters::Values(first), rest));
    };
    let (values, after) = maybe_names(alloc, after)?;
    Ok((SurfaceParameters::Both(first, values), after))
}
