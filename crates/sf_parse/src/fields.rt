//! The fields of a points-to.

ghost use Rattle.std.specs.Prelude.{◌≡◌, ◌∷◌, [], IfErr, IfOk};
ghost use Rattle.sf_parse.specs.Grammar.{field, maybe_fields, more_fields};
ghost use Rattle.sf_parse.specs.Checked.Machine as m;
ghost use Rattle.sf_parse.specs.Leaf.{leaves};
ghost use Rattle.sf_parse.specs.Checked.Parser.{FailsAt, Accepts};

use crate::front::{eat, eat_name};
use crate::leaf::{expect, name, operand};
use crate::memory::{add, with_first};
use crate::stop::Stop;
use sf_ast::SurfaceField;
use sf_lex::{Kind, Token};
use std::alloc::Global;

/// A field, its colon and its value.
fn field(tokens: &[Token]) -> Result<(SurfaceField, &[Token]), Stop>
    ensures spelled { IfOk result (λ r. leaves tokens.now ≡ field r.0 (leaves r.1.now)) }
    ensures taken { IfOk result (λ r.
        Accepts (m.exact m.a_name ∷ m.exact m.a_colon ∷ m.operand ∷ []) tokens.now r.1.now) }
    ensures fault { IfErr result
        (λ e. FailsAt e (m.exact m.a_name ∷ m.exact m.a_colon ∷ m.operand ∷ []) tokens.now) }
{
    let (name, rest) = name(tokens)?;
    let (_, rest) = expect(rest, Kind::Colon)?;
    let (value, rest) = operand(rest)?;
    Ok((SurfaceField { name, value }, rest))
}

/// Fields after a first one, each after its comma.
#[tactic(auto, using(crate::proofs::Parser::Choices::choices))]
fn more_fields(alloc: Global, tokens: &[Token]) -> Result<(Vec<SurfaceField>, &[Token]), Stop>
    ensures spelled { IfOk result (λ r.
        leaves tokens.now ≡ more_fields r.0.items (leaves r.1.now)) }
    ensures taken { IfOk result (λ r. Accepts (m.more_fields ∷ []) tokens.now r.1.now) }
    ensures fault { IfErr result (λ e. FailsAt e (m.more_fields ∷ []) tokens.now) }
{
    let mut found = Vec::new(alloc);
    let mut rest = tokens;
    while let Some((_, after)) = eat(rest, Kind::Comma) {
        let (one, after) = field(after)?;
        add(&mut found, one)?;
        rest = after;
    }
    Ok((found, rest))
}

/// Fields, or none.
#[tactic(auto, using(crate::proofs::Parser::Choices::choices))]
pub fn maybe_fields(alloc: Global, tokens: &[Token]) -> Result<(Vec<SurfaceField>, &[Token]), Stop>
    ensures spelled { IfOk result (λ r.
        leaves tokens.now ≡ maybe_fields r.0.items (leaves r.1.now)) }
    ensures taken { IfOk result (λ r. Accepts (m.maybe_fields ∷ []) tokens.now r.1.now) }
    ensures fault { IfErr result (λ e. FailsAt e (m.maybe_fields ∷ []) tokens.now) }
{
    let Some(_) = eat_name(tokens) else {
        return Ok((Vec::new(alloc), tokens));
    };
    let (first, rest) = field(tokens)?;
    let (found, rest) = more_fields(alloc, rest)?;
    Ok((with_first(first, found)?, rest))
}
