//! Assertions in square brackets.

ghost use Rattle.std.specs.Prelude.{◌≡◌, ◌∷◌, [], IfErr, IfOk};
ghost use Rattle.std.specs.Option.{option_map};
ghost use Rattle.sf_ast.specs.View.{annotation_of};
ghost use Rattle.sf_parse.specs.Grammar.{maybe_annotation, annotation};
ghost use Rattle.sf_parse.specs.Checked.Machine as m;
ghost use Rattle.sf_parse.specs.Nearest.{MaybeNearest, NoteNearest};
ghost use Rattle.sf_parse.specs.Nesting.{MaybeWithin, NoteWithin};
ghost use Rattle.sf_parse.specs.Leaf as k;
ghost use Rattle.sf_parse.specs.Leaf.{leaves};
ghost use Rattle.sf_parse.specs.Checked.Parser.{FailsAt, Accepts};

use crate::assertion::assertion;
use crate::front::eat;
use crate::leaf::expect;
use crate::stop::Stop;
use sf_ast::SurfaceNote;
use sf_base::limits::NESTING;
use sf_lex::{Kind, Token};
use std::alloc::Global;

/// A note after its opening bracket.
#[tactic(auto, using(crate::proofs::Parser::Conjuncts::behind))]
fn inside(alloc: Global, tokens: &[Token]) -> Result<(SurfaceNote, &[Token]), Stop>
    ensures spelled { IfOk result (λ r. k.OpenSquare ∷ leaves tokens.now
        ≡ annotation (annotation_of r.0) (leaves r.1.now)) }
    ensures nearest { IfOk result (λ r. NoteNearest (annotation_of r.0)) }
    ensures within { IfOk result (λ r. NoteWithin (annotation_of r.0) 0 (leaves r.1.now)) }
    ensures taken { IfOk result (λ r.
        Accepts (m.maybe_assertion ∷ m.exact m.close_square ∷ []) tokens.now r.1.now) }
    ensures fault { IfErr result (λ e.
        FailsAt e (m.maybe_assertion ∷ m.exact m.close_square ∷ []) tokens.now) }
{
    if let Some((_, rest)) = eat(tokens, Kind::CloseSquare) {
        return Ok((SurfaceNote { assertion: None }, rest));
    }
    let (found, rest) = assertion(alloc, NESTING, tokens)?;
    let (_, rest) = expect(rest, Kind::CloseSquare)?;
    Ok((
        SurfaceNote {
            assertion: Some(found),
        },
        rest,
    ))
}

/// A note.
pub fn annotation(alloc: Global, tokens: &[Token]) -> Result<(SurfaceNote, &[Token]), Stop>
    ensures spelled { IfOk result (λ r.
        leaves tokens.now ≡ annotation (annotation_of r.0) (leaves r.1.now)) }
    ensures nearest { IfOk result (λ r. NoteNearest (annotation_of r.0)) }
    ensures within { IfOk result (λ r. NoteWithin (annotation_of r.0) 0 (leaves r.1.now)) }
    ensures taken { IfOk result (λ r.
        Accepts (m.exact m.open_square ∷ m.maybe_assertion ∷ m.exact m.close_square
        ∷ []) tokens.now r.1.now) }
    ensures fault { IfErr result
        (λ e. FailsAt e (m.exact m.open_square ∷ m.maybe_assertion ∷ m.exact m.close_square
        ∷ []) tokens.now) }
{
    let (_, rest) = expect(tokens, Kind::OpenSquare)?;
    inside(alloc, rest)
}

/// A note, or none.
#[tactic(auto, using(crate::proofs::Parser::Choices::choices))]
pub fn maybe_annotation(
    alloc: Global,
    tokens: &[Token],
) -> Result<(Option<SurfaceNote>, &[Token]), Stop>
    ensures spelled { IfOk result (λ r. leaves tokens.now
        ≡ maybe_annotation (option_map annotation_of r.0) (leaves r.1.now)) }
    ensures nearest { IfOk result (λ r. MaybeNearest (option_map annotation_of r.0)) }
    ensures within { IfOk result (λ r.
        MaybeWithin (option_map annotation_of r.0) 0 (leaves r.1.now)) }
    ensures taken { IfOk result (λ r. Accepts (m.maybe_annotation ∷ []) tokens.now r.1.now) }
    ensures fault { IfErr result (λ e. FailsAt e (m.maybe_annotation ∷ []) tokens.now) }
{
    let Some((_, rest)) = eat(tokens, Kind::OpenSquare) else {
        return Ok((None, tokens));
    };
    let (found, rest) = inside(alloc, rest)?;
    Ok((Some(found), rest))
}
