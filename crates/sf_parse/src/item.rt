//! The items of a file: fields, resources and procedures.

ghost use Rattle.std.specs.Prelude.{◌≡◌, ◌<◌, ◌∷◌, [], List, length, map, IfErr, IfOk};
ghost use Rattle.std.specs.Option.{option_map};
ghost use Rattle.sf_ast.specs.Surface as s;
ghost use Rattle.sf_ast.specs.View.{item_of, names_of, annotation_of, parameters_of};
ghost use Rattle.sf_base.specs.declared.limits.TheConstants.{NESTING};
ghost use Rattle.sf_parse.specs.Leaf as k;
ghost use Rattle.sf_parse.specs.Checked.Bodies.{BodyNearest, BodyWithin, body, procedure_with};
ghost use Rattle.sf_parse.specs.Grammar as g;
ghost use Rattle.sf_parse.specs.Grammar.{item};
ghost use Rattle.sf_parse.specs.Checked.Machine as m;
ghost use Rattle.sf_parse.specs.Checked.Machine.{Predicted, verdict};
ghost use Rattle.sf_parse.specs.Nearest.{IsNearest, ItemNearest};
ghost use Rattle.sf_parse.specs.Nesting.{ItemWithin, ItemsWithin};
ghost use Rattle.sf_parse.specs.Leaf.{leaves};
ghost use Rattle.sf_parse.specs.Checked.Parser.{FailsAt, Accepts};

use crate::annotation::{annotation, maybe_annotation};
use crate::command::commands;
use crate::front::{eat, eat_name};
use crate::leaf::{expect, name};
use crate::memory::add;
use crate::names::{maybe_names, more_names, names, parameters};
use crate::stop::Stop;
use sf_ast::{
    Item, SurfaceCommand, SurfaceNames, SurfaceNote, SurfaceParameters, SurfaceProcedure,
    SurfaceResource, Word,
};
use sf_base::Place;
use sf_base::limits::NESTING;
use sf_lex::{Kind, Token};
use std::alloc::Global;

/// A procedure's body, between its braces.
#[derive(Debug, Drop)]
pub struct Body {
    /// Where its opening brace is.
    pub open: Place,
    /// The names of each `local`.
    pub locals: Vec<SurfaceNames>,
    /// The commands after them.
    pub commands: Vec<SurfaceCommand>,
    /// Where its closing brace is.
    pub close: Place,
}

/// The `local`s of a body.
#[tactic(auto, using(crate::proofs::Parser::ItemHeads::item_heads))]
fn locals(alloc: Global, tokens: &[Token]) -> Result<(Vec<SurfaceNames>, &[Token]), Stop>
    ensures spelled { IfOk result (λ r.
        leaves tokens.now ≡ g.locals (map names_of r.0.items) (leaves r.1.now)) }
    ensures taken { IfOk result (λ r. Accepts (m.locals ∷ []) tokens.now r.1.now) }
    ensures fault { IfErr result (λ e. FailsAt e (m.locals ∷ []) tokens.now) }
{
    let mut found = Vec::new(alloc);
    let mut rest = tokens;
    while let Some((_, after)) = eat(rest, Kind::Local) {
        let (one, after) = names(alloc, after)?;
        let (_, after) = expect(after, Kind::Semicolon)?;
        add(&mut found, one)?;
        rest = after;
    }
    Ok((found, rest))
}

/// A procedure's body.
fn procedure_body(alloc: Global, tokens: &[Token]) -> Result<(Body, &[Token]), Stop>
    ensures spelled { IfOk result (λ r. leaves tokens.now ≡ body r.0 (leaves r.1.now)) }
    ensures nearest { IfOk result (λ r. BodyNearest r.0) }
    ensures within { IfOk result (λ r. BodyWithin r.0 (leaves r.1.now)) }
    ensures taken { IfOk result (λ r.
        Accepts (m.exact m.open_brace ∷ m.locals ∷ m.commands NESTING ∷ m.exact m.close_brace
        ∷ []) tokens.now r.1.now) }
    ensures fault { IfErr result
        (λ e. FailsAt e (m.exact m.open_brace ∷ m.locals ∷ m.commands NESTING
        ∷ m.exact m.close_brace ∷ []) tokens.now) }
{
    let (open, rest) = expect(tokens, Kind::OpenBrace)?;
    let (locals, rest) = locals(alloc, rest)?;
    let (commands, rest) = commands(alloc, NESTING, rest)?;
    let (close, rest) = expect(rest, Kind::CloseBrace)?;
    Ok((
        Body {
            open,
            locals,
            commands,
            close,
        },
        rest,
    ))
}

/// A procedure of those parts.
fn procedure_of(
    name: Word,
    parameters: SurfaceParameters,
    pre: Option<SurfaceNote>,
    body: Body,
    post: Option<SurfaceNote>,
) -> Item
    ensures { item_of result
        ≡ s.procedure
        (procedure_with name (parameters_of parameters) (option_map annotation_of pre) body
        (option_map annotation_of post)) }
{
    Item::Procedure(SurfaceProcedure {
        name,
        parameters,
        pre,
        open: body.open,
        locals: body.locals,
        body: body.commands,
        close: body.close,
        post,
    })
}

/// A procedure after its `(`.
fn procedure(alloc: Global, first: Word, tokens: &[Token]) -> Result<(Item, &[Token]), Stop>
    ensures spelled { IfOk result (λ r. k.Name first ∷ k.OpenRound ∷ leaves tokens.now
        ≡ item (item_of r.0) (leaves r.1.now)) }
    ensures nearest { IfOk result (λ r. ItemNearest (item_of r.0)) }
    ensures within { IfOk result (λ r. ItemWithin (item_of r.0) 0 (leaves r.1.now)) }
    ensures taken { IfOk result (λ r. Accepts m.procedure_predicted tokens.now r.1.now) }
    ensures fault { IfErr result (λ e. FailsAt e m.procedure_predicted tokens.now) }
{
    let (parameters, rest) = parameters(alloc, tokens)?;
    let (_, rest) = expect(rest, Kind::CloseRound)?;
    let (pre, rest) = maybe_annotation(alloc, rest)?;
    let (body, rest) = procedure_body(alloc, rest)?;
    let (post, rest) = maybe_annotation(alloc, rest)?;
    Ok((procedure_of(first, parameters, pre, body, post), rest))
}

/// Fields after the first one's name.
fn fields(alloc: Global, first: Word, tokens: &[Token]) -> Result<(Item, &[Token]), Stop>
    ensures spelled { IfOk result (λ r.
        k.Name first ∷ leaves tokens.now ≡ item (item_of r.0) (leaves r.1.now)) }
    ensures nearest { IfOk result (λ r. ItemNearest (item_of r.0)) }
    ensures within { IfOk result (λ r. ItemWithin (item_of r.0) 0 (leaves r.1.now)) }
    ensures taken { IfOk result (λ r.
        Accepts (m.more_names ∷ m.exact m.semicolon ∷ []) tokens.now r.1.now) }
    ensures fault { IfErr result (λ e.
        FailsAt e (m.more_names ∷ m.exact m.semicolon ∷ []) tokens.now) }
{
    let (more, rest) = more_names(alloc, tokens)?;
    let (_, rest) = expect(rest, Kind::Semicolon)?;
    Ok((Item::Fields(SurfaceNames { first, more }), rest))
}

/// A resource after its own word.
fn resource(alloc: Global, place: Place, tokens: &[Token]) -> Result<(Item, &[Token]), Stop>
    ensures spelled { IfOk result (λ r.
        k.Resource place ∷ leaves tokens.now ≡ item (item_of r.0) (leaves r.1.now)) }
    ensures nearest { IfOk result (λ r. ItemNearest (item_of r.0)) }
    ensures within { IfOk result (λ r. ItemWithin (item_of r.0) 0 (leaves r.1.now)) }
    ensures taken { IfOk result (λ r. Accepts m.resource_predicted tokens.now r.1.now) }
    ensures fault { IfErr result (λ e. FailsAt e m.resource_predicted tokens.now) }
{
    let (own, rest) = name(tokens)?;
    let (_, rest) = expect(rest, Kind::OpenRound)?;
    let (variables, rest) = maybe_names(alloc, rest)?;
    let (_, rest) = expect(rest, Kind::CloseRound)?;
    let (invariant, rest) = annotation(alloc, rest)?;
    Ok((
        Item::Resource(SurfaceResource {
            place,
            name: own,
            variables,
            invariant,
        }),
        rest,
    ))
}

/// Fields or a procedure after the name that begins it.
#[tactic(auto, using(crate::proofs::Parser::ItemHeads::item_heads))]
fn named_item(alloc: Global, first: Word, tokens: &[Token]) -> Result<(Item, &[Token]), Stop>
    ensures spelled { IfOk result (λ r.
        k.Name first ∷ leaves tokens.now ≡ item (item_of r.0) (leaves r.1.now)) }
    ensures nearest { IfOk result (λ r. ItemNearest (item_of r.0)) }
    ensures within { IfOk result (λ r. ItemWithin (item_of r.0) 0 (leaves r.1.now)) }
    ensures taken { IfOk result (λ r. Accepts (m.item_named ∷ []) tokens.now r.1.now) }
    ensures fault { IfErr result (λ e. FailsAt e (m.item_named ∷ []) tokens.now) }
{
    if let Some((_, rest)) = eat(tokens, Kind::OpenRound) {
        return procedure(alloc, first, rest);
    }
    fields(alloc, first, tokens)
}

/// One item.
#[tactic(auto, using(crate::proofs::Parser::ItemHeads::item_heads))]
fn item(alloc: Global, tokens: &[Token]) -> Result<(Item, &[Token]), Stop>
    requires { 0 < length tokens.now }
    ensures spelled { IfOk result (λ r. leaves tokens.now ≡ item (item_of r.0) (leaves r.1.now)) }
    ensures nearest { IfOk result (λ r. ItemNearest (item_of r.0)) }
    ensures within { IfOk result (λ r. ItemWithin (item_of r.0) 0 (leaves r.1.now)) }
    ensures taken { IfOk result (λ r. (st : List Predicted)
        → verdict 0 (leaves tokens.now) (m.items ∷ st)
        ≡ verdict 0 (leaves r.1.now) (m.items ∷ st)) }
    ensures fault { IfErr result (λ e. FailsAt e (m.items ∷ []) tokens.now) }
{
    if let Some((first, rest)) = eat_name(tokens) {
        return named_item(alloc, first, rest);
    }
    let Some((place, rest)) = eat(tokens, Kind::Resource) else {
        return Err(Stop::Unexpected(tokens.len()));
    };
    resource(alloc, place, rest)
}

/// The items of a file.
pub fn items(alloc: Global, tokens: &[Token]) -> Result<Vec<Item>, Stop>
    ensures spelled { IfOk result (λ found.
        leaves tokens.now ≡ g.items (map item_of found.items) []) }
    ensures nearest { IfOk result (λ found. IsNearest (map item_of found.items)) }
    ensures within { IfOk result (λ found. ItemsWithin (map item_of found.items) 0 []) }
    ensures fault { IfErr result (λ e. FailsAt e (m.items ∷ []) tokens.now) }
{
    let mut found = Vec::new(alloc);
    let mut rest = tokens;
    while !rest.is_empty() {
        let (one, after) = item(alloc, rest)?;
        add(&mut found, one)?;
        rest = after;
    }
    Ok(found)
}
