//! The procedure named `init`: its shape, and calls of it.

ghost use Rattle.std.specs.Prelude.{◌≡◌, [], cond, map};
ghost use Rattle.sf_base.specs.Results.{Appends};
ghost use Rattle.sf_ast.specs.View.{procedure_of as surface_procedure};
ghost use Rattle.sf_core.specs.Program.View as core;
ghost use Rattle.sf_elab.specs.declared.fault.Fault.TheVariants.{InitShape};
ghost use Rattle.sf_elab.specs.Names.Declarations.{references_of, values_of};
ghost use Rattle.sf_elab.specs.Bodies.Shape.{conjunct_place, conjunct_places, level_places, name_faults, names_init, shape_faults};

use crate::declarations::{references_of, values_of};
use crate::env::report_if;
use crate::fault::Fault;
use crate::texts::text;
use sf_ast::{SurfaceProcedure, Word};
use sf_base::Place;
use sf_core::{Conjunct, Expr, Level};
use std::alloc::AllocError;

/// Whether the word is that name.
fn names_init(bytes: &[u8], word: Word) -> bool
    ensures { result ≡ names_init bytes.now word }
{
    text(bytes, word) == "init".as_bytes()
}

/// Notes that a call names it.
pub fn add_call(bytes: &[u8], word: Word, found: &mut Vec<Fault>) -> Result<(), AllocError>
    ensures { Appends result found.old.items found.new.items (name_faults bytes.now word) }
{
    report_if(names_init(bytes, word), Fault::InitCalled(word), found)
}

/// Where a conjunct is.
fn conjunct_place(c: &Conjunct<Expr>) -> Place
    ensures { result ≡ conjunct_place (core.conjunct_of c.now) }
{
    match c {
        Conjunct::Holds(place, _) => *place,
        Conjunct::Points(place, _, _) => *place,
        Conjunct::Segment(place, _, _, _) => *place,
        Conjunct::Doubly(place, _, _, _, _, _, _) => *place,
        Conjunct::Tree(place, _, _, _) => *place,
        Conjunct::If(place, _, _, _) => *place,
    }
}

/// Appends a fault for each conjunct.
fn add_conjuncts(cs: &[Conjunct<Expr>], found: &mut Vec<Fault>) -> Result<(), AllocError>
    ensures { Appends result found.old.items found.new.items
        (map InitShape (conjunct_places (core.conjuncts (map core.conjunct_of cs.now)))) }
{
    for c in cs {
        found.push(Fault::InitShape(conjunct_place(c)))?;
    }
    Ok(())
}

/// Appends a fault for each conjunct of a level.
fn add_level(level: &Level<Expr>, found: &mut Vec<Fault>) -> Result<(), AllocError>
    ensures { Appends result found.old.items found.new.items
        (map InitShape (level_places (core.level_of level.now))) }
{
    add_conjuncts(&level.conjuncts, found)
}

/// Appends a fault for each parameter.
fn add_words(words: &[Word], found: &mut Vec<Fault>) -> Result<(), AllocError>
    ensures { Appends result found.old.items found.new.items
        (map (λ w. InitShape w.place) words.now) }
{
    for word in words {
        found.push(Fault::InitShape(word.place))?;
    }
    Ok(())
}

/// Appends all that a procedure of that name may not have: its parameters, and the conjuncts of
/// its pre and post.
fn add_all(
    references: &[Word],
    values: &[Word],
    pre: &Level<Expr>,
    post: &Level<Expr>,
    found: &mut Vec<Fault>,
) -> Result<(), AllocError>
    ensures { Appends result found.old.items found.new.items
        (shape_faults references.now values.now
        (core.level_of pre.now) (core.level_of post.now)) }
{
    add_words(references, found)?;
    add_words(values, found)?;
    add_level(pre, found)?;
    add_level(post, found)?;
    Ok(())
}

/// Notes these where the procedure has that name.
pub fn add_shape(
    bytes: &[u8],
    f: &SurfaceProcedure,
    pre: &Level<Expr>,
    post: &Level<Expr>,
    found: &mut Vec<Fault>,
) -> Result<(), AllocError>
    ensures { Appends result found.old.items found.new.items
        (cond (names_init bytes.now f.now.name)
        (shape_faults (references_of (surface_procedure f.now).parameters)
        (values_of (surface_procedure f.now).parameters)
        (core.level_of pre.now) (core.level_of post.now)) []) }
{
    if names_init(bytes, f.name) {
        let references = references_of(&f.parameters);
        add_all(references, values_of(&f.parameters), pre, post, found)?;
    }
    Ok(())
}
