//! The assertions of a file, numbered.

ghost use Rattle.std.specs.Prelude.{◌≡◌, ◌∷◌, ◌++◌, ◌-◌, [], map, IfOk, OnOk};
ghost use Rattle.sf_base.specs.Results.{Appends};
ghost use Rattle.sf_ast.specs.View.{annotation_of as surface_annotation, assertion_of};
ghost use Rattle.sf_ast.specs.Surface.{filled};
ghost use Rattle.sf_core.specs.Program.View as core;
ghost use Rattle.sf_elab.specs.Annotations.Assertions.{operand_of, operand_faults, values_of, values_faults, link_of, segment_faults, doubly_faults, four_faults, tree_faults, conjunct_of, conjuncts_of, level_of, conjunct_faults, level_faults, annotation_of, annotation_faults, maybe_of, maybe_faults};
ghost use Rattle.sf_elab.specs.Annotations.Existentials.{taking, names_after, names_after_all, names_after_level};
ghost use Rattle.sf_elab.specs.Annotations.Flat.{flats, flat_of};
ghost use Rattle.sf_core.specs.Program.Syntax.{doubly, level, none, points as cell, segment, tree};
ghost use Rattle.sf_elab.specs.declared.fault.Fault.TheVariants.{Twice};
ghost use Rattle.sf_elab.specs.declared.fault.Link.TheVariants.{Next, Back, Left, Right};
ghost use Rattle.sf_elab.specs.Files.Faults.{link_name, where_};
ghost use Rattle.sf_elab.specs.Names.Table.{declare, find, has};
ghost use Rattle.sf_elab.specs.Names.Texts.{text as word_text};
ghost use Rattle.std.specs.Option.{option_map};
ghost use Rattle.sf_elab.specs.Names.InEnv.{env_of, test_of, test_faults, field_of, field_faults};

use crate::env::{Env, report_if};
use crate::fault::{Fault, Link};
use crate::flat::{Flat, level as flat_level};
use crate::levels::Levels;
use crate::table::Table;
use crate::texts::text;
use sf_ast::{SurfaceAssertion, SurfaceField, SurfaceNote, SurfaceOperand, SurfaceTest};
use sf_base::{FieldId, Place};
use sf_core::{Assertion, Conjunct, Expr, Level, Operand, Scope, Test};
use std::alloc::{AllocError, Global};

/// The text of a field's name.
pub fn link_name(link: Link) -> &'static [u8]
    ensures { result.now ≡ link_name link }
{
    match link {
        Link::Next => b"tl",
        Link::Back => b"pv",
        Link::Left => b"l",
        Link::Right => b"r",
    }
}

/// An operand.
fn operand(
    env: &Env<'_>,
    levels: &Levels,
    x: &SurfaceOperand,
    found: &mut Vec<Fault>,
) -> Result<Operand<Expr>, AllocError>
    ensures same { IfOk result (λ y. y ≡ operand_of (env_of env.now) levels.now x.now) }
    ensures faults { Appends result found.old.items found.new.items
        (operand_faults (env_of env.now) x.now) }
{
    match x {
        SurfaceOperand::Known(e) => {
            let e = env.expr(*e, found)?;
            Ok(Operand::Known(e))
        }
        SurfaceOperand::Existential(word) => {
            let number = levels.reach.find(text(env.bytes, *word));
            Ok(Operand::Exists(number.unwrap_or(0)))
        }
    }
}

/// Two operands.
fn sides(
    env: &Env<'_>,
    levels: &Levels,
    x: &SurfaceOperand,
    y: &SurfaceOperand,
    found: &mut Vec<Fault>,
) -> Result<(Operand<Expr>, Operand<Expr>), AllocError>
    ensures left { IfOk result (λ z. z.0 ≡ operand_of (env_of env.now) levels.now x.now) }
    ensures right { IfOk result (λ z. z.1 ≡ operand_of (env_of env.now) levels.now y.now) }
    ensures faults { Appends result found.old.items found.new.items
        (operand_faults (env_of env.now) x.now
        ++ operand_faults (env_of env.now) y.now) }
{
    let left = operand(env, levels, x, found)?;
    let right = operand(env, levels, y, found)?;
    Ok((left, right))
}

/// A test of operands.
fn test(
    env: &Env<'_>,
    levels: &Levels,
    test: &SurfaceTest<SurfaceOperand>,
    found: &mut Vec<Fault>,
) -> Result<Test<Operand<Expr>>, AllocError>
    ensures same { IfOk result
        (λ y. y ≡ test_of (operand_of (env_of env.now) levels.now) test.now) }
    ensures faults { Appends result found.old.items found.new.items
        (test_faults (operand_faults (env_of env.now)) test.now) }
{
    match test {
        SurfaceTest::True(_) => Ok(Test::True),
        SurfaceTest::Equal(x, y) => {
            let (x, y) = sides(env, levels, x, y, found)?;
            Ok(Test::Equal(x, y))
        }
        SurfaceTest::Differ(x, y) => {
            let (x, y) = sides(env, levels, x, y, found)?;
            Ok(Test::Differ(x, y))
        }
    }
}

/// The field of that name, with what is wrong where those are given already.
fn field(
    alloc: Global,
    env: &Env<'_>,
    field: &SurfaceField,
    given: &mut Table<FieldId>,
    found: &mut Vec<Fault>,
) -> Result<FieldId, AllocError>
    ensures same { IfOk result (λ y. y ≡ field_of (env_of env.now) field.now.name) }
    ensures given { OnOk result (given.new
        ≡ declare (word_text env.now.bytes.now field.now.name)
        (field_of (env_of env.now) field.now.name) given.old) }
    ensures faults { Appends result found.old.items found.new.items
        (field_faults (env_of env.now) field.now.name
        ++ where_ (has (word_text env.now.bytes.now field.now.name) given.old)
        (Twice field.now.name)) }
{
    let number = env.field(field.name, found)?;
    let name = text(env.bytes, field.name);
    report_if(given.find(name).is_some(), Fault::Twice(field.name), found)?;
    given.declare(alloc, name, number)?;
    Ok(number)
}

/// Appends a field of a cell with its value. What is wrong with it is noted, also where that field
/// is given already.
fn add_value(
    alloc: Global,
    env: &Env<'_>,
    levels: &Levels,
    one: &SurfaceField,
    given: &mut Table<FieldId>,
    done: &mut Vec<(FieldId, Operand<Expr>)>,
    found: &mut Vec<Fault>,
) -> Result<(), AllocError>
    ensures same { Appends result done.old.items done.new.items
        (values_of (env_of env.now) levels.now (one.now ∷ [])) }
    ensures given { OnOk result (given.new
        ≡ declare (word_text env.now.bytes.now one.now.name)
        (field_of (env_of env.now) one.now.name) given.old) }
    ensures faults { Appends result found.old.items found.new.items
        (values_faults (env_of env.now) given.old (one.now ∷ [])) }
{
    let number = field(alloc, env, one, given, found)?;
    let value = operand(env, levels, &one.value, found)?;
    done.push((number, value))?;
    Ok(())
}

/// The fields of a cell with their values.
fn values(
    alloc: Global,
    env: &Env<'_>,
    levels: &Levels,
    fields: &[SurfaceField],
    found: &mut Vec<Fault>,
) -> Result<Vec<(FieldId, Operand<Expr>)>, AllocError>
    ensures same { IfOk result (λ v. v.items ≡ values_of (env_of env.now) levels.now fields.now) }
    ensures faults { Appends result found.old.items found.new.items
        (values_faults (env_of env.now) [] fields.now) }
{
    let mut given = Table::new(alloc);
    let mut done = Vec::new(alloc);
    for one in fields {
        add_value(alloc, env, levels, one, &mut given, &mut done, found)?;
    }
    Ok(done)
}

/// The field that predicates follow.
fn link(env: &Env<'_>, link: Link) -> Option<FieldId>
    ensures { result ≡ find (link_name link) env.now.declared.now.fields }
{
    env.declared.fields.find(link_name(link))
}

/// The field of a segment.
fn next(env: &Env<'_>, place: Place, found: &mut Vec<Fault>) -> Result<FieldId, AllocError>
    ensures same { IfOk result (λ y. y ≡ link_of (env_of env.now) Next) }
    ensures faults { Appends result found.old.items found.new.items
        (segment_faults (env_of env.now) place) }
{
    let next = link(env, Link::Next);
    report_if(next.is_none(), Fault::Missing(place, Link::Next), found)?;
    Ok(next.unwrap_or(FieldId(0)))
}

/// The fields of a doubly linked segment.
fn both_ways(
    env: &Env<'_>,
    place: Place,
    found: &mut Vec<Fault>,
) -> Result<(FieldId, FieldId), AllocError>
    ensures same { IfOk result
        (λ y. y ≡ (link_of (env_of env.now) Next, link_of (env_of env.now) Back)) }
    ensures faults { Appends result found.old.items found.new.items
        (doubly_faults (env_of env.now) place) }
{
    let next = link(env, Link::Next);
    let back = link(env, Link::Back);
    report_if(next.is_none(), Fault::Missing(place, Link::Next), found)?;
    report_if(back.is_none(), Fault::Missing(place, Link::Back), found)?;
    Ok((next.unwrap_or(FieldId(0)), back.unwrap_or(FieldId(0))))
}

/// The fields of a tree.
fn both_links(
    env: &Env<'_>,
    place: Place,
    found: &mut Vec<Fault>,
) -> Result<(FieldId, FieldId), AllocError>
    ensures same { IfOk result
        (λ y. y ≡ (link_of (env_of env.now) Left, link_of (env_of env.now) Right)) }
    ensures faults { Appends result found.old.items found.new.items
        (tree_faults (env_of env.now) place) }
{
    let left = link(env, Link::Left);
    let right = link(env, Link::Right);
    report_if(left.is_none(), Fault::Missing(place, Link::Left), found)?;
    report_if(right.is_none(), Fault::Missing(place, Link::Right), found)?;
    Ok((left.unwrap_or(FieldId(0)), right.unwrap_or(FieldId(0))))
}

/// The numbers from `first` on, below `end`.
fn scope(first: u32, end: u32) -> Scope
    ensures { result ≡ record { first = first; count = end - first } }
{
    Scope {
        first,
        count: end.saturating_sub(first),
    }
}

/// A cell.
fn points(
    alloc: Global,
    env: &Env<'_>,
    levels: &Levels,
    place: Place,
    x: &SurfaceOperand,
    fields: &[SurfaceField],
    found: &mut Vec<Fault>,
) -> Result<Conjunct<Expr>, AllocError>
    ensures same { IfOk result (λ c. core.conjunct_of c
        ≡ cell place (operand_of (env_of env.now) levels.now x.now)
        (values_of (env_of env.now) levels.now fields.now)) }
    ensures faults { Appends result found.old.items found.new.items
        (operand_faults (env_of env.now) x.now
        ++ values_faults (env_of env.now) [] fields.now) }
{
    let at = operand(env, levels, x, found)?;
    let values = values(alloc, env, levels, fields, found)?;
    Ok(Conjunct::Points(place, at, values))
}

/// A segment.
fn between(
    env: &Env<'_>,
    levels: &Levels,
    place: Place,
    x: &SurfaceOperand,
    y: &SurfaceOperand,
    found: &mut Vec<Fault>,
) -> Result<Conjunct<Expr>, AllocError>
    ensures same { IfOk result (λ c. core.conjunct_of c
        ≡ segment place (link_of (env_of env.now) Next)
        (operand_of (env_of env.now) levels.now x.now)
        (operand_of (env_of env.now) levels.now y.now)) }
    ensures faults { Appends result found.old.items found.new.items
        (segment_faults (env_of env.now) place
        ++ operand_faults (env_of env.now) x.now ++ operand_faults (env_of env.now) y.now) }
{
    let next = next(env, place, found)?;
    let (left, right) = sides(env, levels, x, y, found)?;
    Ok(Conjunct::Segment(place, next, left, right))
}

/// A doubly linked segment: where it begins, what is before it, where its last cell is, where it ends.
fn doubly(
    env: &Env<'_>,
    levels: &Levels,
    place: Place,
    from: &SurfaceOperand,
    before: &SurfaceOperand,
    last: &SurfaceOperand,
    to: &SurfaceOperand,
    found: &mut Vec<Fault>,
) -> Result<Conjunct<Expr>, AllocError>
    ensures same { IfOk result (λ c. core.conjunct_of c
        ≡ doubly place (link_of (env_of env.now) Next) (link_of (env_of env.now) Back)
        (operand_of (env_of env.now) levels.now from.now)
        (operand_of (env_of env.now) levels.now before.now)
        (operand_of (env_of env.now) levels.now last.now)
        (operand_of (env_of env.now) levels.now to.now)) }
    ensures faults { Appends result found.old.items found.new.items
        (doubly_faults (env_of env.now) place
        ++ four_faults (env_of env.now) from.now before.now last.now to.now) }
{
    let (next, back) = both_ways(env, place, found)?;
    let (from, before) = sides(env, levels, from, before, found)?;
    let (last, to) = sides(env, levels, last, to, found)?;
    Ok(Conjunct::Doubly(place, next, back, from, before, last, to))
}

/// A tree.
fn tree(
    env: &Env<'_>,
    levels: &Levels,
    place: Place,
    x: &SurfaceOperand,
    found: &mut Vec<Fault>,
) -> Result<Conjunct<Expr>, AllocError>
    ensures same { IfOk result (λ c. core.conjunct_of c
        ≡ tree place (link_of (env_of env.now) Left) (link_of (env_of env.now) Right)
        (operand_of (env_of env.now) levels.now x.now)) }
    ensures faults { Appends result found.old.items found.new.items
        (tree_faults (env_of env.now) place
        ++ operand_faults (env_of env.now) x.now) }
{
    let (left, right) = both_links(env, place, found)?;
    let root = operand(env, levels, x, found)?;
    Ok(Conjunct::Tree(place, left, right, root))
}

/// A conjunct of a level that was entered.
#[cycle(levels)]
fn conjunct(
    alloc: Global,
    env: &Env<'_>,
    levels: &mut Levels,
    c: &Flat,
    found: &mut Vec<Fault>,
) -> Result<Conjunct<Expr>, AllocError>
    ensures same { IfOk result
        (λ x. core.conjunct_of x ≡ conjunct_of (env_of env.now) levels.old (flat_of c.now)) }
    ensures levels { OnOk result (levels.new
        ≡ taking levels.old (names_after env.now.bytes.now levels.old (flat_of c.now))) }
    ensures faults { Appends result found.old.items found.new.items
        (conjunct_faults (env_of env.now) (flat_of c.now)) }
{
    match c {
        Flat::Test(p, sides) => {
            let test = test(env, levels, sides, found)?;
            Ok(Conjunct::Holds(*p, test))
        }
        Flat::Points(p, x, fields) => points(alloc, env, levels, *p, x, fields, found),
        Flat::Segment(p, x, y) => between(env, levels, *p, x, y, found),
        Flat::Doubly(p, x, b, l, y) => doubly(env, levels, *p, x, b, l, y, found),
        Flat::Tree(p, x) => tree(env, levels, *p, x, found),
        Flat::If(p, condition, this, that) => {
            let test = test(env, levels, condition, found)?;
            let this = level(alloc, env, levels, this, found)?;
            let that = level(alloc, env, levels, that, found)?;
            Ok(Conjunct::If(*p, test, this, that))
        }
    }
}

/// The conjuncts of a level that was entered.
#[cycle(levels)]
fn conjuncts(
    alloc: Global,
    env: &Env<'_>,
    levels: &mut Levels,
    all: &[Flat],
    found: &mut Vec<Fault>,
) -> Result<Vec<Conjunct<Expr>>, AllocError>
    ensures same { IfOk result (λ v. map core.conjunct_of v.items
        ≡ conjuncts_of (env_of env.now) levels.old (flats (map flat_of all.now))) }
    ensures levels { OnOk result (levels.new ≡ taking levels.old
        (names_after_all env.now.bytes.now levels.old (flats (map flat_of all.now)))) }
    ensures faults { Appends result found.old.items found.new.items
        (level_faults (env_of env.now) (flats (map flat_of all.now))) }
{
    let mut done = Vec::new(alloc);
    for c in all {
        let one = conjunct(alloc, env, levels, c, found)?;
        done.push(one)?;
    }
    Ok(done)
}

/// A level, with the existentials that it makes.
#[cycle(levels)]
fn level(
    alloc: Global,
    env: &Env<'_>,
    levels: &mut Levels,
    all: &[Flat],
    found: &mut Vec<Fault>,
) -> Result<Level<Expr>, AllocError>
    ensures same { IfOk result (λ x. core.level_of x
        ≡ level_of (env_of env.now) levels.old (flats (map flat_of all.now))) }
    ensures levels { OnOk result (levels.new ≡ taking levels.old
        (names_after_level env.now.bytes.now levels.old (flats (map flat_of all.now)))) }
    ensures faults { Appends result found.old.items found.new.items
        (level_faults (env_of env.now) (flats (map flat_of all.now))) }
{
    let outside = levels.reach.len();
    let first = levels.names.len();
    levels.enter(alloc, env.bytes, all)?;
    let made = scope(first, levels.names.len());
    let conjuncts = conjuncts(alloc, env, levels, all, found)?;
    levels.reach.truncate(outside);
    Ok(Level { made, conjuncts })
}

/// A whole assertion, with all existentials that its levels make.
fn whole(
    alloc: Global,
    env: &Env<'_>,
    assertion: &SurfaceAssertion,
    found: &mut Vec<Fault>,
) -> Result<Assertion, AllocError>
    ensures same { IfOk result (λ x. core.assertion_of x
        ≡ annotation_of (env_of env.now) (filled (assertion_of assertion.now))) }
    ensures faults { Appends result found.old.items found.new.items
        (annotation_faults (env_of env.now) (filled (assertion_of assertion.now))) }
{
    let all = flat_level(alloc, assertion)?;
    let mut levels = Levels::new(alloc);
    let level = level(alloc, env, &mut levels, &all, found)?;
    Ok(Assertion {
        names: levels.names.into_vec(),
        level,
    })
}

/// What occurs in square brackets, as a whole assertion.
pub fn annotation(
    alloc: Global,
    env: &Env<'_>,
    annotation: &SurfaceNote,
    found: &mut Vec<Fault>,
) -> Result<Assertion, AllocError>
    ensures same { IfOk result (λ x. core.assertion_of x
        ≡ annotation_of (env_of env.now) (surface_annotation annotation.now)) }
    ensures faults { Appends result found.old.items found.new.items
        (annotation_faults (env_of env.now) (surface_annotation annotation.now)) }
{
    match &annotation.assertion {
        None => Ok(empty(alloc)),
        Some(assertion) => whole(alloc, env, assertion, found),
    }
}

/// The assertion that says nothing.
fn empty(alloc: Global) -> Assertion
    ensures { core.assertion_of result
        ≡ record { names = []; level = level (record { first = 0; count = 0 }) none } }
{
    Assertion {
        names: Vec::new(alloc),
        level: Level {
            made: Scope { first: 0, count: 0 },
            conjuncts: Vec::new(alloc),
        },
    }
}

/// A note that may be left out.
pub fn maybe(
    alloc: Global,
    env: &Env<'_>,
    maybe: &Option<SurfaceNote>,
    found: &mut Vec<Fault>,
) -> Result<Assertion, AllocError>
    ensures same { IfOk result (λ x. core.assertion_of x
        ≡ maybe_of (env_of env.now) (option_map surface_annotation maybe.now)) }
    ensures faults { Appends result found.old.items found.new.items
        (maybe_faults (env_of env.now) (option_map surface_annotation maybe.now)) }
{
    match maybe {
        None => Ok(empty(alloc)),
        Some(one) => annotation(alloc, env, one, found),
    }
}
