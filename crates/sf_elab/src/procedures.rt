//! The procedures and resources of a file, numbered.

ghost use Rattle.std.specs.Prelude.{◌≡◌, ◌∷◌, ◌++◌, ◌+◌, [], ℕ, List, length, map, filter, IfOk, OnOk};
ghost use Rattle.sf_base.specs.Results.{Appends};
ghost use Rattle.sf_ast.specs.View.{command_of as surface_command, commands as surface_commands, item_of, names_of, procedure_of as surface_procedure, resource_of as surface_resource};
ghost use Rattle.sf_base.specs.declared.ids.Var.TheVariants.{Own};
ghost use Rattle.sf_base.specs.declared.limits.TheConstants.{OWN_VARIABLES};
ghost use Rattle.sf_core.specs.Program.View as core;
ghost use Rattle.sf_elab.specs.Bodies.Commands.{all_faults, commands_faults, commands_of, set_in_all};
ghost use Rattle.sf_elab.specs.Annotations.Assertions.{maybe_faults, maybe_of, annotation_faults};
ghost use Rattle.sf_elab.specs.Names.Declarations.{procedures_in, resources_in, numbered, numbered_faults, references_of, shared_by, values_of};
ghost use Rattle.sf_elab.specs.Files.Elaborated.{invariants_faults, resources_from};
ghost use Rattle.sf_elab.specs.Bodies.Procedures.{local_words, is_among, is_primed, parameters_of, declared_count, body_values, body_variables, own_names, first_assignments, outside_of, inside_of, procedure_of, parameter_faults, init_faults, local_faults, procedure_faults, invariant_of, resource_of};
ghost use Rattle.sf_elab.specs.Names.Table.{has};
ghost use Rattle.sf_elab.specs.Names.Texts.{text as word_text};

use crate::assertions::{annotation, maybe};
use crate::commands::{add_commands, add_set_in_all};
use crate::declarations::{
    add_names, add_texts, declare, declare_own, declare_shared, names, references_of, values_of,
};
use crate::declared::Declared;
use crate::env::Env;
use crate::fault::Fault;
use crate::shape::add_shape;
use crate::table::Table;
use crate::texts::{name, text};
use sf_ast::{Item, SurfaceCommand, SurfaceNames, SurfaceProcedure, SurfaceResource, Word};
use sf_base::{Counted, Name, Place, Var};
use sf_core::{Assertion, Command, Expr, Occurrence, Proc, Resource};
use std::alloc::{AllocError, Global};

/// The words of several `local`s.
fn local_words(alloc: Global, locals: &[SurfaceNames]) -> Result<Vec<Word>, AllocError>
    ensures { IfOk result (λ v. v.items ≡ local_words (map names_of locals.now)) }
{
    let mut words = Vec::new(alloc);
    for names in locals {
        add_names(names, &mut words)?;
    }
    Ok(words)
}

/// The names that the body sets or passes as references.
fn set_names(alloc: Global, bytes: &[u8], body: &[SurfaceCommand]) -> Result<Table<()>, AllocError>
    ensures { IfOk result (λ t. (name : List ℕ)
        → has name t
        ≡ is_among bytes.now
        (set_in_all (surface_commands (map surface_command body.now))) name) }
{
    let mut words = Vec::new(alloc);
    add_set_in_all(body, &mut words)?;
    names_among(alloc, bytes, &words)
}

/// The texts of those words.
fn names_among(alloc: Global, bytes: &[u8], words: &[Word]) -> Result<Table<()>, AllocError>
    ensures { IfOk result (λ t. (name : List ℕ) → has name t ≡ is_among bytes.now words.now name) }
{
    let mut found = Table::new(alloc);
    for word in words {
        declare(alloc, bytes, *word, (), &mut found)?;
    }
    Ok(found)
}

/// Whether the word's text is one of those names.
fn is_primed(bytes: &[u8], set: &Table<()>, word: Word) -> bool
    ensures { result ≡ has (word_text bytes.now word) set.now }
{
    set.find(text(bytes, word)).is_some()
}

/// A name with a prime.
fn primed_name(alloc: Global, name: &[u8]) -> Result<Name, AllocError>
    ensures { IfOk result (λ n. n ≡ name.now ++ 39 ∷ []) }
{
    let mut bytes = Vec::from_slice(alloc, name)?;
    bytes.push(b'\'')?;
    Name::new(alloc, &bytes)
}

/// An own variable at that place.
fn own_at(place: Place, number: u32) -> Occurrence
    ensures { result ≡ record { var = Own number; place = place } }
{
    Occurrence {
        var: Var::Own(number),
        place,
    }
}

/// What a body sees and begins with, as far as its variables are declared.
#[derive(Drop)]
struct Prologue {
    /// Those that are declared.
    declared: Counted<Word>,
    /// What they stand for.
    own: Table<Var>,
    /// The names of all own variables by number, the last being those of primed locals.
    names: Counted<Name>,
    /// The assignments with which the body begins.
    first: Vec<Command>,
}

/// Declares a value as the body sees it: it stands for itself, or where its name is set for a
/// primed local, which has the next number after all names and the value's own value at first.
fn declare_value(
    alloc: Global,
    bytes: &[u8],
    set: &Table<()>,
    at: Place,
    word: Word,
    body: &mut Prologue,
) -> Result<(), AllocError>
    ensures declared { Appends result body.old.declared body.new.declared (word ∷ []) }
    ensures own { OnOk result (body.new.own
        ≡ body_values bytes.now (λ w. has (word_text bytes.now w) set.now)
        (length body.old.declared) (length body.old.names) (word ∷ []) body.old.own) }
    ensures names { Appends result body.old.names body.new.names
        (map (λ w. word_text bytes.now w ++ 39 ∷ [])
        (filter (λ w. has (word_text bytes.now w) set.now) (word ∷ []))) }
    ensures first { Appends result (map core.command_of body.old.first.items)
        (map core.command_of body.new.first.items)
        (first_assignments (λ w. has (word_text bytes.now w) set.now) at
        (length body.old.declared) (length body.old.names) (word ∷ [])) }
{
    let number = body.declared.len();
    body.declared.push(word)?;
    if is_primed(bytes, set, word) {
        let primed = body.names.len();
        let value = own_at(at, number);
        body.names.push(primed_name(alloc, text(bytes, word))?)?;
        body.first
            .push(Command::Assign(at, own_at(at, primed), Expr::Var(value)))?;
        declare(alloc, bytes, word, Var::Own(primed), &mut body.own)
    } else {
        declare(alloc, bytes, word, Var::Own(number), &mut body.own)
    }
}

/// Declares values as the body sees them, one after the other.
fn declare_values(
    alloc: Global,
    bytes: &[u8],
    set: &Table<()>,
    at: Place,
    words: &[Word],
    body: &mut Prologue,
) -> Result<(), AllocError>
    ensures declared { Appends result body.old.declared body.new.declared words.now }
    ensures own { OnOk result (body.new.own
        ≡ body_values bytes.now (λ w. has (word_text bytes.now w) set.now)
        (length body.old.declared) (length body.old.names) words.now body.old.own) }
    ensures names { Appends result body.old.names body.new.names
        (map (λ w. word_text bytes.now w ++ 39 ∷ [])
        (filter (λ w. has (word_text bytes.now w) set.now) words.now)) }
    ensures first { Appends result (map core.command_of body.old.first.items)
        (map core.command_of body.new.first.items)
        (first_assignments (λ w. has (word_text bytes.now w) set.now) at
        (length body.old.declared) (length body.old.names) words.now) }
{
    for word in words {
        declare_value(alloc, bytes, set, at, *word, body)?;
    }
    Ok(())
}

/// The parameters of a procedure.
#[derive(Drop)]
struct Signature {
    /// Their words by number.
    words: Counted<Word>,
    /// How many of them are references.
    references: u32,
    /// What they stand for in pre and post.
    own: Table<Var>,
}

/// The parameters, as pre and post see them.
fn parameters(
    alloc: Global,
    bytes: &[u8],
    f: &SurfaceProcedure,
    found: &mut Vec<Fault>,
) -> Result<Signature, AllocError>
    ensures words { IfOk result (λ x. x.words ≡ references_of (surface_procedure f.now).parameters
        ++ values_of (surface_procedure f.now).parameters) }
    ensures references { IfOk result (λ x. x.references
        ≡ length (references_of (surface_procedure f.now).parameters)) }
    ensures own { IfOk result (λ x. x.own ≡ parameters_of bytes.now (surface_procedure f.now)) }
    ensures faults { Appends result found.old.items found.new.items
        (parameter_faults bytes.now (surface_procedure f.now)) }
{
    let mut words = Counted::new(alloc);
    let mut own = Table::new(alloc);
    let references = references_of(&f.parameters);
    declare_own(alloc, bytes, references, &mut words, &mut own, found)?;
    let references = words.len();
    let values = values_of(&f.parameters);
    declare_own(alloc, bytes, values, &mut words, &mut own, found)?;
    Ok(Signature {
        words,
        references,
        own,
    })
}

/// The names of parameters and declared locals.
fn declared_names(
    alloc: Global,
    bytes: &[u8],
    f: &SurfaceProcedure,
    locals: &[Word],
) -> Result<Counted<Name>, AllocError>
    requires { locals.now ≡ local_words (surface_procedure f.now).locals }
    ensures same { IfOk result (λ v. v
        ≡ map (word_text bytes.now) (references_of (surface_procedure f.now).parameters)
        ++ map (word_text bytes.now) (values_of (surface_procedure f.now).parameters)
        ++ map (word_text bytes.now) (local_words (surface_procedure f.now).locals)) }
    ensures count { IfOk result (λ v. length v ≡ declared_count (surface_procedure f.now)) }
{
    let mut done = Counted::new(alloc);
    add_texts(alloc, bytes, references_of(&f.parameters), &mut done)?;
    add_texts(alloc, bytes, values_of(&f.parameters), &mut done)?;
    add_texts(alloc, bytes, locals, &mut done)?;
    Ok(done)
}

/// Declares own variables that the body sees as they are. What is wrong with them was noted before.
fn declare_unprimed(
    alloc: Global,
    bytes: &[u8],
    words: &[Word],
    body: &mut Prologue,
) -> Result<(), AllocError>
    ensures declared { Appends result body.old.declared body.new.declared words.now }
    ensures own { OnOk result (body.new.own
        ≡ numbered bytes.now Own (length body.old.declared) words.now body.old.own) }
    ensures names { body.new.names ≡ body.old.names }
    ensures first { body.new.first ≡ body.old.first }
{
    let mut reported = Vec::new(alloc);
    declare_own(
        alloc,
        bytes,
        words,
        &mut body.declared,
        &mut body.own,
        &mut reported,
    )
}

/// What a procedure's body sees and begins with, where it sets those names.
fn beginning(
    alloc: Global,
    bytes: &[u8],
    set: &Table<()>,
    f: &SurfaceProcedure,
    locals: &[Word],
) -> Result<Prologue, AllocError>
    requires locals { locals.now ≡ local_words (surface_procedure f.now).locals }
    requires set { (name : List ℕ)
        → has name set.now ≡ is_among bytes.now (set_in_all (surface_procedure f.now).body) name }
    ensures own { IfOk result (λ x. x.own ≡ body_variables bytes.now (surface_procedure f.now)) }
    ensures names { IfOk result (λ x. x.names ≡ own_names bytes.now (surface_procedure f.now)) }
    ensures first { IfOk result (λ x. map core.command_of x.first.items
        ≡ first_assignments (is_primed bytes.now (surface_procedure f.now)) f.now.open
        (length (references_of (surface_procedure f.now).parameters))
        (declared_count (surface_procedure f.now))
        (values_of (surface_procedure f.now).parameters)) }
{
    let names = declared_names(alloc, bytes, f, locals)?;
    let mut body = Prologue {
        declared: Counted::new(alloc),
        own: Table::new(alloc),
        names,
        first: Vec::new(alloc),
    };
    declare_unprimed(alloc, bytes, references_of(&f.parameters), &mut body)?;
    let values = values_of(&f.parameters);
    declare_values(alloc, bytes, set, f.open, values, &mut body)?;
    declare_unprimed(alloc, bytes, locals, &mut body)?;
    Ok(body)
}

/// What a procedure's body sees and begins with.
fn opening(
    alloc: Global,
    bytes: &[u8],
    f: &SurfaceProcedure,
    locals: &[Word],
) -> Result<Prologue, AllocError>
    requires { locals.now ≡ local_words (surface_procedure f.now).locals }
    ensures own { IfOk result (λ x. x.own ≡ body_variables bytes.now (surface_procedure f.now)) }
    ensures names { IfOk result (λ x. x.names ≡ own_names bytes.now (surface_procedure f.now)) }
    ensures first { IfOk result (λ x. map core.command_of x.first.items
        ≡ first_assignments (is_primed bytes.now (surface_procedure f.now)) f.now.open
        (length (references_of (surface_procedure f.now).parameters))
        (declared_count (surface_procedure f.now))
        (values_of (surface_procedure f.now).parameters)) }
{
    let set = set_names(alloc, bytes, &f.body)?;
    beginning(alloc, bytes, &set, f, locals)
}

/// Appends the commands of a procedure's body to those with which it begins.
fn add_body(
    alloc: Global,
    bytes: &[u8],
    declared: &Declared,
    f: &SurfaceProcedure,
    body: &mut Prologue,
    found: &mut Vec<Fault>,
) -> Result<(), AllocError>
    requires { body.old.own ≡ body_variables bytes.now (surface_procedure f.now) }
    ensures commands { Appends result (map core.command_of body.old.first.items)
        (map core.command_of body.new.first.items)
        (commands_of (inside_of bytes.now declared.now (surface_procedure f.now))
        (surface_procedure f.now).body) }
    ensures names { body.new.names ≡ body.old.names }
    ensures faults { Appends result found.old.items found.new.items
        (commands_faults (inside_of bytes.now declared.now (surface_procedure f.now))
        (surface_procedure f.now).body) }
{
    let env = Env {
        bytes,
        declared,
        own: &body.own,
        in_invariant: false,
    };
    add_commands(alloc, &env, &f.body, &mut body.first, found)
}

/// A procedure's pre and post, which see its parameters, with what is wrong where it is named
/// `init`.
fn contract(
    alloc: Global,
    bytes: &[u8],
    declared: &Declared,
    own: &Table<Var>,
    f: &SurfaceProcedure,
    found: &mut Vec<Fault>,
) -> Result<(Assertion, Assertion), AllocError>
    requires { own.now ≡ parameters_of bytes.now (surface_procedure f.now) }
    ensures pre { IfOk result (λ x. core.assertion_of x.0
        ≡ maybe_of (outside_of bytes.now declared.now (surface_procedure f.now))
        (surface_procedure f.now).pre) }
    ensures post { IfOk result (λ x. core.assertion_of x.1
        ≡ maybe_of (outside_of bytes.now declared.now (surface_procedure f.now))
        (surface_procedure f.now).post) }
    ensures faults { Appends result found.old.items found.new.items
        (maybe_faults (outside_of bytes.now declared.now (surface_procedure f.now))
        (surface_procedure f.now).pre
        ++ maybe_faults (outside_of bytes.now declared.now (surface_procedure f.now))
        (surface_procedure f.now).post
        ++ init_faults bytes.now declared.now (surface_procedure f.now)) }
{
    let (pre, post) = annotations(alloc, bytes, declared, own, f, found)?;
    add_shape(bytes, f, &pre.level, &post.level, found)?;
    Ok((pre, post))
}

/// A procedure's pre and post, which see its parameters.
fn annotations(
    alloc: Global,
    bytes: &[u8],
    declared: &Declared,
    own: &Table<Var>,
    f: &SurfaceProcedure,
    found: &mut Vec<Fault>,
) -> Result<(Assertion, Assertion), AllocError>
    requires { own.now ≡ parameters_of bytes.now (surface_procedure f.now) }
    ensures pre { IfOk result (λ x. core.assertion_of x.0
        ≡ maybe_of (outside_of bytes.now declared.now (surface_procedure f.now))
        (surface_procedure f.now).pre) }
    ensures post { IfOk result (λ x. core.assertion_of x.1
        ≡ maybe_of (outside_of bytes.now declared.now (surface_procedure f.now))
        (surface_procedure f.now).post) }
    ensures faults { Appends result found.old.items found.new.items
        (maybe_faults (outside_of bytes.now declared.now (surface_procedure f.now))
        (surface_procedure f.now).pre
        ++ maybe_faults (outside_of bytes.now declared.now (surface_procedure f.now))
        (surface_procedure f.now).post) }
{
    let env = Env {
        bytes,
        declared,
        own,
        in_invariant: false,
    };
    let pre = maybe(alloc, &env, &f.pre, found)?;
    let post = maybe(alloc, &env, &f.post, found)?;
    Ok((pre, post))
}

/// A procedure's body, and its own variables.
#[derive(Drop)]
struct Body {
    /// How many locals are declared.
    locals: u32,
    /// The names of all own variables by number.
    names: Vec<Name>,
    /// The commands.
    body: Vec<Command>,
}

/// Declares locals after the parameters, and says how many they are.
fn declare_locals(
    alloc: Global,
    bytes: &[u8],
    locals: &[Word],
    mut parameters: Signature,
    found: &mut Vec<Fault>,
) -> Result<u32, AllocError>
    ensures count { IfOk result (λ n. n ≡ length locals.now) }
    ensures faults { Appends result found.old.items found.new.items
        (numbered_faults bytes.now OWN_VARIABLES Own (length parameters.words) locals.now
        parameters.own) }
{
    let count = parameters.words.len();
    let own = &mut parameters.own;
    declare_own(alloc, bytes, locals, &mut parameters.words, own, found)?;
    Ok(parameters.words.len() - count)
}

/// A procedure's body, and the names of all its own variables.
fn inside(
    alloc: Global,
    bytes: &[u8],
    declared: &Declared,
    f: &SurfaceProcedure,
    parameters: Signature,
    found: &mut Vec<Fault>,
) -> Result<Body, AllocError>
    requires words { parameters.words ≡ references_of (surface_procedure f.now).parameters
        ++ values_of (surface_procedure f.now).parameters }
    requires own { parameters.own ≡ parameters_of bytes.now (surface_procedure f.now) }
    ensures locals { IfOk result
        (λ x. x.locals ≡ length (local_words (surface_procedure f.now).locals)) }
    ensures body { IfOk result (λ x. core.block_of x.body.items
        ≡ (procedure_of bytes.now declared.now (surface_procedure f.now)).body) }
    ensures names { IfOk result
        (λ x. x.names.items ≡ own_names bytes.now (surface_procedure f.now)) }
    ensures faults { Appends result found.old.items found.new.items
        (local_faults bytes.now (surface_procedure f.now)
        ++ commands_faults (inside_of bytes.now declared.now (surface_procedure f.now))
        (surface_procedure f.now).body) }
{
    let words = local_words(alloc, &f.locals)?;
    let locals = declare_locals(alloc, bytes, &words, parameters, found)?;
    let mut prologue = opening(alloc, bytes, f, &words)?;
    add_body(alloc, bytes, declared, f, &mut prologue, found)?;
    Ok(Body {
        locals,
        names: prologue.names.into_vec(),
        body: prologue.first,
    })
}

/// A procedure.
fn procedure(
    alloc: Global,
    bytes: &[u8],
    declared: &Declared,
    f: &SurfaceProcedure,
    found: &mut Vec<Fault>,
) -> Result<Proc, AllocError>
    ensures same { IfOk result (λ x. core.procedure_of x
        ≡ procedure_of bytes.now declared.now (surface_procedure f.now)) }
    ensures faults { Appends result found.old.items found.new.items
        (procedure_faults bytes.now declared.now (surface_procedure f.now)) }
{
    let name = name(alloc, bytes, f.name)?;
    let parameters = parameters(alloc, bytes, f, found)?;
    let references = parameters.references;
    let values = parameters.words.len() - references;
    let (pre, post) = contract(alloc, bytes, declared, &parameters.own, f, found)?;
    let inside = inside(alloc, bytes, declared, f, parameters, found)?;
    Ok(Proc {
        name,
        place: f.name.place,
        names: inside.names,
        references,
        values,
        locals: inside.locals,
        pre,
        post,
        body: inside.body,
        end: f.close,
    })
}

/// The variables of the resource of that number. What is wrong with them was noted before.
fn variables(
    alloc: Global,
    bytes: &[u8],
    number: u32,
    words: &[Word],
) -> Result<Table<Var>, AllocError>
    ensures { IfOk result (λ t. t ≡ numbered bytes.now (shared_by number) 0 words.now []) }
{
    let mut reported = Vec::new(alloc);
    let mut declared = Counted::new(alloc);
    let mut own = Table::new(alloc);
    declare_shared(
        alloc,
        bytes,
        number,
        words,
        &mut declared,
        &mut own,
        &mut reported,
    )?;
    Ok(own)
}

/// The invariant of the resource of that number, which sees the resource's own variables.
fn invariant(
    alloc: Global,
    bytes: &[u8],
    declared: &Declared,
    number: u32,
    r: &SurfaceResource,
    found: &mut Vec<Fault>,
) -> Result<Assertion, AllocError>
    ensures same { IfOk result (λ x. core.assertion_of x
        ≡ (resource_of bytes.now declared.now number (surface_resource r.now)).invariant) }
    ensures faults { Appends result found.old.items found.new.items
        (annotation_faults
        (invariant_of bytes.now declared.now number (surface_resource r.now))
        (surface_resource r.now).invariant) }
{
    let own = variables(alloc, bytes, number, &r.variables)?;
    let env = Env {
        bytes,
        declared,
        own: &own,
        in_invariant: true,
    };
    annotation(alloc, &env, &r.invariant, found)
}

/// The resource of that number.
fn resource(
    alloc: Global,
    bytes: &[u8],
    declared: &Declared,
    number: u32,
    r: &SurfaceResource,
    found: &mut Vec<Fault>,
) -> Result<Resource, AllocError>
    ensures same { IfOk result (λ x. core.resource_of x
        ≡ resource_of bytes.now declared.now number (surface_resource r.now)) }
    ensures faults { Appends result found.old.items found.new.items
        (annotation_faults
        (invariant_of bytes.now declared.now number (surface_resource r.now))
        (surface_resource r.now).invariant) }
{
    let invariant = invariant(alloc, bytes, declared, number, r, found)?;
    let name = name(alloc, bytes, r.name)?;
    let variables = names(alloc, bytes, &r.variables)?;
    Ok(Resource {
        name,
        variables,
        invariant,
    })
}

/// The resources of a file.
pub fn resources(
    alloc: Global,
    bytes: &[u8],
    declared: &Declared,
    items: &[Item],
    found: &mut Vec<Fault>,
) -> Result<Vec<Resource>, AllocError>
    ensures same { IfOk result (λ v. map core.resource_of v.items
        ≡ resources_from bytes.now declared.now 0 (resources_in (map item_of items.now))) }
    ensures faults { Appends result found.old.items found.new.items
        (invariants_faults bytes.now declared.now 0 (resources_in (map item_of items.now))) }
{
    let mut done = Counted::new(alloc);
    for item in items {
        if let Item::Resource(one) = item {
            let one = resource(alloc, bytes, declared, done.len(), one, found)?;
            done.push(one)?;
        }
    }
    Ok(done.into_vec())
}

/// The procedures of a file.
pub fn procedures(
    alloc: Global,
    bytes: &[u8],
    declared: &Declared,
    items: &[Item],
    found: &mut Vec<Fault>,
) -> Result<Vec<Proc>, AllocError>
    ensures same { IfOk result (λ v. map core.procedure_of v.items
        ≡ map (procedure_of bytes.now declared.now) (procedures_in (map item_of items.now))) }
    ensures faults { Appends result found.old.items found.new.items
        (all_faults (procedure_faults bytes.now declared.now)
        (procedures_in (map item_of items.now))) }
{
    let mut done = Vec::new(alloc);
    for item in items {
        if let Item::Procedure(one) = item {
            let one = procedure(alloc, bytes, declared, one, found)?;
            done.push(one)?;
        }
    }
    Ok(done)
}
