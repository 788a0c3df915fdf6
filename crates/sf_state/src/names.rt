//! The names in a state's text.

ghost use Rattle.std.specs.Prelude.{◌≡◌, ◌≤◌, ◌++◌, ◌∷◌, [], length, IfOk, IfSome, ◌<◌};
ghost use Rattle.std.specs.List.{position_or_len, flat_map};
ghost use Rattle.std.specs.Str.{bytes_eq};
ghost use Rattle.sf_base.specs.Results.{Appends};
ghost use Rattle.sf_core.specs.Program.ProgramView.{program_of};
ghost use Rattle.sf_core.specs.Program.View.{procedure_of, resource_of};
ghost use Rattle.sf_state.specs.Refused.{name_at};
ghost use Rattle.sf_state.specs.Names.{field_named, is_target, names_of, names_of_resource, parameters, place_of, qualified};

use sf_base::{FieldId, Name};
use sf_core::{Proc, Program, Resource};
use sf_lex::is_name;
use sf_lines::split_once;
use std::alloc::{AllocError, Global};

/// How many names come before the first that is this one, which are all where there is none.
fn names_before(names: &[Name], name: &[u8]) -> usize
    ensures before { result ≡ position_or_len (λ n. bytes_eq n name.now) names.now }
    ensures within { result ≤ length names.now }
{
    names.iter().take_while(|n| n.as_bytes() != name).count()
}

/// The number of the first of these that is the name.
pub(crate) fn place_of(names: &[Name], name: &[u8]) -> Option<usize>
    ensures place { result ≡ place_of names.now name.now }
    ensures within { IfSome result (λ k. k < length names.now) }
{
    let before = names_before(names, name);
    if before < names.len() {
        Some(before)
    } else {
        None
    }
}

/// The field of that name.
pub(crate) fn field_named(p: &Program, name: &[u8]) -> Option<FieldId>
    ensures { result ≡ field_named (program_of p.now).fields name.now }
{
    Some(FieldId(place_of(&p.fields, name)? as u32))
}

/// Whether the text has the form of a variable's name.
pub(crate) fn is_target(text: &[u8]) -> bool
    ensures { result ≡ is_target text.now }
{
    if is_name(text) {
        return true;
    }
    match split_once(b'.', text) {
        Some((resource, name)) => is_name(resource) && is_name(name),
        None => false,
    }
}

/// The names of the entry's references and values.
pub(crate) fn parameters(g: &Proc) -> &[Name]
    ensures { result.now ≡ parameters (procedure_of g.now) }
{
    let count = g.references as usize + g.values as usize;
    if count < g.names.len() {
        &g.names[..count]
    } else {
        &g.names
    }
}

/// Appends copies of these names. An `Err` means out of memory.
fn add_copies(alloc: Global, to: &mut Vec<Name>, names: &[Name]) -> Result<(), AllocError>
    ensures { Appends result to.old.items to.new.items names.now }
{
    for name in names {
        to.push(Name::new(alloc, name.as_bytes())?)?;
    }
    Ok(())
}

/// The name of a resource's variable.
fn qualified(alloc: Global, resource: &[u8], name: &[u8]) -> Result<Name, AllocError>
    ensures { IfOk result (λ n. n ≡ qualified resource.now name.now) }
{
    let mut bytes = Vec::from_slice(alloc, resource)?;
    bytes.push(b'.')?;
    bytes.extend_from_slice(name)?;
    Name::new(alloc, &bytes)
}

/// Appends the names of a resource's variables. An `Err` means out of memory.
fn add_variables(alloc: Global, to: &mut Vec<Name>, r: &Resource) -> Result<(), AllocError>
    ensures { Appends result to.old.items to.new.items (names_of_resource (resource_of r.now)) }
{
    for name in &r.variables {
        to.push(qualified(alloc, r.name.as_bytes(), name.as_bytes())?)?;
    }
    Ok(())
}

/// The names of all variables of which a state has a value, in canonical order.
pub(crate) fn names_of(alloc: Global, p: &Program, g: &Proc) -> Result<Vec<Name>, AllocError>
    ensures { IfOk result
        (λ names. names.items ≡ names_of (program_of p.now) (procedure_of g.now)) }
{
    let mut names = Vec::new(alloc);
    add_copies(alloc, &mut names, parameters(g))?;
    for resource in &p.resources {
        add_variables(alloc, &mut names, resource)?;
    }
    Ok(names)
}

/// The name of that number, empty where there is none.
pub(crate) fn name_at(names: &[Name], number: usize) -> &[u8]
    ensures { result.now ≡ name_at names.now number }
{
    match names.get(number) {
        Some(name) => name.as_bytes(),
        None => &[],
    }
}
