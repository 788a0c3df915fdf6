//! A whole file.

ghost use Rattle.std.specs.Prelude.{◌≡◌, ◌⊎◌, ◌++◌, map, IfErr, IfOk};
ghost use Rattle.sf_base.specs.Results.{Appends, Decides};
ghost use Rattle.sf_ast.specs.View.{item_of};
ghost use Rattle.sf_core.specs.Program.Formed.{IsFormed};
ghost use Rattle.sf_core.specs.Program.View.{program_with};
ghost use Rattle.sf_core.specs.Program.ProgramView.{program_of};
ghost use Rattle.sf_elab.specs.Bodies.Commands.{all_faults};
ghost use Rattle.sf_elab.specs.Names.Declarations.{declared_by, procedures_in, resources_in};
ghost use Rattle.sf_elab.specs.Files.Elaborated.{Elaborates, FirstFault, elaborated, faults, invariants_faults};
ghost use Rattle.sf_elab.specs.Bodies.Procedures.{procedure_faults};

use crate::declarations::{declared, field_names_of};
use crate::declared::Declared;
use crate::fault::{Fault, NameFault};
use crate::first_fault::{first_of, named_fault};
use crate::procedures::{procedures, resources};
use sf_ast::{File, Item};
use sf_base::Name;
use sf_core::{Links, Proc, Program, Resource};
use std::alloc::{AllocError, Global};

/// What a file's tree has, whatever is wrong in it.
#[derive(Drop)]
struct Gathered {
    fields: Vec<Name>,
    resources: Vec<Resource>,
    procedures: Vec<Proc>,
}

/// What those items have, their names standing for what they declare.
fn gather(
    alloc: Global,
    bytes: &[u8],
    names: &Declared,
    items: &[Item],
    found: &mut Vec<Fault>,
) -> Result<Gathered, AllocError>
    requires { names.now ≡ declared_by bytes.now (map item_of items.now) }
    ensures program { IfOk result
        (λ x. program_with x.fields.items x.resources.items x.procedures.items
        ≡ elaborated bytes.now (map item_of items.now)) }
    ensures faults { Appends result found.old.items found.new.items
        (invariants_faults bytes.now names.now 0 (resources_in (map item_of items.now))
        ++ all_faults (procedure_faults bytes.now names.now)
        (procedures_in (map item_of items.now))) }
{
    let fields = field_names_of(alloc, bytes, items)?;
    let resources = resources(alloc, bytes, names, items, found)?;
    let procedures = procedures(alloc, bytes, names, items, found)?;
    Ok(Gathered {
        fields,
        resources,
        procedures,
    })
}

/// What those items have, and all that is wrong.
fn parts(
    alloc: Global,
    bytes: &[u8],
    items: &[Item],
    found: &mut Vec<Fault>,
) -> Result<Gathered, AllocError>
    ensures program { IfOk result
        (λ x. program_with x.fields.items x.resources.items x.procedures.items
        ≡ elaborated bytes.now (map item_of items.now)) }
    ensures faults { Appends result found.old.items found.new.items
        (faults bytes.now (map item_of items.now)) }
{
    let names = declared(alloc, bytes, items, found)?;
    gather(alloc, bytes, &names, items, found)
}

/// The program of those parts, which are in order.
fn program(parts: Gathered) -> Program
    requires { IsFormed
        (program_with parts.fields.items parts.resources.items parts.procedures.items) }
    ensures { program_of result
        ≡ program_with parts.fields.items parts.resources.items parts.procedures.items }
{
    let links = Links::among(&parts.fields);
    let init = Proc::init_among(&parts.procedures);
    Program {
        fields: parts.fields,
        resources: parts.resources,
        procedures: parts.procedures,
        links,
        init,
    }
}

/// The program of a file's tree, or its first fault.
fn resolve(alloc: Global, bytes: &[u8], file: File) -> Result<Program, NameFault>
    ensures found { IfOk result
        (λ p. Elaborates bytes.now (map item_of file.items.items) (program_of p)) }
    ensures refused { IfErr result (λ fault. (fault ≡ NameFault.OutOfMemory)
        ⊎ FirstFault bytes.now (map item_of file.items.items) fault) }
{
    let mut found = Vec::new(alloc);
    let parts = parts(alloc, bytes, &file.items, &mut found)?;
    match first_of(&found) {
        Some(fault) => Err(named_fault(alloc, bytes, fault)?),
        None => Ok(program(parts)),
    }
}

/// The program that a file's tree is, over the file's bytes: exactly where no name is at fault.
///
/// A fault is the first one by place, and at one place the one of the lowest kind. `OutOfMemory`
/// comes where a growth was refused: by the allocator, or because things of one kind have numbers
/// of 32 bits.
pub fn elaborate(alloc: Global, bytes: &[u8], file: File) -> Result<Program, NameFault>
    ensures { Decides result program_of (Elaborates bytes.now (map item_of file.items.items))
        (FirstFault bytes.now (map item_of file.items.items)) NameFault.OutOfMemory }
{
    resolve(alloc, bytes, file)
}
