//! How variables and fields are named.

ghost use Rattle.std.specs.Prelude.{◌≡◌, [], get_or, slice_get};
ghost use Rattle.sf_base.specs.Results.{Appends};
ghost use Rattle.sf_core.specs.Program.ProgramView.{program_of};
ghost use Rattle.sf_report.specs.Names.{field_text, own_names, shared_text, variable_text};

use sf_base::{FieldId, Name, ProcId, ResId, Var};
use sf_core::Program;
use sf_proof::put;
use std::alloc::AllocError;

/// Appends bytes. An `Err` means out of memory.
pub fn put_bytes(text: &mut Vec<u8>, bytes: &[u8]) -> Result<(), AllocError>
    ensures { Appends result text.old.items text.new.items bytes.now }
{
    text.extend_from_slice(bytes)?;
    Ok(())
}

/// The name of that number, empty where there is none.
pub fn name_at(names: &[Name], n: u32) -> &[u8]
    ensures { result.now ≡ get_or names.now n [] }
{
    match names.get(n as usize) {
        Some(name) => name.as_bytes(),
        None => &[],
    }
}

/// The names of the procedure's own variables, none where there is no such procedure.
fn own_names(p: &Program, f: ProcId) -> &[Name]
    ensures { result.now ≡ own_names (program_of p.now) f }
{
    match p.procedures.get(f.0 as usize) {
        Some(procedure) => procedure.names.as_slice(),
        None => &[],
    }
}

/// Appends a variable of a resource. An `Err` means out of memory.
fn put_shared(text: &mut Vec<u8>, p: &Program, r: ResId, n: u32) -> Result<(), AllocError>
    ensures { Appends result text.old.items text.new.items
        (shared_text (slice_get (program_of p.now).resources r.0) n) }
{
    let Some(resource) = p.resources.get(r.0 as usize) else {
        return Ok(());
    };
    put_bytes(text, resource.name.as_bytes())?;
    put(text, ".")?;
    put_bytes(text, name_at(&resource.variables, n))
}

/// Appends a variable, as the procedure names it. An `Err` means out of memory.
pub fn put_variable(text: &mut Vec<u8>, p: &Program, f: ProcId, x: Var) -> Result<(), AllocError>
    ensures { Appends result text.old.items text.new.items (variable_text (program_of p.now) f x) }
{
    match x {
        Var::Own(n) => put_bytes(text, name_at(own_names(p, f), n)),
        Var::Shared(r, n) => put_shared(text, p, r, n),
    }
}

/// Appends a field. An `Err` means out of memory.
pub fn put_field(text: &mut Vec<u8>, p: &Program, f: FieldId) -> Result<(), AllocError>
    ensures { Appends result text.old.items text.new.items (field_text (program_of p.now) f) }
{
    put_bytes(text, name_at(&p.fields, f.0))
}
