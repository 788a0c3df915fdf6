//! The resources of a program, and their variables, in order of number.

ghost use Rattle.std.specs.Prelude.{◌≡◌, ◌↔◌, ◌<◌, ◌^◌, ℕ, length, AllPairs, Contains, IfOk, OnOk, slice_get};
ghost use Rattle.sf_base.specs.declared.ids.ResId.{ResId};
ghost use Rattle.sf_base.specs.declared.ids.Var.{Var};
ghost use Rattle.sf_core.specs.Program.Formed.{variable_count};
ghost use Rattle.sf_core.specs.Program.ProgramView.{program_of};
ghost use Rattle.sf_calls.specs.Checked.Gathers.{IsUpTo};
ghost use Rattle.sf_calls.specs.Sets.{IsEarlier, IsEarlierResource, IsSetOf};

use sf_base::{ResId, Var};
use sf_core::Program;
use std::alloc::{AllocError, Global};

/// The resources. An `Err` means that memory ran out.
pub fn resources_of(alloc: Global, p: &Program) -> Result<Vec<ResId>, AllocError>
    ensures { IfOk result (λ rs.
        IsSetOf IsEarlierResource (λ r. r.0 < length p.now.resources.items) rs.items) }
{
    let mut found = Vec::with_capacity(alloc, p.resources.len())?;
    for i in 0..p.resources.len() {
        found.push(ResId(i as u32))?;
    }
    Ok(found)
}

/// The variables of the resources. An `Err` means that memory ran out.
pub fn variables_of(alloc: Global, p: &Program) -> Result<Vec<Var>, AllocError>
    ensures { IfOk result (λ xs.
        IsSetOf IsEarlier
        (IsUpTo (λ k. variable_count (slice_get (program_of p.now).resources k))
        (length p.now.resources.items) 0) xs.items) }
{
    let mut found = Vec::new(alloc);
    for (i, resource) in p.resources.iter().enumerate() {
        add_variables(ResId(i as u32), resource.variables.len(), &mut found)?;
    }
    Ok(found)
}

/// Appends the first so many variables of the resource.
fn add_variables(r: ResId, count: usize, found: &mut Vec<Var>) -> Result<(), AllocError>
    requires { count < 2 ^ 32 }
    ensures { OnOk result ((counts : ℕ → ℕ) → IsSetOf IsEarlier
        (IsUpTo counts r.0 0) found.old.items
        → IsSetOf IsEarlier (IsUpTo counts r.0 count) found.new.items) }
{
    for i in 0..count {
        found.push(Var::Shared(r, i as u32))?;
    }
    Ok(())
}
