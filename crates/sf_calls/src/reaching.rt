//! The least sets of a whole program.

ghost use Rattle.std.specs.Prelude.{◌≡◌, ◌<◌, length, IfOk, slice_get};
ghost use Rattle.sf_core.specs.Program.Formed.{variable_count};
ghost use Rattle.sf_core.specs.Machine.HasThroughout.{HasThroughout};
ghost use Rattle.sf_core.specs.Program.ProgramView.{program_of};
ghost use Rattle.sf_calls.specs.Conditions.{Takes, Free};
ghost use Rattle.sf_calls.specs.Checked.Summaries.{AreSummaries};
ghost use Rattle.sf_calls.specs.Checked.Gathers.{IsUpTo};
ghost use Rattle.sf_calls.specs.Sets.{AreSetsOf, IsFamily, IsResSet, IsVarSet, IsSetOf, IsEarlier, IsEarlierResource};

use crate::calls::Calls;
use crate::keys::{resources_of, variables_of};
use crate::set::{ResSet, VarSet};
use crate::summary::{Summary, summaries_of};
use crate::tables::{free_rows, holds_rows, sets, takes_rows};
use sf_base::{ResId, Var};
use sf_core::Program;
use std::alloc::{AllocError, Global};

/// For each procedure what calls of it may enter, what it holds, and what is free in it. An `Err`
/// means that memory ran out, and comes for nothing else.
pub fn reach(alloc: Global, p: &Program) -> Result<Calls, AllocError>
    ensures { IfOk result (λ calls. AreSetsOf (program_of p.now) calls) }
{
    let resources = resources_of(alloc, p)?;
    let variables = variables_of(alloc, p)?;
    let summaries = summaries_of(alloc, p)?;
    let takes = takes_sets(alloc, p, &summaries, &resources)?;
    let holds = holds_sets(alloc, p, &summaries, &resources)?;
    let free = free_sets(alloc, p, &summaries, &variables)?;
    Ok(Calls::new(takes, holds, free))
}

/// What each procedure takes, of those resources.
fn takes_sets(
    alloc: Global,
    p: &Program,
    summaries: &[Summary],
    resources: &[ResId],
) -> Result<Vec<ResSet>, AllocError>
    requires summaries { AreSummaries (program_of p.now) summaries.now }
    requires keys { IsSetOf IsEarlierResource (λ r. r.0 < length p.now.resources.items)
        resources.now }
    ensures { IfOk result (λ sets.
        IsFamily IsResSet (Takes (program_of p.now))
        (length (program_of p.now).procedures) sets.items) }
{
    let rows = takes_rows(alloc, p, summaries, resources)?;
    sets(alloc, resources, &rows, p.procedures.len())
}

/// What each procedure holds, of those resources.
fn holds_sets(
    alloc: Global,
    p: &Program,
    summaries: &[Summary],
    resources: &[ResId],
) -> Result<Vec<ResSet>, AllocError>
    requires summaries { AreSummaries (program_of p.now) summaries.now }
    requires keys { IsSetOf IsEarlierResource (λ r. r.0 < length p.now.resources.items)
        resources.now }
    ensures { IfOk result (λ sets.
        IsFamily IsResSet (HasThroughout (program_of p.now))
        (length (program_of p.now).procedures) sets.items) }
{
    let rows = holds_rows(alloc, p, summaries, resources)?;
    sets(alloc, resources, &rows, p.procedures.len())
}

/// What is free in each procedure, of those variables.
fn free_sets(
    alloc: Global,
    p: &Program,
    summaries: &[Summary],
    variables: &[Var],
) -> Result<Vec<VarSet>, AllocError>
    requires summaries { AreSummaries (program_of p.now) summaries.now }
    requires keys { IsSetOf IsEarlier
        (IsUpTo (λ k. variable_count (slice_get (program_of p.now).resources k))
        (length p.now.resources.items) 0) variables.now }
    ensures { IfOk result (λ sets.
        IsFamily IsVarSet (Free (program_of p.now))
        (length (program_of p.now).procedures) sets.items) }
{
    let rows = free_rows(alloc, p, summaries, variables)?;
    sets(alloc, variables, &rows, p.procedures.len())
}
