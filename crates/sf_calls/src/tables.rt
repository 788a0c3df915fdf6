//! For each resource, and for each variable of one, which procedures have it.

ghost use Rattle.std.specs.Prelude.{◌≡◌, ◌<◌, ◌≤◌, ℕ, List, length, All, IfOk, Some, slice_get};
ghost use Rattle.sf_core.specs.Machine.HasThroughout.{HasThroughout};
ghost use Rattle.sf_core.specs.Program.ProgramView.{program_of};
ghost use Rattle.sf_calls.specs.Conditions.{Enters, Mentions, Takes, FreeIn, IsShared};
ghost use Rattle.sf_calls.specs.Checked.Visited.{AreRows, IsRow, chosen};
ghost use Rattle.sf_calls.specs.Checked.Summaries.{AreSummaries, speaks_of};

use crate::callers::{callers_after, callers_of};
use crate::leading::leading;
use crate::outside::owner;
use crate::set::Set;
use crate::shared::is_entered;
use crate::summary::Summary;
use sf_base::{ResId, Var};
use sf_core::Program;
use std::alloc::{AllocError, Global};

/// For each of those resources, which procedures take it. An `Err` means that memory ran out.
pub fn takes_rows(
    alloc: Global,
    p: &Program,
    summaries: &[Summary],
    resources: &[ResId],
) -> Result<Vec<Vec<bool>>, AllocError>
    requires { AreSummaries (program_of p.now) summaries.now }
    ensures { IfOk result (λ rows.
        AreRows (length p.now.procedures.items)
        (Takes (program_of p.now)) resources.now rows.items) }
{
    let callers = callers_of(alloc, None, p)?;
    let mut rows = Vec::with_capacity(alloc, resources.len())?;
    for r in resources {
        let direct = entering(alloc, p, summaries, *r)?;
        rows.push(leading(alloc, direct, &callers)?)?;
    }
    Ok(rows)
}

/// For each of those resources of the program, which procedures hold it. An `Err` means that memory
/// ran out.
pub fn holds_rows(
    alloc: Global,
    p: &Program,
    summaries: &[Summary],
    resources: &[ResId],
) -> Result<Vec<Vec<bool>>, AllocError>
    requires summaries { AreSummaries (program_of p.now) summaries.now }
    requires there { All (λ r. r.0 < length p.now.resources.items) resources.now }
    ensures { IfOk result (λ rows.
        AreRows (length p.now.procedures.items)
        (HasThroughout (program_of p.now)) resources.now rows.items) }
{
    let mut rows = Vec::with_capacity(alloc, resources.len())?;
    for r in resources {
        rows.push(holding(alloc, p, summaries, *r)?)?;
    }
    Ok(rows)
}

/// For each of those variables, which procedures have it free. An `Err` means that memory ran out.
pub fn free_rows(
    alloc: Global,
    p: &Program,
    summaries: &[Summary],
    variables: &[Var],
) -> Result<Vec<Vec<bool>>, AllocError>
    requires summaries { AreSummaries (program_of p.now) summaries.now }
    requires shared { All IsShared variables.now }
    ensures { IfOk result (λ rows.
        AreRows (length p.now.procedures.items)
        (FreeIn (program_of p.now)) variables.now rows.items) }
{
    let mut last = None;
    let mut callers = callers_of(alloc, None, p)?;
    let mut rows = Vec::with_capacity(alloc, variables.len())?;
    for x in variables {
        callers = callers_after(alloc, owner(*x), p, summaries, last, callers)?;
        last = owner(*x);
        let direct = mentioning(alloc, p, summaries, *x)?;
        rows.push(leading(alloc, direct, &callers)?)?;
    }
    Ok(rows)
}

/// The procedures whose bodies have a region of the resource.
fn entering(
    alloc: Global,
    p: &Program,
    summaries: &[Summary],
    r: ResId,
) -> Result<Vec<bool>, AllocError>
    requires { AreSummaries (program_of p.now) summaries.now }
    ensures { IfOk result (λ row.
        IsRow (length p.now.procedures.items) (Enters (program_of p.now) r) row.items) }
{
    let mut visited = Vec::with_capacity(alloc, p.procedures.len())?;
    for t in summaries {
        visited.push(is_entered(r, &t.entered))?;
    }
    Ok(visited)
}

/// The procedures that mention the variable, which is one of a resource.
fn mentioning(
    alloc: Global,
    p: &Program,
    summaries: &[Summary],
    x: Var,
) -> Result<Vec<bool>, AllocError>
    requires summaries { AreSummaries (program_of p.now) summaries.now }
    requires shared { IsShared x }
    ensures { IfOk result (λ row.
        IsRow (length p.now.procedures.items) (Mentions (program_of p.now) x) row.items) }
{
    let mut visited = Vec::with_capacity(alloc, p.procedures.len())?;
    for t in summaries {
        visited.push(t.mentioned.contains(x))?;
    }
    Ok(visited)
}

/// The procedures that hold the resource, which is one of the program's: the one that sets the
/// resources up, and those whose pre or post mentions it.
fn holding(
    alloc: Global,
    p: &Program,
    summaries: &[Summary],
    r: ResId,
) -> Result<Vec<bool>, AllocError>
    requires summaries { AreSummaries (program_of p.now) summaries.now }
    requires there { r.0 < length p.now.resources.items }
    ensures { IfOk result (λ row.
        IsRow (length p.now.procedures.items) (λ f. HasThroughout (program_of p.now) f r) row.items) }
{
    let mut visited = Vec::with_capacity(alloc, p.procedures.len())?;
    for t in summaries {
        let mentions = speaks_of(r, t.in_contract.as_slice());
        visited.push(t.sets_up | mentions)?;
    }
    Ok(visited)
}

/// Whether one of the variables is of the resource.
fn speaks_of(r: ResId, xs: &[Var]) -> bool
    ensures { result ≡ speaks_of r xs.now }
{
    for x in xs {
        if let Var::Shared(q, _) = x {
            if q.0 == r.0 {
                return true;
            }
        }
    }
    false
}

/// For each procedure the set of those keys in whose rows it is visited.
pub fn sets<T: Copy>(
    alloc: Global,
    keys: &[T],
    rows: &[Vec<bool>],
    count: usize,
) -> Result<Vec<Set<T>>, AllocError>
    requires same { length rows.now ≡ length keys.now }
    requires long { All (λ row. count ≤ length row.items) rows.now }
    ensures size { IfOk result (λ sets. length sets.items ≡ count) }
    ensures each { IfOk result (λ sets. (f : ℕ) (xs : List T) → slice_get sets.items f ≡ Some xs
        → xs ≡ chosen f keys.now rows.now) }
{
    let mut sets = Vec::with_capacity(alloc, count)?;
    for f in 0..count {
        sets.push(Set::from_ordered(chosen(alloc, keys, rows, f)?))?;
    }
    Ok(sets)
}

/// Those keys in whose rows the procedure of that number is visited.
fn chosen<T: Copy>(
    alloc: Global,
    keys: &[T],
    rows: &[Vec<bool>],
    f: usize,
) -> Result<Vec<T>, AllocError>
    requires same { length rows.now ≡ length keys.now }
    requires long { All (λ row. f < length row.items) rows.now }
    ensures { IfOk result (λ xs. xs.items ≡ chosen f keys.now rows.now) }
{
    let mut found = Vec::new(alloc);
    for (i, key) in keys.iter().enumerate() {
        let row = &rows[i];
        if row[f] {
            found.push(*key)?;
        }
    }
    Ok(found)
}
