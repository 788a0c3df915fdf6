//! Who calls whom.

ghost use Rattle.std.specs.Prelude.{◌≡◌, ◌↔◌, ◌⊎◌, ◌<◌, length, All, Contains, IfOk, OnOk, true};
ghost use Rattle.sf_base.specs.declared.ids.ProcId.{ProcId};
ghost use Rattle.sf_core.specs.Program.ProgramView.{program_of};
ghost use Rattle.sf_calls.specs.Checked.Visited.{IsCaller, AreCallers};
ghost use Rattle.sf_calls.specs.Checked.Summaries.{AreSummaries, has_calls_inside, left_out_has_calls_inside};

use crate::outside::callees_in;
use crate::shared::is_entered;
use crate::summary::Summary;
use sf_base::{ProcId, ResId};
use sf_core::{Program, sites};
use std::alloc::{AllocError, Global};

/// For each procedure those that call it outside the regions of the resource that is left out. An
/// `Err` means that memory ran out.
pub fn callers_of(
    alloc: Global,
    but: Option<ResId>,
    p: &Program,
) -> Result<Vec<Vec<ProcId>>, AllocError>
    ensures { IfOk result (λ callers. AreCallers (program_of p.now) but callers.items) }
{
    let mut callers = no_callers(alloc, p.procedures.len())?;
    for (i, procedure) in p.procedures.iter().enumerate() {
        let body = sites(alloc, &procedure.body)?;
        let callees = callees_in(alloc, but, &body)?;
        add_caller(ProcId(i as u32), &callees, &mut callers)?;
    }
    Ok(callers)
}

/// The same, where the callers are at hand that leave out `last`.
pub fn callers_after(
    alloc: Global,
    but: Option<ResId>,
    p: &Program,
    summaries: &[Summary],
    last: Option<ResId>,
    callers: Vec<Vec<ProcId>>,
) -> Result<Vec<Vec<ProcId>>, AllocError>
    requires summaries { AreSummaries (program_of p.now) summaries.now }
    requires callers { AreCallers (program_of p.now) last callers.items }
    ensures { IfOk result (λ callers. AreCallers (program_of p.now) but callers.items) }
{
    if is_same_owner(but, last) {
        return Ok(callers);
    }
    if has_calls_inside(but, summaries) || has_calls_inside(last, summaries) {
        return callers_of(alloc, but, p);
    }
    Ok(callers)
}

/// Whether a call is inside a region of the resource that is left out.
fn has_calls_inside(but: Option<ResId>, summaries: &[Summary]) -> bool
    ensures { result ≡ left_out_has_calls_inside but summaries.now }
{
    match but {
        None => false,
        Some(r) => any_has_calls_inside(r, summaries),
    }
}

/// Whether a call is inside a region of the resource.
fn any_has_calls_inside(r: ResId, summaries: &[Summary]) -> bool
    ensures { result ≡ has_calls_inside r summaries.now }
{
    for t in summaries {
        if is_entered(r, &t.with_calls) {
            return true;
        }
    }
    false
}

/// Whether both are one resource, or none.
fn is_same_owner(r: Option<ResId>, q: Option<ResId>) -> bool
    ensures { result ≡ true → r ≡ q }
{
    match (r, q) {
        (None, None) => true,
        (Some(r), Some(q)) => r.0 == q.0,
        _ => false,
    }
}

/// For so many procedures no caller.
fn no_callers(alloc: Global, count: usize) -> Result<Vec<Vec<ProcId>>, AllocError>
    ensures size { IfOk result (λ callers. length callers.items ≡ count) }
    ensures none { IfOk result (λ callers. (f g : ProcId) → ¬ (IsCaller callers.items f g)) }
{
    let mut callers = Vec::with_capacity(alloc, count)?;
    for _ in 0..count {
        callers.push(Vec::new(alloc))?;
    }
    Ok(callers)
}

/// Notes that the procedure calls those.
fn add_caller(
    f: ProcId,
    callees: &[ProcId],
    callers: &mut Vec<Vec<ProcId>>,
) -> Result<(), AllocError>
    requires { All (λ g. g.0 < length callers.old.items) callees.now }
    ensures size { OnOk result (length callers.new.items ≡ length callers.old.items) }
    ensures more { OnOk result ((h g : ProcId) → IsCaller callers.new.items h g
        ↔ (IsCaller callers.old.items h g ⊎ ((h ≡ f) × Contains callees.now g))) }
{
    for g in callees {
        add_one_caller(f, *g, callers)?;
    }
    Ok(())
}

/// Notes that the procedure `f` calls the procedure `g`, unless that was noted of `g` last: so a
/// procedure that calls another often is noted once.
fn add_one_caller(f: ProcId, g: ProcId, callers: &mut Vec<Vec<ProcId>>) -> Result<(), AllocError>
    requires { g.0 < length callers.old.items }
    ensures size { OnOk result (length callers.new.items ≡ length callers.old.items) }
    ensures more { OnOk result ((h k : ProcId) → IsCaller callers.new.items h k
        ↔ (IsCaller callers.old.items h k ⊎ ((h ≡ f) × (k ≡ g)))) }
{
    if ends_in(&callers[g.0 as usize], f) {
        return Ok(());
    }
    let row = &mut callers[g.0 as usize];
    row.push(f)?;
    Ok(())
}

/// Whether the procedure is the last of those.
fn ends_in(fs: &[ProcId], f: ProcId) -> bool
    ensures { result ≡ true → Contains fs.now f }
{
    match fs.last() {
        None => false,
        Some(last) => last.0 == f.0,
    }
}
