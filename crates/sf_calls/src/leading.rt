//! The procedures from which one of some given procedures is reached by calls.

ghost use Rattle.std.specs.Prelude.{◌≡◌, ◌↔◌, ◌<◌, ◌≤◌, ◌^◌, [], ◌∷◌, length, All, Contains, IfOk, OnOk, false, replicate};
ghost use Rattle.sf_base.specs.declared.ids.ProcId.{ProcId};
ghost use Rattle.sf_calls.specs.Reaches.{Reaches};
ghost use Rattle.sf_calls.specs.Checked.Visited.{EachOnce, IsVisited, IsCaller, VisitsMore};

use sf_base::ProcId;
use std::alloc::{AllocError, Global};

/// The procedures that reach one of the given ones by calls, found by a search backwards along
/// the calls: each procedure is queued once, and each call is looked at once. An `Err` means
/// that memory ran out.
pub fn leading(
    alloc: Global,
    direct: Vec<bool>,
    callers: &[Vec<ProcId>],
) -> Result<Vec<bool>, AllocError>
    requires few { length direct.items < 2 ^ 32 }
    requires size { length direct.items ≡ length callers.now }
    requires within { (f g : ProcId) → IsCaller callers.now f g → f.0 < length callers.now }
    ensures size { IfOk result (λ visited. length visited.items ≡ length callers.now) }
    ensures members { IfOk result (λ visited. (f : ProcId) → IsVisited visited.items f
        ↔ Reaches (IsVisited direct.items) (IsCaller callers.now) f) }
{
    let mut queue = visited_procedures(alloc, &direct)?;
    let mut visited = direct;
    while let Some(g) = queue.pop() {
        visit_all(&callers[g.0 as usize], &mut visited, &mut queue)?;
    }
    Ok(visited)
}

/// The procedures that are visited.
fn visited_procedures(alloc: Global, visited: &[bool]) -> Result<Vec<ProcId>, AllocError>
    requires { length visited.now < 2 ^ 32 }
    ensures { IfOk result (λ fs. (f : ProcId) → Contains fs.items f ↔ IsVisited visited.now f) }
{
    let mut found = Vec::new(alloc);
    for (i, visit) in visited.iter().enumerate() {
        if *visit {
            found.push(ProcId(i as u32))?;
        }
    }
    Ok(found)
}

/// Visits those procedures, and queues those that were not visited yet.
fn visit_all(
    fs: &[ProcId],
    visited: &mut Vec<bool>,
    queue: &mut Vec<ProcId>,
) -> Result<(), AllocError>
    requires { All (λ f. f.0 < length visited.old.items) fs.now }
    ensures { OnOk result (VisitsMore fs.now visited.old.items queue.old.items
        visited.new.items queue.new.items) }
{
    for f in fs {
        visit(*f, visited, queue)?;
    }
    Ok(())
}

/// Visits one procedure, and queues it if it was not visited yet.
fn visit(f: ProcId, visited: &mut Vec<bool>, queue: &mut Vec<ProcId>) -> Result<(), AllocError>
    requires { f.0 < length visited.old.items }
    ensures { OnOk result (VisitsMore (f ∷ []) visited.old.items queue.old.items
        visited.new.items queue.new.items) }
{
    if !visited[f.0 as usize] {
        visited[f.0 as usize] = true;
        queue.push(f)?;
    }
    Ok(())
}

/// Those procedures, each once. An `Err` means that memory ran out.
pub fn distinct(alloc: Global, count: usize, fs: &[ProcId]) -> Result<Vec<ProcId>, AllocError>
    requires { All (λ f. f.0 < count) fs.now }
    ensures members { IfOk result (λ gs. (f : ProcId) → Contains gs.items f ↔ Contains fs.now f) }
    ensures once { IfOk result (λ gs. EachOnce gs.items) }
{
    let mut visited = none_visited(alloc, count)?;
    let mut found = Vec::new(alloc);
    visit_all(fs, &mut visited, &mut found)?;
    Ok(found)
}

/// So many procedures, none of them visited.
fn none_visited(alloc: Global, count: usize) -> Result<Vec<bool>, AllocError>
    ensures { IfOk result (λ visited. visited.items ≡ replicate count false) }
{
    let mut visited = Vec::with_capacity(alloc, count)?;
    for _ in 0..count {
        visited.push(false)?;
    }
    Ok(visited)
}
