//! Whether a parallel call can be reached.

ghost use Rattle.std.specs.Prelude.{◌≡◌, ◌↔◌, ◌<◌, [], ◌∷◌, length, map, Contains, None, IfOk, IsTrue, OnOk, false, replicate};
ghost use Rattle.sf_base.specs.declared.ids.ProcId.{ProcId};
ghost use Rattle.sf_calls.specs.Checked.Tests.{callees_of, callees_in};
ghost use Rattle.sf_calls.specs.Checked.Visited.{VisitsMore};
ghost use Rattle.sf_core.specs.Program.ProgramView.{program_of};
ghost use Rattle.sf_core.specs.Program.Sites.{site_of};
ghost use Rattle.sf_core.specs.Program.View.{command_of};
ghost use Rattle.sf_run.specs.Checked.Searches.{IsFork, VisitsOrForks, listed};
ghost use Rattle.sf_run.specs.Sequential.{InitIsSequential, IsSequential};

use sf_base::ProcId;
use sf_core::{Command, Program, Site, sites};
use std::alloc::{AllocError, Global};

/// Whether no parallel call can be reached from a procedure: each procedure that is reached by
/// calls is looked at once. An `Err` says that memory ran out.
pub fn is_sequential(alloc: Global, p: &Program, f: ProcId) -> Result<bool, AllocError>
    requires { f.0 < length p.now.procedures.items }
    ensures { IfOk result (λ yes. IsTrue yes ↔ IsSequential (program_of p.now) f) }
{
    let mut visited = none_visited(alloc, p.procedures.len())?;
    let mut queue = Vec::new(alloc);
    visit(f, &mut visited, &mut queue)?;
    while let Some(g) = queue.pop() {
        let body = sites(alloc, &p.proc(g).body)?;
        if visit_callees(&body, &mut visited, &mut queue)? {
            return Ok(false);
        }
    }
    Ok(true)
}

/// Whether no parallel call can be reached from the procedure that sets the resources up, if there
/// is one. An `Err` says that memory ran out.
pub fn is_init_sequential(alloc: Global, p: &Program) -> Result<bool, AllocError>
    ensures { IfOk result (λ yes. IsTrue yes ↔ InitIsSequential (program_of p.now)) }
{
    match p.init {
        Some(n) => is_sequential(alloc, p, n),
        None => Ok(true),
    }
}

/// So many procedures, none of them visited.
fn none_visited(alloc: Global, count: usize) -> Result<Vec<bool>, AllocError>
    ensures items { IfOk result (λ visited. visited.items ≡ replicate count false) }
    ensures size { IfOk result (λ visited. length visited.items ≡ count) }
{
    let visited = Vec::from_elem(alloc, false, count)?;
    Ok(visited)
}

/// Visits the procedures that are called at those sites, up to a parallel call. Whether there is
/// one.
fn visit_callees(
    body: &[Site],
    visited: &mut Vec<bool>,
    queue: &mut Vec<ProcId>,
) -> Result<bool, AllocError>
    requires { (g : ProcId) → Contains (callees_in None (map site_of body.now)) g
        → g.0 < length visited.old.items }
    ensures { IfOk result (λ forks. VisitsOrForks forks (map site_of body.now)
        visited.old.items queue.old.items visited.new.items queue.new.items) }
{
    for s in body {
        if is_fork(s.command) {
            return Ok(true);
        }
        visit_callee(s.command, visited, queue)?;
    }
    Ok(false)
}

/// Whether the command is a parallel call.
fn is_fork(c: &Command) -> bool
    ensures { IsTrue result ↔ IsFork (command_of c.now) }
{
    match c {
        Command::Fork(_, _, _) => true,
        _ => false,
    }
}

/// Visits the procedure that a command calls, if it does, which is no parallel call.
fn visit_callee(
    c: &Command,
    visited: &mut Vec<bool>,
    queue: &mut Vec<ProcId>,
) -> Result<(), AllocError>
    requires one { IsFork (command_of c.now) → ⊥ }
    requires within { (g : ProcId) → Contains (callees_of (command_of c.now)) g
        → g.0 < length visited.old.items }
    ensures { OnOk result (VisitsMore (callees_of (command_of c.now)) visited.old.items
        queue.old.items visited.new.items queue.new.items) }
{
    match callee_of(c) {
        None => Ok(()),
        Some(g) => visit(g, visited, queue),
    }
}

/// The procedure that a command calls, where it isn't a parallel call.
fn callee_of(c: &Command) -> Option<ProcId>
    ensures { (IsFork (command_of c.now) → ⊥) → callees_of (command_of c.now) ≡ listed result }
{
    match c {
        Command::Call(_, call) => Some(call.callee),
        _ => None,
    }
}

/// Visits one procedure, and queues it if it was not visited yet.
fn visit(f: ProcId, visited: &mut Vec<bool>, queue: &mut Vec<ProcId>) -> Result<(), AllocError>
    requires { f.0 < length visited.old.items }
    ensures { OnOk result (VisitsMore (f ∷ []) visited.old.items queue.old.items
        visited.new.items queue.new.items) }
{
    if !visited[f.0 as usize] {
        visited[f.0 as usize] = true;
        queue.push(f)?;
    }
    Ok(())
}
