//! The pairs of resources of which the first may be held where the second is entered.

ghost use Rattle.std.specs.Prelude.{◌≡◌, ◌<◌, ◌^◌, ◌↔◌, ◌⊎◌, [], ◌∷◌, All, AllPairs, Contains, IfOk, OnOk, Some, length, map, slice_get};
ghost use Rattle.std.specs.List.{flat_map};
ghost use Rattle.sf_base.specs.Results.{Appends};
ghost use Rattle.sf_base.specs.declared.ids.ResId.{ResId};
ghost use Rattle.sf_core.specs.Program.Heads.{head_calls, sites};
ghost use Rattle.sf_core.specs.Program.ProgramView.{program_of};
ghost use Rattle.sf_core.specs.Program.Sites.{site_of};
ghost use Rattle.sf_core.specs.Program.View.{command_of};
ghost use Rattle.sf_calls.specs.Sets.{AreSetsOf};
ghost use Rattle.sf_calls.specs.Checked.Listed.{is_entered};
ghost use Rattle.sf_order.specs.Nests.{ArePairsOf, IsEarlierPair, Nests};
ghost use Rattle.sf_order.specs.Checked.Rows.{AreCallees, IsMarked, IsRowOf, Marks, all_sites, entered_by, entered_within, taken_by};

use crate::pairs::Pairs;
use sf_base::{ProcId, ResId};
use sf_calls::Calls;
use sf_core::{Command, Program, Site, sites};
use std::alloc::{AllocError, Global};

/// The pairs of a program, in file order, where `c` is what its procedures take. An `Err` means that
/// memory ran out.
pub fn nesting(alloc: Global, p: &Program, c: &Calls) -> Result<Pairs, AllocError>
    requires { AreSetsOf (program_of p.now) c.now }
    ensures { IfOk result (λ pairs. ArePairsOf (program_of p.now) pairs) }
{
    let all = sites_of(alloc, p)?;
    let mut pairs = Vec::new(alloc);
    for r in 0..p.resources.len() as u32 {
        let row = row_of(alloc, p, c, &all, ResId(r))?;
        add_pairs(ResId(r), &row, &mut pairs)?;
    }
    Ok(Pairs::new(pairs))
}

/// The commands of all bodies.
fn sites_of<'a>(alloc: Global, p: &'a Program) -> Result<Vec<Site<'a>>, AllocError>
    ensures { IfOk result (λ all. map site_of all.items ≡ all_sites (program_of p.now)) }
{
    let mut all = Vec::new(alloc);
    for h in &p.procedures {
        add_sites(sites(alloc, &h.body)?, &mut all)?;
    }
    Ok(all)
}

/// Appends those commands.
fn add_sites<'a>(body: Vec<Site<'a>>, all: &mut Vec<Site<'a>>) -> Result<(), AllocError>
    ensures { Appends result (map site_of all.old.items) (map site_of all.new.items)
        (map site_of body.entry.items) }
{
    for s in body {
        all.push(s)?;
    }
    Ok(())
}

/// For each resource whether a command inside a region of `r` may enter it.
fn row_of(
    alloc: Global,
    p: &Program,
    c: &Calls,
    all: &[Site],
    r: ResId,
) -> Result<Vec<bool>, AllocError>
    requires sets { AreSetsOf (program_of p.now) c.now }
    requires all { map site_of all.now ≡ all_sites (program_of p.now) }
    ensures { IfOk result (λ row. IsRowOf (program_of p.now) r row.items) }
{
    let mut row = vec![in alloc; false; p.resources.len()]?;
    for s in all {
        if is_entered(r, &s.entered) {
            mark_entered(s.command, c, &mut row);
        }
    }
    Ok(row)
}

/// Whether the resource is one of those.
fn is_entered(r: ResId, entered: &[ResId]) -> bool
    ensures { result ≡ is_entered r entered.now }
{
    for q in entered {
        if q.0 == r.0 {
            return true;
        }
    }
    false
}

/// Marks the resources that a command itself may enter.
fn mark_entered(command: &Command, c: &Calls, row: &mut Vec<bool>)
    requires callees { AreCallees c.now (command_of command.now) }
    requires within { entered_within (length row.old.items) c.now (command_of command.now) }
    ensures { Marks row.old.items row.new.items (entered_by c.now (command_of command.now)) }
{
    match command {
        Command::With(_, r, _, _) => mark(*r, row),
        Command::Call(_, call) => mark_taken(call.callee, c, row),
        Command::Fork(_, left, right) => {
            mark_taken(left.callee, c, row);
            mark_taken(right.callee, c, row);
        }
        _ => {}
    }
}

/// Marks the resources that a procedure takes.
fn mark_taken(f: ProcId, c: &Calls, row: &mut Vec<bool>)
    requires there { f.0 < length c.now.takes }
    requires within { All (λ q. q.0 < length row.old.items) (taken_by c.now f) }
    ensures { Marks row.old.items row.new.items (taken_by c.now f) }
{
    for q in c.takes(f).as_slice() {
        mark(*q, row);
    }
}

/// Marks one resource.
fn mark(r: ResId, row: &mut Vec<bool>)
    requires { r.0 < length row.old.items }
    ensures { Marks row.old.items row.new.items (r ∷ []) }
{
    row[r.0 as usize] = true;
}

/// Appends the pairs of `r` and each of the marked resources.
fn add_pairs(r: ResId, row: &[bool], pairs: &mut Vec<(ResId, ResId)>) -> Result<(), AllocError>
    requires few { length row.now < 2 ^ 32 }
    requires ordered { AllPairs IsEarlierPair pairs.old.items }
    requires before { All (λ e. e.0.0 < r.0) pairs.old.items }
    ensures ordered { OnOk result (AllPairs IsEarlierPair pairs.new.items) }
    ensures members { OnOk result ((e : ResId × ResId) → Contains pairs.new.items e
        ↔ (Contains pairs.old.items e ⊎ ((e.0 ≡ r) × IsMarked row.now e.1))) }
{
    for (q, marked) in row.iter().enumerate() {
        if *marked {
            pairs.push((r, ResId(q as u32)))?;
        }
    }
    Ok(())
}
