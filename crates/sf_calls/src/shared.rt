//! The variables of resources that occur in commands outside the regions of their resources, in
//! text order.

ghost use Rattle.std.specs.Prelude.{◌≡◌, ◌++◌, IfOk, map};
ghost use Rattle.std.specs.List.{flat_map};
ghost use Rattle.sf_base.specs.Results.{Appends};
ghost use Rattle.sf_core.specs.Program.Heads.{call_occurrences, head_calls, head_regions};
ghost use Rattle.sf_core.specs.Program.Sites.{site_of};
ghost use Rattle.sf_core.specs.Program.View.{command_of};
ghost use Rattle.sf_calls.specs.Checked.Listed.{is_entered, kept, kept_of, shared_at, shared_in};

use sf_base::{ResId, Var};
use sf_core::{Command, Occurrence, Site, add_call_occurrences, add_head_occurrences};
use std::alloc::{AllocError, Global};

/// Whether the resource is one of those.
pub fn is_entered(r: ResId, entered: &[ResId]) -> bool
    ensures { result ≡ is_entered r entered.now }
{
    for q in entered {
        if q.0 == r.0 {
            return true;
        }
    }
    false
}

/// Appends the variable, if it is one of a resource that is not entered.
fn add_var(entered: &[ResId], x: Var, named: &mut Vec<Var>) -> Result<(), AllocError>
    ensures { Appends result named.old.items named.new.items (kept entered.now x) }
{
    match x {
        Var::Own(_) => Ok(()),
        Var::Shared(r, _) => {
            if !is_entered(r, entered) {
                named.push(x)?;
            }
            Ok(())
        }
    }
}

/// Appends those of the variables that occur there. An `Err` means that memory ran out.
pub fn add_kept(
    entered: &[ResId],
    words: &[Occurrence],
    named: &mut Vec<Var>,
) -> Result<(), AllocError>
    ensures { Appends result named.old.items named.new.items (kept_of entered.now words.now) }
{
    for x in words {
        add_var(entered, x.var, named)?;
    }
    Ok(())
}

/// Appends those that occur at these sites. An `Err` means that memory ran out.
pub fn add_shared(alloc: Global, sites: &[Site], named: &mut Vec<Var>) -> Result<(), AllocError>
    ensures { Appends result named.old.items named.new.items (shared_in (map site_of sites.now)) }
{
    for s in sites {
        add_shared_at(alloc, s, named)?;
    }
    Ok(())
}

/// Appends those that occur in a command itself and in its calls.
fn add_shared_at(alloc: Global, s: &Site, named: &mut Vec<Var>) -> Result<(), AllocError>
    ensures { Appends result named.old.items named.new.items (shared_at (site_of s.now)) }
{
    let mut words = Vec::new(alloc);
    add_head_occurrences(s.command, &mut words)?;
    add_words_of_calls(s.command, &mut words)?;
    let around = around(alloc, s)?;
    add_kept(&around, &words, named)
}

/// Appends what occurs in the command's calls.
fn add_words_of_calls(c: &Command, words: &mut Vec<Occurrence>) -> Result<(), AllocError>
    ensures { Appends result words.old.items words.new.items
        (flat_map call_occurrences (head_calls (command_of c.now))) }
{
    match c {
        Command::Call(_, call) => add_call_occurrences(call, words),
        Command::Fork(_, left, right) => {
            add_call_occurrences(left, words)?;
            add_call_occurrences(right, words)
        }
        _ => Ok(()),
    }
}

/// The resources of the regions around what occurs in the command itself: its own too, if it is a
/// region.
fn around(alloc: Global, s: &Site) -> Result<Vec<ResId>, AllocError>
    ensures { IfOk result (λ around. around.items
        ≡ head_regions (command_of s.now.command.now) ++ s.now.entered.items) }
{
    let mut around = Vec::new(alloc);
    add_region(s.command, &mut around)?;
    for r in &s.entered {
        around.push(*r)?;
    }
    Ok(around)
}

/// Appends the command's resource, if it is a region.
pub fn add_region(c: &Command, regions: &mut Vec<ResId>) -> Result<(), AllocError>
    ensures { Appends result regions.old.items regions.new.items (head_regions (command_of c.now)) }
{
    if let Command::With(_, r, _, _) = c {
        regions.push(*r)?;
    }
    Ok(())
}
