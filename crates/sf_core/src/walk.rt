//! The walk over all commands.

ghost use Rattle.std.specs.Prelude.{◌≡◌, [], ◌∷◌, map, IfOk};
ghost use Rattle.sf_base.specs.Results.{Appends};
ghost use Rattle.sf_core.specs.Program.Heads.{inner_sites, sites};
ghost use Rattle.sf_core.specs.Program.Sites.{site_of};
ghost use Rattle.sf_core.specs.Program.View.{block_of, command_of};

use crate::command::Command;
use sf_base::ResId;
use std::alloc::{AllocError, Global};

/// A command, and the resources of the regions around it, the innermost first.
#[derive(Debug, Drop)]
pub struct Site<'a> {
    /// Those resources.
    pub entered: Vec<ResId>,
    /// The command.
    pub command: &'a Command,
}

/// All commands of a block, each before those inside it, in text order. An `Err` means that memory
/// ran out.
pub fn sites<'a>(alloc: Global, body: &'a [Command]) -> Result<Vec<Site<'a>>, AllocError>
    ensures { IfOk result (λ found. map site_of found.items ≡ sites [] (block_of body.now)) }
{
    let mut found = Vec::new(alloc);
    add_sites(alloc, &[], body, &mut found)?;
    Ok(found)
}

/// Appends those of a block inside regions of the resources that are entered.
#[cycle(sites)]
fn add_sites<'a>(
    alloc: Global,
    entered: &[ResId],
    body: &'a [Command],
    found: &mut Vec<Site<'a>>,
) -> Result<(), AllocError>
    ensures { Appends result (map site_of found.old.items) (map site_of found.new.items)
        (sites entered.now (block_of body.now)) }
{
    for c in body {
        let site = Site {
            entered: entered.to_vec(alloc)?,
            command: c,
        };
        found.push(site)?;
        add_inner(alloc, entered, c, found)?;
    }
    Ok(())
}

/// Appends those inside a command.
#[cycle(sites)]
fn add_inner<'a>(
    alloc: Global,
    entered: &[ResId],
    c: &'a Command,
    found: &mut Vec<Site<'a>>,
) -> Result<(), AllocError>
    ensures { Appends result (map site_of found.old.items) (map site_of found.new.items)
        (inner_sites entered.now (command_of c.now)) }
{
    match c {
        Command::If(_, _, c, d) => {
            add_sites(alloc, entered, c, found)?;
            add_sites(alloc, entered, d, found)?;
            Ok(())
        }
        Command::While(_, _, _, c) => {
            add_sites(alloc, entered, c, found)?;
            Ok(())
        }
        Command::With(_, r, _, c) => {
            let inside = entering(alloc, *r, entered)?;
            add_sites(alloc, &inside, c, found)?;
            Ok(())
        }
        _ => Ok(()),
    }
}

/// One more resource, and those.
fn entering(alloc: Global, r: ResId, entered: &[ResId]) -> Result<Vec<ResId>, AllocError>
    ensures { IfOk result (λ inside. inside.items ≡ r ∷ entered.now) }
{
    let mut inside = Vec::with_capacity(alloc, entered.len())?;
    inside.push(r)?;
    for q in entered {
        inside.push(*q)?;
    }
    Ok(inside)
}
