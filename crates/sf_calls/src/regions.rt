//! The regions that commands have, and those with a call inside.

ghost use Rattle.std.specs.Prelude.{◌≡◌, map};
ghost use Rattle.sf_base.specs.Results.{Appends};
ghost use Rattle.sf_core.specs.Program.Heads.{head_calls};
ghost use Rattle.sf_core.specs.Program.Sites.{site_of};
ghost use Rattle.sf_core.specs.Program.View.{command_of};
ghost use Rattle.sf_calls.specs.Checked.Listed.{entered_in, any_call, with_calls_in};

use crate::shared::add_region;
use sf_base::ResId;
use sf_core::{Command, Site};
use std::alloc::AllocError;

/// Appends the resources of the regions. An `Err` means that memory ran out.
pub fn add_regions(sites: &[Site], entered: &mut Vec<ResId>) -> Result<(), AllocError>
    ensures { Appends result entered.old.items entered.new.items
        (entered_in (map site_of sites.now)) }
{
    for s in sites {
        add_region(s.command, entered)?;
    }
    Ok(())
}

/// Appends the resources of the regions around calls. An `Err` means that memory ran out.
pub fn add_with_calls(sites: &[Site], with_calls: &mut Vec<ResId>) -> Result<(), AllocError>
    ensures { Appends result with_calls.old.items with_calls.new.items
        (with_calls_in (map site_of sites.now)) }
{
    for s in sites {
        if is_calling(s.command) {
            with_calls.extend_from_slice(&s.entered)?;
        }
    }
    Ok(())
}

/// Whether the command itself makes a call.
fn is_calling(c: &Command) -> bool
    ensures { result ≡ any_call (head_calls (command_of c.now)) }
{
    matches!(c, Command::Call(_, _) | Command::Fork(_, _, _))
}
