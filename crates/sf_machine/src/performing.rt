//! What was planned, made of a configuration.

ghost use Rattle.std.specs.Prelude.{◌≡◌, ℕ, false, length, OnOk, OnErr};
ghost use Rattle.std.specs.BTreeSet.{contains};
ghost use Rattle.std.specs.Ordering.{nat_cmp};
ghost use Rattle.sf_core.specs.Machine.Config.{adds};
ghost use Rattle.sf_foot.specs.Starting.{HasWidth};
ghost use Rattle.sf_frame.specs.Commons.{common_of};
ghost use Rattle.sf_frame.specs.Checked.Effects.{applied, HasField, Suits};
ghost use Rattle.sf_machine.specs.Configs.{config_of};
ghost use Rattle.sf_machine.specs.Events.{event_of};
ghost use Rattle.sf_machine.specs.Checked.Performing.{performed};

use crate::config::Config;
use crate::event::Event;
use crate::task::Change;
use sf_frame::{Effect, Shared, apply};
use std::alloc::AllocError;
use std::collections::BTreeSet;

/// Makes of a configuration what an event does, whose number is new. An `Err` says that memory ran
/// out, and nothing is changed.
pub(crate) fn perform<'p>(
    c: &mut Config<'p>,
    event: &Event,
    effect: Effect,
    change: Change<'p>,
) -> Result<(), AllocError>
    requires fresh { (config_of c.old).used event.now.number ≡ false }
    requires suits { Suits (event_of event.now) effect (common_of c.old.common) }
    requires field { HasField effect c.old.common.heap }
    ensures ok { OnOk result (config_of c.new
        ≡ performed (event_of event.now) effect change.entry (config_of c.old)) }
    ensures err { OnErr result (config_of c.new ≡ config_of c.old) }
    ensures width { (count : ℕ) → length event.now.fields ≡ count → HasWidth count c.old.common.heap
        → HasWidth count c.new.common.heap }
{
    let path = event.task.turns();
    c.tasks.reserve_at(path, &change)?;
    act(&mut c.common, &mut c.used, event, effect)?;
    c.tasks.change_at(path, change);
    Ok(())
}

/// Makes of what is shared what an event does, and its number used. An `Err` says that memory ran
/// out, and nothing is changed.
fn act(
    common: &mut Shared,
    used: &mut BTreeSet<u64>,
    event: &Event,
    effect: Effect,
) -> Result<(), AllocError>
    requires fresh { contains nat_cmp used.old event.now.number ≡ false }
    requires suits { Suits (event_of event.now) effect (common_of common.old) }
    requires field { HasField effect common.old.heap }
    ensures ok { OnOk result
        (common_of common.new ≡ applied (event_of event.now) effect (common_of common.old)) }
    ensures ok_used { OnOk result
        (contains nat_cmp used.new ≡ adds event.now.number (contains nat_cmp used.old)) }
    ensures err { OnErr result (common_of common.new ≡ common_of common.old) }
    ensures err_used { OnErr result (contains nat_cmp used.new ≡ contains nat_cmp used.old) }
    ensures width { (count : ℕ) → length event.now.fields ≡ count → HasWidth count common.old.heap
        → HasWidth count common.new.heap }
{
    used.insert(event.number)?;
    if let Err(error) = apply(common, &event.stamp(), &event.fields, effect) {
        used.remove(&event.number);
        return Err(error);
    }
    Ok(())
}
