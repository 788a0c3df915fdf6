//! The step.

ghost use Rattle.std.specs.Prelude.{◌≡◌, length, IfOk, OnErr};
ghost use Rattle.sf_core.specs.Machine.Step.{Step};
ghost use Rattle.sf_core.specs.Program.ProgramView.{program_of};
ghost use Rattle.sf_machine.specs.Answers.{Answers};
ghost use Rattle.sf_machine.specs.Configs.{config_of, IsWide};
ghost use Rattle.sf_machine.specs.Events.{event_of};
ghost use Rattle.sf_machine.specs.Reached.{IsReached};
ghost use Rattle.sf_machine.specs.Checked.Plans.{PlansEvent};

use crate::config::Config;
use crate::event::{Event, Stepped};
use crate::following::{Next, next_of};
use crate::performing::perform;
use crate::plan::{Plan, of_stack};
use crate::task::Change;
use sf_core::Program;
use sf_frame::{Change as StackChange, Edit, Effect, Way, plan_command};
use std::alloc::AllocError;

/// Makes the step of an event. `Moved` comes exactly where there is a next configuration for the
/// event, and then it is that one; every other answer says why there is none, and leaves the
/// configuration as it was. So does an `Err`, which says that memory ran out. Each cell has a value
/// for each field of the program, before and after.
pub fn step<'p>(p: &'p Program, c: &mut Config<'p>, e: &Event) -> Result<Stepped, AllocError>
    requires reached { IsReached (program_of p.now) (config_of c.old) }
    requires fields { length e.now.fields ≡ length p.now.fields.items }
    requires wide { IsWide (program_of p.now) c.old }
    ensures answers { IfOk result
        (Answers (program_of p.now) (event_of e.now) (config_of c.old)) }
    ensures moved { IfOk result (λ s. s ≡ Stepped.Moved
        → Step (program_of p.now) (event_of e.now) (config_of c.old) (config_of c.new)) }
    ensures reached { IsReached (program_of p.now) (config_of c.new) }
    ensures wide { IsWide (program_of p.now) c.new }
    ensures unchanged { IfOk result
        (λ s. (s ≡ Stepped.Moved → ⊥) → config_of c.new ≡ config_of c.old) }
    ensures err { OnErr result (config_of c.new ≡ config_of c.old) }
{
    match plan(p, c, e)? {
        Plan::Refused(why) => Ok(why),
        Plan::Acts(effect, change) => {
            perform(c, e, effect, change)?;
            Ok(Stepped::Moved)
        }
    }
}

/// What an event would make of a configuration, or why it is none.
fn plan<'p>(p: &'p Program, c: &Config<'p>, e: &Event) -> Result<Plan<'p>, AllocError>
    requires { IsReached (program_of p.now) (config_of c.now) }
    ensures { IfOk result (PlansEvent (program_of p.now) (event_of e.now) (config_of c.now)) }
{
    let Some(task) = c.tasks.at(e.task.turns()) else {
        return Ok(Plan::Refused(Stepped::NoTask));
    };
    let next = next_of(task, e.task.len() == 0);
    if let Next::Nothing = next {
        return Ok(Plan::Refused(Stepped::NoTask));
    }
    if c.used.contains(&e.number) {
        return Ok(Plan::Refused(Stepped::Stale));
    }
    match next {
        Next::Does(frame, command) => {
            let plan = plan_command(p, &c.common, &e.stamp(), frame, command)?;
            of_stack(c.common.alloc, plan)
        }
        Next::Leaves(r) => Ok(Plan::Acts(
            Effect::Edits(Edit::Free(r)),
            Change::Steps(StackChange::GoOn(Way::Past)),
        )),
        Next::Returns(g, room) => {
            let all = p.is_init(g);
            let edit = Edit::Close(room, all);
            Ok(Plan::Acts(Effect::Edits(edit), Change::Steps(StackChange::Return)))
        }
        Next::Joins => Ok(Plan::Acts(Effect::Edits(Edit::Nothing), Change::Join)),
        Next::Nothing => Ok(Plan::Refused(Stepped::NoTask)),
    }
}
