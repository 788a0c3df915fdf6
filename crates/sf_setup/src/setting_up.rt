//! The resources set up.

ghost use Rattle.std.specs.Prelude.{◌≡◌, IfErr, IfOk, map};
ghost use Rattle.std.specs.List.{AllByRecursion};
ghost use Rattle.sf_core.specs.Machine.Step.{Event};
ghost use Rattle.sf_core.specs.Program.ProgramView.{program_of};
ghost use Rattle.sf_own.specs.Checked.Accepted.{IsAccepted};
ghost use Rattle.sf_part.specs.Answers.{Answers};
ghost use Rattle.sf_part.specs.Checked.LawsOfSettingUp.{IsSettingUp};
ghost use Rattle.sf_part.specs.Contents.{IsContentIn, content_of};
ghost use Rattle.sf_part.specs.declared.local.Local.{Local};
ghost use Rattle.sf_part.specs.Given.{GivesEach};
ghost use Rattle.sf_part.specs.PartView.{IsPartOf, part_of};
ghost use Rattle.sf_setup.specs.Checked.Alone.{HasDrained, IsAlone};
ghost use Rattle.sf_setup.specs.Checked.Fresh.{BeginsFresh, Origin};
ghost use Rattle.sf_setup.specs.Checked.SetUp.{HasSetUp, HasStopped, IsSetUp};

use crate::alone::run_alone;
use crate::laws::{drained_tasks_have_spent_steps, resources_are_set_up};
use crate::run_laws::run_laws;
use crate::stop::SetUpStop;
use sf_io::Gate;
use sf_part::{Content, Part, PartFault};
use sf_precise::Arranged;
use std::thread::Threads;

/// Sets the resources up: from the part with which a run begins that is to do so it runs the
/// procedure `init`, up to its return, which leaves the content of each resource, in file order.
/// Parallel calls of it run on threads of their own, where these can be made, and each child passes
/// the gate at its start. No table of resources is needed, since the task holds them all: no task
/// comes to a region. A log that the part keeps goes on with the events of all tasks (`laws`).
/// `Steps` says that a task would go on and has used as many units as it was given.
pub fn set_up<'p, R: Threads + Sync, G: Gate>(
    rt: &R,
    p: &'p Arranged,
    part: Part<'p>,
    gate: &G,
) -> Result<(Part<'p>, Vec<Content>), SetUpStop>
    requires accepted { IsAccepted (program_of p.now.program) }
    requires of { IsPartOf (program_of p.now.program) part }
    requires fresh { (o : Origin) × BeginsFresh (program_of p.now.program) o (part_of part) }
    ensures ok { IfOk result (λ t. HasSetUp (program_of p.now.program) (part_of part.entry)
        (map content_of t.1.items) (part_of t.0)) }
    ensures keeps { IfOk result (λ t. (part_of t.0).keeps ≡ (part_of part.entry).keeps) }
    ensures leads { IfOk result (λ t. (o : Origin)
        → BeginsFresh (program_of p.now.program) o (part_of part.entry)
        → IsSetUp (program_of p.now.program) o (map content_of t.1.items) (part_of t.0)) }
    ensures of { IfOk result (λ t. IsPartOf (program_of p.now.program) t.0) }
    ensures contents { IfOk result (λ t. AllByRecursion
        (λ k. IsContentIn (program_of p.now.program) k) t.1.items) }
    ensures err { IfErr result (λ stop. (o : Origin)
        → BeginsFresh (program_of p.now.program) o (part_of part.entry)
        → HasStopped (program_of p.now.program) o stop) }
{
    run_laws();
    drained_tasks_have_spent_steps();
    resources_are_set_up();
    let _path = part.task();
    let last = match run_alone(rt, p, gate, part) {
        Ok(last) => last,
        Err(stop) => return Err(stop),
    };
    settle(p, last)
}

/// The return of the procedure that sets the resources up, at which the task stands.
fn settle<'p>(p: &'p Arranged, part: Part<'p>) -> Result<(Part<'p>, Vec<Content>), SetUpStop>
    requires accepted { IsAccepted (program_of p.now.program) }
    requires alone { IsAlone (program_of p.now.program) part }
    requires setting_up { IsSettingUp (program_of p.now.program) (part_of part).part }
    requires at { Answers (program_of p.now.program) (part_of part) Local.AtInit }
    ensures gives { IfOk result (λ t. (event : Event)
        × GivesEach (program_of p.now.program) event (part_of part.entry)
        (map content_of t.1.items) (part_of t.0)) }
    ensures of { IfOk result (λ t. IsPartOf (program_of p.now.program) t.0) }
    ensures contents { IfOk result (λ t. AllByRecursion
        (λ k. IsContentIn (program_of p.now.program) k) t.1.items) }
    ensures drained { IfErr result (HasDrained (program_of p.now.program)
        (part_of part.entry)) }
{
    run_laws();
    let mut part = part;
    let path = part.task();
    if !part.has_unit() {
        return Err(SetUpStop::Steps(path, part.given()));
    }
    part.make_room()?;
    match part.settle(p) {
        Ok(contents) => Ok((part, contents)),
        Err(PartFault::OutOfMemory) => Err(SetUpStop::OutOfMemory),
        Err(PartFault::NoFootprint) => unreachable!(),
    }
}
