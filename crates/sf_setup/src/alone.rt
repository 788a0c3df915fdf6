//! A task, from where it stands to its end or to the return of the procedure that sets the
//! resources up.

ghost use Rattle.std.specs.Prelude.{IfErr, IfOk};
ghost use Rattle.sf_core.specs.Program.ProgramView.{program_of};
ghost use Rattle.sf_own.specs.Checked.Accepted.{IsAccepted};
ghost use Rattle.sf_part.specs.PartView.{part_of};
ghost use Rattle.sf_setup.specs.Checked.Alone.{HasCome, HasDrained, IsAlone};
ghost use Rattle.sf_setup.specs.Checked.Turns.{HasTurned};

use crate::forks::fork;
use crate::run_laws::run_laws;
use crate::stop::SetUpStop;
use sf_io::Gate;
use sf_part::{Local, Part};
use sf_precise::Arranged;
use std::thread::Threads;

/// What the next turn of a task comes to.
#[derive(Drop)]
pub(crate) enum Turned<'p> {
    /// It goes on.
    Moves(Part<'p>),
    /// It has ended, or returns next from the procedure that sets the resources up.
    Stands(Part<'p>),
}

/// Runs a task, with the tasks that it makes, to its end or to the return of the procedure that
/// sets the resources up. It comes to no region.
#[cycle(tasks)]
pub(crate) fn run_alone<'c, 'p, R: Threads + Sync, G: Gate>(
    rt: &R,
    p: &'p Arranged,
    gate: &'c G,
    part: Part<'p>,
) -> Result<Part<'p>, SetUpStop>
    requires accepted { IsAccepted (program_of p.now.program) }
    requires alone { IsAlone (program_of p.now.program) part }
    ensures come { IfOk result (HasCome (program_of p.now.program) part.entry) }
    ensures drained { IfErr result (HasDrained (program_of p.now.program)
        (part_of part.entry)) }
{
    run_laws();
    let mut part = part;
    'turns: loop {
        match turn(rt, p, gate, part) {
            Ok(Turned::Moves(next)) => part = next,
            Ok(Turned::Stands(last)) => return Ok(last),
            Err(stop) => return Err(stop),
        }
    }
}

/// The next turn of a task.
#[cycle(tasks)]
fn turn<'c, 'p, R: Threads + Sync, G: Gate>(
    rt: &R,
    p: &'p Arranged,
    gate: &'c G,
    part: Part<'p>,
) -> Result<Turned<'p>, SetUpStop>
    requires accepted { IsAccepted (program_of p.now.program) }
    requires alone { IsAlone (program_of p.now.program) part }
    ensures turned { IfOk result (HasTurned (program_of p.now.program) part.entry) }
    ensures drained { IfErr result (HasDrained (program_of p.now.program)
        (part_of part.entry)) }
{
    run_laws();
    let mut part = part;
    let path = part.task();
    part.make_room()?;
    match part.step_local(&p.program)? {
        Local::Moved => Ok(Turned::Moves(part)),
        Local::Done => Ok(Turned::Stands(part)),
        Local::AtInit => Ok(Turned::Stands(part)),
        Local::AtFork => Ok(Turned::Moves(fork(rt, p, gate, part)?)),
        Local::Spent => Err(SetUpStop::Steps(path, part.given())),
        Local::AtRegion(_) => unreachable!(),
        Local::AtExit(_) => unreachable!(),
        Local::Absent(_) => unreachable!(),
    }
}
