//! What comes of a schedule: how many of its events are made, and what is found there.

ghost use Rattle.std.specs.Prelude.{length};
ghost use Rattle.std.specs.List.{All};
ghost use Rattle.sf_core.specs.Program.ProgramView.{program_of};
ghost use Rattle.sf_foot.specs.Starting.{StartsWith};
ghost use Rattle.sf_replay.specs.Checked.Taking.{IsWide};

use sf_base::{ProcId, TaskPath, Thing, Value};
use sf_foot::Start;
use sf_machine::Stepped;
use sf_precise::Arranged;
use sf_replay::{Found, ReplayFault, Schedule, replay};
use std::alloc::{AllocError, Global};

/// What is found at the end of a tour.
#[derive(Clone, Copy, Debug, PartialEq, Eq)]
pub enum Sight {
    /// Each event is made, and nothing is bad.
    Clean,
    /// The task is about to touch a cell at this value, where there is none.
    Absent(TaskPath, Value),
    /// The two tasks race on this thing.
    Race(TaskPath, TaskPath, Thing),
    /// The next event is none, for that reason.
    NotAnEvent(Stepped),
}

/// What comes of a schedule.
#[derive(Clone, Copy, Debug, PartialEq, Eq)]
pub struct Tour {
    /// How many of its events are made before that.
    pub count: usize,
    /// What is found there.
    pub sight: Sight,
}

/// What comes of a schedule from a start of procedure `f`. An `Err` says that memory ran out.
pub fn tour_of(
    alloc: Global,
    arranged: &Arranged,
    f: ProcId,
    start: &Start,
    schedule: &Schedule,
) -> Result<Tour, AllocError>
    requires starts { StartsWith (program_of arranged.now.program) f start.now.fresh start.now.vars
        start.now.heap start.now.parts.items }
    requires fields { All (IsWide (length arranged.now.program.fields.items)) schedule.now }
{
    match replay(alloc, arranged, f, start, schedule) {
        Ok(found) => Ok(tour_to(schedule.len(), found)),
        Err(ReplayFault::NotAnEvent(count, why)) => Ok(Tour {
            count,
            sight: Sight::NotAnEvent(why),
        }),
        Err(ReplayFault::OutOfMemory) => Err(AllocError),
    }
}

/// The tour to what is found of a schedule of so many events.
fn tour_to(events: usize, found: Found) -> Tour {
    match found {
        Found::Clean => Tour {
            count: events,
            sight: Sight::Clean,
        },
        Found::Absent(count, task, value) => Tour {
            count: count as usize,
            sight: Sight::Absent(task, value),
        },
        Found::Race(count, task, other, thing) => Tour {
            count: count as usize,
            sight: Sight::Race(task, other, thing),
        },
    }
}
