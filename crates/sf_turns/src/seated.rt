//! Tasks that others keep: what they do between a fork and its join.

ghost use Rattle.std.specs.Prelude.{◌≡◌, IfOk, IfSome};
ghost use Rattle.sf_turns.specs.Checked.Parting.{HasParted};
ghost use Rattle.sf_turns.specs.Checked.Seats.{HasGone, RunsAt, Seen};
ghost use Rattle.sf_turns.specs.Checked.Kept.{parted, parted_of};

use crate::forks::{Parted, fork, join};
use crate::turns::to_halt;
use sf_part::going::going_composes;
use sf_precise::Arranged;
use sf_region::{Regions, Task};
use std::alloc::AllocError;

/// The most turns that a task takes between two of its forks and joins.
const MOST: u64 = 1_000;

/// A task that is kept beside others.
pub struct Seated<'p> {
    /// The task.
    pub task: Task<'p>,
}

// A call for the proofs of those who drop one: a task is many levels deep.
impl Drop for Seated<'_> {
    fn drop(self) {
        let Seated { task: _ } = self;
    }
}

impl<'p> Seated<'p> {
    /// Gives it up.
    pub fn into_task(self) -> Task<'p>
        ensures { result ≡ self.entry.task }
    {
        let Seated { task } = self;
        task
    }

    /// Goes on as far as the task can alone. An `Err` says that memory ran out.
    pub(crate) fn halted(
        self,
        p: &'p Arranged,
        regions: &Regions<'p>,
    ) -> Result<Seated<'p>, AllocError>
        requires { RunsAt p.now regions.now self.task }
        ensures { IfOk result (λ s. HasGone p.now regions.now self.entry.task s.task) }
    {
        let Seated { task } = self;
        let task = to_halt(task, p, regions, MOST)?;
        Ok(Seated { task })
    }

    /// Makes the parallel call that is the task's next step, as `fork` does.
    pub(crate) fn forked(
        self,
        p: &'p Arranged,
        regions: &Regions<'p>,
    ) -> Result<Option<Forked<'p>>, AllocError>
        requires { RunsAt p.now regions.now self.task }
        ensures { IfOk result (λ o. IfSome o (λ f.
            HasParted p.now regions.now self.entry.task (parted_of f))) }
    {
        let Seated { task } = self;
        let Some(three) = fork(task, p, regions)? else {
            return Ok(None);
        };
        let Parted { waits, left, right } = three;
        Ok(Some(Forked {
            waits: Seated { task: waits },
            left: Seated { task: left },
            right: Seated { task: right },
        }))
    }

    /// Joins the two children of a task that waits, as `join` does; it then goes on as far as it can
    /// alone.
    pub(crate) fn rejoined(
        self,
        left: Seated<'p>,
        right: Seated<'p>,
        p: &'p Arranged,
        regions: &Regions<'p>,
    ) -> Result<Option<Seated<'p>>, AllocError>
        requires { (k : Seen)
            × HasParted p.now regions.now k (parted self.task left.task right.task) }
        ensures { IfOk result (λ o. IfSome o (λ s. (k : Seen)
            → HasParted p.now regions.now k (parted self.entry.task left.entry.task right.entry.task)
            → HasGone p.now regions.now k s.task)) }
    {
        going_composes();
        let Seated { task: waits } = self;
        let Seated { task: left } = left;
        let Seated { task: right } = right;
        let Some(task) = join(Parted { waits, left, right }, p, regions)? else {
            return Ok(None);
        };
        let task = to_halt(task, p, regions, MOST)?;
        Ok(Some(Seated { task }))
    }
}

/// A task that waits at a parallel call, and its two children.
#[derive(Drop)]
pub(crate) struct Forked<'p> {
    pub(crate) waits: Seated<'p>,
    pub(crate) left: Seated<'p>,
    pub(crate) right: Seated<'p>,
}
