//! What is told of a task that would go on and has no unit left.

ghost use Rattle.std.specs.Prelude.{◌≡◌, ◌++◌, []};
ghost use Rattle.sf_core.specs.Machine.Whole.{numbers};
ghost use Rattle.sf_core.specs.Program.ProgramView.{program_of};
ghost use Rattle.sf_part.specs.Answers.{Answers};
ghost use Rattle.sf_part.specs.Going.{HaveGoneOn};
ghost use Rattle.sf_part.specs.PartView.{part_of};
ghost use Rattle.sf_part.specs.Timed.{TimedPart};
ghost use Rattle.sf_region.specs.Drained.{Drained, IsGoing};
ghost use Rattle.sf_region.specs.Meeting.{IsAtRest};
ghost use Rattle.sf_region.specs.Waits.{program_in};

use crate::regions::Regions;
use crate::task::Task;
use sf_part::Local;
use sf_part::going::ended_children_may_be_taken_back;
use sf_precise::Arranged;

impl<'p> Task<'p> {
    /// Tells of a task that would go on and has no unit left: some list of events from where the
    /// table began has used up just what it was given. No memory is taken, and nothing is waited
    /// for; the task is no more.
    pub fn tell_spent(self, p: &Arranged, regions: &Regions<'p>)
        requires table { self.0.0 ≡ regions.now.0 }
        requires program { program_in self.0.1.begun ≡ program_of p.now.program }
        requires begun { program_in regions.now.1 ≡ program_of p.now.program }
        requires going { IsGoing (part_of self.1) }
        requires spent { numbers (part_of self.1).part.supply ≡ [] }
        ensures { Drained self.entry.0.1.begun (part_of self.entry.1).part.task
            (part_of self.entry.1).given }
    {
        let Task { part, seat } = self;
        regions.tell_spent(seat, &part);
    }

    /// The same of a task that waits for two children that have ended, where neither has a unit
    /// left for the join: what it was given, they and it have used. The three are no more.
    pub fn tell_spent_join(
        self,
        p: &Arranged,
        regions: &Regions<'p>,
        left: Task<'p>,
        right: Task<'p>,
    )
        requires tables { (self.0.0 ≡ regions.now.0) × (left.0.0 ≡ regions.now.0)
            × (right.0.0 ≡ regions.now.0) }
        requires program { program_in self.0.1.begun ≡ program_of p.now.program }
        requires children { (program_in left.0.1.begun ≡ program_of p.now.program)
            × (program_in right.0.1.begun ≡ program_of p.now.program) }
        requires begun { program_in regions.now.1 ≡ program_of p.now.program }
        requires rests { IsAtRest self.0.1 self.1 }
        requires gone { (before : TimedPart) × HaveGoneOn (program_of p.now.program) before
            (part_of self.1) (part_of left.1) (part_of right.1) }
        requires left_ended { Answers (program_of p.now.program) (part_of left.1) Local.Done }
        requires right_ended { Answers (program_of p.now.program) (part_of right.1) Local.Done }
        requires spent { numbers (part_of left.1).part.supply
            ++ numbers (part_of right.1).part.supply ≡ [] }
        ensures { Drained self.entry.0.1.begun (part_of self.entry.1).part.task
            (part_of self.entry.1).given }
    {
        let Task { seat, .. } = self;
        let Task {
            part: one,
            seat: left_seat,
        } = left;
        let Task {
            part: two,
            seat: right_seat,
        } = right;
        ended_children_may_be_taken_back();
        regions.tell_spent_join(seat, left_seat, &one, right_seat, &two);
    }
}
