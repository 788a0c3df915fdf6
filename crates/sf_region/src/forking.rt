//! Where tasks part and come together again: parallel calls.

ghost use Rattle.std.specs.Prelude.{◌≡◌, ◌≢◌, ◌<◌, ◌++◌, [], length, IfOk};
ghost use Rattle.sf_base.specs.declared.limits.TheConstants.{TURNS};
ghost use Rattle.sf_core.specs.Machine.Step.{Event};
ghost use Rattle.sf_core.specs.Machine.Whole.{numbers};
ghost use Rattle.sf_core.specs.Program.ProgramView.{program_of};
ghost use Rattle.sf_part.specs.Answers.{Answers};
ghost use Rattle.sf_part.specs.Forking.{HasNoShares};
ghost use Rattle.sf_part.specs.Going.{GoesTo, HaveGoneOn};
ghost use Rattle.sf_part.specs.Lent.{Lends};
ghost use Rattle.sf_part.specs.PartView.{part_of};
ghost use Rattle.sf_part.specs.Steps.{Joins};
ghost use Rattle.sf_part.specs.Timed.{TimedPart};
ghost use Rattle.sf_region.specs.Waits.{program_in};
ghost use Rattle.sf_region.specs.Meeting.{HasNoMisses, IsAtRest};

use crate::regions::Regions;
use crate::task::Task;
use sf_part::going::{ended_children_may_be_taken_back, joins_go_on};
use sf_part::{Local, PartFault};
use sf_precise::Arranged;
use std::alloc::AllocError;

impl<'p> Task<'p> {
    /// Makes the parallel call at which the task stands, and gives the tasks of its two children,
    /// each with just its share of what the task has. The task waits then. `NoFootprint` comes
    /// exactly where it has no two such shares. After an `Err` the task is no more.
    pub fn fork(
        self,
        p: &'p Arranged,
        regions: &Regions<'p>,
    ) -> Result<(Task<'p>, Task<'p>, Task<'p>), PartFault>
        requires table { self.0.0 ≡ regions.now.0 }
        requires program { program_in self.0.1.begun ≡ program_of p.now.program }
        requires begun { program_in regions.now.1 ≡ program_of p.now.program }
        requires fork { Answers (program_of p.now.program) (part_of self.1) Local.AtFork }
        requires turns { length (part_of self.1).part.task < TURNS }
        requires unit { numbers (part_of self.1).part.supply ≢ [] }
        ensures lends { IfOk result (λ t. (event : Event)
            × Lends (program_of p.now.program) event (part_of self.entry.1) (part_of t.0.1)
            (part_of t.1.1) (part_of t.2.1)) }
        ensures gone { IfOk result (λ t. HaveGoneOn (program_of p.now.program)
            (part_of self.entry.1) (part_of t.0.1) (part_of t.1.1) (part_of t.2.1)) }
        ensures tables { IfOk result (λ t. (t.0.0.0 ≡ self.entry.0.0)
            × (t.1.0.0 ≡ self.entry.0.0) × (t.2.0.0 ≡ self.entry.0.0)) }
        ensures begun { IfOk result (λ t. (t.0.0.1.begun ≡ self.entry.0.1.begun)
            × (t.1.0.1.begun ≡ self.entry.0.1.begun) × (t.2.0.1.begun ≡ self.entry.0.1.begun)) }
        ensures rests { IfOk result (λ t. IsAtRest t.0.0.1 t.0.1 × IsAtRest t.1.0.1 t.1.1
            × IsAtRest t.2.0.1 t.2.1) }
        ensures none { result ≡ Err PartFault.NoFootprint
            → HasNoShares (program_of p.now.program) (part_of self.entry.1) }
        ensures fresh { IfOk result (λ t. HasNoMisses t.1.0.1 t.1.1 × HasNoMisses t.2.0.1 t.2.1) }
    {
        let Task { mut part, mut seat } = self;
        if let Err(_) = part.make_room() {
            return Err(PartFault::OutOfMemory);
        }
        // What a part keeps is told with its task.
        let _path = part.task();
        let (left, right) = part.split(p)?;
        let (one, two) = regions.split(&mut seat, &part, &left, &right);
        Ok((
            Task { part, seat },
            Task {
                part: left,
                seat: one,
            },
            Task {
                part: right,
                seat: two,
            },
        ))
    }

    /// Takes the two children of the task's fork back, which have ended, with all that they have,
    /// and goes on after the fork. One of them has a unit left for that. An `Err` says that memory
    /// ran out, and the three are no more.
    pub fn join(
        self,
        p: &Arranged,
        regions: &Regions<'p>,
        left: Task<'p>,
        right: Task<'p>,
    ) -> Result<Task<'p>, AllocError>
        requires tables { (self.0.0 ≡ regions.now.0) × (left.0.0 ≡ regions.now.0)
            × (right.0.0 ≡ regions.now.0) }
        requires program { program_in self.0.1.begun ≡ program_of p.now.program }
        requires children { (program_in left.0.1.begun ≡ program_of p.now.program)
            × (program_in right.0.1.begun ≡ program_of p.now.program) }
        requires begun { program_in regions.now.1 ≡ program_of p.now.program }
        requires rests { IsAtRest self.0.1 self.1 }
        requires gone { (before : TimedPart) × HaveGoneOn (program_of p.now.program) before
            (part_of self.1) (part_of left.1) (part_of right.1) }
        requires left_ended { Answers (program_of p.now.program) (part_of left.1) Local.Done }
        requires right_ended { Answers (program_of p.now.program) (part_of right.1) Local.Done }
        requires unit { numbers (part_of left.1).part.supply
            ++ numbers (part_of right.1).part.supply ≢ [] }
        ensures joins { IfOk result (λ t. (event : Event)
            × Joins (program_of p.now.program) event (part_of self.entry.1)
            (part_of left.entry.1) (part_of right.entry.1) (part_of t.1)) }
        ensures goes { IfOk result (λ t. (before : TimedPart)
            → HaveGoneOn (program_of p.now.program) before (part_of self.entry.1)
            (part_of left.entry.1) (part_of right.entry.1)
            → GoesTo (program_of p.now.program) before (part_of t.1)) }
        ensures table { IfOk result (λ t. (t.0.0 ≡ self.entry.0.0)
            × (t.0.1.begun ≡ self.entry.0.1.begun)) }
        ensures fresh { IfOk result (λ t. HasNoMisses t.0.1 t.1) }
    {
        let Task { mut part, mut seat } = self;
        let Task {
            part: one,
            seat: left_seat,
        } = left;
        let Task {
            part: two,
            seat: right_seat,
        } = right;
        ended_children_may_be_taken_back();
        joins_go_on();
        regions.join(&mut seat, left_seat, &one, right_seat, &two);
        match part.join(one, two) {
            Ok(()) => Ok(Task { part, seat }),
            Err(_) => Err(AllocError),
        }
    }
}
