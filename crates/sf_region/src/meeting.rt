//! Where tasks meet: the regions of resources.

ghost use Rattle.std.specs.Prelude.{◌≡◌, ◌≢◌, ◌<◌, [], true, false, IfOk, OnErr, OnOk};
ghost use Rattle.sf_base.specs.declared.ids.ResId.{ResId as R};
ghost use Rattle.sf_core.specs.Machine.Whole.{numbers};
ghost use Rattle.sf_core.specs.Program.ProgramView.{program_of};
ghost use Rattle.sf_part.specs.Answers.{Answers};
ghost use Rattle.sf_part.specs.Going.{GoesTo};
ghost use Rattle.sf_part.specs.Leaving.{HasNoContent};
ghost use Rattle.sf_part.specs.PartView.{part_of};
ghost use Rattle.sf_region.specs.Waits.{program_in};
ghost use Rattle.sf_region.specs.Meeting.{HasEntered, HasLeft, HasMissed, HasNoMisses};

use crate::entry::Entry;
use crate::laws::still_clocks_have_no_event;
use crate::receipt::Misses;
use crate::regions::Regions;
use crate::task::Task;
use sf_base::ResId;
use sf_calls::laws::conditions_from_truncation;
use sf_part::whole::regions_are_outside;
use sf_part::{Local, PartFault};
use sf_precise::Arranged;
use std::alloc::AllocError;

impl<'p> Task<'p> {
    /// A try at the region of that resource, at which the task stands, with a unit for the entry:
    /// whether the task is inside of it now. It is not where another task has the resource, or where
    /// the condition is false; then there is one miss more, and the part is as it was. An `Err`
    /// says that memory ran out, and the task is no more.
    pub fn try_region(
        self,
        p: &Arranged,
        regions: &Regions<'p>,
        r: ResId,
    ) -> Result<(Task<'p>, bool), AllocError>
        requires table { self.0.0 ≡ regions.now.0 }
        requires program { program_in self.0.1.begun ≡ program_of p.now.program }
        requires begun { program_in regions.now.1 ≡ program_of p.now.program }
        requires region { Answers (program_of p.now.program) (part_of self.1) (Local.AtRegion r) }
        requires unit { numbers (part_of self.1).part.supply ≢ [] }
        ensures seat { IfOk result (λ t. (t.0.0.0 ≡ self.entry.0.0)
            × (t.0.0.1.begun ≡ self.entry.0.1.begun)) }
        ensures entered { IfOk result (λ t. t.1 ≡ true
            → HasEntered (program_of p.now.program) r (part_of self.entry.1) (part_of t.0.1)) }
        ensures goes { IfOk result (λ t. GoesTo (program_of p.now.program)
            (part_of self.entry.1) (part_of t.0.1)) }
        ensures missed { IfOk result (λ t. t.1 ≡ false
            → HasMissed r self.entry.0.1 self.entry.1 t.0.0.1 t.0.1) }
        ensures fresh { IfOk result (λ t. t.1 ≡ true → HasNoMisses t.0.0.1 t.0.1) }
    {
        conditions_from_truncation();
        regions_are_outside();
        let Task { mut part, mut seat } = self;
        part.make_room()?;
        match regions.try_enter(&mut seat, &part, r) {
            Entry::Held => Ok((Task { part, seat }, false)),
            Entry::Entered(content) => {
                if part.condition(&p.program, &content) {
                    match part.enter(&p.program, content) {
                        Ok(()) => Ok((Task { part, seat }, true)),
                        Err(_) => Err(AllocError),
                    }
                } else {
                    regions.leave(&mut seat, &part, r, content);
                    Ok((Task { part, seat }, false))
                }
            }
        }
    }

    /// Leaves the region of that resource, at whose exit the task stands, with a unit for that, and
    /// gives up just what is the resource's. `NoFootprint` comes exactly where its invariant has no
    /// footprint in the part's cells. After an `Err` the part is as it was, and so is the seat.
    pub fn leave_region(
        &mut self,
        p: &Arranged,
        regions: &Regions<'p>,
        r: ResId,
    ) -> Result<(), PartFault>
        requires table { self.old.0.0 ≡ regions.now.0 }
        requires program { program_in self.old.0.1.begun ≡ program_of p.now.program }
        requires begun { program_in regions.now.1 ≡ program_of p.now.program }
        requires exit { Answers (program_of p.now.program) (part_of self.old.1) (Local.AtExit r) }
        requires unit { numbers (part_of self.old.1).part.supply ≢ [] }
        ensures seat { (self.new.0.0 ≡ self.old.0.0)
            × (self.new.0.1.begun ≡ self.old.0.1.begun) }
        ensures left { OnOk result
            (HasLeft (program_of p.now.program) (part_of self.old.1) (part_of self.new.1)) }
        ensures goes { GoesTo (program_of p.now.program) (part_of self.old.1)
            (part_of self.new.1) }
        ensures none { result ≡ Err PartFault.NoFootprint
            → HasNoContent (program_of p.now.program) (part_of self.old.1).part r }
        ensures err { OnErr result ((part_of self.new.1 ≡ part_of self.old.1)
            × (self.new.0 ≡ self.old.0)) }
        ensures fresh { OnOk result (HasNoMisses self.new.0.1 self.new.1) }
    {
        still_clocks_have_no_event();
        if let Err(_) = self.part.make_room() {
            return Err(PartFault::OutOfMemory);
        }
        let content = self.part.give(p)?;
        let r = content.resource();
        regions.leave(&mut self.seat, &self.part, r, content);
        Ok(())
    }

    /// A receipt for the task's misses at the region at which it stands, of which there is one.
    pub fn misses(&self, regions: &Regions<'p>) -> Misses<'p>
        requires { 0 < self.now.0.1.misses }
        ensures { (result.begun ≡ self.now.0.1.begun)
            × (result.task ≡ (part_of self.now.0.1.part).part.task)
            × (result.resource ≡ self.now.0.1.missed) × (result.count ≡ self.now.0.1.misses) }
    {
        regions.misses(&self.seat)
    }
}
