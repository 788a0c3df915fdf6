//! The entry of a region.

ghost use Rattle.std.specs.Prelude.{◌≡◌, ◌≢◌, ◌∷◌, ◌≤◌, ◌+◌, ℕ, drop, length, IfErr, OnErr, OnOk, false};
ghost use Rattle.std.specs.List.{slice_get};
ghost use Rattle.sf_base.specs.HeapStore.{Apart, Slot};
ghost use Rattle.sf_core.specs.Machine.Step.{Event};
ghost use Rattle.sf_core.specs.Machine.Whole.{numbers};
ghost use Rattle.sf_core.specs.Program.ProgramView.{program_of};
ghost use Rattle.sf_foot.specs.Starting.{HasWidth};
ghost use Rattle.sf_frame.specs.Checked.Effects.{IsSameCommon};
ghost use Rattle.sf_frame.specs.Commons.{common_of};
ghost use Rattle.sf_frame.specs.Stores.{is_among, store_of};
ghost use Rattle.sf_part.specs.Checked.Standing.{Runs};
ghost use Rattle.sf_part.specs.Checked.Taking.{HasSpots, IsEntered, TakesIn};
ghost use Rattle.sf_part.specs.Contents.{IsContentIn, content_of};
ghost use Rattle.sf_part.specs.Entry.{AreApart, MayEnter};
ghost use Rattle.sf_part.specs.Parts.{part_with};
ghost use Rattle.sf_part.specs.PartView.{HasLogRoom, IsPartOf, part_of};
ghost use Rattle.sf_part.specs.Steps.{Enters};

use crate::content::Content;
use crate::log::Stamped;
use crate::part::Part;
use crate::spots::{variable_count, variable_spots};
use crate::stand::Stand;
use crate::stepping::note;
use sf_core::Program;
use sf_frame::{Change, Edit, Effect, Shared, Spot, Stamp, Way, apply, edit};
use std::mem::replace;

impl<'p> Part<'p> {
    /// Enters the region at which the task stands, with the content of its resource, whose
    /// condition is true of it: the part has the content's variables and cells from then on, and
    /// its clock goes on from the content's stamp where that is later. An `Err` says that memory
    /// ran out, hands the content back, and leaves the part as it was.
    pub fn enter(&mut self, p: &Program, content: Content) -> Result<(), Content>
        requires of { IsPartOf (program_of p.now) self.old }
        requires content { IsContentIn (program_of p.now) content }
        requires may { MayEnter (part_of self.old) (content_of content) }
        requires room { HasLogRoom self.old }
        ensures ok { OnOk result ((event : Event)
            × Enters (program_of p.now) event (part_of self.old) (content_of content)
            (part_of self.new)) }
        ensures err { OnErr result (part_of self.new ≡ part_of self.old) }
        ensures content_returned { IfErr result (λ back. back ≡ content) }
        ensures of { IsPartOf (program_of p.now) self.new }
    {
        let r = content.resource;
        let count = variable_count(p, r);
        let Ok(spots) = variable_spots(self.shared.alloc, r, count) else {
            return Err(content);
        };
        self.entered(content, spots.as_slice())
    }

    /// Takes the content in whose slots are those, and goes into the region of its resource. An
    /// `Err` says that memory ran out, hands the content back, and leaves the part as it was.
    fn entered(&mut self, content: Content, spots: &[Spot]) -> Result<(), Content>
        requires runs { Runs self.old.stand }
        requires may { MayEnter (part_of self.old) (content_of content) }
        requires spots { HasSpots spots.now content }
        requires room { HasLogRoom self.old }
        ensures ok { OnOk result ((number : ℕ)
            × (numbers self.old.supply ≡ number ∷ drop 1 (numbers self.old.supply))
            × IsEntered number content self.old self.new) }
        ensures err { OnErr result (part_of self.new ≡ part_of self.old) }
        ensures content_returned { IfErr result (λ back. back ≡ content) }
        ensures blank { self.new.blank ≡ self.old.blank }
        ensures width { (count : ℕ) → length self.old.blank ≡ count → HasWidth count content.heap
            → HasWidth count self.old.shared.heap → HasWidth count self.new.shared.heap }
    {
        let r = content.resource;
        let stamp = content.stamp;
        let number = self.supply.next();
        let event = Stamp {
            task: self.task,
            number,
            at: number,
        };
        if let Err(_) = apply(&mut self.shared, &event, &self.blank, Effect::Hold(r)) {
            return Err(content);
        }
        if let Err(back) = take_in(&mut self.shared, content, spots) {
            edit(&mut self.shared, Edit::Free(r));
            return Err(back);
        }
        let stand = replace(&mut self.stand, Stand::Over);
        self.stand = stand.changed(Change::GoOn(Way::Into));
        self.supply.spend();
        self.clock = self.clock.max(stamp) + 1;
        let entry = Stamped {
            stamp: self.clock,
            task: self.task,
            number,
        };
        note(&mut self.log, self.keeps, entry);
        Ok(())
    }
}

/// Takes a content's cells and slots, which are those, in beside what is there. An `Err` says that
/// memory ran out, hands the content back, and leaves all as it was.
fn take_in(shared: &mut Shared, content: Content, spots: &[Spot]) -> Result<(), Content>
    requires heap { (location : ℕ) → Apart ((common_of shared.old).heap location)
        ((content_of content).content.heap location) }
    requires store { (slot : Slot) → Apart ((common_of shared.old).store slot)
        ((content_of content).content.store slot) }
    requires spots { HasSpots spots.now content }
    ensures ok { OnOk result (TakesIn shared.old content shared.new) }
    ensures err { OnErr result (IsSameCommon (common_of shared.new) (common_of shared.old)) }
    ensures content_returned { IfErr result (λ back. back ≡ content) }
    ensures width { (count : ℕ) → HasWidth count content.heap → HasWidth count shared.old.heap
        → HasWidth count shared.new.heap }
{
    let Ok(copy) = content.store.copy_of(shared.alloc, spots) else {
        return Err(content);
    };
    if let Err(_) = shared.store.join(copy) {
        return Err(content);
    }
    let Content {
        resource,
        store,
        heap,
        stamp,
    } = content;
    match shared.heap.join(heap) {
        Ok(()) => Ok(()),
        Err(heap) => {
            shared.store.cut(&store);
            Err(Content {
                resource,
                store,
                heap,
                stamp,
            })
        }
    }
}
