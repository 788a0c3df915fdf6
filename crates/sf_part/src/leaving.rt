//! The exit from a region.

ghost use Rattle.std.specs.Prelude.{◌≡◌, ◌≢◌, ◌∷◌, [], ℕ, drop, All, IfOk, OnErr};
ghost use Rattle.sf_base.specs.declared.ids.ResId.{ResId as R};
ghost use Rattle.sf_base.specs.declared.value.Value.{Value as V};
ghost use Rattle.sf_base.specs.HeapStore.{Slot};
ghost use Rattle.sf_core.specs.Machine.Step.{Event};
ghost use Rattle.sf_core.specs.Machine.Whole.{numbers};
ghost use Rattle.sf_core.specs.Program.ProgramView.{program_of};
ghost use Rattle.sf_foot.specs.Starting.{HasWidth};
ghost use Rattle.sf_frame.specs.Stores.{store_of};
ghost use Rattle.sf_heap.specs.Cells.{HasCell};
ghost use Rattle.sf_part.specs.Checked.Giving.{IsGivenUp};
ghost use Rattle.sf_part.specs.Checked.Standing.{Runs};
ghost use Rattle.sf_part.specs.Contents.{IsContentIn, content_of};
ghost use Rattle.sf_part.specs.Given.{Gives};
ghost use Rattle.sf_part.specs.Leaving.{HasNoContent, IsAtExit};
ghost use Rattle.sf_part.specs.PartView.{HasLogRoom, IsPartOf, part_of};

use crate::content::Content;
use crate::fault::PartFault;
use crate::log::Stamped;
use crate::part::Part;
use crate::share::{Share, resource_share};
use crate::stand::Stand;
use crate::stepping::note;
use sf_base::ResId;
use sf_calls::laws::conditions_from_truncation;
use sf_frame::{Change, Edit, Next, Way, edit, next_of};
use sf_precise::Arranged;
use std::mem::replace;

impl<'p> Part<'p> {
    /// Leaves the region at whose exit the task stands, and gives up just what is its resource's:
    /// its variables, and the cells that its invariant asks for, with the exit's stamp.
    /// `NoFootprint` comes exactly where the invariant has no footprint in the part's cells. All
    /// room is taken before anything moves: after an `Err` the part is as it was.
    pub fn give(&mut self, p: &Arranged) -> Result<Content, PartFault>
        requires of { IsPartOf (program_of p.now.program) self.old }
        requires exit { (r : R) × IsAtExit (part_of self.old).part r }
        requires unit { numbers (part_of self.old).part.supply ≢ [] }
        requires room { HasLogRoom self.old }
        ensures ok { IfOk result (λ k. (event : Event) × Gives (program_of p.now.program) event
            (part_of self.old) (content_of k) (part_of self.new)) }
        ensures content { IfOk result (IsContentIn (program_of p.now.program)) }
        ensures none { result ≡ Err PartFault.NoFootprint → (r : R)
            → IsAtExit (part_of self.old).part r
            → HasNoContent (program_of p.now.program) (part_of self.old).part r }
        ensures err { OnErr result (part_of self.new ≡ part_of self.old) }
        ensures of { IsPartOf (program_of p.now.program) self.new }
    {
        conditions_from_truncation();
        let r = exit_of(self);
        match resource_share(p, &self.shared, r) {
            Ok(share) => Ok(self.given_up(r, share)),
            Err(fault) => Err(fault),
        }
    }

    /// Goes on after the exit from the region of a resource, and gives that up.
    fn given_up(&mut self, r: ResId, share: Share) -> Content
        requires runs { Runs self.old.stand }
        requires unit { numbers self.old.supply ≢ [] }
        requires cells { All (HasCell self.old.shared.heap) share.at }
        requires slots { (slot : Slot) (v : V) → store_of share.store slot ≡ Some v
            → store_of self.old.shared.store slot ≡ Some v }
        requires room { HasLogRoom self.old }
        ensures given { (number : ℕ)
            × (numbers self.old.supply ≡ number ∷ drop 1 (numbers self.old.supply))
            × IsGivenUp number r share result self.old self.new }
        ensures content_width { (count : ℕ) → HasWidth count self.old.shared.heap
            → HasWidth count result.heap }
        ensures width { (count : ℕ) → HasWidth count self.old.shared.heap
            → HasWidth count self.new.shared.heap }
    {
        let heap = self.shared.heap.part_off(&share.at);
        self.shared.store.cut(&share.store);
        edit(&mut self.shared, Edit::Free(r));
        let stand = replace(&mut self.stand, Stand::Over);
        self.stand = stand.changed(Change::GoOn(Way::Past));
        let number = self.supply.next();
        self.supply.spend();
        self.clock += 1;
        let entry = Stamped {
            stamp: self.clock,
            task: self.task,
            number,
        };
        note(&mut self.log, self.keeps, entry);
        Content {
            resource: r,
            store: share.store,
            heap,
            stamp: self.clock,
        }
    }
}

/// The resource of the region at whose exit the task stands.
fn exit_of(part: &Part<'_>) -> ResId
    requires { (r : R) × IsAtExit (part_of part.now).part r }
    ensures { IsAtExit (part_of part.now).part result }
{
    if let Stand::Runs(stack) = &part.stand {
        if let Next::Leaves(r) = next_of(stack, part.task.len() == 0) {
            return r;
        }
    }
    unreachable!()
}
