//! The return of the procedure that sets the resources up.

ghost use Rattle.std.specs.Prelude.{◌≡◌, ◌≢◌, ◌+◌, ◌-◌, ◌<◌, ◌≤◌, ◌∷◌, [], ℕ, drop, length, map, All, IfOk, OnErr, OnOk, vec_len, vec_capacity};
ghost use Rattle.std.specs.List.{AllByRecursion, slice_get};
ghost use Rattle.sf_base.specs.declared.value.Value.{Value as V};
ghost use Rattle.sf_base.specs.HeapStore.{Slot};
ghost use Rattle.sf_core.specs.Machine.Step.{Event};
ghost use Rattle.sf_core.specs.Machine.Whole.{numbers};
ghost use Rattle.sf_core.specs.Program.ProgramView.{program_of};
ghost use Rattle.sf_core.specs.Program.Syntax.{Resource};
ghost use Rattle.sf_foot.specs.Found.{AreApart};
ghost use Rattle.sf_foot.specs.Starting.{HasWidth};
ghost use Rattle.sf_frame.specs.Checked.Effects.{IsSameCommon};
ghost use Rattle.sf_frame.specs.Commons.{common_of};
ghost use Rattle.sf_frame.specs.Stores.{store_of};
ghost use Rattle.sf_heap.specs.Cells.{HasCell};
ghost use Rattle.sf_part.specs.Checked.Setup.{IsSettled, ReturnsFrom};
ghost use Rattle.sf_part.specs.Checked.Standing.{Runs};
ghost use Rattle.sf_part.specs.Contents.{IsContentIn, content_of};
ghost use Rattle.sf_part.specs.Given.{GivesEach};
ghost use Rattle.sf_part.specs.Leaving.{HasNoContents, IsAtInit};
ghost use Rattle.sf_part.specs.PartView.{HasLogRoom, IsPartOf, part_of};
ghost use Rattle.sf_part.specs.Checked.Handing.{HasNoNext, HasNoneFrom, HasVariables, IsGivenFrom, IsNextShare, LosesShare};

use crate::content::Content;
use crate::fault::PartFault;
use crate::log::Stamped;
use crate::part::Part;
use crate::share::{Share, resource_store, resource_vars};
use crate::stand::Stand;
use crate::stepping::note;
use sf_base::ResId;
use sf_calls::laws::conditions_from_truncation;
use sf_core::laws::assertions::determined_has_one_footprint;
use sf_foot::Found;
use sf_frame::{Change, Edit, Next, Room, Shared, Store, edit, next_of};
use sf_precise::Arranged;
use sf_precise::laws::{order_keeps_meaning, ordered_is_determined};
use std::mem::replace;

impl<'p> Part<'p> {
    /// Makes the return of the procedure that sets the resources up, and gives up just the content
    /// of each resource, in file order: its variables, and the cells that its invariant asks for,
    /// with the return's stamp. `NoFootprint` comes exactly where an invariant has no footprint in
    /// what the earlier ones left. All of them are found before anything moves: after an `Err` the
    /// part is as it was.
    pub fn settle(&mut self, p: &Arranged) -> Result<Vec<Content>, PartFault>
        requires of { IsPartOf (program_of p.now.program) self.old }
        requires init { IsAtInit (program_of p.now.program) (part_of self.old).part }
        requires unit { numbers (part_of self.old).part.supply ≢ [] }
        requires room { HasLogRoom self.old }
        ensures ok { IfOk result (λ contents. (event : Event)
            × GivesEach (program_of p.now.program) event (part_of self.old)
            (map content_of contents.items) (part_of self.new)) }
        ensures contents { IfOk result (λ contents. AllByRecursion
            (λ k. IsContentIn (program_of p.now.program) k) contents.items) }
        ensures none { result ≡ Err PartFault.NoFootprint
            → HasNoContents (program_of p.now.program) (part_of self.old).part }
        ensures err { OnErr result (part_of self.new ≡ part_of self.old) }
        ensures of { IsPartOf (program_of p.now.program) self.new }
    {
        conditions_from_truncation();
        let room = settling_room(self, p);
        self.settled(p, room)
    }

    /// Goes on after that return, whose frame has that room, and gives up the content of each
    /// resource.
    fn settled(&mut self, p: &Arranged, room: Room) -> Result<Vec<Content>, PartFault>
        requires runs { Runs self.old.stand }
        requires there { HasVariables (program_of p.now.program) 0
            (store_of self.old.shared.store) }
        requires unit { numbers self.old.supply ≢ [] }
        requires room { HasLogRoom self.old }
        ensures ok { IfOk result (λ contents. (number : ℕ)
            × (numbers self.old.supply ≡ number ∷ drop 1 (numbers self.old.supply))
            × IsSettled (program_of p.now.program) number room contents.items self.old self.new) }
        ensures none { result ≡ Err PartFault.NoFootprint
            → HasNoContents (program_of p.now.program) (part_of self.old).part }
        ensures err { OnErr result (part_of self.new ≡ part_of self.old) }
        ensures blank { self.new.blank ≡ self.old.blank }
        ensures heap { OnErr result (self.new.shared.heap ≡ self.old.shared.heap) }
    {
        let mut found = Found::new(self.shared.alloc);
        let stamp = self.clock + 1;
        let mut contents = match give_from(&mut self.shared, p, 0, stamp, &mut found) {
            Ok(contents) => contents,
            Err(fault) => return Err(fault),
        };
        contents.reverse();
        edit(&mut self.shared, Edit::Close(room, true));
        let stand = replace(&mut self.stand, Stand::Over);
        self.stand = stand.changed(Change::Return);
        let number = self.supply.next();
        self.supply.spend();
        self.clock = stamp;
        let entry = Stamped {
            stamp,
            task: self.task,
            number,
        };
        note(&mut self.log, self.keeps, entry);
        Ok(contents)
    }
}

/// The slots of the frame from which the task returns, whose procedure sets the resources up.
fn settling_room(part: &Part<'_>, p: &Arranged) -> Room
    requires of { IsPartOf (program_of p.now.program) part.now }
    requires init { IsAtInit (program_of p.now.program) (part_of part.now).part }
    ensures { ReturnsFrom part.now result }
{
    if let Stand::Runs(stack) = &part.stand {
        if let Next::Returns(_, room) = next_of(stack, part.task.len() == 0) {
            return room;
        }
    }
    unreachable!()
}

/// The variables of a resource; the footprint of its invariant in what the earlier ones left is
/// found too. `NoFootprint` comes exactly where there is none.
fn next_share(
    p: &Arranged,
    shared: &Shared,
    r: ResId,
    found: &mut Found,
) -> Result<Store, PartFault>
    requires there { (resource : Resource)
        × (slice_get (program_of p.now.program).resources r.0 ≡ Some resource) }
    requires apart { AreApart shared.now.heap found.old }
    ensures ok { IfOk result
        (IsNextShare (program_of p.now.program) r shared.now found.old found.new) }
    ensures none { result ≡ Err PartFault.NoFootprint
        → HasNoNext (program_of p.now.program) r shared.now found.old }
{
    let store = resource_store(&p.program, shared, r)?;
    let vars = resource_vars(shared.alloc, &p.program, &store, r)?;
    order_keeps_meaning();
    ordered_is_determined();
    determined_has_one_footprint();
    if found.take(shared.alloc, p.invariant(r), &vars, &shared.heap)? {
        Ok(store)
    } else {
        Err(PartFault::NoFootprint)
    }
}

/// Takes a share of a resource out, as its content.
fn give_next(shared: &mut Shared, r: ResId, stamp: u64, share: Share) -> Content
    requires cells { All (HasCell shared.old.heap) share.at }
    requires slots { (slot : Slot) (v : V) → store_of share.store slot ≡ Some v
        → store_of shared.old.store slot ≡ Some v }
    ensures { LosesShare r stamp share.store share.at shared.old result shared.new }
{
    let heap = shared.heap.part_off(&share.at);
    shared.store.cut(&share.store);
    Content {
        resource: r,
        store: share.store,
        heap,
        stamp,
    }
}

/// Takes the contents of the resources from one on out, the last one first. All of them are found
/// before the first one moves: after an `Err` nothing has.
fn give_from(
    shared: &mut Shared,
    p: &Arranged,
    r: u32,
    stamp: u64,
    found: &mut Found,
) -> Result<Vec<Content>, PartFault>
    requires apart { AreApart shared.old.heap found.old }
    requires within { r ≤ length (program_of p.now.program).resources }
    requires there { HasVariables (program_of p.now.program) r (store_of shared.old.store) }
    ensures ok { IfOk result (λ out. IsGivenFrom (program_of p.now.program) r stamp found.old
        shared.old out.items shared.new) }
    ensures parts { OnOk result (found.new.parts.items ≡ found.old.parts.items) }
    ensures room { IfOk result (λ out. vec_len out + r ≤ vec_capacity out) }
    ensures none { result ≡ Err PartFault.NoFootprint
        → HasNoneFrom (program_of p.now.program) r shared.old found.old }
    ensures err { OnErr result (IsSameCommon (common_of shared.new) (common_of shared.old)) }
    ensures heap { OnErr result (shared.new.heap ≡ shared.old.heap) }
{
    let count = p.program.resources.len();
    if r as usize >= count {
        return match Vec::with_capacity(shared.alloc, count) {
            Ok(out) => Ok(out),
            Err(_) => Err(PartFault::OutOfMemory),
        };
    }
    let store = match next_share(p, shared, ResId(r), found) {
        Ok(store) => store,
        Err(fault) => return Err(fault),
    };
    let mut out = match give_from(shared, p, r + 1, stamp, found) {
        Ok(out) => out,
        Err(fault) => return Err(fault),
    };
    let Some(at) = found.parts.pop() else {
        unreachable!()
    };
    out.push_reserved(give_next(shared, ResId(r), stamp, Share { store, at }));
    Ok(out)
}
