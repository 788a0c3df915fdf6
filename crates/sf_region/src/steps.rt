//! The steps on the words of a table. A step can't see the arguments of the call that makes it, so
//! the call names them by ghosts.

ghost use Rattle.std.specs.Prelude.{◌≡◌, ◌≢◌, ◌<◌, ◌+◌, suc, [], ◌∷◌, true, false};
ghost use mathlib.Core.Option.{none};
ghost use Rattle.atomic_table.specs.Table.{step};
ghost use Rattle.sf_core.specs.Machine.Whole.{numbers};
ghost use Rattle.sf_part.specs.Guards.{IsAtRegion};
ghost use Rattle.sf_part.specs.PartView.{part_of};
ghost use Rattle.sf_region.specs.Calls.{IsNear, MaySplit};
ghost use Rattle.sf_region.specs.Keys.{begun_of};
ghost use Rattle.sf_region.specs.Checked.PutBack.{IsPutBack};
ghost use Rattle.sf_region.specs.Checked.Spent.{spent_view};
ghost use Rattle.sf_region.specs.Plays.{aimed, buries, child, dead, drains, joined, leaves, looks, notes, parent, seen, tries};
ghost use Rattle.sf_region.specs.Rule.{Law, opening_view};
ghost use Rattle.sf_region.specs.Waits.{program_in};

use crate::part_laws::part_laws;
use crate::views::View;
use atomic_table::{Join, Play, Seat, Shared, Split, TableRule};
use sf_base::ResId;
use sf_core::Program;
use sf_part::{Content, Part};
use std::marker::{Brand, PhantomData};
use std::snapshot::Snapshot;

/// With what a table began, for its rule.
#[derive(Drop)]
pub struct Key<'p> {
    pub program: Snapshot<Program>,
    pub part: Snapshot<Part<'p>>,
    pub contents: Snapshot<Vec<Content>>,
}

/// The rule.
pub struct Ruled;

impl<'p> TableRule<Option<Content>, View<'p>, Key<'p>> for Ruled {
    ghost holds = { λ k s. Law (begun_of k) s };

    ghost first = { λ k. opening_view (begun_of k) };
}

/// The part that a step puts into the view, and the parts of children.
pub trait Aim {
    ghost use Rattle.std.specs.Prelude.{List};
    ghost use Rattle.sf_part.specs.declared.part.Part.{Part};

    ghost parts: { List Part };
}

impl Aim for Brand {
    ghost use Rattle.std.specs.Prelude.{[]};

    ghost parts = { [] };
}

/// A try at a resource.
pub struct Tries<N> {
    aim: PhantomData<N>,
}

impl<'p, N: Aim> Play<Option<Content>, View<'p>> for Tries<N> {
    ghost then = { λ s m r n. aimed N.parts (λ a kids. tries a s m r n) };
}

/// Takes the resource's word where it is free, and says what it was.
pub fn try_word<'p, N: Aim>(
    shared: &Shared<Option<Content>, View<'p>, Key<'p>, Ruled>,
    seat: &mut Seat<Option<Content>, View<'p>>,
    part: &Part<'p>,
    r: ResId,
) -> u64
    requires aim { N.parts ≡ part.now ∷ [] }
    requires table { seat.old.table_id ≡ shared.now.table_id }
    requires wide { shared.now.table_id.words ≡ suc shared.now.table_id.slots }
    requires index { r.0 < shared.now.table_id.slots }
    requires live { seat.old.me.0.live ≡ true }
    requires near { IsNear (program_in (begun_of shared.now.key)) seat.old.me.0 part.now }
    requires stands { IsAtRegion (part_of part.now).part r }
    requires outside { (part_of part.now).part.holds r ≡ false }
    requires unit { numbers (part_of part.now).part.supply ≢ [] }
    ensures seat { (seat.new.table_id ≡ seat.old.table_id) × (seat.new.id ≡ seat.old.id) }
    ensures tries { tries part.now (step shared.now.table_id.slots (r.0 + 1) 0 1 none) seat.old.me
        result seat.new.me }
{
    let _ = part;
    part_laws();
    shared.compare_exchange::<Tries<N>>(seat, r.0 as usize + 1, 0, 1)
}

/// A content put back.
pub struct Leaves<N> {
    aim: PhantomData<N>,
}

impl<'p, N: Aim> Play<Option<Content>, View<'p>> for Leaves<N> {
    ghost then = { λ s m r n. aimed N.parts (λ a kids. leaves a m n) };
}

/// Frees the resource's word: the content that was put back is at home.
pub fn leave_word<'p, N: Aim>(
    shared: &Shared<Option<Content>, View<'p>, Key<'p>, Ruled>,
    seat: &mut Seat<Option<Content>, View<'p>>,
    part: &Part<'p>,
    r: ResId,
)
    requires aim { N.parts ≡ part.now ∷ [] }
    requires table { seat.old.table_id ≡ shared.now.table_id }
    requires wide { shared.now.table_id.words ≡ suc shared.now.table_id.slots }
    requires index { r.0 < shared.now.table_id.slots }
    requires live { seat.old.me.0.live ≡ true }
    requires near { IsPutBack (program_in (begun_of shared.now.key)) seat.old.me part.now r }
    ensures seat { (seat.new.table_id ≡ seat.old.table_id) × (seat.new.id ≡ seat.old.id) }
    ensures leaves { leaves part.now seat.old.me seat.new.me }
{
    let _ = part;
    part_laws();
    shared.store::<Leaves<N>>(seat, r.0 as usize + 1, 0);
}

/// A part put into the view.
pub struct Notes<N> {
    aim: PhantomData<N>,
}

impl<'p, N: Aim> Play<Option<Content>, View<'p>> for Notes<N> {
    ghost then = { λ s m r n. aimed N.parts (λ a kids. notes a kids m n) };
}

/// Puts the part as it now is into the view.
pub fn note_word<'p, N: Aim>(
    shared: &Shared<Option<Content>, View<'p>, Key<'p>, Ruled>,
    seat: &mut Seat<Option<Content>, View<'p>>,
    part: &Part<'p>,
)
    requires aim { N.parts ≡ part.now ∷ [] }
    requires table { seat.old.table_id ≡ shared.now.table_id }
    requires wide { shared.now.table_id.words ≡ suc shared.now.table_id.slots }
    requires live { seat.old.me.0.live ≡ true }
    requires near { IsNear (program_in (begun_of shared.now.key)) seat.old.me.0 part.now }
    ensures seat { (seat.new.table_id ≡ seat.old.table_id) × (seat.new.id ≡ seat.old.id) }
    ensures notes { notes part.now [] seat.old.me seat.new.me }
{
    let _ = part;
    part_laws();
    shared.load::<Notes<N>>(seat, 0);
}

/// Puts the part as it is after a fork into the view, with the parts of the two children.
pub fn fork_word<'p, N: Aim>(
    shared: &Shared<Option<Content>, View<'p>, Key<'p>, Ruled>,
    seat: &mut Seat<Option<Content>, View<'p>>,
    part: &Part<'p>,
    left: &Part<'p>,
    right: &Part<'p>,
)
    requires aim { N.parts ≡ part.now ∷ left.now ∷ right.now ∷ [] }
    requires table { seat.old.table_id ≡ shared.now.table_id }
    requires wide { shared.now.table_id.words ≡ suc shared.now.table_id.slots }
    requires live { seat.old.me.0.live ≡ true }
    requires forks { MaySplit (program_in (begun_of shared.now.key)) seat.old.me.0 part.now left.now
        right.now }
    ensures seat { (seat.new.table_id ≡ seat.old.table_id) × (seat.new.id ≡ seat.old.id) }
    ensures notes { notes part.now (left.now ∷ right.now ∷ []) seat.old.me seat.new.me }
{
    let _ = part;
    let _ = left;
    let _ = right;
    part_laws();
    shared.load::<Notes<N>>(seat, 0);
}

/// A look at the parts in the view.
pub struct Looks;

impl<'p> Play<Option<Content>, View<'p>> for Looks {
    ghost then = { λ s m r n. looks m n };
}

/// Learns that the parts in the view have nothing in common.
pub fn look_word<'p>(
    shared: &Shared<Option<Content>, View<'p>, Key<'p>, Ruled>,
    seat: &mut Seat<Option<Content>, View<'p>>,
)
    requires table { seat.old.table_id ≡ shared.now.table_id }
    requires wide { shared.now.table_id.words ≡ suc shared.now.table_id.slots }
    requires live { seat.old.me.0.live ≡ true }
    ensures seat { (seat.new.table_id ≡ seat.old.table_id) × (seat.new.id ≡ seat.old.id) }
    ensures looks { looks seat.old.me seat.new.me }
{
    part_laws();
    shared.load::<Looks>(seat, 0);
}

/// A look at what the tasks in the view have left.
pub struct Drains;

impl<'p> Play<Option<Content>, View<'p>> for Drains {
    ghost then = { λ s m r n. drains m n };
}

/// Learns of a task that would go on without a unit, or that waits for two children that have ended
/// without one, that events have used up what it was given.
pub fn drain_word<'p>(
    shared: &Shared<Option<Content>, View<'p>, Key<'p>, Ruled>,
    seat: &mut Seat<Option<Content>, View<'p>>,
)
    requires table { seat.old.table_id ≡ shared.now.table_id }
    requires wide { shared.now.table_id.words ≡ suc shared.now.table_id.slots }
    requires live { seat.old.me.0.live ≡ true }
    ensures { drains seat.old.me seat.new.me }
{
    part_laws();
    shared.load::<Drains>(seat, 0);
}

/// A seat of its own for the first of the children whose parts are in a view, and the way back.
pub struct FirstChild;

impl<'p> Split<View<'p>> for FirstChild {
    ghost left = { parent };

    ghost right = { child };
}

impl<'p> Join<View<'p>> for FirstChild {
    ghost both = { joined };

    ghost spent = { spent_view };
}

/// What a receipt is to say.
pub trait Sight {
    ghost use Rattle.std.specs.Prelude.{List};
    ghost use Rattle.sf_region.specs.declared.views.View.{View};

    ghost views: { List View };
}

impl Sight for Brand {
    ghost use Rattle.std.specs.Prelude.{[]};

    ghost views = { [] };
}

/// A place with no part.
pub struct Buries<N> {
    sight: PhantomData<N>,
}

impl<'p, N: Sight> Play<Option<Content>, View<'p>> for Buries<N> {
    ghost then = { λ s m r n. seen N.views (λ v. buries v n) };
}

/// A place with no part, which carries what the seat knows.
pub fn bury_word<'p, N: Sight>(
    shared: &Shared<Option<Content>, View<'p>, Key<'p>, Ruled>,
    seat: &Seat<Option<Content>, View<'p>>,
) -> Seat<Option<Content>, View<'p>>
    requires sight { N.views ≡ seat.now.me.0 ∷ [] }
    requires wide { shared.now.table_id.words ≡ suc shared.now.table_id.slots }
    ensures { (result.table_id ≡ shared.now.table_id) × (result.me ≡ (dead seat.now.me.0, [])) }
{
    let _ = seat;
    shared.load_new_seat::<Buries<N>>(0).1
}
