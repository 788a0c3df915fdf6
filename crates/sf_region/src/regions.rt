//! The table of a program's resources, and the seats at it.

ghost use Rattle.std.specs.Mem.Slots.{IsFull, slots_items, slots_len};
ghost use Rattle.std.specs.Prelude.{◌≡◌, ◌<◌, ◌≤◌, ◌==◌, cond, suc, IfOk, IfSome, IsSome, length, List, [], ◌∷◌, ◌++◌, map, replicate, Some, true, vec_capacity};
ghost use Rattle.sf_core.specs.Machine.Whole.{numbers};
ghost use Rattle.sf_part.specs.PartView.{part_of};
ghost use Rattle.sf_base.specs.declared.path.Turn.TheVariants.{Left as left_turn, Right as right_turn};
ghost use Rattle.sf_part.specs.declared.content.Content.{Content as K};
ghost use Rattle.sf_region.specs.Calls.{IsNear, MayClose, MayEnd, MayLeave, MaySplit, MayTry, Tells};
ghost use Rattle.sf_region.specs.declared.entry.Entry.TheVariants.{Entered};
ghost use Rattle.sf_region.specs.Keys.{begun_of, begun_with};
ghost use Rattle.sf_region.specs.Holdings.{entered, taken};
ghost use Rattle.sf_region.specs.Plays.{AreSeparate, Finished, IsDrained, IsSpent, IsThere, bump, hollow, left, moved, with_kids};
ghost use Rattle.sf_region.specs.Rule.{MayBegin, holding, opening_view, newcomer};
ghost use Rattle.sf_region.specs.Waits.{program_in};

use crate::entry::Entry;
use crate::part_laws::part_laws;
use crate::receipt::{Closed, Misses};
use crate::steps::{
    FirstChild, Key, Ruled, bury_word, drain_word, fork_word, leave_word, look_word, note_word,
    try_word,
};
use crate::views::View;
use atomic_table::{Closed as Emptied, Seat, Table};
use sf_base::{ResId, TaskPath};
use sf_part::{Content, Part};
use sf_precise::Arranged;
use std::alloc::{AllocError, Global};
use std::marker::{Brand, Model};
use std::snapshot::Snapshot;

/// A table of a program's resources: for each a word, which says whether a task has it, and a place
/// for its content while none has. Contracts see which table it is, and with what it began.
#[derive(Drop)]
pub struct Regions<'p> {
    table: Table<Option<Content>, View<'p>, Key<'p>, Ruled, Global>,
    /// Room for the contents of a closed table.
    home: Vec<Content>,
    ghost room: { (home.items ≡ []) × (table.shared.table_id.slots ≤ vec_capacity home) },
    ghost wide: { table.shared.table_id.words ≡ suc table.shared.table_id.slots },
    ghost each: { table.shared.table_id.slots
        ≡ length (program_in (begun_of table.shared.key)).resources },
}

impl<'p> Model for Regions<'p> {
    ghost use Rattle.atomic_table.specs.Seated.{TableId};
    ghost use Rattle.sf_region.specs.declared.views.Begun.{Begun};
    ghost use Rattle.sf_region.specs.Keys.{begun_of};
    ghost use Rattle.std.specs.Coded.{codes};
    ghost use denote.Signature.{static_lft};
    ghost use Rattle.sf_region.specs.contracts.views.Begun as begun;

    ghost Value = { TableId × Begun };

    ghost coded = { Prim.hlevel (codes, (begun.the_row static_lft).coded) };

    ghost view = { λ r. (r.table.shared.table_id, begun_of r.table.shared.key) };
}

/// A task's place at the table. Contracts see of which table it is, and its view.
#[derive(Drop)]
pub struct RegionSeat<'p> {
    seat: Seat<Option<Content>, View<'p>>,
    task: TaskPath,
    clock: u64,
    missed: ResId,
    misses: u32,
}

impl<'p> Model for RegionSeat<'p> {
    ghost use Rattle.std.specs.Prelude.{◌≡◌, true};
    ghost use Rattle.atomic_table.specs.Seated.{TableId};
    ghost use Rattle.sf_part.specs.PartView.{part_of};
    ghost use Rattle.sf_region.specs.declared.views.View.{View};
    ghost use Rattle.sf_region.specs.Holdings.{taken};
    ghost use Rattle.sf_region.specs.Plays.{Known, hollow};
    ghost use Rattle.sf_region.specs.Rule.{holding};
    ghost use Rattle.std.specs.Coded.{codes};
    ghost use denote.Signature.{static_lft};
    ghost use Rattle.sf_region.specs.contracts.views.View as knows;

    ghost Value = { TableId × View };

    ghost coded = { Prim.hlevel (codes, (knows.the_row static_lft).coded) };

    ghost view = { λ s. (s.seat.table_id, s.seat.me.0) };

    ghost invariant = { λ s. (s.seat.me.0.live ≡ true)
        × (s.seat.me.1 ≡ hollow (taken (holding s.seat.me.0)))
        × (s.task ≡ (part_of s.seat.me.0.part).part.task)
        × (s.clock ≡ s.seat.me.0.part.clock)
        × (s.missed ≡ s.seat.me.0.missed)
        × (s.misses ≡ s.seat.me.0.misses)
        × Known s.seat.me.0 };
}

/// The misses that still count, where the clock was that at the last of them.
fn counting(clock: u64, last: u64, misses: u32) -> u32
    ensures { result ≡ cond (clock == last) misses 0 }
{
    if clock == last { misses } else { 0 }
}

/// One miss more.
fn bumped(misses: u32) -> u32
    ensures { result ≡ bump misses }
{
    misses.saturating_add(1)
}

/// Words that are all 0.
fn zero_words(alloc: Global, count: usize) -> Result<Vec<u64>, AllocError>
    ensures { IfOk result (λ v. v.items ≡ replicate count 0) }
{
    vec![in alloc; 0u64; count]
}

/// The contents, each in its place.
fn filled(alloc: Global, contents: Vec<Content>) -> Result<Vec<Option<Content>>, AllocError>
    ensures { IfOk result (λ v. v.items ≡ map Some contents.items) }
{
    let mut slots = Vec::new(alloc);
    for content in contents {
        slots.push(Some(content))?;
    }
    Ok(slots)
}

/// Puts a content at the end of a list that has room for it.
fn put(home: &mut Vec<Content>, content: Content)
    requires { length home.old.items < vec_capacity home.old }
    ensures items { home.new.items ≡ home.old.items ++ content ∷ [] }
    ensures room { vec_capacity home.old ≤ vec_capacity home.new }
{
    if home.push(content).is_err() {
        unreachable!();
    }
}

/// The contents of a closed table, in their order, in a list that has room for them.
fn drained(closed: Emptied<Option<Content>, Global>, home: Vec<Content>) -> Vec<Content>
    requires full { IsFull closed.slots }
    requires contents { (cs : List K) × (slots_items closed.slots ≡ map Some cs) }
    requires room { (home.items ≡ []) × (slots_len closed.slots ≤ vec_capacity home) }
    ensures { slots_items closed.slots ≡ map Some result.items }
{
    let mut rest = closed;
    let mut contents = home;
    let mut i = 0;
    while i < rest.slot_count() {
        match rest.take(i) {
            Some(content) => put(&mut contents, content),
            None => unreachable!(),
        }
        i += 1;
    }
    rest.free();
    contents
}

/// The entry with the content that was found.
fn entry_with(found: Option<Content>) -> Entry
    requires { IsSome found }
    ensures { IfSome found (λ k. result ≡ Entered k) }
{
    match found {
        Some(content) => Entry::Entered(content),
        None => unreachable!(),
    }
}

/// The seat of a task that is new at the table.
fn seated<'p>(seat: Seat<Option<Content>, View<'p>>, part: &Part<'p>) -> RegionSeat<'p>
    requires live { seat.me.0.live ≡ true }
    requires slots { seat.me.1 ≡ hollow (taken (holding seat.me.0)) }
    requires part { seat.me.0.part ≡ part.now }
    requires missed { (seat.me.0.missed ≡ record { 0 = 0 }) × (seat.me.0.misses ≡ 0) }
    ensures { result ≡ (seat.entry.table_id, seat.entry.me.0) }
{
    RegionSeat {
        seat,
        task: part.task(),
        clock: part.clock(),
        missed: ResId(0),
        misses: 0,
    }
}

impl<'p> Regions<'p> {
    /// A table where no task has a resource and each content is in its place, and the first seat,
    /// for the task of the part. An `Err` says that memory ran out.
    pub fn begin(
        alloc: Global,
        p: &Arranged,
        part: &Part<'p>,
        contents: Vec<Content>,
    ) -> Result<(Regions<'p>, RegionSeat<'p>), AllocError>
        requires { MayBegin (begun_with p.now.program part.now contents.items) }
        ensures { IfOk result (λ t. (t.0.1 ≡ begun_with p.now.program part.now contents.items)
            × (t.1.0 ≡ t.0.0) × (t.1.1 ≡ opening_view t.0.1)) }
    {
        let key = Key {
            program: Snapshot::of(&p.program),
            part: Snapshot::of(part),
            contents: Snapshot::of(&contents),
        };
        let mut home = Vec::new(alloc);
        home.reserve(contents.len())?;
        let words = zero_words(alloc, contents.len() + 1)?;
        let slots = filled(alloc, contents)?;
        match Table::new(alloc, words.as_slice(), slots, &key) {
            Ok((table, seat)) => Ok((Regions { table, home }, seated(seat, part))),
            Err(_) => Err(AllocError),
        }
    }

    /// A try of the seat's task at the region of that resource, at which it stands. Where no task
    /// has the resource, it has it from then on, with its content in hand; else it has missed once
    /// more. No memory is taken, and nothing is waited for.
    pub fn try_enter(&self, seat: &mut RegionSeat<'p>, part: &Part<'p>, r: ResId) -> Entry
        requires table { seat.old.0 ≡ self.now.0 }
        requires may { MayTry (program_in self.now.1) seat.old.1 part.now r }
        ensures table { seat.new.0 ≡ seat.old.0 }
        ensures tells { Tells part.now r seat.old.1 seat.new.1 result }
    {
        let now = part.clock();
        let misses = counting(now, seat.clock, seat.misses);
        let found = try_word::<Brand>(&self.table.shared, &mut seat.seat, part, r);
        seat.task = part.task();
        seat.clock = now;
        seat.missed = r;
        if found == 0 {
            seat.misses = misses;
            entry_with(
                self.table
                    .shared
                    .exchange(&mut seat.seat, r.0 as usize, None),
            )
        } else {
            seat.misses = bumped(misses);
            Entry::Held
        }
    }

    /// Puts back a content that the task has in hand: the one that an exit left, or the one that it
    /// got at the region at which it still stands, whose condition is false of it. The latter is a
    /// miss. No memory is taken, and nothing is waited for.
    pub fn leave(&self, seat: &mut RegionSeat<'p>, part: &Part<'p>, r: ResId, content: Content)
        requires table { seat.old.0 ≡ self.now.0 }
        requires may { MayLeave (program_in self.now.1) seat.old.1 part.now r content }
        ensures table { seat.new.0 ≡ seat.old.0 }
        ensures view { seat.new.1 ≡ left part.now seat.old.1 }
        ensures there { IsThere seat.old.1.begun (part_of part.now) }
    {
        let _empty = self
            .table
            .shared
            .exchange(&mut seat.seat, r.0 as usize, Some(content));
        let now = part.clock();
        let misses = counting(now, seat.clock, bumped(seat.misses));
        leave_word::<Brand>(&self.table.shared, &mut seat.seat, part, r);
        seat.task = part.task();
        seat.clock = now;
        seat.misses = misses;
    }

    /// Tells the table the part as it now is: what the task did since the seat's last step stands in
    /// the list of events from then on. No memory is taken, and nothing is waited for.
    pub fn note(&self, seat: &mut RegionSeat<'p>, part: &Part<'p>)
        requires table { seat.old.0 ≡ self.now.0 }
        requires near { IsNear (program_in self.now.1) seat.old.1 part.now }
        ensures table { seat.new.0 ≡ seat.old.0 }
        ensures view { seat.new.1 ≡ moved part.now [] seat.old.1 }
        ensures there { IsThere seat.old.1.begun (part_of part.now) }
    {
        let now = part.clock();
        let misses = counting(now, seat.clock, seat.misses);
        note_word::<Brand>(&self.table.shared, &mut seat.seat, part);
        seat.task = part.task();
        seat.clock = now;
        seat.misses = misses;
    }

    /// Seats for the two children of a fork that the seat's task has made. No memory is taken, and
    /// nothing is waited for.
    pub fn split(
        &self,
        seat: &mut RegionSeat<'p>,
        part: &Part<'p>,
        left: &Part<'p>,
        right: &Part<'p>,
    ) -> (RegionSeat<'p>, RegionSeat<'p>)
        requires table { seat.old.0 ≡ self.now.0 }
        requires may { MaySplit (program_in self.now.1) seat.old.1 part.now left.now right.now }
        ensures table { (seat.new.0 ≡ seat.old.0) × (result.0.0 ≡ seat.old.0)
            × (result.1.0 ≡ seat.old.0) }
        ensures view { seat.new.1 ≡ moved part.now [] seat.old.1 }
        ensures children { (result.0.1 ≡ newcomer left.now seat.old.1.begun)
            × (result.1.1 ≡ newcomer right.now seat.old.1.begun) }
        ensures there { IsThere seat.old.1.begun (part_of part.now) }
    {
        part_laws();
        fork_word::<Brand>(&self.table.shared, &mut seat.seat, part, left, right);
        let one = self.table.shared.split_seat::<FirstChild>(&mut seat.seat);
        let two = self.table.shared.split_seat::<FirstChild>(&mut seat.seat);
        let now = part.clock();
        seat.misses = counting(now, seat.clock, seat.misses);
        seat.task = part.task();
        seat.clock = now;
        (seated(one, left), seated(two, right))
    }

    /// Takes the seats of the two children back, which have ended. Their parts stand in the view of
    /// their parent's seat from then on, whose task may join them: the three have nothing in
    /// common. No memory is taken, and nothing is waited for.
    pub fn join(
        &self,
        seat: &mut RegionSeat<'p>,
        left: RegionSeat<'p>,
        left_part: &Part<'p>,
        right: RegionSeat<'p>,
        right_part: &Part<'p>,
    )
        requires table { (seat.old.0 ≡ self.now.0) × (left.0 ≡ self.now.0)
            × (right.0 ≡ self.now.0) }
        requires alone { seat.old.1.kids ≡ [] }
        requires left { MayEnd (program_in self.now.1) seat.old.1 left_turn left.1 left_part.now }
        requires right { MayEnd (program_in self.now.1) seat.old.1 right_turn right.1
            right_part.now }
        ensures table { seat.new.0 ≡ seat.old.0 }
        ensures view { seat.new.1
            ≡ with_kids (left_part.now ∷ right_part.now ∷ []) seat.old.1 }
        ensures separate { AreSeparate (part_of seat.old.1.part) (part_of left_part.now)
            (part_of right_part.now) }
    {
        part_laws();
        let RegionSeat { seat: mut one, .. } = left;
        let RegionSeat { seat: mut two, .. } = right;
        note_word::<Brand>(&self.table.shared, &mut one, left_part);
        note_word::<Brand>(&self.table.shared, &mut two, right_part);
        self.table
            .shared
            .join_seat::<FirstChild>(&mut seat.seat, one);
        self.table
            .shared
            .join_seat::<FirstChild>(&mut seat.seat, two);
        look_word(&self.table.shared, &mut seat.seat);
    }

    /// Tells the table the part as it now is, of a task that would go on and has no unit left:
    /// events have used up what it was given. No memory is taken, and nothing is waited for.
    pub fn tell_spent(&self, seat: RegionSeat<'p>, part: &Part<'p>)
        requires table { seat.0 ≡ self.now.0 }
        requires near { IsNear (program_in self.now.1) seat.1 part.now }
        requires spent { IsSpent (part_of part.now) }
        ensures { IsDrained seat.entry.1.begun (part_of part.now) }
    {
        part_laws();
        let RegionSeat { seat: mut own, .. } = seat;
        note_word::<Brand>(&self.table.shared, &mut own, part);
        drain_word(&self.table.shared, &mut own);
    }

    /// The same of a task that waits for two children that have ended, where neither has a unit
    /// left for the join. No memory is taken, and nothing is waited for.
    pub fn tell_spent_join(
        &self,
        seat: RegionSeat<'p>,
        left: RegionSeat<'p>,
        left_part: &Part<'p>,
        right: RegionSeat<'p>,
        right_part: &Part<'p>,
    )
        requires table { (seat.0 ≡ self.now.0) × (left.0 ≡ self.now.0) × (right.0 ≡ self.now.0) }
        requires alone { seat.1.kids ≡ [] }
        requires left { MayEnd (program_in self.now.1) seat.1 left_turn left.1 left_part.now }
        requires right { MayEnd (program_in self.now.1) seat.1 right_turn right.1 right_part.now }
        requires spent { numbers (part_of left_part.now).part.supply
            ++ numbers (part_of right_part.now).part.supply ≡ [] }
        ensures { IsDrained seat.entry.1.begun (part_of seat.entry.1.part) }
    {
        let mut seat = seat;
        self.join(&mut seat, left, left_part, right, right_part);
        let RegionSeat { seat: mut own, .. } = seat;
        drain_word(&self.table.shared, &mut own);
    }

    /// A receipt for the misses of the seat's task since its last event. No memory is taken.
    pub fn misses(&self, seat: &RegionSeat<'p>) -> Misses<'p>
        requires { 0 < seat.now.1.misses }
        ensures { (result.begun ≡ seat.now.1.begun)
            × (result.task ≡ (part_of seat.now.1.part).part.task)
            × (result.resource ≡ seat.now.1.missed) × (result.count ≡ seat.now.1.misses) }
    {
        Misses {
            note: bury_word::<Brand>(&self.table.shared, &seat.seat),
            task: seat.task,
            resource: seat.missed,
            count: seat.misses,
        }
    }

    /// Closes the table, where the task with which it began has ended: then it is the only one. All
    /// contents are at home, and come back in file order. No memory is taken.
    pub fn close(self, seat: RegionSeat<'p>, part: &Part<'p>) -> (Vec<Content>, Closed<'p>)
        requires table { seat.0 ≡ self.0 }
        requires may { MayClose (program_in self.1) seat.1 part.now }
        ensures finished { Finished seat.entry.1.begun (part_of part.now) result.0.items }
        ensures each { length result.0.items ≡ length (program_in self.entry.1).resources }
        ensures receipt { result.1 ≡ seat.entry.1.begun }
    {
        part_laws();
        let Regions { table, home } = self;
        let RegionSeat { seat: mut own, .. } = seat;
        note_word::<Brand>(&table.shared, &mut own, part);
        let note = bury_word::<Brand>(&table.shared, &own);
        (drained(table.close_with(own), home), Closed { note })
    }
}
