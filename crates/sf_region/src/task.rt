//! A task, its own steps, and how a table begins and is closed with it.

ghost use Rattle.std.specs.Prelude.{◌≡◌, ◌≢◌, ◌↔◌, ◌++◌, [], length, IfOk, IsTrue, OnErr};
ghost use Rattle.sf_core.specs.Machine.Step.{Event};
ghost use Rattle.sf_core.specs.Machine.Whole.{numbers};
ghost use Rattle.sf_core.specs.Program.ProgramView.{program_of};
ghost use Rattle.sf_part.specs.Answers.{Answers};
ghost use Rattle.sf_part.specs.Going.{GoesTo};
ghost use Rattle.sf_part.specs.Keeps.{IsWaiting};
ghost use Rattle.sf_part.specs.PartView.{IsPartOf, part_of};
ghost use Rattle.sf_part.specs.Steps.{Private};
ghost use Rattle.sf_region.specs.Keys.{begun_with};
ghost use Rattle.sf_region.specs.Meeting.{HasNoMisses};
ghost use Rattle.sf_region.specs.Plays.{Finished};
ghost use Rattle.sf_region.specs.Rule.{MayBegin, opening_view};
ghost use Rattle.sf_region.specs.Waits.{first_of, program_in};

use crate::receipt::Closed;
use crate::regions::{RegionSeat, Regions};
use sf_base::TaskPath;
use sf_part::{Content, Local, Part};
use sf_precise::Arranged;
use std::alloc::{AllocError, Global};
use std::marker::Model;

/// One task of a run: its part, and its seat at the table of resources. It keeps that the part is
/// the program's with which the table began, and that events of the task alone have led to it from
/// the part that the seat saw last. Contracts see the seat and the part.
#[derive(Drop)]
pub struct Task<'p> {
    pub(crate) part: Part<'p>,
    pub(crate) seat: RegionSeat<'p>,
}

impl<'p> Model for Task<'p> {
    ghost use Rattle.atomic_table.specs.Seated.{TableId};
    ghost use Rattle.sf_part.specs.declared.part.Part.{Part};
    ghost use Rattle.sf_region.specs.declared.views.View.{View};
    ghost use Rattle.sf_region.specs.Checked.Seated.{IsSeated};
    ghost use Rattle.std.specs.Coded.{codes};
    ghost use denote.Signature.{static_lft};
    ghost use Rattle.sf_region.specs.contracts.views.View as knows;
    ghost use Rattle.sf_part.specs.contracts.part.Part as part_row;

    ghost Value = { (TableId × View) × Part };

    ghost coded = { Prim.hlevel (
      codes,
      (knows.the_row static_lft).coded,
      (part_row.the_row static_lft).coded,
    ) };

    ghost view = { λ t. (t.seat, t.part) };

    ghost invariant = { λ t. IsSeated t.seat.1 t.part };
}

impl<'p> Task<'p> {
    /// A table of the resources where each content is in its place, and the task of the part at it.
    /// An `Err` says that memory ran out.
    pub fn begin(
        alloc: Global,
        p: &Arranged,
        part: Part<'p>,
        contents: Vec<Content>,
    ) -> Result<(Regions<'p>, Task<'p>), AllocError>
        requires { MayBegin (begun_with p.now.program part contents.items) }
        ensures table { IfOk result (λ t. (t.0.1 ≡ begun_with p.now.program part.entry contents.items)
            × (t.1.0.0 ≡ t.0.0)) }
        ensures view { IfOk result (λ t. t.1.0.1 ≡ opening_view t.0.1) }
        ensures part { IfOk result (λ t. t.1.1 ≡ part.entry) }
    {
        let (regions, seat) = Regions::begin(alloc, p, &part, contents)?;
        Ok((regions, Task { part, seat }))
    }

    /// The path of the task. With it is told that its part is the program's.
    pub fn path(&self) -> TaskPath
        ensures path { result ≡ (part_of self.now.1).part.task }
        ensures of { IsPartOf (program_in self.now.0.1.begun) self.now.1 }
    {
        self.part.task()
    }

    /// Whether a number is left that the task may give an event: the test for the one that
    /// `try_region`, `leave_region` and `fork` need.
    pub fn has_unit(&self) -> bool
        ensures { IsTrue result ↔ (numbers (part_of self.now.1).part.supply ≢ []) }
    {
        self.part.has_unit()
    }

    /// Whether this task or another has one: of two children, the test for the one that `join` needs.
    pub fn has_unit_or(&self, other: &Task<'p>) -> bool
        ensures { IsTrue result ↔ (numbers (part_of self.now.1).part.supply
            ++ numbers (part_of other.now.1).part.supply ≢ []) }
    {
        if self.has_unit() {
            return true;
        }
        other.has_unit()
    }

    /// How many numbers the task was given at its start.
    pub fn given(&self) -> u64
        ensures { result ≡ (part_of self.now.1).given }
    {
        self.part.given()
    }

    /// Makes the task's next step, where that is its own affair, or tells why it isn't, as its part
    /// does. After any answer but `Moved`, and after an `Err`, which says that memory ran out, the
    /// part is as it was. The seat stays as it is.
    pub fn step(&mut self, p: &'p Arranged) -> Result<Local, AllocError>
        requires program { program_in self.old.0.1.begun ≡ program_of p.now.program }
        requires runs { IsWaiting (part_of self.old.1).part.stand → ⊥ }
        ensures answers { IfOk result (Answers (program_of p.now.program) (part_of self.old.1)) }
        ensures moved { IfOk result (λ answer. answer ≡ Local.Moved → (event : Event)
            × Private (program_of p.now.program) event (part_of self.old.1) (part_of self.new.1)) }
        ensures unchanged { IfOk result
            (λ answer. answer ≢ Local.Moved → part_of self.new.1 ≡ part_of self.old.1) }
        ensures err { OnErr result (part_of self.new.1 ≡ part_of self.old.1) }
        ensures goes { GoesTo (program_of p.now.program) (part_of self.old.1)
            (part_of self.new.1) }
        ensures seat { self.new.0 ≡ self.old.0 }
        ensures fresh { IfOk result
            (λ answer. answer ≡ Local.Moved → HasNoMisses self.new.0.1 self.new.1) }
    {
        self.part.make_room()?;
        self.part.step_local(&p.program)
    }

    /// Closes the table, where the task, with which it began, has ended. Its part, the contents in
    /// file order, and the receipt.
    pub fn close(self, p: &Arranged, regions: Regions<'p>) -> (Part<'p>, Vec<Content>, Closed<'p>)
        requires table { self.0.0 ≡ regions.0 }
        requires program { program_in self.0.1.begun ≡ program_of p.now.program }
        requires begun { program_in regions.1 ≡ program_of p.now.program }
        requires first { (part_of self.1).part.task ≡ (first_of self.0.1.begun).part.task }
        requires ended { Answers (program_of p.now.program) (part_of self.1) Local.Done }
        ensures part { result.0 ≡ self.entry.1 }
        ensures finished { Finished self.entry.0.1.begun (part_of self.entry.1) result.1.items }
        ensures each { length result.1.items ≡ length (program_of p.now.program).resources }
        ensures receipt { result.2 ≡ self.entry.0.1.begun }
    {
        let Task { part, seat } = self;
        let (contents, closed) = regions.close(seat, &part);
        (part, contents, closed)
    }
}
