//! The join of two children that have ended.

ghost use Rattle.std.specs.Prelude.{◌≡◌, ◌+◌, ◌≤◌, ◌++◌, [], ℕ, IfErr, OnErr, OnOk, vec_len, vec_capacity};
ghost use Rattle.sf_core.specs.Machine.Step.{Event};
ghost use Rattle.sf_core.specs.Program.Syntax.{Program as P};
ghost use Rattle.sf_foot.specs.Starting.{HasWidth};
ghost use Rattle.sf_part.specs.Checked.Joined.{IsJoined};
ghost use Rattle.sf_part.specs.Joining.{GoesOnIn, MayJoin};
ghost use Rattle.sf_part.specs.PartView.{IsPartOf, part_of};
ghost use Rattle.sf_part.specs.Steps.{Joins};

use crate::back::take_back;
use crate::log::Stamped;
use crate::part::Part;
use crate::stand::Stand;
use crate::stepping::note;
use crate::supply::Supply;
use std::alloc::AllocError;
use std::mem::replace;

impl<'p> Part<'p> {
    /// Takes back all that the two children of its fork hold, which have ended, and goes on after
    /// the fork: with their variables and cells, with the numbers that are left to them and the
    /// entries of their logs, in each case those of the left one first, and with its clock after
    /// the latest of the three. An `Err` says that memory ran out, hands both children back, and
    /// leaves the part as it was.
    pub fn join(
        &mut self,
        mut left: Part<'p>,
        mut right: Part<'p>,
    ) -> Result<(), (Part<'p>, Part<'p>)>
        requires { MayJoin (part_of self.old) (part_of left) (part_of right) }
        ensures ok { OnOk result ((event : Event) × ((p : P) → Joins p event (part_of self.old)
            (part_of left.entry) (part_of right.entry) (part_of self.new))) }
        ensures err { OnErr result (part_of self.new ≡ part_of self.old) }
        ensures children_returned { IfErr result
            (λ back. (back.0 ≡ left.entry) × (back.1 ≡ right.entry)) }
        ensures of { (p : P) → IsPartOf p self.old → IsPartOf p left.entry
            → IsPartOf p right.entry → GoesOnIn p (part_of self.old).part
            (part_of left.entry).part (part_of right.entry).part → IsPartOf p self.new }
    {
        let Ok(supply) = Supply::joined(self.shared.alloc, &left.supply, &right.supply) else {
            return Err((left, right));
        };
        // Their entries, and that of the event.
        let entries = left.log.len() + right.log.len() + 1;
        if let Err(_) = self.log.reserve(entries) {
            return Err((left, right));
        }
        match self.joined(&mut left, &mut right, supply) {
            Ok(()) => Ok(()),
            Err(_) => Err((left, right)),
        }
    }

    /// Takes the cells, slots and log entries of the two children, and goes on after the fork with
    /// these units. An `Err` says that memory ran out, and leaves all three as they were.
    fn joined(
        &mut self,
        left: &mut Part<'p>,
        right: &mut Part<'p>,
        supply: Supply,
    ) -> Result<(), AllocError>
        requires may { MayJoin (part_of self.old) (part_of left.old) (part_of right.old) }
        requires units { supply ≡ left.old.supply ++ right.old.supply }
        requires room { vec_len self.old.log + (vec_len left.old.log + vec_len right.old.log) + 1
            ≤ vec_capacity self.old.log }
        ensures ok { OnOk result
            ((number : ℕ) × IsJoined number left.old right.old self.old self.new) }
        ensures err { OnErr result (part_of self.new ≡ part_of self.old) }
        ensures children { OnErr result ((left.new ≡ left.old) × (right.new ≡ right.old)) }
        ensures blank { self.new.blank ≡ self.old.blank }
        ensures width { (count : ℕ) → HasWidth count self.old.shared.heap
            → HasWidth count left.old.shared.heap → HasWidth count right.old.shared.heap
            → HasWidth count self.new.shared.heap }
    {
        take_back(&mut self.shared, &mut left.shared, &mut right.shared)?;
        let stand = replace(&mut self.stand, Stand::Over);
        self.stand = stand.resumed();
        self.supply = supply;
        let number = self.supply.next();
        self.supply.spend();
        self.clock = self.clock.max(left.clock.max(right.clock)) + 1;
        append_both(&mut self.log, &mut left.log, &mut right.log);
        let entry = Stamped {
            stamp: self.clock,
            task: self.task,
            number,
        };
        note(&mut self.log, self.keeps, entry);
        Ok(())
    }
}

/// Moves the entries of another log to the end of one, where there is room for them.
fn append(log: &mut Vec<Stamped>, more: &mut Vec<Stamped>)
    requires { vec_len log.old + vec_len more.old ≤ vec_capacity log.old }
    ensures items { log.new.items ≡ log.old.items ++ more.old.items }
    ensures len { vec_len log.new ≡ vec_len log.old + vec_len more.old }
    ensures capacity { vec_capacity log.old ≤ vec_capacity log.new }
    ensures none { more.new.items ≡ [] }
{
    if let Err(_) = log.append(more) {
        unreachable!()
    }
}

/// Moves the entries of two other logs to the end of one, where there is room for them, and for one
/// entry more.
fn append_both(log: &mut Vec<Stamped>, left: &mut Vec<Stamped>, right: &mut Vec<Stamped>)
    requires { vec_len log.old + (vec_len left.old + vec_len right.old) + 1
        ≤ vec_capacity log.old }
    ensures items { log.new.items ≡ log.old.items ++ (left.old.items ++ right.old.items) }
    ensures room { vec_len log.new + 1 ≤ vec_capacity log.new }
    ensures none { (left.new.items ≡ []) × (right.new.items ≡ []) }
{
    append(log, left);
    append(log, right);
}
