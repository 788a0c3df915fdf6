//! The fork of a part.

ghost use Rattle.std.specs.Prelude.{◌≡◌, ◌≢◌, ◌<◌, ◌∷◌, [], ℕ, All, None, Some, drop, length, replicate, IfOk, OnErr};
ghost use Rattle.sf_base.specs.declared.limits.TheConstants.{TURNS};
ghost use Rattle.sf_base.specs.declared.place.Place.{Place};
ghost use Rattle.sf_base.specs.declared.value.Value.{Value as V};
ghost use Rattle.sf_base.specs.declared.value.Value.TheVariants.{Nil as nil};
ghost use Rattle.sf_base.specs.HeapStore.{Slot};
ghost use Rattle.sf_core.specs.Machine.Step.{Event, procedure_at};
ghost use Rattle.sf_core.specs.Machine.Whole.{numbers};
ghost use Rattle.sf_core.specs.Program.ProgramView.{program_of};
ghost use Rattle.sf_core.specs.Program.Syntax.{Call as C, fork as parallel, Procedure};
ghost use Rattle.sf_core.specs.Program.View.{command_of};
ghost use Rattle.sf_foot.specs.Starting.{HasWidth};
ghost use Rattle.sf_frame.specs.Checked.Effects.{IsSameCommon, Suits};
ghost use Rattle.sf_frame.specs.Commons.{common_of};
ghost use Rattle.sf_frame.specs.Frames.{frame_of};
ghost use Rattle.sf_frame.specs.Stamps.{event_of};
ghost use Rattle.sf_frame.specs.Stores.{store_of};
ghost use Rattle.sf_frame.specs.declared.effect.Effect.TheVariants.{OpenBoth};
ghost use Rattle.sf_heap.specs.Cells.{HasCell, cell_of};
ghost use Rattle.sf_part.specs.Checked.Children.{HasNoneLent, HasVariablesOf, IsFirstOf};
ghost use Rattle.sf_part.specs.Checked.Halving.{AreHalves};
ghost use Rattle.sf_part.specs.Checked.Splitting.{AreFirst, AreOut, IsForked, IsLent, TakesOut, begun_of, forked_of};
ghost use Rattle.sf_part.specs.Checked.Standing.{Runs};
ghost use Rattle.sf_part.specs.Checked.Stepping.{IsNextOf};
ghost use Rattle.sf_part.specs.Keeps.{Keeps};
ghost use Rattle.sf_part.specs.Forking.{HasNoShares, IsAtFork};
ghost use Rattle.sf_part.specs.Lent.{Lends};
ghost use Rattle.sf_part.specs.PartView.{HasLogRoom, IsPartOf, part_of};

use crate::children::lent_shares;
use crate::fault::PartFault;
use crate::log::Stamped;
use crate::part::Part;
use crate::share::Share;
use crate::stand::Stand;
use crate::stepping::note;
use crate::supply::Supply;
use sf_base::{ProcId, TaskPath, Turn};
use sf_core::{Command, Program};
use sf_frame::{
    Callee, Edit, Effect, Frame, Next, Shared, Stack, Stamp, apply, edit, next_of, plan_command,
};
use sf_heap::Cell;
use sf_precise::Arranged;
use std::alloc::{AllocError, Global};
use std::collections::BTreeMap;
use std::mem::replace;

/// A parallel call that is next: which procedures the two children run, and for each the slots that
/// come up and its first frame.
#[derive(Drop)]
pub(crate) struct Forked<'p> {
    pub(crate) callees: (ProcId, ProcId),
    pub(crate) left: Callee<'p>,
    pub(crate) right: Callee<'p>,
}

/// What a child of a fork begins with: its frame, and what is its own.
#[derive(Drop)]
pub(crate) struct Begun<'p> {
    pub(crate) stack: Stack<'p>,
    pub(crate) shared: Shared,
}

/// What a child of a fork is given besides: its units, and the cell that its next `new` makes.
#[derive(Drop)]
pub(crate) struct Kit {
    pub(crate) supply: Supply,
    pub(crate) blank: Cell,
}

impl<'p> Part<'p> {
    /// Makes the parallel call at which the task stands, and gives the parts of its two children:
    /// each has just the variables of its procedure, the cells that its precondition asks for, and
    /// its half of the units that are left, the left one's rounded down. The task waits and has no
    /// unit from then on. `NoFootprint` comes exactly where the part has no two such shares. All of
    /// them are found, and all room is taken, before anything moves: after an `Err` the part is as
    /// it was.
    pub fn split(&mut self, p: &'p Arranged) -> Result<(Part<'p>, Part<'p>), PartFault>
        requires of { IsPartOf (program_of p.now.program) self.old }
        requires fork { IsAtFork (part_of self.old).part }
        requires turns { length (part_of self.old).part.task < TURNS }
        requires unit { numbers (part_of self.old).part.supply ≢ [] }
        requires room { HasLogRoom self.old }
        ensures ok { IfOk result (λ children. (event : Event)
            × Lends (program_of p.now.program) event (part_of self.old) (part_of self.new)
            (part_of children.0) (part_of children.1)) }
        ensures none { result ≡ Err PartFault.NoFootprint
            → HasNoShares (program_of p.now.program) (part_of self.old) }
        ensures err { OnErr result (part_of self.new ≡ part_of self.old) }
        ensures of { IsPartOf (program_of p.now.program) self.new }
        ensures left_of { IfOk result (λ children.
            IsPartOf (program_of p.now.program) children.0) }
        ensures right_of { IfOk result (λ children.
            IsPartOf (program_of p.now.program) children.1) }
    {
        match next_fork(self, &p.program) {
            Ok(fork) => self.split_by(p, fork),
            Err(_) => Err(PartFault::OutOfMemory),
        }
    }

    /// Makes the parallel call that was planned.
    fn split_by(
        &mut self,
        p: &Arranged,
        fork: Forked<'p>,
    ) -> Result<(Part<'p>, Part<'p>), PartFault>
        requires of { IsPartOf (program_of p.now.program) self.old }
        requires fork { (number : ℕ)
            → numbers self.old.supply ≡ number ∷ drop 1 (numbers self.old.supply)
            → IsForked (program_of p.now.program) self.old number fork }
        requires turns { length self.old.task < TURNS }
        requires unit { numbers self.old.supply ≢ [] }
        requires room { HasLogRoom self.old }
        ensures ok { IfOk result (λ children. (event : Event)
            × Lends (program_of p.now.program) event (part_of self.old) (part_of self.new)
            (part_of children.0) (part_of children.1)) }
        ensures none { result ≡ Err PartFault.NoFootprint
            → HasNoShares (program_of p.now.program) (part_of self.old) }
        ensures err { OnErr result (part_of self.new ≡ part_of self.old) }
        ensures of { IsPartOf (program_of p.now.program) self.new }
        ensures left_of { IfOk result (λ children.
            IsPartOf (program_of p.now.program) children.0) }
        ensures right_of { IfOk result (λ children.
            IsPartOf (program_of p.now.program) children.1) }
    {
        let (left, right) = match kits(self, &p.program) {
            Ok(both) => both,
            Err(_) => return Err(PartFault::OutOfMemory),
        };
        let number = self.supply.next();
        let stamp = Stamp {
            task: self.task,
            number,
            at: number,
        };
        let (one, two) = match lend(&mut self.shared, p, &stamp, &self.blank, fork) {
            Ok(begun) => begun,
            Err(fault) => return Err(fault),
        };
        let stand = replace(&mut self.stand, Stand::Over);
        self.stand = stand.waiting();
        self.supply = Supply::none(self.shared.alloc);
        self.clock += 1;
        let entry = Stamped {
            stamp: self.clock,
            task: self.task,
            number,
        };
        note(&mut self.log, self.keeps, entry);
        let first = child_part(
            self.task.child(Turn::Left),
            one,
            left,
            self.clock,
            self.keeps,
        );
        let second = child_part(
            self.task.child(Turn::Right),
            two,
            right,
            self.clock,
            self.keeps,
        );
        Ok((first, second))
    }
}

/// The parallel call that is next. An `Err` says that memory ran out.
fn next_fork<'p>(part: &Part<'p>, p: &'p Program) -> Result<Forked<'p>, AllocError>
    requires of { IsPartOf (program_of p.now) part.now }
    requires fork { IsAtFork (part_of part.now).part }
    requires turns { length part.now.task < TURNS }
    requires unit { numbers part.now.supply ≢ [] }
    ensures { IfOk result (λ fork. (number : ℕ)
        → numbers part.now.supply ≡ number ∷ drop 1 (numbers part.now.supply)
        → IsForked (program_of p.now) part.now number fork) }
{
    if let Stand::Runs(stack) = &part.stand {
        if let Next::Does(frame, command) = next_of(stack, part.task.len() == 0) {
            return planned_fork(part, p, frame, command);
        }
    }
    unreachable!()
}

/// What the event of a parallel call makes. An `Err` says that memory ran out.
fn planned_fork<'p>(
    part: &Part<'p>,
    p: &'p Program,
    frame: &Frame<'p>,
    command: &'p Command,
) -> Result<Forked<'p>, AllocError>
    requires of { IsPartOf (program_of p.now) part.now }
    requires next { IsNextOf part.now (Next.Does frame command) }
    requires fork { (place : Place) × (one : C) × (two : C)
        × (command_of command.now ≡ parallel place one two) }
    requires turns { length part.now.task < TURNS }
    requires unit { numbers part.now.supply ≢ [] }
    ensures { IfOk result (λ fork. (number : ℕ)
        → numbers part.now.supply ≡ number ∷ drop 1 (numbers part.now.supply)
        → IsForked (program_of p.now) part.now number fork) }
{
    let number = part.supply.next();
    let stamp = Stamp {
        task: part.task,
        number,
        at: number,
    };
    match plan_command(p, &part.shared, &stamp, frame, command)? {
        sf_frame::Plan::Forks(left, right) => Ok(Forked {
            callees: callees_of(command),
            left,
            right,
        }),
        sf_frame::Plan::Acts(_, _) => unreachable!(),
        sf_frame::Plan::Refused(_) => unreachable!(),
    }
}

/// The procedures that a parallel call names.
fn callees_of(command: &Command) -> (ProcId, ProcId)
    requires { (place : Place) × (one : C) × (two : C)
        × (command_of command.now ≡ parallel place one two) }
    ensures { (place : Place) (one : C) (two : C)
        → command_of command.now ≡ parallel place one two
        → (result.0 ≡ one.callee) × (result.1 ≡ two.callee) }
{
    let Command::Fork(_, one, two) = command else {
        unreachable!()
    };
    (one.callee, two.callee)
}

/// What the two children are given besides: their halves of the units that are left after the next
/// one, and their cells. An `Err` says that memory ran out.
fn kits(part: &Part<'_>, p: &Program) -> Result<(Kit, Kit), AllocError>
    requires { numbers part.now.supply ≢ [] }
    ensures halves { IfOk result (λ both. AreHalves (drop 1 (numbers part.now.supply))
        (numbers both.0.supply) (numbers both.1.supply)) }
    ensures left { IfOk result
        (λ both. both.0.blank ≡ replicate (length (program_of p.now).fields) nil) }
    ensures right { IfOk result
        (λ both. both.1.blank ≡ replicate (length (program_of p.now).fields) nil) }
{
    let (one, two) = part.supply.halves(part.shared.alloc)?;
    let left = Cell::new(part.shared.alloc, p.fields.len())?;
    let right = Cell::new(part.shared.alloc, p.fields.len())?;
    Ok((
        Kit {
            supply: one,
            blank: left,
        },
        Kit {
            supply: two,
            blank: right,
        },
    ))
}

/// Makes the slots of a fork, and takes the shares of its two children out. `NoFootprint` comes
/// exactly where there are no two such shares; after an `Err` all is as it was.
fn lend<'p>(
    shared: &mut Shared,
    p: &Arranged,
    event: &Stamp,
    blank: &Cell,
    fork: Forked<'p>,
) -> Result<(Begun<'p>, Begun<'p>), PartFault>
    requires suits { Suits (event_of event.now (cell_of blank.now))
        (OpenBoth fork.left.opening fork.right.opening) (common_of shared.old) }
    requires first { AreFirst (program_of p.now.program) (common_of shared.old) fork }
    ensures ok { IfOk result (λ both. IsLent (program_of p.now.program) fork.entry
        (length blank.now) shared.old shared.new both.0 both.1) }
    ensures none { result ≡ Err PartFault.NoFootprint → (g k : Procedure)
        → procedure_at (program_of p.now.program) fork.entry.callees.0 ≡ Some g
        → procedure_at (program_of p.now.program) fork.entry.callees.1 ≡ Some k
        → HasNoneLent (program_of p.now.program) (frame_of fork.entry.left.frame)
        (frame_of fork.entry.right.frame) g k (forked_of fork.entry (common_of shared.old)) }
    ensures err { OnErr result (IsSameCommon (common_of shared.new) (common_of shared.old)) }
    ensures width { OnErr result ((count : ℕ) → length blank.now ≡ count
        → HasWidth count shared.old.heap → HasWidth count shared.new.heap) }
{
    let Forked {
        callees,
        left,
        right,
    } = fork;
    let one = left.opening.room;
    let two = right.opening.room;
    if let Err(_) = apply(
        shared,
        event,
        blank,
        Effect::OpenBoth(left.opening, right.opening),
    ) {
        return Err(PartFault::OutOfMemory);
    }
    match lend_opened(shared, p, callees, left.frame, right.frame) {
        Ok(both) => Ok(both),
        Err(fault) => {
            edit(shared, Edit::Close(two, false));
            edit(shared, Edit::Close(one, false));
            Err(fault)
        }
    }
}

/// Takes the shares of the two children out, whose slots are there. After an `Err` nothing has
/// moved.
fn lend_opened<'p>(
    shared: &mut Shared,
    p: &Arranged,
    callees: (ProcId, ProcId),
    left: Frame<'p>,
    right: Frame<'p>,
) -> Result<(Begun<'p>, Begun<'p>), PartFault>
    requires left_first { (g : Procedure) × IsFirstOf (program_of p.now.program) callees.0
        (frame_of left) g
        × HasVariablesOf (program_of p.now.program) (frame_of left) g (store_of shared.old.store) }
    requires right_first { (g : Procedure) × IsFirstOf (program_of p.now.program) callees.1
        (frame_of right) g
        × HasVariablesOf (program_of p.now.program) (frame_of right) g (store_of shared.old.store) }
    ensures ok { IfOk result (λ both. AreOut (program_of p.now.program) callees
        (frame_of left.entry) (frame_of right.entry) shared.old shared.new both.0 both.1) }
    ensures none { result ≡ Err PartFault.NoFootprint → (g k : Procedure)
        → procedure_at (program_of p.now.program) callees.0 ≡ Some g
        → procedure_at (program_of p.now.program) callees.1 ≡ Some k
        → HasNoneLent (program_of p.now.program) (frame_of left.entry) (frame_of right.entry) g k
        (common_of shared.old) }
    ensures err { OnErr result (shared.new ≡ shared.old) }
{
    let shares = match lent_shares(p, shared, callees, &left, &right) {
        Ok(shares) => shares,
        Err(fault) => return Err(fault),
    };
    let one = take_out(shared, shares.left);
    let two = take_out(shared, shares.right);
    Ok((
        Begun {
            stack: Stack::of(shared.alloc, left),
            shared: one,
        },
        Begun {
            stack: Stack::of(shared.alloc, right),
            shared: two,
        },
    ))
}

/// Takes a share out, with no resource held.
fn take_out(shared: &mut Shared, share: Share) -> Shared
    requires cells { All (HasCell shared.old.heap) share.at }
    requires slots { (slot : Slot) (v : V) → store_of share.store slot ≡ Some v
        → store_of shared.old.store slot ≡ Some v }
    ensures { TakesOut share shared.old result shared.new }
{
    let heap = shared.heap.part_off(&share.at);
    shared.store.cut(&share.store);
    Shared {
        heap,
        store: share.store,
        held: BTreeMap::new(shared.alloc),
        alloc: shared.alloc,
    }
}

/// The part of a child that begins.
fn child_part<'p>(task: TaskPath, begun: Begun<'p>, kit: Kit, clock: u64, keeps: bool) -> Part<'p>
    requires kept { Keeps (begun_of task begun kit.supply clock keeps) }
    requires none { (common_of begun.shared).held ≡ (λ r. None) }
    ensures part { part_of result ≡ begun_of task begun.entry kit.supply clock keeps }
    ensures heap { result.shared.heap ≡ begun.entry.shared.heap }
    ensures blank { result.blank ≡ kit.blank }
{
    let given = kit.supply.len();
    Part {
        task,
        stand: Stand::Runs(begun.stack),
        log: Vec::new(begun.shared.alloc),
        shared: begun.shared,
        supply: kit.supply,
        clock,
        keeps,
        given,
        blank: kit.blank,
    }
}
