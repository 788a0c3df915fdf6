//! Steps that are a task's own affair.

ghost use Rattle.std.specs.Prelude.{◌≡◌, ◌≢◌, ◌⊎◌, ◌+◌, ◌≤◌, ◌∷◌, ◌++◌, ℕ, drop, length, map, true, IfOk, OnErr, OnOk, MatchOption, vec_len, vec_capacity};
ghost use Rattle.sf_base.specs.declared.value.Value.{Value as V};
ghost use Rattle.sf_core.specs.Machine.Step.{Event};
ghost use Rattle.sf_core.specs.Machine.Whole.{numbers};
ghost use Rattle.sf_core.specs.Program.ProgramView.{program_of};
ghost use Rattle.sf_core.specs.Program.View.{command_of};
ghost use Rattle.sf_foot.specs.Starting.{HasWidth};
ghost use Rattle.sf_frame.specs.Checked.Effects.{IsMore};
ghost use Rattle.sf_frame.specs.Checked.Frames.{IsCall};
ghost use Rattle.sf_part.specs.Answers.{Answers, MayRunOut};
ghost use Rattle.sf_part.specs.Checked.Meeting.{IsMeeting};
ghost use Rattle.sf_part.specs.Checked.Standing.{Runs};
ghost use Rattle.sf_part.specs.Checked.Stepping.{IsNextOf, IsOwnEffect, IsPerformed, Plans};
ghost use Rattle.sf_part.specs.Keeps.{IsWaiting};
ghost use Rattle.sf_part.specs.Parts.{entry_of};
ghost use Rattle.sf_part.specs.PartView.{HasLogRoom, IsPartOf, part_of};
ghost use Rattle.sf_part.specs.Steps.{IsLocal, Private};
ghost use Rattle.sf_part.specs.Timed.{noted};

use crate::local::Local;
use crate::log::Stamped;
use crate::part::Part;
use crate::stand::Stand;
use sf_base::ProcId;
use sf_core::{Command, Program};
use sf_frame::{
    Change, Edit, Effect, Frame, Next, Refusal, Room, Stamp, apply, next_of, plan_command,
};
use std::alloc::AllocError;
use std::mem::replace;

/// What the next step of a task would make of its part, with the number of its event; or why it
/// isn't the task's own affair.
#[derive(Drop)]
pub(crate) enum Plan<'p> {
    Acts(u64, Effect, Change<'p>),
    Says(Local),
}

impl<'p> Part<'p> {
    /// Makes the task's next step, where that is its own affair: no region, parallel call or join,
    /// nor the return of the procedure that sets the resources up. `Moved` says that it is made,
    /// with the next number as that of its event. `AtRegion`, `AtExit`, `AtFork`, `AtInit` and
    /// `Done` come exactly where that is next. `Spent` comes exactly where the step would be the
    /// task's own affair and no number is left; `Absent` exactly where one is left and the part has
    /// no cell where a look-up, mutation or dispose looks for it. After any answer but `Moved` the
    /// part is as it was. So it is after an `Err`, which comes only at a `new` or a call and says that
    /// memory ran out.
    pub fn step_local(&mut self, p: &'p Program) -> Result<Local, AllocError>
        requires of { IsPartOf (program_of p.now) self.old }
        requires runs { IsWaiting (part_of self.old).part.stand → ⊥ }
        requires room { HasLogRoom self.old }
        ensures answers { IfOk result (Answers (program_of p.now) (part_of self.old)) }
        ensures moved { IfOk result (λ answer. answer ≡ Local.Moved → (event : Event)
            × Private (program_of p.now) event (part_of self.old) (part_of self.new)) }
        ensures unchanged { IfOk result
            (λ answer. answer ≢ Local.Moved → part_of self.new ≡ part_of self.old) }
        ensures err { OnErr result (part_of self.new ≡ part_of self.old) }
        ensures memory { OnErr result (MayRunOut (part_of self.old)) }
        ensures of { IsPartOf (program_of p.now) self.new }
    {
        match planned(self, p)? {
            Plan::Says(answer) => Ok(answer),
            Plan::Acts(number, effect, change) => {
                self.perform(number, effect, change)?;
                Ok(Local::Moved)
            }
        }
    }

    /// Makes of a part what was planned for its next step. An `Err` comes only where that is more
    /// than an edit, or a frame more: it says that memory ran out, and the part is as it was. Cells
    /// have as many fields as before.
    fn perform(&mut self, number: u64, effect: Effect, change: Change<'p>) -> Result<(), AllocError>
        requires runs { Runs self.old.stand }
        requires next { numbers self.old.supply ≡ number ∷ drop 1 (numbers self.old.supply) }
        requires own { IsOwnEffect self.old number effect }
        requires room { HasLogRoom self.old }
        ensures ok { OnOk result (IsPerformed number effect change.entry self.old self.new) }
        ensures err { OnErr result (part_of self.new ≡ part_of self.old) }
        ensures memory { OnErr result (IsMore effect ⊎ IsCall change.entry) }
        ensures blank { self.new.blank ≡ self.old.blank }
        ensures width { (count : ℕ) → length self.old.blank ≡ count
            → HasWidth count self.old.shared.heap → HasWidth count self.new.shared.heap }
    {
        let stamp = Stamp {
            task: self.task,
            number,
            at: number,
        };
        self.stand.reserve(&change)?;
        apply(&mut self.shared, &stamp, &self.blank, effect)?;
        let stand = replace(&mut self.stand, Stand::Over);
        self.stand = stand.changed(change);
        self.supply.spend();
        self.clock += 1;
        let entry = Stamped {
            stamp: self.clock,
            task: self.task,
            number,
        };
        note(&mut self.log, self.keeps, entry);
        Ok(())
    }
}

/// Appends an entry to a log, where it is kept.
pub(crate) fn note(log: &mut Vec<Stamped>, keeps: bool, entry: Stamped)
    requires { keeps ≡ true → vec_len log.old + 1 ≤ vec_capacity log.old }
    ensures { map entry_of log.new.items
        ≡ map entry_of log.old.items ++ noted keeps (entry_of entry) }
{
    if keeps {
        log.push_reserved(entry);
    }
}

/// What the next step of a task would make of its part, which doesn't wait.
fn planned<'p>(part: &Part<'p>, p: &'p Program) -> Result<Plan<'p>, AllocError>
    requires of { IsPartOf (program_of p.now) part.now }
    requires runs { IsWaiting (part_of part.now).part.stand → ⊥ }
    ensures plans { IfOk result (Plans (program_of p.now) part.now) }
    ensures memory { OnErr result (MayRunOut (part_of part.now)) }
{
    match &part.stand {
        Stand::Over => Ok(Plan::Says(Local::Done)),
        Stand::Waits(_) => unreachable!(),
        Stand::Runs(stack) => plan_next(part, p, next_of(stack, part.task.len() == 0)),
    }
}

/// What that would make which comes next.
fn plan_next<'p>(
    part: &Part<'p>,
    p: &'p Program,
    next: Next<'_, 'p>,
) -> Result<Plan<'p>, AllocError>
    requires of { IsPartOf (program_of p.now) part.now }
    requires next { IsNextOf part.now next }
    ensures plans { IfOk result (Plans (program_of p.now) part.now) }
    ensures memory { OnErr result (MayRunOut (part_of part.now)) }
{
    match next {
        Next::Done => Ok(Plan::Says(Local::Done)),
        Next::Leaves(r) => Ok(Plan::Says(Local::AtExit(r))),
        Next::Returns(g, room) => Ok(plan_return(part, p, g, room)),
        Next::Does(frame, command) => plan_own(part, p, frame, command),
    }
}

/// What the return of a frame would make.
fn plan_return<'p>(part: &Part<'p>, p: &Program, g: ProcId, room: Room) -> Plan<'p>
    requires of { IsPartOf (program_of p.now) part.now }
    requires next { IsNextOf part.now (Next.Returns g room) }
    ensures { Plans (program_of p.now) part.now result }
{
    if p.is_init(g) {
        return Plan::Says(Local::AtInit);
    }
    if part.supply.is_empty() {
        return Plan::Says(Local::Spent);
    }
    Plan::Acts(
        part.supply.next(),
        Effect::Edits(Edit::Close(room, false)),
        Change::Return,
    )
}

/// What a command would make.
fn plan_own<'p>(
    part: &Part<'p>,
    p: &'p Program,
    frame: &Frame<'p>,
    command: &'p Command,
) -> Result<Plan<'p>, AllocError>
    requires of { IsPartOf (program_of p.now) part.now }
    requires next { IsNextOf part.now (Next.Does frame command) }
    ensures plans { IfOk result (Plans (program_of p.now) part.now) }
    ensures memory { OnErr result (MayRunOut (part_of part.now)) }
{
    if let Some(answer) = meeting(command) {
        return Ok(Plan::Says(answer));
    }
    if part.supply.is_empty() {
        return Ok(Plan::Says(Local::Spent));
    }
    let number = part.supply.next();
    let stamp = Stamp {
        task: part.task,
        number,
        at: number,
    };
    match plan_command(p, &part.shared, &stamp, frame, command)? {
        sf_frame::Plan::Acts(effect, change) => Ok(Plan::Acts(number, effect, change)),
        sf_frame::Plan::Refused(why) => Ok(Plan::Says(missed(why))),
        sf_frame::Plan::Forks(_, _) => unreachable!(),
    }
}

/// The answer where a command is one at which tasks meet: a region or a parallel call.
fn meeting(command: &Command) -> Option<Local>
    ensures { MatchOption result (IsLocal (command_of command.now))
        (IsMeeting (command_of command.now)) }
{
    match command {
        Command::With(_, r, _, _) => Some(Local::AtRegion(*r)),
        Command::Fork(_, _, _) => Some(Local::AtFork),
        Command::Assign(_, _, _) => None,
        Command::LookUp(_, _, _, _) => None,
        Command::Mutate(_, _, _, _) => None,
        Command::New(_, _) => None,
        Command::Dispose(_, _) => None,
        Command::If(_, _, _, _) => None,
        Command::While(_, _, _, _) => None,
        Command::Call(_, _) => None,
    }
}

/// The answer for a refusal, which is that a cell is absent.
fn missed(why: Refusal) -> Local
    requires { (v : V) × (why ≡ Refusal.Absent v) }
    ensures { (v : V) → why ≡ Refusal.Absent v → result ≡ Local.Absent v }
{
    match why {
        Refusal::Absent(value) => Local::Absent(value),
        Refusal::Waiting(_) => unreachable!(),
        Refusal::Stale => unreachable!(),
        Refusal::TooDeep => unreachable!(),
    }
}
