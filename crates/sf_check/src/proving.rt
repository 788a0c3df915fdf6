//! A check of tags, one after the other.

ghost use Rattle.std.specs.Prelude.{◌≡◌, ◌<◌, ◌+◌, ◌^◌, ◌∷◌, ◌⊎◌, [], IfErr, IfOk, OnOk, MatchResult, None, Some, cond, suc, ℕ};
ghost use Rattle.std.specs.List.{slice_get};
ghost use Rattle.sf_rules.specs.Proving.{Proves};
ghost use Rattle.sf_check.specs.Accepted.{arranged_in, tags_in};
ghost use Rattle.sf_check.specs.Checked.Stands.{stand_of};
ghost use Rattle.sf_check.specs.declared.refusal.CheckFault.TheVariants.{OutOfMemory, Refused as IsRefused};
ghost use Rattle.sf_check.specs.declared.refusal.Refusal.{Refusal as RefusalOf};
ghost use Rattle.sf_check.specs.Proven.{Proven};
ghost use Rattle.sf_check.specs.Refusal.{IfRefused, Refused};
ghost use Rattle.sf_check.specs.Checked.Taken.{begin, taken, taken_at};
ghost use Rattle.sf_check.specs.Stand.{is_finished};
ghost use Rattle.sf_precise.specs.Order.{IsOrdering};
ghost use Rattle.sf_rules.specs.Checked.Children.{stack_of};
ghost use Rattle.sf_rules.specs.Setting.{Setting, setting_of};
ghost use Rattle.sf_sym.specs.Goal.{goal_of};

use crate::laws::proven_from_truncation;
use crate::proof::Proof;
use crate::refusal::{CheckFault, Refusal};
use sf_base::ProcId;
use sf_precise::Arranged;
use sf_rules::{RuleFault, apply_row, first_goal, push_children};
use sf_sym::{Goal, Tag};
use std::alloc::{AllocError, Global};

/// How far tags have come.
#[derive(Drop)]
struct Stand<'a> {
    /// The open goals, the next last.
    goals: Vec<Goal<'a>>,
    /// How many procedures have begun.
    begun: usize,
}

impl<'a> Stand<'a> {
    /// Whether all is proved: no goal is open, and no procedure is left.
    fn is_finished(&self, arranged: &Arranged) -> bool
        ghost d: { Setting }
        requires setting { d ≡ setting_of d.ordered arranged.now }
        ensures { result ≡ is_finished d (stand_of self.now) }
    {
        self.goals.is_empty() && self.begun >= arranged.program.procedures.len()
    }

    /// With no goal open, begins the next procedure. `false` exactly where the tag isn't that
    /// procedure's; an `Err` means out of memory.
    fn begin(&mut self, alloc: Global, arranged: &'a Arranged, tag: Tag) -> Result<bool, AllocError>
        ghost d: { Setting }
        requires ordered { IsOrdering d.ordered }
        requires setting { d ≡ setting_of d.ordered arranged.now }
        requires none_open { self.old.goals.items ≡ [] }
        ensures { IfOk result (λ is_taken.
            begin d self.old.begun (slice_get d.program.procedures self.old.begun) tag
            ≡ cond is_taken (Some (stand_of self.new)) None) }
    {
        if self.begun >= arranged.program.procedures.len() {
            return Ok(false);
        }
        let next = ProcId(self.begun as u32);
        if tag != Tag::Procedure(next) {
            return Ok(false);
        }
        let goal = first_goal(alloc, arranged, next)?;
        self.open(goal)?;
        Ok(true)
    }

    /// With no goal open, opens the first one of the next procedure. An `Err` means out of memory.
    fn open(&mut self, goal: Goal<'a>) -> Result<(), AllocError>
        requires none_open { self.old.goals.items ≡ [] }
        requires room { self.old.begun + 1 < 2 ^ 64 }
        ensures { OnOk result (stand_of self.new
            ≡ record { begun = suc self.old.begun; goals = goal_of goal.entry ∷ [] }) }
    {
        self.goals.push(goal)?;
        self.begun += 1;
        Ok(())
    }

    /// Takes the tag at a goal: its children come before the other goals. `false` exactly where the
    /// tag has no row there; an `Err` means out of memory.
    fn take_at(
        &mut self,
        alloc: Global,
        arranged: &'a Arranged,
        goal: Goal<'a>,
        tag: Tag,
    ) -> Result<bool, AllocError>
        ghost d: { Setting }
        requires ordered { IsOrdering d.ordered }
        requires setting { d ≡ setting_of d.ordered arranged.now }
        ensures { IfOk result (λ is_taken.
            taken_at d self.old.begun (goal_of goal.entry ∷ stack_of self.old.goals.items) tag
            ≡ cond is_taken (Some (stand_of self.new)) None) }
    {
        match apply_row(alloc, arranged, goal, tag) {
            Ok(children) => {
                push_children(&mut self.goals, children)?;
                Ok(true)
            }
            Err(RuleFault::NotARule) => Ok(false),
            Err(RuleFault::OutOfMemory) => Err(AllocError),
        }
    }

    /// Takes the next tag. `false` exactly where it can't be taken; an `Err` means out of memory.
    fn take(&mut self, alloc: Global, arranged: &'a Arranged, tag: Tag) -> Result<bool, AllocError>
        ghost d: { Setting }
        requires ordered { IsOrdering d.ordered }
        requires setting { d ≡ setting_of d.ordered arranged.now }
        ensures { IfOk result (λ is_taken. taken d (stand_of self.old) tag
            ≡ cond is_taken (Some (stand_of self.new)) None) }
    {
        match self.goals.pop() {
            Some(goal) => self.take_at(alloc, arranged, goal, tag),
            None => self.begin(alloc, arranged, tag),
        }
    }
}

/// Takes the tags one after the other. An `Err` says that they don't prove the program, or that
/// memory ran out.
fn take_all<'a>(alloc: Global, arranged: &'a Arranged, tags: &[Tag]) -> Result<(), CheckFault>
    ghost d: { Setting }
    requires ordered { IsOrdering d.ordered }
    requires setting { d ≡ setting_of d.ordered arranged.now }
    ensures ok { IfOk result (λ _. Proves d tags.now) }
    ensures err { IfErr result (λ e. IfRefused e (Refused d tags.now)) }
{
    let mut stand = Stand {
        goals: Vec::new(alloc),
        begun: 0,
    };
    for (number, tag) in tags.iter().enumerate() {
        if stand.is_finished(arranged) {
            return Err(CheckFault::Refused(number, Refusal::Leftover));
        }
        if !stand.take(alloc, arranged, *tag)? {
            return Err(CheckFault::Refused(number, Refusal::NotARule));
        }
    }
    if !stand.is_finished(arranged) {
        return Err(CheckFault::Refused(tags.len(), Refusal::Unfinished));
    }
    Ok(())
}

/// Whether the tags prove the program: the proof exactly where they do, and else exactly where and
/// why they are refused. Instead of either answer memory may have run out.
pub fn check<'a>(
    alloc: Global,
    arranged: &'a Arranged,
    tags: Vec<Tag>,
) -> Result<Proof<'a>, CheckFault>
    ghost d: { Setting }
    requires ordered { IsOrdering d.ordered }
    requires setting { d ≡ setting_of d.ordered arranged.now }
    ensures proves { IfOk result (λ _. Proves d tags.items) }
    ensures arranged { IfOk result (λ proof. arranged_in proof ≡ arranged.now) }
    ensures tags { IfOk result (λ proof. tags_in proof ≡ tags.items) }
    ensures refused { IfErr result (λ e. IfRefused e (Refused d tags.items)) }
    ensures only_proved { Proves d tags.items
        → MatchResult result (λ _. Unit {0}) (λ e. e ≡ OutOfMemory) }
    ensures only_refused { (number : ℕ) (why : RefusalOf) → Refused d tags.items number why
        → MatchResult result (λ _. ⊥) (λ e. (e ≡ IsRefused number why) ⊎ (e ≡ OutOfMemory)) }
{
    take_all(alloc, arranged, &tags)?;
    Ok(Proof { arranged, tags })
}

impl<'a> Proof<'a> {
    /// The program that is proved.
    pub fn arranged(&self) -> &'a Arranged
        ensures { result.now ≡ arranged_in self.now }
    {
        self.arranged
    }

    /// The tags that prove it.
    pub fn tags(&self) -> &[Tag]
        ensures { result.now ≡ tags_in self.now }
    {
        &self.tags
    }

    /// The tags prove the program.
    pub fn proves(&self)
        ensures { Proven (arranged_in self.now) (tags_in self.now) }
    {
        let _kept = &self.tags;
        proven_from_truncation();
    }
}
