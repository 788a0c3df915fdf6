//! The search for a proof, procedure by procedure.

ghost use Rattle.std.specs.Prelude.{◌≡◌, ◌++◌, ◌<◌, ◌≤◌, ◌∷◌, [], IfErr, IfOk, IfSome, List, Some, false, is_some, length, true};
ghost use Rattle.sf_base.specs.declared.limits.TheConstants.{FILE_TAGS as FILE_LIMIT};
ghost use Rattle.std.specs.List.{slice_get};
ghost use Rattle.sf_base.specs.Results.{Appends};
ghost use Rattle.sf_precise.specs.Order.{IsOrdering};
ghost use Rattle.sf_rules.specs.First.{first_goal as first_of};
ghost use Rattle.sf_rules.specs.Checked.Children.{stack_of};
ghost use Rattle.sf_rules.specs.Checked.Rows.Whole.{row};
ghost use Rattle.sf_rules.specs.Setting.{Setting, setting_of};
ghost use Rattle.sf_search.specs.Checked.ShapeLaws.{KeepsShape};
ghost use Rattle.sf_search.specs.Ends.{EndsAs, FailsAs, failure};
ghost use Rattle.sf_search.specs.Judge.{Judge, Search, proof, proved};
ghost use Rattle.sf_search.specs.Strategy.{strategy};
ghost use Rattle.sf_sym.specs.Goal.{Goal as AnyGoal, goal_of};
ghost use Rattle.sf_sym.specs.declared.tag.Tag.TheVariants.{Procedure};

use crate::choices::{Choice, choose};
use crate::laws::{arranged_is_set_up, goals_have_shape};
use sf_base::ProcId;
use sf_base::limits::{FILE_TAGS, PROCEDURE_TAGS};
use sf_precise::Arranged;
use sf_rules::{RuleFault, apply_row, first_goal, push_children};
use sf_sym::{Goal, Stuck, Tag};
use std::alloc::{AllocError, AllocFailed, Global};

/// Why a search found no proof.
#[derive(Drop)]
pub enum SearchFault<'a> {
    /// The strategy goes no further at this goal, for this reason and after so many tags.
    Stuck(Goal<'a>, Stuck, usize),
    /// The proof would have more tags than a procedure's may have, or the file's would.
    TooLarge,
    /// Out of memory.
    OutOfMemory,
}

impl<'a> From<AllocError> for SearchFault<'a> {
    ghost use Rattle.std.specs.Prelude.{◌≡◌};
    ghost use Rattle.sf_search.specs.declared.verdicts.SearchFault.TheVariants.{OutOfMemory};

    ghost from_gives = { λ _ e. e ≡ OutOfMemory };

    fn from(_error: AllocError) -> SearchFault<'a> {
        SearchFault::OutOfMemory
    }
}

impl<'a, T: Drop> From<AllocFailed<T>> for SearchFault<'a> {
    ghost use Rattle.std.specs.Prelude.{◌≡◌};
    ghost use Rattle.sf_search.specs.declared.verdicts.SearchFault.TheVariants.{OutOfMemory};

    ghost from_gives = { λ _ e. e ≡ OutOfMemory };

    fn from(_error: AllocFailed<T>) -> SearchFault<'a> {
        SearchFault::OutOfMemory
    }
}

/// Why a program isn't proved.
#[derive(Drop)]
pub enum VerifyFault<'a> {
    /// No proof of this procedure was found, the first such one, and why: not for want of memory.
    Failed(ProcId, SearchFault<'a>),
    /// Out of memory.
    OutOfMemory,
}

impl<'a> From<AllocError> for VerifyFault<'a> {
    ghost use Rattle.std.specs.Prelude.{◌≡◌};
    ghost use Rattle.sf_search.specs.declared.verdicts.VerifyFault.TheVariants.{OutOfMemory};

    ghost from_gives = { λ _ e. e ≡ OutOfMemory };

    fn from(_error: AllocError) -> VerifyFault<'a> {
        VerifyFault::OutOfMemory
    }
}

/// The tags of a proof of the procedure of that number, without its `procedure` tag. There is such
/// a procedure. An `Err` says how the search ended.
pub fn search<'a>(
    alloc: Global,
    arranged: &'a Arranged,
    f: ProcId,
) -> Result<Vec<Tag>, SearchFault<'a>>
    ghost d: { Setting }
    requires ordered { IsOrdering d.ordered }
    requires setting { d ≡ setting_of d.ordered arranged.now }
    requires there { f.0 < length arranged.now.program.procedures.items }
    ensures ok { IfOk result (λ tags. IfSome (slice_get d.program.procedures f.0)
        (λ g. Search d (first_of d f g) tags.items proved)) }
    ensures err { IfErr result (λ e. IfSome (slice_get d.program.procedures f.0)
        (λ g. EndsAs d (first_of d f g) e)) }
{
    arranged_is_set_up();
    goals_have_shape();
    let first = first_goal(alloc, arranged, f)?;
    search_from(alloc, arranged, first)
}

/// The tags of a proof of the goal, from which the search comes only to goals that are as goals of
/// programs are.
fn search_from<'a>(
    alloc: Global,
    arranged: &'a Arranged,
    first: Goal<'a>,
) -> Result<Vec<Tag>, SearchFault<'a>>
    ghost d: { Setting }
    requires ordered { IsOrdering d.ordered }
    requires setting { d ≡ setting_of d.ordered arranged.now }
    requires shape { KeepsShape d (goal_of first) }
    ensures ok { IfOk result (λ tags. Search d (goal_of first.entry) tags.items proved) }
    ensures err { IfErr result (λ e. EndsAs d (goal_of first.entry) e) }
{
    let mut tags = Vec::new(alloc);
    let mut stack = Vec::new(alloc);
    stack.push(first)?;
    while let Some(mut goal) = stack.pop() {
        let tag = match decide(alloc, &mut goal)? {
            Choice::Takes(tag) => tag,
            Choice::Stays(kind) => return Err(SearchFault::Stuck(goal, kind, tags.len())),
        };
        if tags.len() == PROCEDURE_TAGS {
            return Err(SearchFault::TooLarge);
        }
        follow(alloc, arranged, &mut stack, &mut tags, goal, tag)?;
    }
    Ok(tags)
}

/// What the strategy does at the goal, which stays what it is. An `Err` means out of memory.
fn decide(alloc: Global, goal: &mut Goal) -> Result<Choice, AllocError>
    ensures same { goal.new ≡ goal.old }
    ensures choice { IfOk result (λ c. c ≡ strategy (goal_of goal.old)) }
{
    goal.state.settle();
    choose(alloc, goal)
}

/// Takes the tag at a goal, where it has a row: what it leaves goes on the stack, and the tag after
/// the tags. An `Err` means out of memory.
fn follow<'a>(
    alloc: Global,
    arranged: &'a Arranged,
    stack: &mut Vec<Goal<'a>>,
    tags: &mut Vec<Tag>,
    goal: Goal<'a>,
    tag: Tag,
) -> Result<(), AllocError>
    ghost d: { Setting }
    requires ordered { IsOrdering d.ordered }
    requires setting { d ≡ setting_of d.ordered arranged.now }
    requires row { is_some (row d (goal_of goal) tag) ≡ true }
    ensures left { IfOk result (λ _. (left : List AnyGoal)
        × (row d (goal_of goal.entry) tag ≡ Some left)
        × (stack_of stack.new.items ≡ left ++ stack_of stack.old.items)) }
    ensures tags { Appends result tags.old.items tags.new.items (tag ∷ []) }
{
    match apply_row(alloc, arranged, goal, tag) {
        Ok(left) => {
            push_children(stack, left)?;
            tags.push(tag)?;
            Ok(())
        }
        Err(RuleFault::NotARule) => unreachable!(),
        Err(RuleFault::OutOfMemory) => Err(AllocError),
    }
}

/// The tags of a proof of the whole program, each procedure's after its `procedure` tag. An `Err`
/// says which procedure fails and why, or means out of memory.
pub fn verify<'a>(alloc: Global, arranged: &'a Arranged) -> Result<Vec<Tag>, VerifyFault<'a>>
    ghost d: { Setting }
    requires ordered { IsOrdering d.ordered }
    requires setting { d ≡ setting_of d.ordered arranged.now }
    ensures ok { IfOk result (λ tags. Judge d (proof tags.items)) }
    ensures err { IfErr result (λ e. FailsAs d e) }
{
    let mut tags = Vec::new(alloc);
    let mut spent = 0;
    let mut i = 0;
    while i < arranged.program.procedures.len() {
        let f = ProcId(i as u32);
        let found = match search(alloc, arranged, f) {
            Ok(found) => found,
            Err(fault) => return Err(failure(f, fault, spent)),
        };
        spent += found.len();
        if spent > FILE_TAGS {
            return Err(VerifyFault::Failed(f, SearchFault::TooLarge));
        }
        append(&mut tags, f, &found)?;
        i += 1;
    }
    Ok(tags)
}

/// What a search that found no proof means for the program, where so many tags of the file were
/// used before: with more than a file may have it is too large.
pub fn failure<'a>(f: ProcId, fault: SearchFault<'a>, spent: usize) -> VerifyFault<'a>
    requires { spent ≤ FILE_LIMIT }
    ensures { result ≡ failure spent f fault.entry }
{
    match fault {
        SearchFault::Stuck(goal, kind, before) => {
            if before > FILE_TAGS - spent {
                VerifyFault::Failed(f, SearchFault::TooLarge)
            } else {
                VerifyFault::Failed(f, SearchFault::Stuck(goal, kind, before))
            }
        }
        SearchFault::TooLarge => VerifyFault::Failed(f, SearchFault::TooLarge),
        SearchFault::OutOfMemory => VerifyFault::OutOfMemory,
    }
}

/// Puts a procedure's tags after those of the procedures before it. An `Err` means out of memory.
pub fn append(tags: &mut Vec<Tag>, f: ProcId, found: &[Tag]) -> Result<(), AllocError>
    ensures { Appends result tags.old.items tags.new.items (Procedure f ∷ found.now) }
{
    tags.push(Tag::Procedure(f))?;
    tags.extend_from_slice(found)?;
    Ok(())
}
