//! What a tag leaves of a goal: the whole table.

ghost use Rattle.std.specs.Prelude.{◌≡◌, ◌++◌, IfErr, IfOk, IsTrue, None, OnOk, Some};
ghost use Rattle.std.specs.Option.{option_map};
ghost use Rattle.sf_precise.specs.Order.{IsOrdering};
ghost use Rattle.sf_rules.specs.Checked.Children.{children_of, stack_of};
ghost use Rattle.sf_rules.specs.Checked.Rows.Whole.{row, row_of};
ghost use Rattle.sf_rules.specs.Rules.{HasNoRule, Leaves, has_numbers};
ghost use Rattle.sf_rules.specs.Setting.{Setting, setting_of};
ghost use Rattle.sf_rules.specs.declared.children.RuleFault.TheVariants.{NotARule};
ghost use Rattle.sf_sym.specs.Goal.{goal_of};

use crate::branches::branch;
use crate::calls::{call, fork, give};
use crate::commands::{assign, dispose, look, mutate, new};
use crate::few::TOO_MANY;
use crate::knowledge::{absurd_row, back_row, drop_row, force_row, split_row, unroll_row};
use crate::loops::{again, around, begin_loop, end, return_from};
use crate::regions::{enter, exit};
use crate::subtracting::{assume, show};
use sf_precise::Arranged;
use sf_sym::{Goal, State, Tag};
use std::alloc::{AllocError, Global};

/// What a row leaves to be proved.
#[derive(Drop)]
pub enum Children<'a> {
    /// Nothing: the goal is proved.
    None,
    /// That goal.
    One(Goal<'a>),
    /// The first of these, and then the second.
    Two(Goal<'a>, Goal<'a>),
}

/// Why a tag leaves nothing of a goal.
#[derive(Clone, Copy, Debug)]
pub enum RuleFault {
    /// The tag has no row at the goal.
    NotARule,
    /// Out of memory.
    OutOfMemory,
}

impl From<AllocError> for RuleFault {
    ghost use Rattle.std.specs.Prelude.{◌≡◌};
    ghost use Rattle.sf_rules.specs.declared.children.RuleFault.TheVariants.{OutOfMemory};

    ghost from_gives = { λ _ e. e ≡ OutOfMemory };

    fn from(_error: AllocError) -> RuleFault {
        RuleFault::OutOfMemory
    }
}

/// What a tag leaves of a goal, which is given up: nothing is copied where one goal is left.
/// `NotARule` comes exactly where no rule of that tag is there; `row` and `no_row` say the same by
/// the function that the code computes.
#[tactic(auto, using(crate::proofs::RuleLaws::ok_leaves, crate::proofs::RuleLaws::err_leaves))]
pub fn apply_row<'a>(
    alloc: Global,
    arranged: &'a Arranged,
    goal: Goal<'a>,
    tag: Tag,
) -> Result<Children<'a>, RuleFault>
    ghost d: { Setting }
    requires ordered { IsOrdering d.ordered }
    requires setting { d ≡ setting_of d.ordered arranged.now }
    ensures leaves { IfOk result (λ left. Leaves d (goal_of goal.entry) tag (children_of left)) }
    ensures no_rule { IfErr result (λ e. e ≡ NotARule → HasNoRule d (goal_of goal.entry) tag) }
    ensures row { IfOk result (λ left. row d (goal_of goal.entry) tag ≡ Some (children_of left)) }
    ensures no_row { IfErr result (λ e. e ≡ NotARule → row d (goal_of goal.entry) tag ≡ None) }
{
    children_by_row(alloc, arranged, goal, tag)
}

/// The same by the table as a function.
fn children_by_row<'a>(
    alloc: Global,
    arranged: &'a Arranged,
    goal: Goal<'a>,
    tag: Tag,
) -> Result<Children<'a>, RuleFault>
    ghost d: { Setting }
    requires ordered { IsOrdering d.ordered }
    requires setting { d ≡ setting_of d.ordered arranged.now }
    ensures ok { IfOk result (λ left. row d (goal_of goal.entry) tag ≡ Some (children_of left)) }
    ensures err { IfErr result (λ e. e ≡ NotARule → row d (goal_of goal.entry) tag ≡ None) }
{
    if !has_numbers(&goal.state) {
        return Err(RuleFault::NotARule);
    }
    // One `match` rather than a `?`: a frame has zeros written for each value between.
    match row_of(alloc, arranged, goal, tag) {
        Ok(Some(left)) => Ok(left),
        Ok(None) => Err(RuleFault::NotARule),
        Err(AllocError) => Err(RuleFault::OutOfMemory),
    }
}

/// Puts the goals that a row leaves on a stack of open goals, the first last, so that it comes
/// next. An `Err` means out of memory.
pub fn push_children<'a>(stack: &mut Vec<Goal<'a>>, left: Children<'a>) -> Result<(), AllocError>
    ensures { OnOk result
        (stack_of stack.new.items ≡ children_of left.entry ++ stack_of stack.old.items) }
{
    match left {
        Children::None => {}
        Children::One(goal) => stack.push(goal)?,
        Children::Two(first, second) => {
            stack.push(second)?;
            stack.push(first)?;
        }
    }
    Ok(())
}

/// Whether new numbers can't run out.
fn has_numbers(state: &State) -> bool
    ensures { result ≡ has_numbers state.now }
{
    let highest = u32::MAX - (TOO_MANY as u32 - 1);
    state.next_sym() <= highest && state.next_atom() <= highest
}

/// What the tag's row leaves, where numbers can't run out. `None` exactly where there is no row.
/// Each case is a call alone, of a function that isn't inlined: a frame has room for what any case
/// needs, and zeros are written to it at each goal.
fn row_of<'a>(
    alloc: Global,
    arranged: &'a Arranged,
    goal: Goal<'a>,
    tag: Tag,
) -> Result<Option<Children<'a>>, AllocError>
    ghost d: { Setting }
    requires ordered { IsOrdering d.ordered }
    requires setting { d ≡ setting_of d.ordered arranged.now }
    requires numbers { IsTrue (has_numbers goal.state) }
    ensures { IfOk result (λ left.
        option_map children_of left ≡ row_of d (goal_of goal.entry) tag) }
{
    match tag {
        Tag::Procedure(_) => Ok(None),
        Tag::Absurd => absurd_row(goal),
        Tag::Drop(a) => drop_row(goal, a),
        Tag::Force(a) => force_row(goal, a),
        Tag::Split(t, u) => split_row(alloc, goal, t, u),
        Tag::Unroll(a) => unroll_row(alloc, goal, a),
        Tag::Back(a) => back_row(alloc, goal, a),
        Tag::Assign => assign(goal),
        Tag::Look(a) => look(goal, a),
        Tag::Mutate(a) => mutate(goal, a),
        Tag::New => new(alloc, goal),
        Tag::Dispose(a) => dispose(goal, a),
        Tag::Then => branch(true, goal),
        Tag::Else => branch(false, goal),
        Tag::Loop => begin_loop(alloc, goal),
        Tag::Around => around(alloc, &arranged.calls, goal),
        Tag::Again => again(alloc, goal),
        Tag::Call => call(alloc, arranged, goal),
        Tag::Fork => fork(alloc, arranged, goal),
        Tag::Enter => enter(alloc, arranged, goal),
        Tag::Exit => exit(alloc, arranged, goal),
        Tag::Return => return_from(alloc, goal),
        Tag::Give => give(goal),
        Tag::End => end(goal),
        Tag::Add => assume(alloc, goal),
        Tag::Bind | Tag::Same | Tag::Apart | Tag::Cell(_) => show(alloc, goal, tag),
        Tag::Empty | Tag::Exact(_) | Tag::Head(_) => show(alloc, goal, tag),
        Tag::Join(_) | Tag::Node(_) => show(alloc, goal, tag),
    }
}
