//! The tags that a search takes of a procedure, as far as it comes, and the goals at them.

use sf_base::ProcId;
use sf_base::limits::PROCEDURE_TAGS;
use sf_precise::Arranged;
use sf_rules::{RuleFault, apply_row, first_goal, push_children};
use sf_search::{Choice, choose};
use sf_sym::{Goal, Stuck, Tag};
use std::alloc::{AllocError, Global};

/// How a walk ends.
#[derive(Drop)]
pub enum End<'a> {
    /// No goal is open.
    Proved,
    /// At this goal the search takes no tag, for that reason.
    Stuck(Goal<'a>, Stuck),
    /// There would be more tags than a procedure may have.
    TooLarge,
}

/// The tags that a search takes, without the procedure's own, and how it ends.
#[derive(Drop)]
pub struct Walk<'a> {
    /// The tags.
    pub tags: Vec<Tag>,
    /// How it ends.
    pub end: End<'a>,
}

/// The first goal of the procedure of that number, if there is such a procedure. An `Err` says that
/// memory ran out.
pub fn first<'a>(
    alloc: Global,
    arranged: &'a Arranged,
    f: ProcId,
) -> Result<Option<Goal<'a>>, AllocError> {
    if f.0 as usize >= arranged.program.procedures.len() {
        return Ok(None);
    }
    let goal = first_goal(alloc, arranged, f)?;
    Ok(Some(goal))
}

/// Takes a tag at a goal: what it leaves goes on the stack. `false` where it has no row there. An
/// `Err` says that memory ran out.
pub fn follow<'a>(
    alloc: Global,
    arranged: &'a Arranged,
    stack: &mut Vec<Goal<'a>>,
    goal: Goal<'a>,
    tag: Tag,
) -> Result<bool, AllocError> {
    match apply_row(alloc, arranged, goal, tag) {
        Ok(left) => {
            push_children(stack, left)?;
            Ok(true)
        }
        Err(RuleFault::NotARule) => Ok(false),
        Err(RuleFault::OutOfMemory) => Err(AllocError),
    }
}

/// What comes of one goal: the tag that the search takes, which it follows, or the goal with the
/// reason for which it takes none.
#[derive(Drop)]
enum Step<'a> {
    Taken(Tag),
    Stays(Goal<'a>, Stuck),
}

/// One step of the search, from a goal that was the next one of the stack.
fn make_step<'a>(
    alloc: Global,
    arranged: &'a Arranged,
    stack: &mut Vec<Goal<'a>>,
    mut goal: Goal<'a>,
) -> Result<Step<'a>, AllocError> {
    goal.state.settle();
    match choose(alloc, &goal)? {
        Choice::Takes(tag) => {
            follow(alloc, arranged, stack, goal, tag)?;
            Ok(Step::Taken(tag))
        }
        Choice::Stays(kind) => Ok(Step::Stays(goal, kind)),
    }
}

/// Takes the search's tags from the goals of a stack on, and says how that ends.
fn walk_on<'a>(
    alloc: Global,
    arranged: &'a Arranged,
    stack: &mut Vec<Goal<'a>>,
    tags: &mut Vec<Tag>,
) -> Result<End<'a>, AllocError> {
    for _ in 0..=PROCEDURE_TAGS {
        let Some(goal) = stack.pop() else {
            return Ok(End::Proved);
        };
        match make_step(alloc, arranged, stack, goal)? {
            Step::Taken(tag) => tags.push(tag)?,
            Step::Stays(goal, kind) => return Ok(End::Stuck(goal, kind)),
        }
    }
    Ok(End::TooLarge)
}

/// The tags that a search takes of the procedure of that number, as far as it comes. An `Err` says
/// that memory ran out.
pub fn search_of<'a>(
    alloc: Global,
    arranged: &'a Arranged,
    f: ProcId,
) -> Result<Walk<'a>, AllocError> {
    let mut stack = Vec::new(alloc);
    if let Some(goal) = first(alloc, arranged, f)? {
        stack.push(goal)?;
    }
    let mut tags = Vec::new(alloc);
    let end = walk_on(alloc, arranged, &mut stack, &mut tags)?;
    Ok(Walk { tags, end })
}
