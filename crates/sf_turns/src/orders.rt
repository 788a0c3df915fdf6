//! Runs whose tasks fork some levels down and are joined in a given order.

ghost use Rattle.std.specs.Prelude.{IfOk, IfSome};
ghost use Rattle.sf_turns.specs.Checked.Seats.{HasGone, IsEntryAt, RunsAt, Seen};
ghost use Rattle.sf_turns.specs.Checked.Trees.{HasGrown};

use crate::ends::{End, closed};
use crate::seated::Seated;
use crate::trees::{TaskTree, add_givens, due, grown, joined};
use crate::turns::AtTable;
use sf_base::TaskPath;
use sf_part::going::going_keeps_path;
use sf_precise::Arranged;
use sf_region::Regions;
use std::alloc::{AllocError, Global};

/// What a run comes to whose joins are made in a given order.
#[derive(Drop)]
pub struct Course {
    /// Where each task was before the first join, and how many units it was given, from left to
    /// right, a task before its children.
    pub givens: Vec<(TaskPath, u64)>,
    /// How many joins were due each time that one was made.
    pub dues: Vec<usize>,
    /// What the run ended with.
    pub end: End,
}

/// A task after its joins, with what was met on the way.
#[derive(Drop)]
struct Joined<'p> {
    givens: Vec<(TaskPath, u64)>,
    dues: Vec<usize>,
    task: Seated<'p>,
}

/// A run whose entry's task forks so many levels down, and whose joins are made in the order of these
/// numbers, each among those that are due. `None` where it comes to no such forks and joins, or
/// doesn't end with them. An `Err` says that memory ran out.
pub fn run_in_order<'p>(
    alloc: Global,
    at: AtTable<'p>,
    levels: u64,
    order: &[usize],
) -> Result<Option<Course>, AllocError>
    requires { IsEntryAt at.p.now at.f at.regions at.task }
{
    going_keeps_path();
    let AtTable {
        p,
        f,
        regions,
        task,
    } = at;
    let task = Seated { task };
    let Some(whole) = joined_again(alloc, task, p, &regions, levels, order)? else {
        return Ok(None);
    };
    let Joined { givens, dues, task } = whole;
    let at = AtTable {
        p,
        f,
        regions,
        task: task.into_task(),
    };
    let Some(end) = closed(at)? else {
        return Ok(None);
    };
    Ok(Some(Course { givens, dues, end }))
}

/// The forks and joins of that run.
fn joined_again<'p>(
    alloc: Global,
    task: Seated<'p>,
    p: &'p Arranged,
    regions: &Regions<'p>,
    levels: u64,
    order: &[usize],
) -> Result<Option<Joined<'p>>, AllocError>
    requires { RunsAt p.now regions.now task.task }
    ensures { IfOk result (λ o. IfSome o (λ j.
        HasGone p.now regions.now task.entry.task j.task.task)) }
{
    let mut givens = Vec::new(alloc);
    let mut dues = Vec::new(alloc);
    let Some(tree) = grown(alloc, task, p, regions, levels)? else {
        return Ok(None);
    };
    add_givens(&tree, &mut givens)?;
    let Some(tree) = joined_in_order(alloc, tree, p, regions, order, &mut dues)? else {
        return Ok(None);
    };
    let TaskTree::Runs(task) = tree else {
        return Ok(None);
    };
    Ok(Some(Joined { givens, dues, task }))
}

/// Makes joins in the order of these numbers, each among those that are due, and notes how many were
/// due each time.
fn joined_in_order<'p>(
    alloc: Global,
    tree: TaskTree<'p>,
    p: &'p Arranged,
    regions: &Regions<'p>,
    order: &[usize],
    dues: &mut Vec<usize>,
) -> Result<Option<TaskTree<'p>>, AllocError>
    requires { (k : Seen) × HasGrown p.now regions.now k tree }
    ensures { IfOk result (λ o. IfSome o (λ after. (k : Seen)
        → HasGrown p.now regions.now k tree.entry → HasGrown p.now regions.now k after)) }
{
    let mut tree = tree;
    for number in order {
        dues.push(due(&tree))?;
        let Some(next) = joined(alloc, tree, p, regions, *number)? else {
            return Ok(None);
        };
        tree = next;
    }
    Ok(Some(tree))
}
