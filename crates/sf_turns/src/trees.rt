//! Forks of children, some levels down, and their joins in any order.

ghost use Rattle.std.specs.Prelude.{◌≡◌, IfOk, IfSome};
ghost use Rattle.sf_precise.specs.declared.arranged.Arranged.{Arranged as A};
ghost use Rattle.sf_turns.specs.Checked.Parting.{HasParted};
ghost use Rattle.sf_turns.specs.Checked.Kept.{parted_of};
ghost use Rattle.sf_turns.specs.Checked.Seats.{RunsAt, Seen, Table};
ghost use Rattle.sf_turns.specs.Checked.Trees.{HasBranched, HasGrown};
ghost use Rattle.sf_turns.specs.declared.trees.TaskTree.{Runs};

use crate::seated::{Forked, Seated};
use sf_base::TaskPath;
use sf_part::going::{children_go_on, going_composes};
use sf_precise::Arranged;
use sf_region::Regions;
use std::alloc::{AllocError, Global};

/// A task, with the tasks that have come of it.
#[derive(Drop)]
pub(crate) enum TaskTree<'p> {
    /// One that runs.
    Runs(Seated<'p>),
    /// One that waits at a parallel call, and its two children.
    Waits(Seated<'p>, Box<TaskTree<'p>>, Box<TaskTree<'p>>),
}

/// The tree of a task that waits and the trees of its children. An `Err` says that memory ran out.
fn branched<'p>(
    alloc: Global,
    waits: Seated<'p>,
    left: TaskTree<'p>,
    right: TaskTree<'p>,
) -> Result<TaskTree<'p>, AllocError>
    ensures { IfOk result (λ tree. (a : A) (t : Table) (k : Seen)
        → HasBranched a t k waits.entry left.entry right.entry → HasGrown a t k tree) }
{
    let left = Box::new(alloc, left)?;
    let right = Box::new(alloc, right)?;
    Ok(TaskTree::Waits(waits, left, right))
}

/// Goes on to the next parallel call and makes it, and so do the children, as many levels down; the
/// tasks below go on as far as they can alone. `None` where one of them doesn't come to a parallel
/// call, or can't make it. An `Err` says that memory ran out.
#[cycle(growing)]
pub(crate) fn grown<'p>(
    alloc: Global,
    task: Seated<'p>,
    p: &'p Arranged,
    regions: &Regions<'p>,
    levels: u64,
) -> Result<Option<TaskTree<'p>>, AllocError>
    requires { RunsAt p.now regions.now task.task }
    ensures { IfOk result (λ o. IfSome o (HasGrown p.now regions.now task.entry.task)) }
{
    going_composes();
    let task = task.halted(p, regions)?;
    if levels == 0 {
        return Ok(Some(TaskTree::Runs(task)));
    }
    let Some(forked) = task.forked(p, regions)? else {
        return Ok(None);
    };
    grown_below(alloc, forked, p, regions, levels - 1)
}

/// The same of the two children of a task that has forked.
#[cycle(growing)]
fn grown_below<'p>(
    alloc: Global,
    forked: Forked<'p>,
    p: &'p Arranged,
    regions: &Regions<'p>,
    levels: u64,
) -> Result<Option<TaskTree<'p>>, AllocError>
    requires { (k : Seen) × HasParted p.now regions.now k (parted_of forked) }
    ensures { IfOk result (λ o. IfSome o (λ tree. (k : Seen)
        → HasParted p.now regions.now k (parted_of forked.entry)
        → HasGrown p.now regions.now k tree)) }
{
    let Forked { waits, left, right } = forked;
    let Some(left) = grown(alloc, left, p, regions, levels)? else {
        return Ok(None);
    };
    let Some(right) = grown(alloc, right, p, regions, levels)? else {
        return Ok(None);
    };
    let tree = branched(alloc, waits, left, right)?;
    Ok(Some(tree))
}

/// How many joins are due: of tasks that wait for two that run.
pub(crate) fn due(tree: &TaskTree<'_>) -> usize {
    match tree {
        TaskTree::Runs(_) => 0,
        TaskTree::Waits(_, left, right) => due(left).saturating_add(due(right)).max(1),
    }
}

/// The two tasks, if both run.
fn both_run<'p>(left: TaskTree<'p>, right: TaskTree<'p>) -> Option<(Seated<'p>, Seated<'p>)>
    ensures { IfSome result (λ s. (left.entry ≡ Runs s.0) × (right.entry ≡ Runs s.1)) }
{
    let TaskTree::Runs(left) = left else {
        return None;
    };
    let TaskTree::Runs(right) = right else {
        return None;
    };
    Some((left, right))
}

/// Joins two tasks that run, for which a third waits, as `Seated::rejoined` does. `None` also where
/// one has children.
fn run_again<'p>(
    waits: Seated<'p>,
    left: TaskTree<'p>,
    right: TaskTree<'p>,
    p: &'p Arranged,
    regions: &Regions<'p>,
) -> Result<Option<TaskTree<'p>>, AllocError>
    requires { (k : Seen) × HasBranched p.now regions.now k waits left right }
    ensures { IfOk result (λ o. IfSome o (λ tree. (k : Seen)
        → HasBranched p.now regions.now k waits.entry left.entry right.entry
        → HasGrown p.now regions.now k tree)) }
{
    children_go_on();
    let Some(both) = both_run(left, right) else {
        return Ok(None);
    };
    let (left, right) = both;
    let Some(task) = waits.rejoined(left, right, p, regions)? else {
        return Ok(None);
    };
    Ok(Some(TaskTree::Runs(task)))
}

/// Makes the join of that number among those that are due, from left to right; its task then goes on
/// as far as it can alone. `None` where there is none, or it can't be made. An `Err` says that memory
/// ran out.
pub(crate) fn joined<'p>(
    alloc: Global,
    tree: TaskTree<'p>,
    p: &'p Arranged,
    regions: &Regions<'p>,
    number: usize,
) -> Result<Option<TaskTree<'p>>, AllocError>
    requires { (k : Seen) × HasGrown p.now regions.now k tree }
    ensures { IfOk result (λ o. IfSome o (λ after. (k : Seen)
        → HasGrown p.now regions.now k tree.entry → HasGrown p.now regions.now k after)) }
{
    let TaskTree::Waits(waits, left, right) = tree else {
        return Ok(None);
    };
    let left = Box::into_inner(left);
    let right = Box::into_inner(right);
    let before = due(&left);
    if number < before {
        let Some(left) = joined(alloc, left, p, regions, number)? else {
            return Ok(None);
        };
        let tree = branched(alloc, waits, left, right)?;
        return Ok(Some(tree));
    }
    if before == 0 && due(&right) == 0 {
        return run_again(waits, left, right, p, regions);
    }
    let Some(right) = joined(alloc, right, p, regions, number - before)? else {
        return Ok(None);
    };
    let tree = branched(alloc, waits, left, right)?;
    Ok(Some(tree))
}

/// Where each task of a tree is, and how many units it was given at its start, behind what is there.
pub(crate) fn add_givens(
    tree: &TaskTree<'_>,
    givens: &mut Vec<(TaskPath, u64)>,
) -> Result<(), AllocError> {
    match tree {
        TaskTree::Runs(kept) => Ok(givens.push((kept.task.path(), kept.task.given()))?),
        TaskTree::Waits(kept, left, right) => {
            givens.push((kept.task.path(), kept.task.given()))?;
            add_givens(left, givens)?;
            add_givens(right, givens)
        }
    }
}
