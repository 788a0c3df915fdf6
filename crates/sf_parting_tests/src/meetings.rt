//! Two threads that meet at one table. Which of them is faster is left open; what each does, and what
//! is there at the end, is worked out by hand.

ghost use Rattle.std.specs.Prelude.{◌≡◌, IfOk, Ok};
ghost use Rattle.sf_turns.specs.Checked.Parting.{IsEntryParted};
ghost use Rattle.sf_turns.specs.Checked.Seats.{HasGone, RunsAt};

use crate::programs::EXCHANGED;
use sf_base::{ResId, TaskPath, Turn, Value};
use sf_crossing::arranged_programs_are_shared;
use sf_files::fitted;
use sf_frame::Spot;
use sf_part::Stamped;
use sf_part::going::children_go_on;
use sf_precise::Arranged;
use sf_region::{Regions, Task};
use sf_threads::{tables_are_shared, tasks_are_sent};
use sf_turns::ends::{End, closed};
use sf_turns::forks::{AtFork, Parted, fork_at, join_at};
use sf_turns::seated::Seated;
use sf_turns::turns::{sit, to_halt};
use std::alloc::{AllocError, Global};
use std::test::Fail;
use std::thread::{Threads, join};

const MM: ResId = ResId(0);

/// How many cells each of the two lists has: so often each task enters the region and leaves it.
const CELLS: u64 = 300;

/// The most turns of a task: far more than its events and the tries that it makes in vain.
const MOST: u64 = 100_000_000;

/// The program, the table at which a child of a parallel call meets the other one, and the child.
#[derive(Drop)]
struct Child<'c, 'p>(&'p Arranged, &'c Regions<'p>, Task<'p>);

/// Lets a child take its turns, until there is no further step of it alone.
fn halted<'c, 'p>(child: Child<'c, 'p>) -> Result<Task<'p>, AllocError>
    requires { RunsAt child.0.now child.1.now child.2 }
    ensures { IfOk result (HasGone child.entry.0.now child.entry.1.now child.entry.2) }
{
    let Child(p, regions, task) = child;
    to_halt(task, p, regions, MOST)
}

/// What a thread came to, to be kept.
fn seated<'p>(came: Result<Task<'p>, AllocError>) -> Result<Seated<'p>, AllocError>
    ensures { IfOk result (λ s. came.entry ≡ Ok s.task) }
{
    let task = came?;
    Ok(Seated { task })
}

/// Lets both children take their turns, each on a thread of its own where one can be made.
fn beside<'c, 'p, R: Threads + Sync>(
    rt: &R,
    p: &'p Arranged,
    regions: &'c Regions<'p>,
    left: Task<'p>,
    right: Task<'p>,
) -> Result<(Seated<'p>, Seated<'p>), AllocError>
    requires left { RunsAt p.now regions.now left }
    requires right { RunsAt p.now regions.now right }
    ensures left { IfOk result (λ s. HasGone p.now regions.now left.entry s.0.task) }
    ensures right { IfOk result (λ s. HasGone p.now regions.now right.entry s.1.task) }
{
    arranged_programs_are_shared();
    tables_are_shared();
    tasks_are_sent();
    let one = Child(p, regions, left);
    let two = Child(p, regions, right);
    let (left, right) = join(
        rt,
        move ||
            requires { RunsAt one.0.now one.1.now one.2 }
            ensures { IfOk result (HasGone one.entry.0.now one.entry.1.now one.entry.2) }
        { halted(one) },
        move ||
            requires { RunsAt two.0.now two.1.now two.2 }
            ensures { IfOk result (HasGone two.entry.0.now two.entry.1.now two.entry.2) }
        { halted(two) },
    );
    let left = seated(left);
    let right = seated(right);
    Ok((left?, right?))
}

/// The same at the table where they were forked.
fn both_beside<'p, R: Threads + Sync>(rt: &R, at: AtFork<'p>) -> Result<AtFork<'p>, AllocError>
    requires { IsEntryParted at.p.now at.f at.regions at.parted }
    ensures { IfOk result (λ s. IsEntryParted s.p.now s.f s.regions s.parted) }
{
    children_go_on();
    let AtFork {
        p,
        f,
        regions,
        parted,
    } = at;
    let Parted { waits, left, right } = parted;
    let waits = Seated { task: waits };
    let (left, right) = beside(rt, p, &regions, left, right)?;
    let parted = Parted {
        waits: waits.into_task(),
        left: left.into_task(),
        right: right.into_task(),
    };
    Ok(AtFork {
        p,
        f,
        regions,
        parted,
    })
}

/// A cell for each task, one for the resource, and two lists of that many cells.
fn three_cells_and_lists(alloc: Global) -> Result<Vec<u8>, AllocError> {
    let line = format!(in alloc;
        "x = @1\nz = @2\ny = @4\nw = @{}\nmm.f = @3\n@1\n@2\n@3\n",
        CELLS + 4
    )?;
    let mut text = Vec::from_slice(alloc, line.as_bytes())?;
    for number in 1..2 * CELLS + 1 {
        let at = number + 3;
        let line = if number == CELLS || number == 2 * CELLS {
            format!(in alloc; "@{at}\n")?
        } else {
            format!(in alloc; "@{at} tl=@{}\n", at + 1)?
        };
        text.extend_from_slice(line.as_bytes())?;
    }
    Ok(text)
}

/// How many entries of a log are of the task with those turns, if their numbers rise one by one from
/// that one on.
fn counted(log: &[Stamped], turns: &[Turn], first: u64) -> Option<u64> {
    let mut next = first;
    for entry in log {
        if entry.task.turns() == turns {
            if entry.number != next {
                return None;
            }
            next = next.saturating_add(1);
        }
    }
    Some(next.saturating_sub(first))
}

/// A child sets its own copy of the parameter, and has eleven events for each cell, the test at which
/// the loop ends and the return: 3,303 of the 6,608 units, which are from 604 on. The last one is the
/// join's.
#[test]
fn two_threads_exchange_cells_at_one_table(rt: HostRuntime) -> Result<(), Fail> {
    let alloc = rt.alloc();
    let p = fitted(alloc, EXCHANGED).expect(&rt, "a program");
    let text = three_cells_and_lists(alloc)?;
    let at = sit(alloc, &p, "both", text.as_slice(), 6_608, true)?.expect(&rt, "a start");
    let at = fork_at(at)?.expect(&rt, "a parallel call");
    let at = both_beside(&rt, at)?;
    let at = join_at(at)?.expect(&rt, "a join");
    let End {
        vars,
        heap,
        log,
        mut contents,
    } = closed(at)?.expect(&rt, "an end");
    let entries = log.entries.as_slice();
    assert_eq!(rt; entries.len(), 6_608);
    assert_eq!(rt; counted(entries, &[Turn::Left], 605), Some(3_303));
    assert_eq!(rt; counted(entries, &[Turn::Right], 3_908), Some(3_303));
    let last = entries.last().copied().expect(&rt, "a join");
    assert_eq!(rt; (last.task, last.number), (TaskPath::entry(), 7_211));
    assert_eq!(rt; heap.len(), 2);
    assert_eq!(rt; contents.len(), 1);
    let content = contents.pop().expect(&rt, "a content");
    let (store, left) = content.into_parts();
    assert_eq!(rt; left.len(), 1);
    let kept = store.find(Spot::Shared(MM, 0)).expect(&rt, "a cell");
    for at in 1..4 {
        let cell = Value::Loc(at);
        assert!(rt; cell == kept || vars.own.as_slice().contains(&cell));
        assert_eq!(rt; heap.get(at).is_some(), cell != kept);
    }
    Ok(())
}
