//! Programs, event by event. What each step reads and writes is worked out by hand.

ghost use Rattle.std.specs.Prelude.{IfSome};
ghost use Rattle.sf_core.specs.Program.ProgramView.{program_of};
ghost use Rattle.sf_machine.specs.Configs.{config_of, IsWide};
ghost use Rattle.sf_machine.specs.Reached.{IsReached};

use sf_base::limits::TURNS;
use sf_base::{ResId, Slot, TaskPath, Thing, Turn, Value};
use sf_core::Program;
use sf_files::{fitted, start_of};
use sf_heap::Cell;
use sf_machine::{Config, Event, Stepped, accesses, begin, step};
use sf_precise::Arranged;
use sf_state::write;
use std::alloc::{AllocError, Global};
use std::test::Fail;

/// The configuration in which the procedure of that name starts with what the text gives.
fn start<'p>(alloc: Global, p: &'p Arranged, name: &str, text: &[u8]) -> Option<Config<'p>>
    ensures reached { IfSome result (λ c. IsReached (program_of p.now.program) (config_of c)) }
    ensures wide { IfSome result (IsWide (program_of p.now.program)) }
{
    match start_of(alloc, p, name, text) {
        Some(entered) => begin(alloc, &p.program, entered.f, &entered.start).ok(),
        None => None,
    }
}

/// The step of the event of that number of a task. A cell that it makes is at a location of that
/// number, with all fields nil.
fn step_at<'p>(
    alloc: Global,
    p: &'p Program,
    c: &mut Config<'p>,
    task: TaskPath,
    number: u64,
) -> Result<Stepped, AllocError>
    requires reached { IsReached (program_of p.now) (config_of c.old) }
    requires wide { IsWide (program_of p.now) c.old }
    ensures reached { IsReached (program_of p.now) (config_of c.new) }
    ensures wide { IsWide (program_of p.now) c.new }
{
    let fields = Cell::new(alloc, p.fields.len())?;
    let event = Event {
        task,
        number,
        at: number,
        fields,
    };
    step(p, c, &event)
}

/// A step of the entry's task: its number, and the things that it reads and those that it writes.
type Row<'a> = (u64, &'a [Thing], &'a [Thing]);

/// Whether the step reads and writes those things, and moves.
fn goes<'p>(
    alloc: Global,
    p: &'p Program,
    c: &mut Config<'p>,
    row: Row<'_>,
) -> Result<bool, AllocError>
    requires reached { IsReached (program_of p.now) (config_of c.old) }
    requires wide { IsWide (program_of p.now) c.old }
    ensures reached { IsReached (program_of p.now) (config_of c.new) }
    ensures wide { IsWide (program_of p.now) c.new }
{
    let (number, reads, writes) = row;
    let found = accesses(p, c, TaskPath::entry())?;
    let same = found.reads.as_slice() == reads && found.writes.as_slice() == writes;
    let stepped = step_at(alloc, p, c, TaskPath::entry(), number)?;
    Ok(same && stepped == Stepped::Moved)
}

/// Goes step by step, and gives the number of the first that isn't as said.
fn first_other<'p>(
    alloc: Global,
    p: &'p Program,
    c: &mut Config<'p>,
    rows: &[Row<'_>],
) -> Result<Option<u64>, AllocError>
    requires reached { IsReached (program_of p.now) (config_of c.old) }
    requires wide { IsWide (program_of p.now) c.old }
    ensures reached { IsReached (program_of p.now) (config_of c.new) }
    ensures wide { IsWide (program_of p.now) c.new }
{
    for row in rows {
        if !goes(alloc, p, c, *row)? {
            return Ok(Some(row.0));
        }
    }
    Ok(None)
}

/// An event: its task and its number.
type Move = (TaskPath, u64);

/// Makes the events, and gives the number of the first that isn't one.
fn first_refused<'p>(
    alloc: Global,
    p: &'p Program,
    c: &mut Config<'p>,
    events: &[Move],
) -> Result<Option<u64>, AllocError>
    requires reached { IsReached (program_of p.now) (config_of c.old) }
    requires wide { IsWide (program_of p.now) c.old }
    ensures reached { IsReached (program_of p.now) (config_of c.new) }
    ensures wide { IsWide (program_of p.now) c.new }
{
    for event in events {
        let (task, number) = *event;
        if step_at(alloc, p, c, task, number)? != Stepped::Moved {
            return Ok(Some(number));
        }
    }
    Ok(None)
}

/// Forks 63 times, and gives the path of the leftmost task, if all these steps move.
fn forked<'p>(
    alloc: Global,
    p: &'p Program,
    c: &mut Config<'p>,
) -> Result<Option<TaskPath>, AllocError>
    requires reached { IsReached (program_of p.now) (config_of c.old) }
    requires wide { IsWide (program_of p.now) c.old }
    ensures reached { IsReached (program_of p.now) (config_of c.new) }
    ensures wide { IsWide (program_of p.now) c.new }
{
    let mut task = TaskPath::entry();
    for number in 1..64 {
        if step_at(alloc, p, c, task, number)? != Stepped::Moved {
            return Ok(None);
        }
        if task.len() < TURNS {
            task = task.child(Turn::Left);
        }
    }
    Ok(Some(task))
}

/// A variable of the entry.
fn own(index: u32) -> Thing {
    Thing::Own(Slot { event: 0, index })
}

/// Turns a list round.
pub(crate) const TURNED: &[u8] = b"
    rev(o; i) [list(i)] {
      local t;
      o = nil;
      while (i != nil) [list(o) * list(i)] { t = i->tl; i->tl = o; o = i; i = t; }
    } [list(o)]";

/// A list of two cells.
pub(crate) const TWO_CELLS: &[u8] = b"o = nil\ni = @1\n@1 tl=@2\n@2";

#[test]
fn a_list_of_two_cells_is_turned_round(rt: HostRuntime) -> Result<(), Fail> {
    let alloc = rt.alloc();
    let p = fitted(alloc, TURNED).expect(&rt, "a program");
    let mut c = start(alloc, &p, "rev", TWO_CELLS).expect(&rt, "a start");
    let turned = own(0);
    let given = own(1);
    let next = own(2);
    let left = own(3);
    let one = Thing::At(1);
    let two = Thing::At(2);
    let rows: [Row<'_>; 13] = [
        (1, &[given], &[left]),
        (2, &[], &[turned]),
        (3, &[left], &[]),
        (4, &[left, one], &[next]),
        (5, &[left, turned], &[one]),
        (6, &[left], &[turned]),
        (7, &[next], &[left]),
        (8, &[left], &[]),
        (9, &[left, two], &[next]),
        (10, &[left, turned], &[two]),
        (11, &[left], &[turned]),
        (12, &[next], &[left]),
        (13, &[left], &[]),
    ];
    assert_eq!(rt; first_other(alloc, &p.program, &mut c, &rows)?, None);
    assert!(rt; c.has_ended());
    Ok(())
}

/// What the step of an event answers, where those before it were made.
fn answer(
    alloc: Global,
    p: &Arranged,
    name: &str,
    before: &[Move],
    event: Move,
) -> Result<Option<Stepped>, AllocError> {
    let Some(mut c) = start(alloc, p, name, b"r.v = nil") else {
        return Ok(None);
    };
    if first_refused(alloc, &p.program, &mut c, before)?.is_some() {
        return Ok(None);
    }
    let (task, number) = event;
    Ok(Some(step_at(alloc, &p.program, &mut c, task, number)?))
}

/// Regions, and a cell that is used when it is gone.
const KEPT: &[u8] = b"
    resource r (v) []
    stay() { with r when (v != v) { } }
    pass() { with r when (true) { } }
    both() { pass() || pass(); }
    late() { local x; x = new(); dispose(x); x->tl = nil; }";

#[test]
fn each_answer_comes_where_its_cause_is(rt: HostRuntime) -> Result<(), Fail> {
    let entry = TaskPath::entry();
    let left = entry.child(Turn::Left);
    let right = entry.child(Turn::Right);
    let waits = Stepped::Waiting(ResId(0));
    let cases: [(&str, &[Move], Move, Stepped); 9] = [
        ("stay", &[], (entry, 1), waits),
        ("both", &[(entry, 1), (left, 2)], (right, 3), waits),
        (
            "both",
            &[(entry, 1), (left, 2), (left, 3)],
            (right, 4),
            Stepped::Moved,
        ),
        ("both", &[(entry, 1)], (entry, 2), Stepped::NoTask),
        ("both", &[], (left, 1), Stepped::NoTask),
        ("both", &[(entry, 1)], (left, 1), Stepped::Stale),
        ("late", &[], (entry, 0), Stepped::Stale),
        (
            "late",
            &[(entry, 1), (entry, 2)],
            (entry, 3),
            Stepped::Absent(Value::Loc(1)),
        ),
        (
            "late",
            &[(entry, 1), (entry, 2)],
            (entry, 2),
            Stepped::Stale,
        ),
    ];
    let alloc = rt.alloc();
    let p = fitted(alloc, KEPT).expect(&rt, "a program");
    for (name, before, event, stepped) in cases {
        assert_eq!(rt; answer(alloc, &p, name, before, event)?, Some(stepped));
    }
    Ok(())
}

/// The text of what those events of `pair` end with, if they end it.
fn ended(alloc: Global, p: &Arranged, events: &[Move]) -> Result<Option<Vec<u8>>, AllocError> {
    let Some(entered) = start_of(alloc, p, "pair", b"a = nil\nb = nil") else {
        return Ok(None);
    };
    let f = entered.f;
    let mut c = begin(alloc, &p.program, f, &entered.start)?;
    if first_refused(alloc, &p.program, &mut c, events)?.is_some() || !c.has_ended() {
        return Ok(None);
    }
    let finish = c.finish(alloc, &p.program, f)?;
    Ok(Some(write(alloc, p, f, &finish)?))
}

#[test]
fn children_end_in_one_way_in_either_order(rt: HostRuntime) -> Result<(), Fail> {
    let alloc = rt.alloc();
    let file = b"fill(x; v) { x = v; } pair(a, b;) { fill(a; 1) || fill(b; 2); }";
    let p = fitted(alloc, file).expect(&rt, "a program");
    let entry = TaskPath::entry();
    let left = entry.child(Turn::Left);
    let right = entry.child(Turn::Right);
    let left_first: [Move; 6] = [
        (entry, 1),
        (left, 2),
        (left, 3),
        (right, 4),
        (right, 5),
        (entry, 6),
    ];
    let in_turns: [Move; 6] = [
        (entry, 1),
        (right, 4),
        (left, 2),
        (right, 5),
        (left, 3),
        (entry, 6),
    ];
    let orders: [&[Move]; 2] = [&left_first, &in_turns];
    for events in orders {
        let text = ended(alloc, &p, events)?.expect(&rt, "an end");
        assert!(rt; text.as_slice() == b"a = 1\nb = 2\n".as_slice());
    }
    Ok(())
}

#[test]
fn a_fork_has_no_turn_after_63(rt: HostRuntime) -> Result<(), Fail> {
    let alloc = rt.alloc();
    let p = fitted(alloc, b"deep() { deep() || deep(); }").expect(&rt, "a program");
    let mut c = start(alloc, &p, "deep", b"").expect(&rt, "a start");
    let task = forked(alloc, &p.program, &mut c)?.expect(&rt, "63 forks");
    assert_eq!(rt; task.len(), TURNS);
    assert_eq!(rt;
        step_at(alloc, &p.program, &mut c, task, 64)?,
        Stepped::TooDeep
    );
    Ok(())
}
