//! Parts of one task: with which part and contents a run begins, its own steps, and what it ends
//! with. Numbers of events, stamps and values are worked out by hand.

ghost use Rattle.std.specs.Prelude.{IfOk, IfSome, OnErr};
ghost use Rattle.sf_core.specs.Program.ProgramView.{program_of};
ghost use Rattle.sf_part.specs.PartView.{IsPartOf, part_of};
ghost use Rattle.sf_turns.specs.Checked.Running.{IsAtEntry};

use crate::programs::{BARE, FELLED, SMALL_TREE, TURNED, TWO_CELLS};
use sf_base::{FieldId, ResId, TaskPath, Turn, Value};
use sf_files::fitted;
use sf_foot::Vars;
use sf_frame::Spot;
use sf_heap::Heap;
use sf_part::{Local, Log, Part, PartFault, Stamped};
use sf_precise::Arranged;
use sf_turns::parts::{Begun, begin_part, own_steps};
use std::alloc::{AllocError, Global};
use std::test::Fail;

/// The most own steps that a test makes at once.
const MOST: u64 = 20;

/// How many own steps a run of the procedure of that name makes, and what its part ends with, if it
/// ends with them.
fn ended(
    alloc: Global,
    p: &Arranged,
    name: &str,
    text: &[u8],
    steps: u64,
) -> Result<Option<(u64, Vars, Heap, Log)>, AllocError> {
    let Some(begun) = begin_part(alloc, p, name, text, steps, true)? else {
        return Ok(None);
    };
    let Begun { f, mut part, .. } = begun;
    match own_steps(&mut part, &p.program, MOST)? {
        Some((count, Local::Done)) => {
            let (vars, heap, log) = part.into_end(&p.program, f)?;
            Ok(Some((count, vars, heap, log)))
        }
        _ => Ok(None),
    }
}

/// The value of a field of the cell at a location.
pub(crate) fn field(heap: &Heap, at: u64, field: u32) -> Option<Value> {
    heap.get(at).map(|cell| cell.get(FieldId(field)))
}

#[test]
fn a_part_begins_steps_and_ends(rt: HostRuntime) -> Result<(), Fail> {
    let alloc = rt.alloc();
    let p = fitted(alloc, TURNED).expect(&rt, "a program");
    let (count, vars, heap, log) = ended(alloc, &p, "rev", TWO_CELLS, 13)?.expect(&rt, "an end");
    assert_eq!(rt; count, 13);
    assert!(rt; vars.own.as_slice() == [Value::Loc(2), Value::Loc(1)].as_slice());
    assert_eq!(rt; vars.shared.len(), 0);
    assert_eq!(rt; heap.len(), 2);
    assert_eq!(rt; field(&heap, 1, 1), Some(Value::Nil));
    assert_eq!(rt; field(&heap, 2, 1), Some(Value::Loc(1)));
    assert_eq!(rt; log.entries.len(), 13);
    let first = Stamped {
        stamp: 1,
        task: TaskPath::entry(),
        number: 3,
    };
    let last = Stamped {
        stamp: 13,
        task: TaskPath::entry(),
        number: 15,
    };
    assert_eq!(rt; log.entries.as_slice().first().copied(), Some(first));
    assert_eq!(rt; log.entries.as_slice().last().copied(), Some(last));
    Ok(())
}

/// Cells that are handed out, with a list of those that were given back.
const KEPT_CELLS: &[u8] = b"
    resource mm (f) [list(f)]
    alloc(x;) [emp] {
      with mm when (true) { if (f == nil) { x = new(); } else { x = f; f = x->tl; } }
    } [x|->]";

#[test]
fn a_resource_begins_with_its_own(rt: HostRuntime) -> Result<(), Fail> {
    let alloc = rt.alloc();
    let p = fitted(alloc, KEPT_CELLS).expect(&rt, "a program");
    let text = b"x = nil\nmm.f = @1\n@1 tl=@2\n@2";
    let begun = begin_part(alloc, &p, "alloc", text, 9, true)?.expect(&rt, "a start");
    let Begun {
        mut part,
        mut contents,
        ..
    } = begun;
    assert_eq!(rt; part.task(), TaskPath::entry());
    assert_eq!(rt; part.given(), 9);
    assert!(rt; part.has_unit());
    assert_eq!(rt; contents.len(), 1);
    let told = own_steps(&mut part, &p.program, MOST)?;
    assert_eq!(rt; told, Some((0, Local::AtRegion(ResId(0)))));
    let content = contents.pop().expect(&rt, "a content");
    assert_eq!(rt; content.resource(), ResId(0));
    let (store, heap) = content.into_parts();
    assert_eq!(rt; store.find(Spot::Shared(ResId(0), 0)), Some(Value::Loc(1)));
    assert_eq!(rt; store.find(Spot::Own(0, 0)), None);
    assert_eq!(rt; heap.len(), 2);
    assert_eq!(rt; field(&heap, 1, 1), Some(Value::Loc(2)));
    Ok(())
}

#[test]
fn a_fresh_run_begins_with_all(rt: HostRuntime) -> Result<(), Fail> {
    let alloc = rt.alloc();
    let file = b"resource mm (f) [list(f)] init() { f = nil; } stay(x) [x|->] { } [x|->]";
    let p = fitted(alloc, file).expect(&rt, "a program");
    let begun = begin_part(alloc, &p, "stay", b"x = @4\n@4", 5, true)?.expect(&rt, "a start");
    let Begun {
        mut part,
        contents,
        ..
    } = begun;
    assert_eq!(rt; contents.len(), 0);
    let told = own_steps(&mut part, &p.program, MOST)?;
    assert_eq!(rt; told, Some((1, Local::AtInit)));
    Ok(())
}

/// What the parallel call gives to which the task of a part comes by own steps, if it comes to one
/// with a unit left.
fn split_part<'p>(
    part: &mut Part<'p>,
    p: &'p Arranged,
) -> Result<Option<Result<(Part<'p>, Part<'p>), PartFault>>, AllocError>
    requires of { IsPartOf (program_of p.now.program) part.old }
    requires entry { IsAtEntry (part_of part.old) }
    ensures of { IsPartOf (program_of p.now.program) part.new }
    ensures entry { IfOk result (λ o. IfSome o (λ r. OnErr r (IsAtEntry (part_of part.new)))) }
{
    let Some((_, Local::AtFork)) = own_steps(part, &p.program, MOST)? else {
        return Ok(None);
    };
    if !part.has_unit() {
        return Ok(None);
    }
    part.make_room()?;
    Ok(Some(part.split(p)))
}

/// Why a part whose task comes to a parallel call is not split, and what comes next after that, if
/// it isn't.
fn unsplit<'p>(
    part: &mut Part<'p>,
    p: &'p Arranged,
) -> Result<Option<(PartFault, Option<(u64, Local)>)>, AllocError>
    requires of { IsPartOf (program_of p.now.program) part.old }
    requires entry { IsAtEntry (part_of part.old) }
{
    match split_part(part, p)? {
        Some(Err(fault)) => Ok(Some((fault, own_steps(part, &p.program, MOST)?))),
        _ => Ok(None),
    }
}

/// The test and two steps are the task's own, and the refusal takes nothing.
#[test]
fn a_part_without_the_cells_of_its_children_stays(rt: HostRuntime) -> Result<(), Fail> {
    let alloc = rt.alloc();
    let p = fitted(alloc, BARE).expect(&rt, "a program");
    let begun = begin_part(alloc, &p, "disp_tree", b"p = @1\n@1 l=@9", 9, true)?.expect(
        &rt, "a start",
    );
    let Begun { mut part, .. } = begun;
    let told = unsplit(&mut part, &p)?.expect(&rt, "a parallel call");
    assert_eq!(rt; told, (PartFault::NoFootprint, Some((0, Local::AtFork))));
    assert_eq!(rt; part.clock(), 3);
    assert!(rt; part.has_unit());
    assert_eq!(rt; part.task(), TaskPath::entry());
    Ok(())
}

/// Three of eleven units go to own steps and one to the fork; of seven the left child has three.
#[test]
fn a_part_is_split_with_half_of_its_units_each(rt: HostRuntime) -> Result<(), Fail> {
    let alloc = rt.alloc();
    let p = fitted(alloc, FELLED).expect(&rt, "a program");
    let begun = begin_part(alloc, &p, "disp_tree", SMALL_TREE, 11, true)?.expect(&rt, "a start");
    let Begun { mut part, .. } = begun;
    let told = split_part(&mut part, &p)?.expect(&rt, "a parallel call");
    let (left, right) = told.ok().expect(&rt, "two children");
    assert_eq!(rt; left.task(), TaskPath::entry().child(Turn::Left));
    assert_eq!(rt; right.task(), TaskPath::entry().child(Turn::Right));
    assert_eq!(rt; left.given(), 3);
    assert_eq!(rt; right.given(), 4);
    assert_eq!(rt; left.clock(), 4);
    assert_eq!(rt; right.clock(), 4);
    assert_eq!(rt; part.clock(), 4);
    assert!(rt; !part.has_unit());
    Ok(())
}
