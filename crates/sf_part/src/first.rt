//! The part with which a run begins, and the contents of the resources beside it.

ghost use Rattle.std.specs.Prelude.{◌≡◌, ◌<◌, ◌≤◌, ◌-◌, ◌+◌, [], ℕ, All, Contains, get_or, length, map, IfOk};
ghost use Rattle.std.specs.List.{AllByRecursion};
ghost use Rattle.sf_base.specs.declared.limits.TheConstants.{STEPS};
ghost use Rattle.sf_core.specs.Program.ProgramView.{program_of};
ghost use Rattle.sf_foot.specs.Starting.{StartsWith};
ghost use Rattle.sf_heap.specs.Cells.{HasCell};
ghost use Rattle.sf_part.specs.Checked.Parting.{ArePartedOff, PartsOff};
ghost use Rattle.sf_part.specs.Contents.{IsContentIn, content_of};
ghost use Rattle.sf_part.specs.Given.{IsContentOf};
ghost use Rattle.sf_part.specs.PartView.{IsPartOf, part_of};
ghost use Rattle.sf_part.specs.Starts.{Starts};

use crate::content::Content;
use crate::part::Part;
use crate::spots::{variable_count, variable_spots};
use crate::stand::Stand;
use crate::supply::Supply;
use sf_base::{ProcId, ResId, TaskPath};
use sf_core::Program;
use sf_foot::Start;
use sf_frame::{Shared, first_shared, first_stack};
use sf_heap::{Cell, Locations};
use sf_precise::Arranged;
use std::alloc::{AllocError, Global};

impl<'p> Part<'p> {
    /// The part of the entry's task where a run of procedure `f` begins, with so many units, from
    /// the start's first one on, and the content of each resource, in file order: its variables,
    /// and the cells of its invariant's footprint, which move. From a fresh start the part has the
    /// resources' variables itself and holds them all, and there are no contents. Clock and stamps
    /// are 0, and the part keeps a log where it is to. An `Err` says that memory ran out.
    pub fn first(
        alloc: Global,
        p: &'p Arranged,
        f: ProcId,
        start: Start,
        steps: u64,
        keep: bool,
    ) -> Result<(Part<'p>, Vec<Content>), AllocError>
        requires starts { StartsWith (program_of p.now.program) f start.fresh start.vars start.heap
            start.parts.items }
        requires some { 0 < steps }
        requires most { steps ≤ STEPS }
        ensures starts { IfOk result (λ begun. Starts (program_of p.now.program) f start.fresh
            start.vars start.heap start.unit steps (part_of begun.0)
            (map content_of begun.1.items)) }
        ensures keeps { IfOk result (λ begun. (part_of begun.0).keeps ≡ keep) }
        ensures exactly { IfOk result (λ begun. AllByRecursion
            (λ k. IsContentOf (program_of p.now.program) (content_of k).content) begun.1.items) }
        ensures of { IfOk result (λ begun. IsPartOf (program_of p.now.program) begun.0) }
        ensures contents { IfOk result (λ begun. AllByRecursion
            (λ k. IsContentIn (program_of p.now.program) k) begun.1.items) }
    {
        let program = &p.program;
        let stack = first_stack(alloc, program, f, start.fresh)?;
        let blank = Cell::new(alloc, program.fields.len())?;
        let supply = Supply::new(alloc, start.unit, steps)?;
        let Start {
            vars,
            heap,
            parts,
            fresh,
            ..
        } = start;
        let mut shared = first_shared(alloc, program, f, fresh, &vars, heap)?;
        let contents = part_contents(&mut shared, program, &parts)?;
        let part = Part {
            task: TaskPath::entry(),
            stand: Stand::Runs(stack),
            shared,
            supply,
            clock: 0,
            keeps: keep,
            log: Vec::new(alloc),
            given: steps,
            blank,
        };
        Ok((part, contents))
    }
}

/// Parts the contents of the resources off, of which each has its variables and the cells at the
/// locations of its part: these parts come after the first one. After an `Err`, which says that
/// memory ran out, some of them may be parted off.
fn part_contents(
    shared: &mut Shared,
    p: &Program,
    parts: &[Locations],
) -> Result<Vec<Content>, AllocError>
    requires some { 0 < length parts.now }
    requires few { length parts.now ≤ 1 + length p.now.resources.items }
    requires apart { (j k l : ℕ) → j < k → Contains (get_or parts.now j []) l
        → Contains (get_or parts.now k []) l → ⊥ }
    requires there { (j l : ℕ) → Contains (get_or parts.now j []) l → HasCell shared.old.heap l }
    ensures { IfOk result (λ contents. ArePartedOff (program_of p.now).resources parts.now
        (length parts.now - 1) shared.old contents.items shared.new) }
{
    let mut contents = Vec::with_capacity(shared.alloc, parts.len())?;
    for number in 0..parts.len() - 1 {
        let r = ResId(number as u32);
        let count = variable_count(p, r);
        let content = part_content(shared, r, count, &parts[number + 1])?;
        contents.push(content)?;
    }
    Ok(contents)
}

/// Parts the content of a resource off, which has so many variables, with the cells at those
/// locations. An `Err` says that memory ran out.
fn part_content(
    shared: &mut Shared,
    r: ResId,
    count: u32,
    at: &Locations,
) -> Result<Content, AllocError>
    requires { All (HasCell shared.old.heap) at.now }
    ensures { IfOk result
        (λ content. PartsOff r count at.now shared.old content shared.new) }
{
    let spots = variable_spots(shared.alloc, r, count)?;
    let store = shared.store.part_off(shared.alloc, spots.as_slice())?;
    let heap = shared.heap.part_off(at);
    Ok(Content {
        resource: r,
        store,
        heap,
        stamp: 0,
    })
}
