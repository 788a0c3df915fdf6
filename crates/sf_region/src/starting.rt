//! The task with which a run begins.

ghost use Rattle.std.specs.Prelude.{◌≡◌, ◌<◌, ◌≤◌, false, IfOk, map};
ghost use Rattle.std.specs.List.{AllByRecursion};
ghost use Rattle.sf_base.specs.declared.limits.TheConstants.{STEPS};
ghost use Rattle.sf_core.specs.Program.ProgramView.{program_of};
ghost use Rattle.sf_foot.specs.Starting.{StartsWith};
ghost use Rattle.sf_part.specs.Contents.{content_of};
ghost use Rattle.sf_part.specs.PartView.{part_of};
ghost use Rattle.sf_part.specs.Starts.{Starts};
ghost use Rattle.sf_region.specs.Rule.{opening_view};
ghost use Rattle.sf_region.specs.Waits.{program_in};

use crate::regions::Regions;
use crate::task::Task;
use sf_base::ProcId;
use sf_foot::Start;
use sf_part::Part;
use sf_part::laws::first_parts_are_whole;
use sf_precise::Arranged;
use std::alloc::{AllocError, Global};

impl<'p> Task<'p> {
    /// The task of the entry where a run of procedure `f` begins whose resources are set up, with so
    /// many units, from the start's first one on, and the table of the resources, with their
    /// contents in place. It keeps a log where it is to. An `Err` says that memory ran out.
    pub fn first(
        alloc: Global,
        p: &'p Arranged,
        f: ProcId,
        start: Start,
        steps: u64,
        keep: bool,
    ) -> Result<(Regions<'p>, Task<'p>), AllocError>
        requires starts { StartsWith (program_of p.now.program) f start.fresh start.vars start.heap
            start.parts.items }
        requires settled { start.fresh ≡ false }
        requires some { 0 < steps }
        requires most { steps ≤ STEPS }
        ensures starts { IfOk result (λ t. Starts (program_of p.now.program) f start.fresh
            start.vars start.heap start.unit steps (part_of t.1.1)
            (map content_of t.0.1.contents)) }
        ensures keeps { IfOk result (λ t. (part_of t.1.1).keeps ≡ keep) }
        ensures table { IfOk result (λ t. (t.1.0.0 ≡ t.0.0)
            × (program_in t.0.1 ≡ program_of p.now.program) × (t.0.1.part ≡ t.1.1)) }
        ensures view { IfOk result (λ t. t.1.0.1 ≡ opening_view t.0.1) }
    {
        first_parts_are_whole();
        let (part, contents) = Part::first(alloc, p, f, start, steps, keep)?;
        Task::begin(alloc, p, part, contents)
    }
}
