//! All annotations of a program.

ghost use Rattle.std.specs.Prelude.{◌≡◌, flat_map, length, map, IfOk};
ghost use Rattle.sf_base.specs.Results.{Appends};
ghost use Rattle.sf_core.specs.Program.View.{assertion_of, command_of, procedure_of, resource_of};
ghost use Rattle.sf_core.specs.Program.Sites.{site_of};
ghost use Rattle.sf_core.specs.Program.Heads.{head_invariants};
ghost use Rattle.sf_core.specs.Program.ProgramView.{program_of};
ghost use Rattle.sf_precise.specs.Annotations.{annotations_in, notes_of};
ghost use Rattle.sf_precise.specs.Checked.Starts.{ends_from, starts_from};

use sf_core::{Assertion, Command, Proc, Program, Resource, Site, sites};
use std::alloc::{AllocError, Global};

/// The annotations of a program: the resources' invariants, and then, for each procedure in file
/// order, its pre, the invariants of its loops in text order, and its post.
#[derive(Drop)]
pub struct Annotations<'a> {
    /// The annotations.
    pub assertions: Vec<&'a Assertion>,
    /// Where those of each procedure start, and after the last ones where they end.
    pub starts: Vec<usize>,
}

/// The annotations. An `Err` means that memory ran out.
pub fn annotations_in<'a>(alloc: Global, p: &'a Program) -> Result<Annotations<'a>, AllocError>
    ensures assertions { IfOk result (λ notes. map (λ a. assertion_of a.now) notes.assertions.items
        ≡ annotations_in (program_of p.now)) }
    ensures starts { IfOk result (λ notes. notes.starts.items
        ≡ starts_from (length p.now.resources.items) (map procedure_of p.now.procedures.items)) }
{
    let mut assertions = Vec::new(alloc);
    add_invariants(&p.resources, &mut assertions)?;
    let mut starts = Vec::new(alloc);
    starts.push(assertions.len())?;
    add_annotations(alloc, &p.procedures, &mut assertions, &mut starts)?;
    Ok(Annotations { assertions, starts })
}

/// Appends the invariants of the resources.
fn add_invariants<'a>(
    resources: &'a [Resource],
    notes: &mut Vec<&'a Assertion>,
) -> Result<(), AllocError>
    ensures { Appends result (map (λ a. assertion_of a.now) notes.old.items)
        (map (λ a. assertion_of a.now) notes.new.items)
        (map (λ r. r.invariant) (map resource_of resources.now)) }
{
    for resource in resources {
        notes.push(&resource.invariant)?;
    }
    Ok(())
}

/// Appends the annotations of the procedures, and where they end.
fn add_annotations<'a>(
    alloc: Global,
    procedures: &'a [Proc],
    notes: &mut Vec<&'a Assertion>,
    ends: &mut Vec<usize>,
) -> Result<(), AllocError>
    ensures notes { Appends result (map (λ a. assertion_of a.now) notes.old.items)
        (map (λ a. assertion_of a.now) notes.new.items)
        (flat_map notes_of (map procedure_of procedures.now)) }
    ensures ends { Appends result ends.old.items ends.new.items
        (ends_from (length notes.old.items) (map procedure_of procedures.now)) }
{
    for procedure in procedures {
        add_annotations_of(alloc, procedure, notes)?;
        ends.push(notes.len())?;
    }
    Ok(())
}

/// Appends those of one procedure.
fn add_annotations_of<'a>(
    alloc: Global,
    procedure: &'a Proc,
    notes: &mut Vec<&'a Assertion>,
) -> Result<(), AllocError>
    ensures { Appends result (map (λ a. assertion_of a.now) notes.old.items)
        (map (λ a. assertion_of a.now) notes.new.items) (notes_of (procedure_of procedure.now)) }
{
    notes.push(&procedure.pre)?;
    let body = sites(alloc, &procedure.body)?;
    add_loops(&body, notes)?;
    notes.push(&procedure.post)?;
    Ok(())
}

/// Appends the invariants of the loops at those sites.
fn add_loops<'a>(sites: &[Site<'a>], notes: &mut Vec<&'a Assertion>) -> Result<(), AllocError>
    ensures { Appends result (map (λ a. assertion_of a.now) notes.old.items)
        (map (λ a. assertion_of a.now) notes.new.items)
        (flat_map (λ s. head_invariants s.command) (map site_of sites.now)) }
{
    for s in sites {
        add_invariant_of(s.command, notes)?;
    }
    Ok(())
}

/// Appends the command's invariant, if it is a loop.
fn add_invariant_of<'a>(c: &'a Command, notes: &mut Vec<&'a Assertion>) -> Result<(), AllocError>
    ensures { Appends result (map (λ a. assertion_of a.now) notes.old.items)
        (map (λ a. assertion_of a.now) notes.new.items) (head_invariants (command_of c.now)) }
{
    if let Command::While(_, _, invariant, _) = c {
        notes.push(invariant)?;
    }
    Ok(())
}
