//! The part of one task alone, and its own steps.

ghost use Rattle.std.specs.Prelude.{◌<◌, IfOk, IfSome, length};
ghost use Rattle.sf_core.specs.Program.ProgramView.{program_of};
ghost use Rattle.sf_part.specs.Answers.{Answers};
ghost use Rattle.sf_part.specs.PartView.{IsPartOf, part_of};
ghost use Rattle.sf_turns.specs.Checked.Running.{IsAtEntry};

use sf_base::ProcId;
use sf_base::limits::STEPS;
use sf_core::Program;
use sf_files::{Entered, start_of};
use sf_part::{Content, Local, Part};
use sf_precise::Arranged;
use std::alloc::{AllocError, Global};

/// A procedure that runs, with its part and the contents beside it.
#[derive(Drop)]
pub struct Begun<'p> {
    /// The procedure.
    pub f: ProcId,
    /// The part of its task.
    pub part: Part<'p>,
    /// The contents of the resources, in file order.
    pub contents: Vec<Content>,
}

/// The part and the contents with which the procedure of that name begins from what the text gives,
/// with so many units, if it does. It keeps a log where it is to. An `Err` says that memory ran out.
pub fn begin_part<'p>(
    alloc: Global,
    p: &'p Arranged,
    name: &str,
    text: &[u8],
    steps: u64,
    keep: bool,
) -> Result<Option<Begun<'p>>, AllocError>
    ensures of { IfOk result (λ o. IfSome o (λ b.
        IsPartOf (program_of p.now.program) b.part)) }
    ensures entry { IfOk result (λ o. IfSome o (λ b. IsAtEntry (part_of b.part))) }
    ensures within { IfOk result
        (λ o. IfSome o (λ b. b.f.0 < length p.now.program.procedures.items)) }
{
    if steps == 0 || steps > STEPS {
        return Ok(None);
    }
    let Some(entered) = start_of(alloc, p, name, text) else {
        return Ok(None);
    };
    let Entered { f, start } = entered;
    let (part, contents) = Part::first(alloc, p, f, start, steps, keep)?;
    Ok(Some(Begun { f, part, contents }))
}

/// Makes the next steps of the entry's task that are its own affair, at most so many, and tells how
/// many there were and why there is no further one; `None` where there would be more. An `Err` says
/// that memory ran out.
pub fn own_steps<'p>(
    part: &mut Part<'p>,
    p: &'p Program,
    most: u64,
) -> Result<Option<(u64, Local)>, AllocError>
    requires of { IsPartOf (program_of p.now) part.old }
    requires entry { IsAtEntry (part_of part.old) }
    ensures of { IsPartOf (program_of p.now) part.new }
    ensures entry { IsAtEntry (part_of part.new) }
    ensures answers { IfOk result (λ o. IfSome o
        (λ told. Answers (program_of p.now) (part_of part.new) told.1)) }
{
    for count in 0..most {
        part.make_room()?;
        match part.step_local(p)? {
            Local::Moved => {}
            answer => return Ok(Some((count, answer))),
        }
    }
    Ok(None)
}
