//! The parallel calls of a task that goes on alone.

ghost use Rattle.std.specs.Prelude.{◌≡◌, ◌≢◌, ◌⊎◌, ◌↔◌, ◌++◌, [], IfErr, IfOk, IsTrue};
ghost use Rattle.std.specs.Thread.{IsSync};
ghost use Rattle.sf_core.specs.Machine.Whole.{numbers};
ghost use Rattle.sf_core.specs.Program.ProgramView.{program_of};
ghost use Rattle.sf_own.specs.Checked.Accepted.{IsAccepted};
ghost use Rattle.sf_part.specs.Answers.{Answers};
ghost use Rattle.sf_part.specs.Checked.LawsOfGoing.{IsPastSetup};
ghost use Rattle.sf_part.specs.declared.local.Local.{Local};
ghost use Rattle.sf_part.specs.declared.part.Part.{Part as A};
ghost use Rattle.sf_part.specs.PartView.{part_of};
ghost use Rattle.sf_setup.specs.Checked.Alone.{
  HasDrained,
  HasEnded,
  HasMoved,
  HasParted,
  IsAlone,
  MayMeet,
};

use crate::alone::run_alone;
use crate::run_laws::run_laws;
use crate::stop::SetUpStop;
use sf_crossing::{arranged_programs_are_shared, parts_are_sent};
use sf_io::{Gate, Point};
use sf_part::{Part, PartFault};
use sf_precise::Arranged;
use std::thread::{Threads, join};

/// A task that waits, and its two children.
#[derive(Drop)]
pub(crate) struct Parted<'p> {
    pub(crate) waits: Part<'p>,
    pub(crate) left: Part<'p>,
    pub(crate) right: Part<'p>,
}

/// Makes the parallel call at which the task stands, lets its two children run to their ends, each
/// on a thread of its own where one can be made, and joins them.
#[cycle(tasks)]
pub(crate) fn fork<'c, 'p, R: Threads + Sync, G: Gate>(
    rt: &R,
    p: &'p Arranged,
    gate: &'c G,
    part: Part<'p>,
) -> Result<Part<'p>, SetUpStop>
    requires accepted { IsAccepted (program_of p.now.program) }
    requires alone { IsAlone (program_of p.now.program) part }
    requires at { Answers (program_of p.now.program) (part_of part) Local.AtFork }
    ensures moved { IfOk result (HasMoved (program_of p.now.program) part.entry) }
    ensures drained { IfErr result (HasDrained (program_of p.now.program)
        (part_of part.entry)) }
{
    let parted = match part_in_two(p, part) {
        Ok(parted) => parted,
        Err(stop) => return Err(stop),
    };
    match run_both(rt, p, gate, parted) {
        Ok(met) => meet(p, met),
        Err(stop) => Err(stop),
    }
}

/// The parallel call itself.
fn part_in_two<'p>(p: &'p Arranged, part: Part<'p>) -> Result<Parted<'p>, SetUpStop>
    requires accepted { IsAccepted (program_of p.now.program) }
    requires alone { IsAlone (program_of p.now.program) part }
    requires at { Answers (program_of p.now.program) (part_of part) Local.AtFork }
    ensures parted { IfOk result (HasParted (program_of p.now.program) part.entry) }
    ensures drained { IfErr result (HasDrained (program_of p.now.program)
        (part_of part.entry)) }
{
    run_laws();
    let mut part = part;
    let path = part.task();
    if !part.has_unit() {
        return Err(SetUpStop::Steps(path, part.given()));
    }
    part.make_room()?;
    match part.split(p) {
        Ok((left, right)) => Ok(Parted {
            waits: part,
            left,
            right,
        }),
        Err(PartFault::OutOfMemory) => Err(SetUpStop::OutOfMemory),
        Err(PartFault::NoFootprint) => unreachable!(),
    }
}

/// A child of a parallel call, with the program and the gate that it passes.
#[derive(Drop)]
pub(crate) struct Child<'c, 'p, G: Gate> {
    p: &'p Arranged,
    gate: &'c G,
    part: Part<'p>,
}

/// Runs both children to their ends. Where both stop before, the left one's stop is told.
#[cycle(tasks)]
fn run_both<'c, 'p, R: Threads + Sync, G: Gate>(
    rt: &R,
    p: &'p Arranged,
    gate: &'c G,
    parted: Parted<'p>,
) -> Result<Parted<'p>, SetUpStop>
    requires accepted { IsAccepted (program_of p.now.program) }
    requires parted { (a : A) × HasParted (program_of p.now.program) a parted }
    ensures met { IfOk result (λ met. (a : A)
        → HasParted (program_of p.now.program) a parted.entry
        → MayMeet (program_of p.now.program) a met.waits met.left met.right) }
    ensures drained { IfErr result (λ stop. (a : A)
        → HasParted (program_of p.now.program) a parted.entry
        → HasDrained (program_of p.now.program) (part_of a) stop) }
{
    arranged_programs_are_shared();
    parts_are_sent();
    let Parted { waits, left, right } = parted;
    let one = Child {
        p,
        gate,
        part: left,
    };
    let two = Child {
        p,
        gate,
        part: right,
    };
    let (left, right) = join(
        rt,
        move ||
            requires { IsSync R.row × IsAccepted (program_of one.p.now.program)
                × IsAlone (program_of one.p.now.program) one.part
                × IsPastSetup (program_of one.p.now.program) (part_of one.part).part }
            ensures ended { IfOk result (HasEnded (program_of one.entry.p.now.program)
                one.entry.part) }
            ensures drained { IfErr result (HasDrained (program_of one.entry.p.now.program)
                (part_of one.entry.part)) }
        { run_child(rt, one) },
        move ||
            requires { IsSync R.row × IsAccepted (program_of two.p.now.program)
                × IsAlone (program_of two.p.now.program) two.part
                × IsPastSetup (program_of two.p.now.program) (part_of two.part).part }
            ensures ended { IfOk result (HasEnded (program_of two.entry.p.now.program)
                two.entry.part) }
            ensures drained { IfErr result (HasDrained (program_of two.entry.p.now.program)
                (part_of two.entry.part)) }
        { run_child(rt, two) },
    );
    let (left, right) = match both(left, right) {
        Ok(both) => both,
        Err(stop) => return Err(stop),
    };
    Ok(Parted { waits, left, right })
}

/// The two children, where both have ended; else why one stopped, the left one where both did.
fn both<'p>(
    left: Result<Part<'p>, SetUpStop>,
    right: Result<Part<'p>, SetUpStop>,
) -> Result<(Part<'p>, Part<'p>), SetUpStop>
    ensures both { IfOk result (λ t. (left.entry ≡ Ok t.0) × (right.entry ≡ Ok t.1)) }
    ensures stops { IfErr result (λ stop. (left.entry ≡ Err stop)
        ⊎ ((one : A) × (left.entry ≡ Ok one) × (right.entry ≡ Err stop))) }
{
    match left {
        Err(stop) => Err(stop),
        Ok(one) => match right {
            Err(stop) => Err(stop),
            Ok(two) => Ok((one, two)),
        },
    }
}

/// Runs a child to its end.
#[cycle(tasks)]
fn run_child<'c, 'p, R: Threads + Sync, G: Gate>(
    rt: &R,
    child: Child<'c, 'p, G>,
) -> Result<Part<'p>, SetUpStop>
    requires accepted { IsAccepted (program_of child.p.now.program) }
    requires alone { IsAlone (program_of child.p.now.program) child.part }
    requires past { IsPastSetup (program_of child.p.now.program) (part_of child.part).part }
    ensures ended { IfOk result (HasEnded (program_of child.entry.p.now.program)
        child.entry.part) }
    ensures drained { IfErr result (HasDrained (program_of child.entry.p.now.program)
        (part_of child.entry.part)) }
{
    run_laws();
    let Child { p, gate, part } = child;
    gate.pass(&Point::Start(part.task()));
    run_alone(rt, p, gate, part)
}

/// Joins two children that have ended.
fn meet<'p>(p: &'p Arranged, met: Parted<'p>) -> Result<Part<'p>, SetUpStop>
    requires accepted { IsAccepted (program_of p.now.program) }
    requires met { (a : A)
        × MayMeet (program_of p.now.program) a met.waits met.left met.right }
    ensures moved { IfOk result (λ part. (a : A)
        → MayMeet (program_of p.now.program) a met.entry.waits met.entry.left met.entry.right
        → HasMoved (program_of p.now.program) a part) }
    ensures drained { IfErr result (λ stop. (a : A)
        → MayMeet (program_of p.now.program) a met.entry.waits met.entry.left met.entry.right
        → HasDrained (program_of p.now.program) (part_of a) stop) }
{
    run_laws();
    let Parted { waits, left, right } = met;
    let mut waits = waits;
    let path = waits.task();
    if !has_either(&left, &right) {
        return Err(SetUpStop::Steps(path, waits.given()));
    }
    match waits.join(left, right) {
        Ok(()) => Ok(waits),
        Err(_) => Err(SetUpStop::OutOfMemory),
    }
}

/// Whether one of two children that have ended has a unit left for their join.
fn has_either(left: &Part<'_>, right: &Part<'_>) -> bool
    ensures { IsTrue result ↔ (numbers (part_of left.now).part.supply
        ++ numbers (part_of right.now).part.supply ≢ []) }
{
    if left.has_unit() {
        return true;
    }
    right.has_unit()
}
