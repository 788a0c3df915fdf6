//! What a page has of a refusal, of a procedure's proof, and of a run.

ghost use Rattle.std.specs.Prelude.{length};
ghost use Rattle.std.specs.List.{All};
ghost use Rattle.sf_core.specs.Program.ProgramView.{program_of};
ghost use Rattle.sf_foot.specs.Starting.{StartsWith};
ghost use Rattle.sf_replay.specs.Checked.Taking.{IsWide};

use crate::failing::place_of;
use crate::proving::tag_lines;
use crate::reading::Refusal;
use crate::refused::{refused_of, slip_behind};
use sf_base::ProcId;
use sf_core::Program;
use sf_foot::Start;
use sf_goals::{
    End, advise, first, follow, front_place, kind_word, put_state, rule_words, search_of,
    wanted_words,
};
use sf_hints::{line_of, put, put_hint, put_number};
use sf_page::{Failure, Mark, Run, Scene, Step, Track, TrackKind, Verdict};
use sf_precise::Arranged;
use sf_replay::Schedule;
use sf_scenes::{event_steps, goal_scene, lines_of, spot, start_scene, text_of, witness_of_goal};
use sf_sym::{Goal, Stuck, Tag};
use sf_tour::{Sight, put_task, tour_of};
use std::alloc::{AllocError, Global};

/// The mark of a refusal in the source, with its hint. An `Err` says that memory ran out, which is
/// also the answer where that was the cause.
pub fn mark_of_refusal(alloc: Global, bytes: &[u8], refusal: &Refusal) -> Result<Mark, AllocError> {
    let Some(refused) = refused_of(refusal) else {
        return Err(AllocError);
    };
    let mut said = text_of(alloc, refused.kind)?;
    if let Some(name) = refused.name {
        put(&mut said, " ")?;
        said.extend_from_slice(name.as_bytes())?;
    }
    if let Some(slip) = slip_behind(alloc, bytes, &refused) {
        put(&mut said, ": ")?;
        put_hint(&mut said, slip)?;
    }
    Ok(Mark {
        span: spot(refused.place),
        said,
    })
}

/// The open goals of a proof, the next one last, and how deep each stands in the tree of steps.
#[derive(Drop)]
struct Tree<'a> {
    goals: Vec<Goal<'a>>,
    depths: Vec<u32>,
}

impl<'a> Tree<'a> {
    /// The tree of a procedure before its first step. An `Err` says that memory ran out.
    fn of(alloc: Global, arranged: &'a Arranged, f: ProcId) -> Result<Tree<'a>, AllocError> {
        let mut goals = Vec::new(alloc);
        let mut depths = Vec::new(alloc);
        if let Some(goal) = first(alloc, arranged, f)? {
            goals.push(goal)?;
            depths.push(0)?;
        }
        Ok(Tree { goals, depths })
    }

    /// Takes a tag at the goal, which was the next one. `false` where it has no row there. An `Err`
    /// says that memory ran out.
    fn take(
        &mut self,
        alloc: Global,
        arranged: &'a Arranged,
        goal: Goal<'a>,
        depth: u32,
        tag: Tag,
    ) -> Result<bool, AllocError> {
        let before = self.goals.len();
        if !follow(alloc, arranged, &mut self.goals, goal, tag)? {
            return Ok(false);
        }
        let more = self.goals.len().saturating_sub(before);
        let below = if more > 1 {
            depth.saturating_add(1)
        } else {
            depth
        };
        for _ in 0..more {
            self.depths.push(below)?;
        }
        Ok(true)
    }
}

/// A tag as a proof writes it. An `Err` says that memory ran out.
fn tag_text(alloc: Global, p: &Program, tag: Tag) -> Result<Vec<u8>, AllocError> {
    let lines = tag_lines(alloc, p, &[tag])?;
    Vec::from_slice(alloc, line_of(lines.as_slice(), 1))
}

/// Appends the step of a tag, with the goal before it, and goes on. `false` where it has no row there.
/// An `Err` says that memory ran out.
fn add_step<'a>(
    alloc: Global,
    arranged: &'a Arranged,
    f: ProcId,
    tag: Tag,
    tree: &mut Tree<'a>,
    steps: &mut Vec<Step>,
) -> Result<bool, AllocError> {
    let depth = tree.depths.pop().unwrap_or(0);
    let Some(goal) = tree.goals.pop() else {
        return Ok(false);
    };
    let p = &arranged.program;
    steps.push(Step {
        depth,
        span: spot(front_place(&goal)),
        name: tag_text(alloc, p, tag)?,
        rule: text_of(alloc, rule_words(tag))?,
        fails: false,
        scene: Some(goal_scene(alloc, p, f, &goal, None)?),
    })?;
    tree.take(alloc, arranged, goal, depth, tag)
}

/// The first so many steps of a procedure's tags. An `Err` says that memory ran out.
fn steps_of(
    alloc: Global,
    arranged: &Arranged,
    f: ProcId,
    tags: &[Tag],
    room: usize,
) -> Result<Vec<Step>, AllocError> {
    let mut tree = Tree::of(alloc, arranged, f)?;
    let mut steps = Vec::new(alloc);
    for tag in tags.iter().take(room) {
        if !add_step(alloc, arranged, f, *tag, &mut tree, &mut steps)? {
            break;
        }
    }
    Ok(steps)
}

/// What is known at a goal, in lines. An `Err` says that memory ran out.
fn known_lines(
    alloc: Global,
    p: &Program,
    f: ProcId,
    goal: &Goal,
) -> Result<Vec<Vec<u8>>, AllocError> {
    let mut text = Vec::new(alloc);
    put_state(&mut text, alloc, p, f, goal)?;
    lines_of(alloc, text.as_slice())
}

/// The lines as texts of their own. An `Err` says that memory ran out.
fn texts_of(alloc: Global, lines: &[&str]) -> Result<Vec<Vec<u8>>, AllocError> {
    let mut found = Vec::with_capacity(alloc, lines.len())?;
    for line in lines {
        found.push(text_of(alloc, *line)?)?;
    }
    Ok(found)
}

/// The failure of a search that is stuck at a goal, for that reason. An `Err` says that memory ran
/// out.
fn failure_at(
    alloc: Global,
    p: &Program,
    f: ProcId,
    goal: &Goal,
    kind: Stuck,
) -> Result<Failure, AllocError> {
    let place = front_place(goal);
    let mut title = text_of(alloc, kind_word(kind))?;
    put_number(&mut title, " at ", u64::from(place.line))?;
    put_number(&mut title, ":", u64::from(place.column))?;
    put(&mut title, " in ")?;
    title.extend_from_slice(p.name_of(f))?;
    let helps = advise(alloc, p, f, goal, kind)?;
    Ok(Failure {
        title,
        span: spot(place),
        known: known_lines(alloc, p, f, goal)?,
        wanted: texts_of(alloc, &[wanted_words(kind)])?,
        helps: texts_of(alloc, helps.as_slice())?,
        scene: Some(goal_scene(alloc, p, f, goal, Some(kind))?),
        witness: witness_of_goal(alloc, p, f, goal, kind)?,
    })
}

/// The words of a verdict: how many steps there are, after what is said of them. An `Err` says that
/// memory ran out.
fn said_of(alloc: Global, word: &str, steps: usize) -> Result<Vec<u8>, AllocError> {
    let mut text = text_of(alloc, word)?;
    put_number(&mut text, ", ", steps as u64)?;
    put(&mut text, " steps")?;
    Ok(text)
}

/// How a search ends: the verdict, its word, and the failure. An `Err` says that memory ran out.
fn end_of(
    alloc: Global,
    p: &Program,
    f: ProcId,
    end: &End<'_>,
) -> Result<(Verdict, &'static str, Option<Failure>), AllocError> {
    match end {
        End::Proved => Ok((Verdict::Fine, "proved", None)),
        End::TooLarge => Ok((Verdict::Unknown, "more steps than a proof may have", None)),
        End::Stuck(goal, kind) => {
            let failure = failure_at(alloc, p, f, goal, *kind)?;
            Ok((Verdict::Bad, "not proved", Some(failure)))
        }
    }
}

/// The search of a procedure, step by step, of which so many are kept. An `Err` says that memory ran
/// out.
pub fn proof_track(
    alloc: Global,
    arranged: &Arranged,
    f: ProcId,
    room: usize,
) -> Result<Track, AllocError> {
    let walk = search_of(alloc, arranged, f)?;
    let p = &arranged.program;
    let steps = steps_of(alloc, arranged, f, walk.tags.as_slice(), room)?;
    let (verdict, word, failure) = end_of(alloc, p, f, &walk.end)?;
    Ok(Track {
        kind: TrackKind::Proof,
        name: Vec::from_slice(alloc, p.name_of(f))?,
        span: spot(place_of(p, f)),
        verdict,
        said: said_of(alloc, word, walk.tags.len())?,
        left_out: walk.tags.len().saturating_sub(steps.len()) as u64,
        steps,
        failure,
    })
}

/// The words of what is seen at the end of a schedule. An `Err` says that memory ran out.
fn sight_text(alloc: Global, sight: Sight) -> Result<Vec<u8>, AllocError> {
    let mut text = Vec::new(alloc);
    match sight {
        Sight::Clean => put(&mut text, "nothing bad is seen")?,
        Sight::NotAnEvent(_) => put(&mut text, "the next event is none")?,
        Sight::Absent(task, _) => {
            put(
                &mut text,
                "next a cell that isn't there is touched, by task ",
            )?;
            put_task(&mut text, task)?;
        }
        Sight::Race(task, other, _) => {
            put(&mut text, "a race of tasks ")?;
            put_task(&mut text, task)?;
            put(&mut text, " and ")?;
            put_task(&mut text, other)?;
        }
    }
    Ok(text)
}

/// The verdict on what is seen.
fn verdict_of(sight: Sight) -> Verdict {
    match sight {
        Sight::Clean => Verdict::Fine,
        Sight::NotAnEvent(_) => Verdict::Unknown,
        Sight::Absent(_, _) | Sight::Race(_, _, _) => Verdict::Bad,
    }
}

/// Who owns cells at a start and at an end: the contract of procedure `f`, and each resource. An `Err` says
/// that memory ran out.
fn owners_of(alloc: Global, p: &Program, f: ProcId) -> Result<Vec<Vec<u8>>, AllocError> {
    let mut owners = Vec::new(alloc);
    let mut contract = text_of(alloc, "contract of ")?;
    contract.extend_from_slice(p.name_of(f))?;
    owners.push(contract)?;
    for resource in &p.resources {
        let mut name = text_of(alloc, "resource ")?;
        name.extend_from_slice(resource.name.as_bytes())?;
        owners.push(name)?;
    }
    Ok(owners)
}

/// A run of procedure `f` from a start to that end. An `Err` says that memory ran out.
fn run_of(
    alloc: Global,
    p: &Program,
    f: ProcId,
    start: &Start,
    end: Scene,
) -> Result<Run, AllocError> {
    let mut said = Vec::from_slice(alloc, b"a run of ")?;
    said.extend_from_slice(p.name_of(f))?;
    Ok(Run {
        said,
        owners: owners_of(alloc, p, f)?,
        start: start_scene(alloc, p, f, start)?,
        end: Some(end),
    })
}

/// A run of procedure `f` along a schedule: its events step by step, of which so many are kept, and the
/// run itself. An `Err` says that memory ran out.
pub fn run_along(
    alloc: Global,
    arranged: &Arranged,
    bytes: &[u8],
    f: ProcId,
    start: &Start,
    schedule: &Schedule,
    room: usize,
) -> Result<(Track, Run), AllocError>
    requires starts { StartsWith (program_of arranged.now.program) f start.now.fresh start.now.vars
        start.now.heap start.now.parts.items }
    requires fields { All (IsWide (length arranged.now.program.fields.items)) schedule.now }
{
    let tour = tour_of(alloc, arranged, f, start, schedule)?;
    let p = &arranged.program;
    let events = schedule.as_slice();
    let made = events.get(..tour.count).unwrap_or(events);
    let found = event_steps(alloc, arranged, bytes, f, start, made, room)?;
    let track = Track {
        kind: TrackKind::Schedule,
        name: Vec::from_slice(alloc, p.name_of(f))?,
        span: spot(place_of(p, f)),
        verdict: verdict_of(tour.sight),
        said: sight_text(alloc, tour.sight)?,
        left_out: made.len().saturating_sub(found.steps.len()) as u64,
        steps: found.steps,
        failure: None,
    };
    let run = run_of(alloc, p, f, start, found.end)?;
    Ok((track, run))
}
