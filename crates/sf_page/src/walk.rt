//! What can be walked: the steps of proofs and schedules, failures, and the two ends of a run.

use crate::html::Html;
use crate::markup::{Attribute, Class, Element};
use crate::model::{Failure, Run, Scene, Span, Step, Track, TrackKind, Verdict, Witness};
use crate::scene::{begin_group, put_items, put_known, put_lines, put_scene, put_text};
use itoa::Buffer;
use std::alloc::{AllocError, Global};

/// How many steps of a walk a page has.
pub const STEPS_SHOWN: usize = 2000;

/// Which step of which walk.
#[derive(Clone, Copy)]
struct Number {
    track: u32,
    step: u32,
}

/// Opens the item of a step. An `Err` means out of memory.
fn open_step(
    out: &mut Html,
    class: Class,
    number: Number,
    depth: u32,
    span: Span,
) -> Result<(), AllocError> {
    out.open(
        Element::Li,
        class,
        &[
            Attribute::IdStep.with(number.track),
            Attribute::Last.with(number.step),
            Attribute::Depth.with(depth.min(40)),
            Attribute::FromLine.with(span.line),
            Attribute::FromColumn.with(span.column),
            Attribute::ToEndLine.with(span.end_line),
            Attribute::ToEndColumn.with(span.end_column),
        ],
    )
}

/// Appends the name of a step, which leads to it, and what is said of it. An `Err` means out of
/// memory.
fn put_tag(out: &mut Html, number: Number, name: &[u8], said: &[u8]) -> Result<(), AllocError> {
    out.open(
        Element::A,
        Class::Tag,
        &[
            Attribute::ToStep.with(number.track),
            Attribute::Last.with(number.step),
        ],
    )?;
    out.show(name)?;
    out.close(Element::A)?;
    out.show(b" ")?;
    put_text(out, Element::Span, Class::Rule, said)
}

/// Appends what is shown of a step, where there is something. An `Err` means out of memory.
fn put_view(out: &mut Html, alloc: Global, scene: &Option<Scene>) -> Result<(), AllocError> {
    out.open(Element::Div, Class::View, &[])?;
    if let Some(scene) = scene {
        put_scene(out, alloc, scene)?;
    }
    out.close(Element::Div)
}

/// Appends a step, in red where it fails. An `Err` means out of memory.
fn put_step(
    out: &mut Html,
    alloc: Global,
    number: Number,
    step: &Step,
    fails: bool,
) -> Result<(), AllocError> {
    let class = if fails { Class::Fails } else { Class::Step };
    open_step(out, class, number, step.depth, step.span)?;
    put_tag(out, number, &step.name, &step.rule)?;
    put_view(out, alloc, &step.scene)?;
    out.close(Element::Li)
}

/// The steps that a page has.
fn first_of(steps: &[Step]) -> &[Step] {
    steps.get(..STEPS_SHOWN).unwrap_or(steps)
}

/// Whether a walk ends with a fault of which its last step is all that tells.
fn ends_red(track: &Track) -> bool {
    match track.verdict {
        Verdict::Bad => track.failure.is_none(),
        Verdict::Fine | Verdict::Unknown => false,
    }
}

/// Appends the steps of a walk, as many as a page has, and answers how many. An `Err` means out of
/// memory.
fn put_steps(out: &mut Html, alloc: Global, n: u32, track: &Track) -> Result<u32, AllocError> {
    let red = ends_red(track);
    let mut left = track.steps.len();
    let mut count: u32 = 0;
    for step in first_of(&track.steps) {
        let number = Number {
            track: n,
            step: count,
        };
        put_step(out, alloc, number, step, step.fails || (red && left == 1))?;
        left = left.saturating_sub(1);
        count = count.saturating_add(1);
    }
    Ok(count)
}

/// Appends a state in which something fails. An `Err` means out of memory.
fn put_witness(out: &mut Html, alloc: Global, witness: &Witness) -> Result<(), AllocError> {
    begin_group(out, "a state in which it fails")?;
    put_scene(out, alloc, &witness.scene)?;
    put_block(out, &witness.text)?;
    out.close(Element::Div)
}

/// Appends lines as they are written. An `Err` means out of memory.
fn put_block(out: &mut Html, lines: &[Vec<u8>]) -> Result<(), AllocError> {
    out.open(Element::Code, Class::Words, &[])?;
    for line in lines {
        out.show(line)?;
        out.show(b"\n")?;
    }
    out.close(Element::Code)
}

/// Appends what is known where something failed, as it is written elsewhere. An `Err` means out of
/// memory.
fn put_written(out: &mut Html, failure: &Failure) -> Result<(), AllocError> {
    if failure.known.is_empty() {
        return Ok(());
    }
    begin_group(out, "known, in words")?;
    put_block(out, &failure.known)?;
    out.close(Element::Div)
}

/// Appends the goal at which something failed, and beside it a state in which it does. An `Err`
/// means out of memory.
fn put_beside(out: &mut Html, alloc: Global, failure: &Failure) -> Result<(), AllocError> {
    out.open(Element::Div, Class::Beside, &[])?;
    if let Some(scene) = &failure.scene {
        put_known(out, alloc, scene)?;
    }
    if let Some(witness) = &failure.witness {
        put_witness(out, alloc, witness)?;
    }
    out.close(Element::Div)
}

/// Appends what was wanted where something failed: in words, and then what the scene has of it. An
/// `Err` means out of memory.
fn put_wanted(out: &mut Html, failure: &Failure) -> Result<(), AllocError> {
    begin_group(out, "wanted")?;
    for line in &failure.wanted {
        put_text(out, Element::P, Class::Summary, line)?;
    }
    if let Some(scene) = &failure.scene {
        put_items(out, Class::Wanted, &scene.wanted)?;
    }
    out.close(Element::Div)
}

/// Appends why something failed, as the last step. An `Err` means out of memory.
fn put_failure(
    out: &mut Html,
    alloc: Global,
    number: Number,
    failure: &Failure,
) -> Result<(), AllocError> {
    open_step(out, Class::Fails, number, 0, failure.span)?;
    put_tag(out, number, &failure.title, b"")?;
    out.open(Element::Div, Class::View, &[])?;
    put_wanted(out, failure)?;
    put_lines(out, Class::Helps, "what often helps", &failure.helps)?;
    put_beside(out, alloc, failure)?;
    put_written(out, failure)?;
    out.close(Element::Div)?;
    out.close(Element::Li)
}

/// The class of a walk that ended so.
fn track_class(verdict: Verdict) -> Class {
    match verdict {
        Verdict::Fine => Class::Fine,
        Verdict::Bad => Class::Bad,
        Verdict::Unknown => Class::Unknown,
    }
}

/// What a walk is, before its name.
fn track_word(kind: TrackKind) -> &'static str {
    match kind {
        TrackKind::Proof => "proof of ",
        TrackKind::Schedule => "schedule of ",
    }
}

/// Appends the heading of a walk. An `Err` means out of memory.
fn put_heading(out: &mut Html, track: &Track) -> Result<(), AllocError> {
    out.open(Element::H2, Class::Caption, &[])?;
    out.show(track_word(track.kind).as_bytes())?;
    out.open(
        Element::A,
        Class::Name,
        &[Attribute::ToLine.with(track.span.line)],
    )?;
    out.show(&track.name)?;
    out.close(Element::A)?;
    out.show(b" ")?;
    put_text(out, Element::Span, Class::Verdict, &track.said)?;
    out.close(Element::H2)
}

/// How many steps of a walk aren't shown.
fn not_shown(track: &Track) -> u64 {
    let cut = track.steps.len().saturating_sub(STEPS_SHOWN) as u64;
    track.left_out.saturating_add(cut)
}

/// Appends how many steps aren't shown. An `Err` means out of memory.
fn put_left_out(out: &mut Html, count: u64) -> Result<(), AllocError> {
    if count == 0 {
        return Ok(());
    }
    out.open(Element::P, Class::Note, &[])?;
    out.show(b"folded: ")?;
    out.show(Buffer::new().format(count).as_bytes())?;
    out.show(b" further steps are not on this page")?;
    out.close(Element::P)
}

/// Appends a walk with that number. An `Err` means out of memory.
pub fn put_track(out: &mut Html, alloc: Global, n: u32, track: &Track) -> Result<(), AllocError> {
    out.open(Element::Section, track_class(track.verdict), &[])?;
    put_heading(out, track)?;
    out.open(Element::Ol, Class::Steps, &[])?;
    let count = put_steps(out, alloc, n, track)?;
    if let Some(failure) = &track.failure {
        put_failure(
            out,
            alloc,
            Number {
                track: n,
                step: count,
            },
            failure,
        )?;
    }
    out.close(Element::Ol)?;
    put_left_out(out, not_shown(track))?;
    out.close(Element::Section)
}

/// Appends an end of a run. An `Err` means out of memory.
fn put_end(
    out: &mut Html,
    alloc: Global,
    number: Number,
    name: &str,
    scene: &Scene,
) -> Result<(), AllocError> {
    let nowhere = Span {
        line: 0,
        column: 0,
        end_line: 0,
        end_column: 0,
    };
    open_step(out, Class::Step, number, 0, nowhere)?;
    put_tag(out, number, name.as_bytes(), b"")?;
    out.open(Element::Div, Class::View, &[])?;
    put_scene(out, alloc, scene)?;
    out.close(Element::Div)?;
    out.close(Element::Li)
}

/// Appends who owns cells, each in its colour. An `Err` means out of memory.
fn put_owners(out: &mut Html, owners: &[Vec<u8>]) -> Result<(), AllocError> {
    out.open(Element::P, Class::Owners, &[])?;
    let mut number: u32 = 0;
    for owner in owners {
        out.open(
            Element::Span,
            Class::Owner,
            &[Attribute::Whose.with(number)],
        )?;
        out.show(owner)?;
        out.close(Element::Span)?;
        out.show(b" ")?;
        number = number.saturating_add(1);
    }
    out.close(Element::P)
}

/// Appends a run, as a walk with that number from its start to its end. An `Err` means out of
/// memory.
pub fn put_run(out: &mut Html, alloc: Global, n: u32, run: &Run) -> Result<(), AllocError> {
    out.open(Element::Section, Class::Unknown, &[])?;
    out.open(Element::H2, Class::Caption, &[])?;
    out.show(b"run ")?;
    put_text(out, Element::Span, Class::Verdict, &run.said)?;
    out.close(Element::H2)?;
    put_owners(out, &run.owners)?;
    out.open(Element::Ol, Class::Steps, &[])?;
    put_end(
        out,
        alloc,
        Number { track: n, step: 0 },
        "start",
        &run.start,
    )?;
    if let Some(end) = &run.end {
        put_end(out, alloc, Number { track: n, step: 1 }, "end", end)?;
    }
    out.close(Element::Ol)?;
    out.close(Element::Section)
}
