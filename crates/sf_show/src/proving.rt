//! Tags one after the other, and why a proof is refused.

use crate::failing::id_of;
use crate::refused::put_place;
use crate::reply::{Said, say};
use sf_base::{Place, ProcId};
use sf_core::Program;
use sf_goals::{first, follow, goal_text, rows_at};
use sf_hints::{put, put_line};
use sf_lines::next_line;
use sf_precise::Arranged;
use sf_proof::{Lined, ProofFault, proof_text, read};
use sf_sym::{Goal, Tag};
use std::alloc::{AllocError, Global};

/// How far tags have come: the open goals, the next one last, and how many procedures have begun.
#[derive(Drop)]
pub struct Stand<'a> {
    /// The open goals.
    pub goals: Vec<Goal<'a>>,
    /// How many procedures have begun.
    pub begun: usize,
}

impl<'a> Stand<'a> {
    /// Before the first tag.
    pub fn new(alloc: Global) -> Stand<'a> {
        Stand {
            goals: Vec::new(alloc),
            begun: 0,
        }
    }

    /// The procedure that has begun last.
    pub fn procedure(&self) -> ProcId {
        id_of(self.begun.saturating_sub(1))
    }

    /// The open goal, if one is open.
    pub fn goal(&self) -> Option<&Goal<'a>> {
        self.goals.as_slice().last()
    }

    /// Whether all is proved of a program with so many procedures.
    pub fn is_finished(&self, procedures: usize) -> bool {
        self.goals.is_empty() && self.begun >= procedures
    }

    /// With no goal open, begins the next procedure, where the tag is its.
    fn begin(
        &mut self,
        alloc: Global,
        arranged: &'a Arranged,
        tag: Tag,
    ) -> Result<bool, AllocError> {
        let next = id_of(self.begun);
        if tag != Tag::Procedure(next) {
            return Ok(false);
        }
        match first(alloc, arranged, next)? {
            Some(goal) => {
                self.goals.push(goal)?;
                self.begun = self.begun.saturating_add(1);
                Ok(true)
            }
            None => Ok(false),
        }
    }

    /// Takes the next tag. `false` where it can't be taken. An `Err` says that memory ran out.
    pub fn take(
        &mut self,
        alloc: Global,
        arranged: &'a Arranged,
        tag: Tag,
    ) -> Result<bool, AllocError> {
        match self.goals.pop() {
            Some(goal) => follow(alloc, arranged, &mut self.goals, goal, tag),
            None => self.begin(alloc, arranged, tag),
        }
    }
}

/// How many of the tags can be taken, one after the other, before the first that can't. An `Err` says
/// that memory ran out.
fn count_taken(alloc: Global, arranged: &Arranged, tags: &[Tag]) -> Result<usize, AllocError> {
    let mut stand = Stand::new(alloc);
    let mut count: usize = 0;
    for tag in tags {
        if !stand.take(alloc, arranged, *tag)? {
            break;
        }
        count = count.saturating_add(1);
    }
    Ok(count)
}

/// Where so many of the tags lead, which can be taken. An `Err` says that memory ran out.
fn stand_after<'a>(
    alloc: Global,
    arranged: &'a Arranged,
    tags: &[Tag],
    count: usize,
) -> Result<Stand<'a>, AllocError> {
    let mut stand = Stand::new(alloc);
    for tag in tags.iter().take(count) {
        stand.take(alloc, arranged, *tag)?;
    }
    Ok(stand)
}

/// The lines of tags as a proof has them. An `Err` says that memory ran out.
pub fn tag_lines(alloc: Global, p: &Program, tags: &[Tag]) -> Result<Vec<u8>, AllocError> {
    let all = proof_text(alloc, p, tags)?;
    match next_line(all.as_slice()) {
        (_, Some(rest)) => Vec::from_slice(alloc, rest),
        (_, None) => Ok(Vec::new(alloc)),
    }
}

/// Appends the open goal, and the tags that have a row there; or which tag is the next. An `Err` says
/// that memory ran out.
fn put_open(
    text: &mut Vec<u8>,
    alloc: Global,
    arranged: &Arranged,
    stand: &Stand<'_>,
) -> Result<(), AllocError> {
    let p = &arranged.program;
    let Some(goal) = stand.goal() else {
        put(text, "no goal is open; next is the line\n")?;
        put(text, "procedure ")?;
        text.extend_from_slice(p.name_of(id_of(stand.begun)))?;
        return put(text, "\n");
    };
    put(text, "the open goal:\n")?;
    text.extend_from_slice(goal_text(alloc, p, stand.procedure(), goal)?.as_slice())?;
    put(text, "tags that have a row there:\n")?;
    let rows = rows_at(alloc, arranged, goal)?;
    text.extend_from_slice(tag_lines(alloc, p, &rows)?.as_slice())?;
    Ok(())
}

/// Appends that the proof of that name is refused at that line, for that reason, and the line. An
/// `Err` says that memory ran out.
fn put_line_of(
    text: &mut Vec<u8>,
    file: &str,
    proof: &[u8],
    line: u32,
    why: &str,
) -> Result<(), AllocError> {
    put_place(text, file, Place { line, column: 1 })?;
    put(text, "proof refused: ")?;
    put(text, why)?;
    put(text, "\n")?;
    put_line(text, proof, line)
}

/// The line of the tag of that number; that after the last one's past the end.
fn line_at(lines: &[u32], number: usize) -> u32 {
    match lines.get(number) {
        Some(line) => *line,
        None => match lines.last() {
            Some(line) => line.saturating_add(1),
            None => 2,
        },
    }
}

/// What is said of the tags of a proof: that they prove the program, or which one is refused, and
/// why. An `Err` says that memory ran out.
fn say_tags(
    alloc: Global,
    arranged: &Arranged,
    file: &str,
    proof: &[u8],
    lined: &Lined,
) -> Result<Said, AllocError> {
    let tags = lined.tags.as_slice();
    let count = count_taken(alloc, arranged, tags)?;
    let stand = stand_after(alloc, arranged, tags, count)?;
    let line = line_at(lined.lines.as_slice(), count);
    let mut text = Vec::new(alloc);
    if stand.is_finished(arranged.program.procedures.len()) {
        if count == tags.len() {
            return say(alloc, "accepted\n", 0);
        }
        put_line_of(
            &mut text,
            file,
            proof,
            line,
            "62 Leftover: all is proved before it",
        )?;
        return Ok(Said { text, status: 4 });
    }
    if count == tags.len() {
        put_line_of(
            &mut text,
            file,
            proof,
            line,
            "61 Unfinished: the proof ends here",
        )?;
    } else {
        put_line_of(
            &mut text,
            file,
            proof,
            line,
            "60 NotARule: the tag has no row there",
        )?;
    }
    put_open(&mut text, alloc, arranged, &stand)?;
    Ok(Said { text, status: 4 })
}

/// What is said of the text of a proof of the program, which the file of that name has. An `Err` says
/// that memory ran out.
pub fn say_proof(
    alloc: Global,
    arranged: &Arranged,
    file: &str,
    proof: &[u8],
) -> Result<Said, AllocError> {
    let mut text = Vec::new(alloc);
    match read(alloc, &arranged.program, proof) {
        Ok(lined) => say_tags(alloc, arranged, file, proof, &lined),
        Err(ProofFault::BadLine(line)) => {
            put_line_of(
                &mut text,
                file,
                proof,
                line,
                "50 BadLine: no line of a proof",
            )?;
            put(
                &mut text,
                "hint: a line is a tag, with the numbers or terms it names; ",
            )?;
            put(&mut text, "RULES lists them\n")?;
            Ok(Said { text, status: 4 })
        }
        Err(ProofFault::TooLong) => {
            put_line_of(
                &mut text,
                file,
                proof,
                1,
                "51 TooLong: more than 33,554,432 bytes",
            )?;
            Ok(Said { text, status: 4 })
        }
        Err(ProofFault::OutOfMemory) => Err(AllocError),
    }
}
