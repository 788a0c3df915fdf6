//! The goals after the tags.

use crate::failing::id_of;
use crate::proving::{Stand, say_proof, tag_lines};
use crate::reply::Said;
use sf_base::ProcId;
use sf_goals::{End, goal_text, search_of};
use sf_hints::put;
use sf_precise::Arranged;
use sf_proof::read;
use sf_report::put_goal_line;
use sf_sym::Tag;
use std::alloc::{AllocError, Global};

/// The tags of all procedures up to the first at which a search is stuck, and what is said of that.
#[derive(Drop)]
struct Found {
    tags: Vec<Tag>,
    last: Vec<u8>,
    status: u8,
}

/// Appends the tags of a procedure, and what is said where its search is stuck. `false` where it is.
/// An `Err` says that memory ran out.
fn add_procedure(
    alloc: Global,
    arranged: &Arranged,
    f: ProcId,
    found: &mut Found,
) -> Result<bool, AllocError> {
    let walk = search_of(alloc, arranged, f)?;
    found.tags.push(Tag::Procedure(f))?;
    found.tags.extend_from_slice(&walk.tags)?;
    match &walk.end {
        End::Proved => Ok(true),
        End::Stuck(goal, kind) => {
            put_goal_line(
                &mut found.last,
                "failed ",
                &arranged.program,
                f,
                goal,
                *kind,
            )?;
            found.status = 1;
            Ok(false)
        }
        End::TooLarge => {
            put(&mut found.last, "failed: TooLarge\n")?;
            found.status = 1;
            Ok(false)
        }
    }
}

/// The tags that a search takes of the program, as far as it comes. An `Err` says that memory ran
/// out.
fn find_tags(alloc: Global, arranged: &Arranged) -> Result<Found, AllocError> {
    let mut found = Found {
        tags: Vec::new(alloc),
        last: Vec::new(alloc),
        status: 0,
    };
    for number in 0..arranged.program.procedures.len() {
        if !add_procedure(alloc, arranged, id_of(number), &mut found)? {
            break;
        }
    }
    Ok(found)
}

/// Appends the goal that is open, or that none is. An `Err` says that memory ran out.
fn put_goal(
    text: &mut Vec<u8>,
    alloc: Global,
    arranged: &Arranged,
    stand: &Stand<'_>,
) -> Result<(), AllocError> {
    match stand.goal() {
        Some(goal) => {
            let told = goal_text(alloc, &arranged.program, stand.procedure(), goal)?;
            text.extend_from_slice(told.as_slice())?;
            Ok(())
        }
        None => put(text, "proved\n"),
    }
}

/// Appends each tag with the goal that is open after it, up to the first that can't be taken. An
/// `Err` says that memory ran out.
fn put_goals(
    text: &mut Vec<u8>,
    alloc: Global,
    arranged: &Arranged,
    tags: &[Tag],
) -> Result<(), AllocError> {
    let mut stand = Stand::new(alloc);
    for tag in tags {
        let line = tag_lines(alloc, &arranged.program, &[*tag])?;
        text.extend_from_slice(line.as_slice())?;
        if !stand.take(alloc, arranged, *tag)? {
            break;
        }
        put_goal(text, alloc, arranged, &stand)?;
        put(text, "\n")?;
    }
    Ok(())
}

/// The goals after the tags that a search takes. An `Err` says that memory ran out.
pub fn say_goals(alloc: Global, arranged: &Arranged) -> Result<Said, AllocError> {
    let found = find_tags(alloc, arranged)?;
    let mut text = Vec::new(alloc);
    put_goals(&mut text, alloc, arranged, &found.tags)?;
    text.extend_from_slice(found.last.as_slice())?;
    Ok(Said {
        text,
        status: found.status,
    })
}

/// The goals after the tags of the text of a proof, which the file of that name has, and what is said
/// of it. An `Err` says that memory ran out.
pub fn say_goals_of(
    alloc: Global,
    arranged: &Arranged,
    file: &str,
    proof: &[u8],
) -> Result<Said, AllocError> {
    let said = say_proof(alloc, arranged, file, proof)?;
    let mut text = Vec::new(alloc);
    if let Ok(lined) = read(alloc, &arranged.program, proof) {
        put_goals(&mut text, alloc, arranged, lined.tags.as_slice())?;
    }
    text.extend_from_slice(said.text.as_slice())?;
    Ok(Said {
        text,
        status: said.status,
    })
}
