//! The tags that have a row at a goal.

use crate::walking::follow;
use sf_precise::Arranged;
use sf_sym::{Goal, Tag, Term};
use std::alloc::{AllocError, Global};

/// How many parts of a heap, and variables, are tried.
const TRIED: usize = 64;

/// The tags that name nothing.
const PLAIN: &[Tag] = &[
    Tag::Absurd,
    Tag::Assign,
    Tag::New,
    Tag::Then,
    Tag::Else,
    Tag::Loop,
    Tag::Around,
    Tag::Again,
    Tag::Call,
    Tag::Fork,
    Tag::Enter,
    Tag::Exit,
    Tag::Return,
    Tag::Give,
    Tag::End,
    Tag::Add,
    Tag::Bind,
    Tag::Same,
    Tag::Apart,
    Tag::Empty,
];

/// Appends the tag where it has a row at the goal.
fn try_tag<'a>(
    alloc: Global,
    arranged: &'a Arranged,
    goal: &Goal<'a>,
    tag: Tag,
    found: &mut Vec<Tag>,
) -> Result<(), AllocError> {
    let mut stack = Vec::new(alloc);
    let copy = goal.copy(alloc)?;
    if follow(alloc, arranged, &mut stack, copy, tag)? {
        found.push(tag)?;
    }
    Ok(())
}

/// Appends those of the tags that have a row at the goal.
fn try_tags<'a>(
    alloc: Global,
    arranged: &'a Arranged,
    goal: &Goal<'a>,
    tags: &[Tag],
    found: &mut Vec<Tag>,
) -> Result<(), AllocError> {
    for tag in tags {
        try_tag(alloc, arranged, goal, *tag, found)?;
    }
    Ok(())
}

/// Appends those that have a row at the goal of the tags that name a part.
fn try_part<'a>(
    alloc: Global,
    arranged: &'a Arranged,
    goal: &Goal<'a>,
    number: u32,
    found: &mut Vec<Tag>,
) -> Result<(), AllocError> {
    let tags = [
        Tag::Drop(number),
        Tag::Force(number),
        Tag::Unroll(number),
        Tag::Back(number),
        Tag::Look(number),
        Tag::Mutate(number),
        Tag::Dispose(number),
        Tag::Cell(number),
        Tag::Exact(number),
        Tag::Head(number),
        Tag::Join(number),
        Tag::Node(number),
    ];
    try_tags(alloc, arranged, goal, tags.as_slice(), found)
}

/// Appends those that have a row at the goal of the tags that name the first parts.
fn try_parts<'a>(
    alloc: Global,
    arranged: &'a Arranged,
    goal: &Goal<'a>,
    found: &mut Vec<Tag>,
) -> Result<(), AllocError> {
    for a in goal.state.atoms().iter().take(TRIED) {
        try_part(alloc, arranged, goal, a.number, found)?;
    }
    Ok(())
}

/// Appends the tags that ask whether one of the first variables is nil, where they have a row.
fn try_splits<'a>(
    alloc: Global,
    arranged: &'a Arranged,
    goal: &Goal<'a>,
    found: &mut Vec<Tag>,
) -> Result<(), AllocError> {
    for (_, t) in goal.state.vars().iter().take(TRIED) {
        if !t.is_constant() {
            try_tag(alloc, arranged, goal, Tag::Split(*t, Term::Nil), found)?;
        }
    }
    Ok(())
}

/// The tags that have a row at a goal: those that name nothing, those that name one of its first
/// parts, and those that ask whether a variable is nil. An `Err` says that memory ran out.
pub fn rows_at<'a>(
    alloc: Global,
    arranged: &'a Arranged,
    goal: &Goal<'a>,
) -> Result<Vec<Tag>, AllocError> {
    let mut found = Vec::new(alloc);
    try_tags(alloc, arranged, goal, PLAIN, &mut found)?;
    try_parts(alloc, arranged, goal, &mut found)?;
    try_splits(alloc, arranged, goal, &mut found)?;
    Ok(found)
}
