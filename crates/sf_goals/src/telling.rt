//! A goal in the form of a failed obligation, and a failure in words.

use crate::advice::{advise, put_advice};
use crate::drawing::{put_heap, put_taken};
use crate::naming::Namer;
use sf_base::{Place, ProcId};
use sf_core::Program;
use sf_hints::{line_of, put, put_number};
use sf_lines::next_line;
use sf_report::failed;
use sf_sym::{Goal, Item, Stuck, peek_item};
use std::alloc::{AllocError, Global};

/// The line of a failed obligation's text that has the variables.
const VARIABLES: u32 = 2;
/// The line that has the pairs of terms that differ.
const PAIRS: u32 = 3;
/// The line that has what is wanted.
const WANTED: u32 = 6;

/// The place of what is to be done first at a goal.
pub fn front_place(goal: &Goal) -> Place {
    let first = Place { line: 1, column: 1 };
    let Some(item) = peek_item(&goal.todo) else {
        return first;
    };
    match item {
        Item::Run(commands) => match commands.first() {
            Some(command) => command.place(),
            None => first,
        },
        Item::Add(place, _) | Item::Take(place, _, _) | Item::Gave(place, _, _) => *place,
        Item::Head(place, _, _, _) | Item::Again(place, _) | Item::Exit(place, _) => *place,
        Item::Return(place, _) | Item::End(place) => *place,
    }
}

/// The word of a reason for which a search is stuck.
pub fn kind_word(kind: Stuck) -> &'static str {
    match kind {
        Stuck::NoCell => "NoCell",
        Stuck::NotEqual => "NotEqual",
        Stuck::NotDifferent => "NotDifferent",
        Stuck::NoAtom => "NoAtom",
        Stuck::Leak => "Leak",
        Stuck::EndNotAllocated => "EndNotAllocated",
    }
}

/// What is wanted where a search is stuck for that reason.
pub fn wanted_words(kind: Stuck) -> &'static str {
    match kind {
        Stuck::NoCell => "this cell, which isn't known to be there",
        Stuck::NotEqual => "that these are the same, which isn't known",
        Stuck::NotDifferent => "that these differ, which isn't known",
        Stuck::NoAtom => "this part of the heap, which isn't known to be there",
        Stuck::Leak => "that nothing is left over, but some of the heap is",
        Stuck::EndNotAllocated => "this segment, whose end isn't known to lie outside of it",
    }
}

/// A line of the text without the word that begins it.
fn rest_of(text: &[u8], line: u32) -> &[u8] {
    let whole = line_of(text, line);
    let mut left = whole;
    for byte in whole {
        left = match left.split_first() {
            Some((_, rest)) => rest,
            None => left,
        };
        if *byte == b' ' {
            break;
        }
    }
    left
}

/// The text after its first line.
fn after_first(text: &[u8]) -> &[u8] {
    match next_line(text) {
        (_, Some(rest)) => rest,
        (_, None) => &[],
    }
}

/// A goal of that procedure in the form of a failed obligation: the procedure, the place of what is to
/// be done first, the variables, what differs, the parts of the heap, those that were handed over,
/// and what is wanted. An `Err` says that memory ran out.
pub fn goal_text(
    alloc: Global,
    p: &Program,
    f: ProcId,
    goal: &Goal,
) -> Result<Vec<u8>, AllocError> {
    let told = failed(alloc, p, f, goal, Stuck::NoAtom)?;
    let place = front_place(goal);
    let mut text = Vec::from_slice(alloc, b"goal ")?;
    text.extend_from_slice(p.name_of(f))?;
    put_number(&mut text, " at ", u64::from(place.line))?;
    put_number(&mut text, ":", u64::from(place.column))?;
    put(&mut text, "\n")?;
    text.extend_from_slice(after_first(&told))?;
    Ok(text)
}

/// Appends a word and a line of a text, without the word that begins that; nothing where it has no
/// more. An `Err` says that memory ran out.
fn put_known(text: &mut Vec<u8>, word: &str, told: &[u8], line: u32) -> Result<(), AllocError> {
    let rest = rest_of(told, line);
    if rest.is_empty() {
        return Ok(());
    }
    put(text, word)?;
    text.extend_from_slice(rest)?;
    put(text, "\n")
}

/// Appends what is known at a goal: the variables, what differs, and the heap drawn. An `Err` says that
/// memory ran out.
pub fn put_state(
    text: &mut Vec<u8>,
    alloc: Global,
    p: &Program,
    f: ProcId,
    goal: &Goal,
) -> Result<(), AllocError> {
    let told = failed(alloc, p, f, goal, Stuck::NoAtom)?;
    let state = &goal.state;
    let namer = Namer {
        p,
        f,
        vars: state.vars(),
    };
    put_known(text, "  variables: ", &told, VARIABLES)?;
    put_known(text, "  differing: ", &told, PAIRS)?;
    if state.atoms().is_empty() {
        put(text, "  no cell\n")?;
    } else {
        put(text, "  heap:\n")?;
    }
    put_heap(text, alloc, &namer, state.links(), state.atoms())?;
    put_taken(text, alloc, &namer, state.links(), state.taken())
}

/// Appends what is wanted, of which a text tells, but for what is left over, which is the heap. An
/// `Err` says that memory ran out.
fn put_wanted(text: &mut Vec<u8>, told: &[u8], kind: Stuck) -> Result<(), AllocError> {
    if kind == Stuck::Leak {
        return put(text, "\n");
    }
    put_known(text, ":\n  ", told, WANTED)
}

/// Appends a failed obligation of that procedure in words: what is known there, with the heap drawn,
/// what is wanted, and what often helps. An `Err` says that memory ran out.
pub fn put_failure(
    text: &mut Vec<u8>,
    alloc: Global,
    p: &Program,
    f: ProcId,
    goal: &Goal,
    kind: Stuck,
) -> Result<(), AllocError> {
    let told = failed(alloc, p, f, goal, kind)?;
    put(text, "known there:\n")?;
    put_state(text, alloc, p, f, goal)?;
    put(text, "wanted there: ")?;
    put(text, wanted_words(kind))?;
    put_wanted(text, &told, kind)?;
    put(text, "often helps:\n")?;
    let lines = advise(alloc, p, f, goal, kind)?;
    put_advice(text, &lines)
}
