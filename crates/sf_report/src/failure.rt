//! The whole text of a failed obligation.

ghost use Rattle.std.specs.Prelude.{◌≡◌, ◌++◌, codes, false, IfOk, List, map, slice_get};
ghost use Rattle.sf_base.specs.Results.{Appends};
ghost use Rattle.sf_core.specs.Program.ProgramView.{program_of};
ghost use Rattle.sf_sym.specs.Goal.{Item as Thing, goal_of, items_of, todo_of};
ghost use Rattle.sf_sym.specs.Checked.Items.{is_nothing};
ghost use Rattle.sf_report.specs.Failure.{failure_text, first_place, front_place, goal_line, procedure_place, state_text, too_large_text, want_line, where_text};
ghost use Rattle.sf_report.specs.Pieces.{line_text, numbered_text};
ghost use Rattle.sf_report.specs.Wanted.{want_text};

use crate::listed::{atoms_listed, pairs_listed};
use crate::names::put_bytes;
use crate::pieces::{put_atoms, put_kind, put_numbered, put_pairs, put_place, put_vars};
use crate::wanted::put_want;
use sf_base::{Place, ProcId};
use sf_core::Program;
use sf_proof::put;
use sf_sym::{Goal, Item, Numbered, State, Stuck, peek_item};
use std::alloc::{AllocError, Global};

/// The first place of a text.
fn first_place() -> Place
    ensures { result ≡ first_place }
{
    Place { line: 1, column: 1 }
}

/// The place of an item.
fn item_place(item: &Item) -> Place
    requires { is_nothing item.now ≡ false }
    ensures { (rest : List Thing) → result ≡ front_place (items_of item.now ++ rest) }
{
    match item {
        Item::Run(commands) => match commands.first() {
            Some(c) => c.place(),
            None => first_place(),
        },
        Item::Add(place, _) => *place,
        Item::Take(place, _, _) => *place,
        Item::Gave(place, _, _) => *place,
        Item::Head(place, _, _, _) => *place,
        Item::Again(place, _) => *place,
        Item::Exit(place, _) => *place,
        Item::Return(place, _) => *place,
        Item::End(place) => *place,
    }
}

/// The place of the first thing to do.
fn front_place(todo: &[Item]) -> Place
    ensures { result ≡ front_place (todo_of todo.now) }
{
    match peek_item(todo) {
        Some(item) => item_place(item),
        None => first_place(),
    }
}

/// Appends a word, which ends with a blank, and then which procedure, and where. An `Err` means out
/// of memory.
fn put_where(
    text: &mut Vec<u8>,
    word: &str,
    p: &Program,
    f: ProcId,
    place: Place,
) -> Result<(), AllocError>
    ensures { Appends result text.old.items text.new.items
        (where_text word.now (program_of p.now) f place) }
{
    put(text, word)?;
    put_bytes(text, p.name_of(f))?;
    put(text, " at ")?;
    put_place(text, place)?;
    put(text, " ")
}

/// Appends the line of a goal of that procedure at which a search had no rule, for that reason: a
/// word, which ends with a blank, the procedure, the place of what is to be done there, and the
/// reason. An `Err` means out of memory.
pub fn put_goal_line(
    text: &mut Vec<u8>,
    word: &str,
    p: &Program,
    f: ProcId,
    goal: &Goal,
    kind: Stuck,
) -> Result<(), AllocError>
    ensures { Appends result text.old.items text.new.items
        (goal_line word.now (program_of p.now) f (goal_of goal.now) kind) }
{
    put_where(text, word, p, f, front_place(&goal.todo))?;
    put_kind(text, kind)?;
    put(text, "\n")
}

/// Appends the line of what was handed over. An `Err` means out of memory.
fn put_taken(text: &mut Vec<u8>, p: &Program, atoms: &[&Numbered]) -> Result<(), AllocError>
    ensures { Appends result text.old.items text.new.items (line_text (codes "taken")
        (numbered_text (program_of p.now)) (map (λ a. a.now) atoms.now)) }
{
    put(text, "taken")?;
    let mut before: &[u8] = b" ";
    for a in atoms {
        put_bytes(text, before)?;
        put_numbered(text, p, *a)?;
        before = b", ";
    }
    put(text, "\n")
}

/// Appends what the state knows. An `Err` means out of memory.
fn put_state(
    text: &mut Vec<u8>,
    alloc: Global,
    p: &Program,
    f: ProcId,
    s: &State,
) -> Result<(), AllocError>
    ensures { Appends result text.old.items text.new.items
        (state_text (program_of p.now) f s.now) }
{
    put_vars(text, p, f, s.vars())?;
    put_pairs(text, &pairs_listed(alloc, s.apart())?)?;
    put_atoms(text, p, s.atoms())?;
    put_taken(text, p, &atoms_listed(alloc, s.taken())?)
}

/// Appends the last line. An `Err` means out of memory.
fn put_last(
    text: &mut Vec<u8>,
    alloc: Global,
    p: &Program,
    kind: Stuck,
    goal: &Goal,
) -> Result<(), AllocError>
    ensures { Appends result text.old.items text.new.items (want_line
        (want_text (program_of p.now) kind goal.now.state (todo_of goal.now.todo.items))) }
{
    put(text, "want ")?;
    put_want(text, alloc, p, kind, &goal.state, &goal.todo)?;
    put(text, "\n")
}

/// The text of a goal of that procedure at which a search had no rule, for that reason: the
/// procedure, the place of what is to be done there, the variables with their terms, the pairs of
/// terms that differ, the parts of the heap, those that were handed over, and what is wanted. An
/// `Err` means out of memory.
pub fn failed(
    alloc: Global,
    p: &Program,
    f: ProcId,
    goal: &Goal,
    kind: Stuck,
) -> Result<Vec<u8>, AllocError>
    ensures { IfOk result (λ text. text.items
        ≡ failure_text (program_of p.now) f (goal_of goal.now) kind) }
{
    let mut text = Vec::new(alloc);
    put_goal_line(&mut text, "failed ", p, f, goal, kind)?;
    put_state(&mut text, alloc, p, f, &goal.state)?;
    put_last(&mut text, alloc, p, kind, goal)?;
    Ok(text)
}

/// The place of the procedure's name.
fn procedure_place(p: &Program, f: ProcId) -> Place
    ensures { result ≡ procedure_place (slice_get (program_of p.now).procedures f.0) }
{
    match p.procedures.get(f.0 as usize) {
        Some(procedure) => procedure.place,
        None => first_place(),
    }
}

/// The text of a procedure whose proof would have more tags than it may. An `Err` means out of
/// memory.
pub fn too_large(alloc: Global, p: &Program, f: ProcId) -> Result<Vec<u8>, AllocError>
    ensures { IfOk result (λ text. text.items ≡ too_large_text (program_of p.now) f) }
{
    let mut text = Vec::new(alloc);
    put_where(&mut text, "failed ", p, f, procedure_place(p, f))?;
    put(&mut text, "TooLarge\n")?;
    Ok(text)
}
