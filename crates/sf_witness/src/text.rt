//! The text of a goal's witness.

ghost use Rattle.std.specs.Prelude.{◌≡◌, ◌++◌, codes, IfOk};
ghost use Rattle.std.specs.List.{flat_map};
ghost use Rattle.sf_base.specs.Results.{Appends};
ghost use Rattle.sf_core.specs.Program.ProgramView.{program_of};
ghost use Rattle.sf_heap.specs.Cells.{heap_of};
ghost use Rattle.sf_sym.specs.Goal.{goal_of};
ghost use Rattle.sf_witness.specs.WitnessText.{IsTextOfWitness, WitnessText, cell_line, value_line, want_line};

use crate::finding::{Witness, witness_of};
use sf_base::{ProcId, Value, Var};
use sf_core::Program;
use sf_heap::Heap;
use sf_proof::put;
use sf_report::{put_goal_line, put_variable};
use sf_state::{put_cells, put_value};
use sf_sym::{Goal, Stuck};
use std::alloc::{AllocError, Global};

/// Appends the line of a variable. An `Err` means out of memory.
fn put_line(text: &mut Vec<u8>, p: &Program, f: ProcId, v: (Var, Value)) -> Result<(), AllocError>
    ensures { Appends result text.old.items text.new.items (value_line (program_of p.now) f v) }
{
    put_variable(text, p, f, v.0)?;
    put(text, " = ")?;
    put_value(text, v.1)?;
    put(text, "\n")
}

/// Appends the lines of the variables. An `Err` means out of memory.
fn put_lines(
    text: &mut Vec<u8>,
    p: &Program,
    f: ProcId,
    vars: &[(Var, Value)],
) -> Result<(), AllocError>
    ensures { Appends result text.old.items text.new.items
        (flat_map (value_line (program_of p.now) f) vars.now) }
{
    for v in vars {
        put_line(text, p, f, *v)?;
    }
    Ok(())
}

/// Appends the lines of these cells. An `Err` means out of memory.
fn put_heap(text: &mut Vec<u8>, p: &Program, heap: &Heap, at: &[u64]) -> Result<(), AllocError>
    ensures { Appends result text.old.items text.new.items
        (flat_map (cell_line (program_of p.now).fields (heap_of heap.now)) at.now) }
{
    put_cells(text, &p.fields, heap, at)
}

/// Appends whether what was asked for fails. An `Err` means out of memory.
fn put_want(text: &mut Vec<u8>, fails: bool) -> Result<(), AllocError>
    ensures { Appends result text.old.items text.new.items (want_line fails) }
{
    if fails {
        put(text, "want fails\n")
    } else {
        put(text, "want holds\n")
    }
}

/// Appends a witness, whose cells are at those locations. An `Err` means out of memory.
fn put_witness(
    text: &mut Vec<u8>,
    p: &Program,
    f: ProcId,
    w: &Witness,
    at: &[u64],
) -> Result<(), AllocError>
    ensures { Appends result text.old.items text.new.items
        (flat_map (value_line (program_of p.now) f) w.now.vars.items
        ++ flat_map (cell_line (program_of p.now).fields (heap_of w.now.heap)) at.now
        ++ want_line w.now.fails) }
{
    put_lines(text, p, f, &w.vars)?;
    put_heap(text, p, &w.heap, at)?;
    put_want(text, w.fails)
}

/// The text of the witness of a goal of that procedure at which a search has no rule, for that
/// reason: the line of the failure, the variables with their values, the cells, and whether what the
/// goal is stuck at fails there; or that there is no witness. An `Err` means out of memory.
pub fn witness_text(
    alloc: Global,
    p: &Program,
    f: ProcId,
    goal: &Goal,
    kind: Stuck,
) -> Result<Vec<u8>, AllocError>
    ensures { IfOk result (λ text.
        WitnessText (program_of p.now) f (goal_of goal.now) kind text.items) }
{
    let mut text = Vec::new(alloc);
    put_goal_line(&mut text, "witness ", p, f, goal, kind)?;
    let found = witness_of(alloc, p, goal, kind)?;
    let Some(w) = found else {
        put(&mut text, "no witness\n")?;
        return Ok(text);
    };
    let at = w.heap.locations()?;
    put_witness(&mut text, p, f, &w, at.as_slice())?;
    Ok(text)
}
