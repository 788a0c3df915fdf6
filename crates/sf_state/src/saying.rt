//! What the lines of a text say.

ghost use Rattle.std.specs.Prelude.{◌≡◌, ℕ, IfOk, length};
ghost use Rattle.sf_state.specs.Checked.Keeping.{IsPlaced};
ghost use Rattle.sf_core.specs.Program.ProgramView.{program_of};
ghost use Rattle.sf_lines.specs.Lines.{only, split_once, words};
ghost use Rattle.sf_state.specs.Says.{cell_said, cell_with, is_finished, said, says, variable_said};
ghost use Rattle.sf_state.specs.Values.{location_from};

use crate::fields::{Fields, fields_in};
use crate::line::Entry;
use crate::names::{is_target, place_of};
use crate::values::{location, value};
use crate::words::begins;
use sf_base::Name;
use sf_core::Program;
use sf_lines::{next_word, only_word, split_once};
use std::alloc::{AllocError, Global};

/// A cell at that location.
fn cell_with(location: u64, fields: Fields) -> Entry
    ensures is { result ≡ cell_with location fields }
    ensures placed { (count : ℕ) → IsPlaced count result }
{
    match fields {
        Fields::Bad => Entry::Bad,
        Fields::Unknown(name) => Entry::Unknown(name),
        Fields::Are(settings) => Entry::Cell(location, settings),
    }
}

/// A cell, by its first word and what comes after it.
fn cell_said(alloc: Global, p: &Program, word: &[u8], after: &[u8]) -> Result<Entry, AllocError>
    ensures is { IfOk result (λ e. e ≡ cell_said (program_of p.now).fields
        (location_from word.now) (words after.now)) }
    ensures placed { IfOk result (λ e. (count : ℕ) → IsPlaced count e) }
{
    match location(word) {
        Some(location) => Ok(cell_with(location, fields_in(alloc, p, after)?)),
        None => Ok(Entry::Bad),
    }
}

/// A variable with its value, by the line.
fn variable_said(alloc: Global, names: &[Name], line: &[u8]) -> Result<Entry, AllocError>
    ensures is { IfOk result (λ e. e ≡ variable_said names.now (split_once 61 line.now)) }
    ensures placed { IfOk result (IsPlaced (length names.now)) }
{
    let Some((left, right)) = split_once(b'=', line) else {
        return Ok(Entry::Bad);
    };
    let Some(name) = only_word(left) else {
        return Ok(Entry::Bad);
    };
    let Some(word) = only_word(right) else {
        return Ok(Entry::Bad);
    };
    let Some(value) = value(word) else {
        return Ok(Entry::Bad);
    };
    if !is_target(name) {
        return Ok(Entry::Bad);
    }
    match place_of(names, name) {
        Some(number) => Ok(Entry::Variable(number, value)),
        None => Ok(Entry::Unknown(Name::new(alloc, name)?)),
    }
}

/// What a line says, whichever it is.
fn said(alloc: Global, p: &Program, names: &[Name], line: &[u8]) -> Result<Entry, AllocError>
    ensures is { IfOk result (λ e. e ≡ said (program_of p.now).fields names.now line.now
        (words line.now)) }
    ensures placed { IfOk result (IsPlaced (length names.now)) }
{
    let Some((word, after)) = next_word(line) else {
        return Ok(Entry::Nothing);
    };
    if begins(b'#', word) {
        return Ok(Entry::Nothing);
    }
    if begins(b'@', word) {
        return cell_said(alloc, p, word, after);
    }
    variable_said(alloc, names, line)
}

/// Whether it is the line `finished`.
fn is_finished(line: &[u8]) -> bool
    ensures { result ≡ is_finished (only (words line.now)) }
{
    match only_word(line) {
        Some(word) => word == b"finished".as_slice(),
        None => false,
    }
}

/// What a line says before which there are so many.
pub(crate) fn says(
    alloc: Global,
    p: &Program,
    names: &[Name],
    before: u32,
    line: &[u8],
) -> Result<Entry, AllocError>
    ensures is { IfOk result
        (λ e. e ≡ says (program_of p.now).fields names.now before line.now) }
    ensures placed { IfOk result (IsPlaced (length names.now)) }
{
    if before == 0 && is_finished(line) {
        return Ok(Entry::Nothing);
    }
    said(alloc, p, names, line)
}
