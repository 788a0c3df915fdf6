//! Terms, values, names and lines as texts of their own.

use sf_base::{Name, Place, ProcId, Var};
use sf_core::Program;
use sf_lines::next_line;
use sf_page::Span;
use sf_proof::put_term;
use sf_report::put_variable;
use sf_state::put_value;
use sf_sym::Term;
use std::alloc::{AllocError, Global};

/// How many lines of a text are taken at most.
const LINES: usize = 1_048_577;

/// A text's bytes. An `Err` says that memory ran out.
pub fn text_of(alloc: Global, text: &str) -> Result<Vec<u8>, AllocError> {
    Vec::from_slice(alloc, text.as_bytes())
}

/// A term. An `Err` says that memory ran out.
pub(crate) fn term_text(alloc: Global, t: Term) -> Result<Vec<u8>, AllocError> {
    let mut text = Vec::new(alloc);
    put_term(&mut text, t)?;
    Ok(text)
}

/// A value. An `Err` says that memory ran out.
pub(crate) fn value_text(alloc: Global, value: sf_base::Value) -> Result<Vec<u8>, AllocError> {
    let mut text = Vec::new(alloc);
    put_value(&mut text, value)?;
    Ok(text)
}

/// A variable, as the procedure names it. An `Err` says that memory ran out.
pub(crate) fn variable_text(
    alloc: Global,
    p: &Program,
    f: ProcId,
    x: Var,
) -> Result<Vec<u8>, AllocError> {
    let mut text = Vec::new(alloc);
    put_variable(&mut text, p, f, x)?;
    Ok(text)
}

/// The name of that number; empty where there is none. An `Err` says that memory ran out.
pub(crate) fn name_text(alloc: Global, names: &[Name], number: u32) -> Result<Vec<u8>, AllocError> {
    match names.get(number as usize) {
        Some(name) => Vec::from_slice(alloc, name.as_bytes()),
        None => Ok(Vec::new(alloc)),
    }
}

/// The lines of a text, without their ends. An `Err` says that memory ran out.
pub fn lines_of(alloc: Global, text: &[u8]) -> Result<Vec<Vec<u8>>, AllocError> {
    let mut found = Vec::new(alloc);
    let mut left = text;
    for _ in 0..LINES {
        let (line, more) = next_line(left);
        match more {
            Some(rest) => {
                found.push(Vec::from_slice(alloc, line)?)?;
                left = rest;
            }
            None => {
                if !line.is_empty() {
                    found.push(Vec::from_slice(alloc, line)?)?;
                }
                break;
            }
        }
    }
    Ok(found)
}

/// A place of which no end is known.
pub fn spot(place: Place) -> Span {
    Span {
        line: place.line,
        column: place.column,
        end_line: place.line,
        end_column: place.column,
    }
}
