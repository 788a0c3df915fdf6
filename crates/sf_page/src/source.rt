//! The source of a page, line by line.

use crate::html::Html;
use crate::markup::{Attribute, Class, Element};
use crate::model::Mark;
use crate::scene::put_text;
use itoa::Buffer;
use std::alloc::AllocError;

/// Appends a heading. An `Err` means out of memory.
fn put_heading(out: &mut Html, text: &str) -> Result<(), AllocError> {
    put_text(out, Element::H2, Class::Caption, text.as_bytes())
}

/// Whether a mark begins in that line.
fn is_marked(marks: &[Mark], number: u32) -> bool {
    for mark in marks {
        if mark.span.line == number {
            return true;
        }
    }
    false
}

/// Appends what is said of that line, below it. An `Err` means out of memory.
fn put_said(out: &mut Html, marks: &[Mark], number: u32) -> Result<(), AllocError> {
    for mark in marks {
        if mark.span.line == number {
            let column = mark.span.column.saturating_sub(1);
            out.open(Element::P, Class::Said, &[Attribute::Depth.with(column)])?;
            out.show(&mark.said)?;
            out.close(Element::P)?;
        }
    }
    Ok(())
}

/// Appends a line. An `Err` means out of memory.
fn put_line(out: &mut Html, number: u32, text: &[u8], marked: bool) -> Result<(), AllocError> {
    let class = if marked { Class::Marked } else { Class::Line };
    out.open(Element::Div, class, &[Attribute::IdLine.with(number)])?;
    out.open(Element::A, Class::Row, &[Attribute::ToLine.with(number)])?;
    out.show(Buffer::new().format(number).as_bytes())?;
    out.close(Element::A)?;
    put_text(out, Element::Code, Class::Words, text)?;
    out.close(Element::Div)
}

/// Appends the source. An `Err` means out of memory.
pub fn put_source(out: &mut Html, lines: &[Vec<u8>], marks: &[Mark]) -> Result<(), AllocError> {
    out.open(Element::Section, Class::Source, &[])?;
    put_heading(out, "source")?;
    let mut number: u32 = 0;
    for line in lines {
        number = number.saturating_add(1);
        put_line(out, number, line, is_marked(marks, number))?;
        put_said(out, marks, number)?;
    }
    out.close(Element::Section)
}
