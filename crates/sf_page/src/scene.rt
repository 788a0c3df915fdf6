//! What is shown of a step: variables, what differs, the heap, what is wanted next.

use crate::heap::{owner_number, put_heap};
use crate::html::Html;
use crate::markup::{Attribute, Class, Element};
use crate::model::{Scene, Span, Task, Value};
use std::alloc::{AllocError, Global};

/// Appends an element with a text. An `Err` means out of memory.
pub fn put_text(
    out: &mut Html,
    element: Element,
    class: Class,
    text: &[u8],
) -> Result<(), AllocError> {
    out.open(element, class, &[])?;
    out.show(text)?;
    out.close(element)
}

/// Begins a group with a heading. An `Err` means out of memory.
pub fn begin_group(out: &mut Html, caption: &str) -> Result<(), AllocError> {
    out.open(Element::Div, Class::Group, &[])?;
    put_text(out, Element::H3, Class::Caption, caption.as_bytes())
}

/// Appends a group of lines, where there are any. An `Err` means out of memory.
pub fn put_lines(
    out: &mut Html,
    class: Class,
    caption: &str,
    lines: &[Vec<u8>],
) -> Result<(), AllocError> {
    if lines.is_empty() {
        return Ok(());
    }
    begin_group(out, caption)?;
    put_items(out, class, lines)?;
    out.close(Element::Div)
}

/// How many bytes of a text come before its first backtick; all where it has none.
fn before_tick(text: &[u8]) -> usize {
    let mut count: usize = 0;
    for byte in text {
        if *byte == b'`' {
            break;
        }
        count = count.saturating_add(1);
    }
    count
}

/// Appends a piece of a text, as one of a program or not. An `Err` means out of memory.
fn put_piece(out: &mut Html, text: &[u8], is_code: bool) -> Result<(), AllocError> {
    if is_code {
        return put_text(out, Element::Code, Class::Name, text);
    }
    out.show(text)
}

/// Appends a text in which pieces of a program stand between backticks. An `Err` means out of memory.
fn put_prose(out: &mut Html, text: &[u8]) -> Result<(), AllocError> {
    let mut left = text;
    let mut is_code = false;
    for _ in 0..text.len() {
        let count = before_tick(left);
        if count >= left.len() {
            break;
        }
        put_piece(out, &left[..count], is_code)?;
        left = left.get(count.saturating_add(1)..).unwrap_or(&[]);
        is_code = !is_code;
    }
    put_piece(out, left, is_code)
}

/// Appends lines as items of a list, where there are any. An `Err` means out of memory.
pub fn put_items(out: &mut Html, class: Class, lines: &[Vec<u8>]) -> Result<(), AllocError> {
    if lines.is_empty() {
        return Ok(());
    }
    out.open(Element::Ol, class, &[])?;
    for line in lines {
        out.open(Element::Li, Class::Words, &[])?;
        put_prose(out, line)?;
        out.close(Element::Li)?;
    }
    out.close(Element::Ol)
}

/// Appends a name with its term. An `Err` means out of memory.
fn put_value(out: &mut Html, value: &Value) -> Result<(), AllocError> {
    out.open(Element::Span, Class::Value, &[])?;
    put_text(out, Element::Span, Class::Name, &value.name)?;
    out.show(b" = ")?;
    put_text(out, Element::Span, Class::Term, &value.term)?;
    out.close(Element::Span)?;
    out.show(b" ")
}

/// Appends names with their terms. An `Err` means out of memory.
fn put_values(out: &mut Html, values: &[Value]) -> Result<(), AllocError> {
    out.open(Element::Div, Class::Values, &[])?;
    for value in values {
        put_value(out, value)?;
    }
    out.close(Element::Div)
}

/// Appends the variables, where there are any. An `Err` means out of memory.
fn put_variables(out: &mut Html, values: &[Value]) -> Result<(), AllocError> {
    if values.is_empty() {
        return Ok(());
    }
    begin_group(out, "variables")?;
    put_values(out, values)?;
    out.close(Element::Div)
}

/// Appends what differs, where something does. An `Err` means out of memory.
fn put_differ(out: &mut Html, pairs: &[Vec<u8>]) -> Result<(), AllocError> {
    if pairs.is_empty() {
        return Ok(());
    }
    begin_group(out, "known to differ")?;
    out.open(Element::Div, Class::Values, &[])?;
    for pair in pairs {
        put_text(out, Element::Span, Class::Value, pair)?;
        out.show(b" ")?;
    }
    out.close(Element::Div)?;
    out.close(Element::Div)
}

/// Opens an element that leads to a place of the source. An `Err` means out of memory.
fn open_at(out: &mut Html, class: Class, owner: u32, span: Span) -> Result<(), AllocError> {
    out.open(
        Element::Div,
        class,
        &[
            Attribute::Whose.with(owner),
            Attribute::FromLine.with(span.line),
            Attribute::FromColumn.with(span.column),
            Attribute::ToEndLine.with(span.end_line),
            Attribute::ToEndColumn.with(span.end_column),
        ],
    )
}

/// Appends a task. An `Err` means out of memory.
fn put_task(out: &mut Html, task: &Task) -> Result<(), AllocError> {
    open_at(out, Class::Task, owner_number(task.owner), task.span)?;
    out.open(Element::H3, Class::Caption, &[])?;
    out.show(b"task ")?;
    out.show(&task.path)?;
    out.close(Element::H3)?;
    put_text(out, Element::Code, Class::Doing, &task.doing)?;
    put_values(out, &task.variables)?;
    out.close(Element::Div)
}

/// Appends the tasks, beside each other. An `Err` means out of memory.
fn put_tasks(out: &mut Html, tasks: &[Task]) -> Result<(), AllocError> {
    if tasks.is_empty() {
        return Ok(());
    }
    out.open(Element::Div, Class::Tasks, &[])?;
    for task in tasks {
        put_task(out, task)?;
    }
    out.close(Element::Div)
}

/// Appends the drawn heap, or that it is empty. An `Err` means out of memory.
fn put_drawn(out: &mut Html, alloc: Global, scene: &Scene) -> Result<(), AllocError> {
    begin_group(out, "heap")?;
    if scene.heap.is_empty() {
        put_text(out, Element::P, Class::Note, b"empty")?;
    } else {
        put_heap(out, alloc, scene)?;
    }
    out.close(Element::Div)
}

/// Appends what is there at a step. An `Err` means out of memory.
fn put_there(out: &mut Html, alloc: Global, scene: &Scene) -> Result<(), AllocError> {
    put_tasks(out, &scene.tasks)?;
    put_variables(out, &scene.variables)?;
    put_differ(out, &scene.differ)?;
    put_drawn(out, alloc, scene)
}

/// Appends what is shown of a step but for what is wanted next. An `Err` means out of memory.
pub fn put_known(out: &mut Html, alloc: Global, scene: &Scene) -> Result<(), AllocError> {
    out.open(Element::Div, Class::Scene, &[])?;
    put_there(out, alloc, scene)?;
    out.close(Element::Div)
}

/// Appends what is shown of a step. An `Err` means out of memory.
pub fn put_scene(out: &mut Html, alloc: Global, scene: &Scene) -> Result<(), AllocError> {
    out.open(Element::Div, Class::Scene, &[])?;
    put_there(out, alloc, scene)?;
    put_lines(out, Class::Wanted, "wanted next", &scene.wanted)?;
    out.close(Element::Div)
}
