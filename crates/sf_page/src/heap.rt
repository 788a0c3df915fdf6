//! A heap as a drawing: cells as boxes with the fields that are known, arrows along the fields,
//! what stands for more cells dashed.

use crate::curves::{Curve, way};
use crate::html::Html;
use crate::markup::{Attribute, Class, Element};
use crate::model::{Part, Scene, Value};
use crate::parts::{CUT, address, ends_at, is_cell, is_nil, kind, line_at, line_count};
use crate::spots::{BAR, LINE, Spot, places};
use itoa::Buffer;
use std::alloc::{AllocError, Global};

/// How many parts of a heap are drawn.
const DRAWN: usize = 60;
/// The number that stands for no owner.
const NOBODY: u32 = 99;

/// The number of an owner.
pub fn owner_number(owner: Option<u8>) -> u32 {
    match owner {
        Some(n) => u32::from(n),
        None => NOBODY,
    }
}

/// The parts that are drawn.
fn drawn(parts: &[Part]) -> &[Part] {
    parts.get(..DRAWN).unwrap_or(parts)
}

/// Appends the drawing of a heap. An `Err` means out of memory.
pub fn put_heap(out: &mut Html, alloc: Global, scene: &Scene) -> Result<(), AllocError> {
    let parts = drawn(&scene.heap);
    let placed = places(alloc, scene, parts)?;
    out.open(
        Element::Svg,
        Class::Heap,
        &[
            Attribute::Width.with(placed.width),
            Attribute::Height.with(placed.height),
            Attribute::Frame.with(placed.width),
            Attribute::Last.with(placed.height),
        ],
    )?;
    put_figures(out, scene, parts, &placed.spots)?;
    put_arrows(out, parts, &placed.spots)?;
    out.close(Element::Svg)?;
    put_rest(out, scene.heap.len().saturating_sub(DRAWN))
}

/// Appends how many parts aren't drawn. An `Err` means out of memory.
fn put_rest(out: &mut Html, more: usize) -> Result<(), AllocError> {
    if more == 0 {
        return Ok(());
    }
    out.open(Element::P, Class::Note, &[])?;
    out.show(Buffer::new().format(more).as_bytes())?;
    out.show(b" more parts are not drawn")?;
    out.close(Element::P)
}

/// Appends the boxes of parts. An `Err` means out of memory.
fn put_figures(
    out: &mut Html,
    scene: &Scene,
    parts: &[Part],
    spots: &[Spot],
) -> Result<(), AllocError> {
    for (k, part) in parts.iter().enumerate() {
        if let Some(spot) = spots.get(k) {
            put_figure(out, scene, part, *spot)?;
        }
    }
    Ok(())
}

/// Appends the box of a part. An `Err` means out of memory.
fn put_figure(out: &mut Html, scene: &Scene, part: &Part, spot: Spot) -> Result<(), AllocError> {
    out.open(
        Element::G,
        Class::Figure,
        &[
            Attribute::Whose.with(owner_number(part.owner)),
            Attribute::Gone.with(u32::from(part.gone)),
        ],
    )?;
    put_pointers(out, scene, address(part), spot)?;
    put_box(out, part, spot)?;
    put_head(out, part, spot)?;
    put_lines(out, part, spot)?;
    out.close(Element::G)
}

/// Appends a rectangle. An `Err` means out of memory.
fn put_rectangle(out: &mut Html, class: Class, spot: Spot, height: u32) -> Result<(), AllocError> {
    out.open(
        Element::Rect,
        class,
        &[
            Attribute::X.with(spot.x),
            Attribute::Y.with(spot.y),
            Attribute::Width.with(spot.width),
            Attribute::Height.with(height),
        ],
    )?;
    out.close(Element::Rect)
}

/// Appends the empty box of a part. An `Err` means out of memory.
fn put_box(out: &mut Html, part: &Part, spot: Spot) -> Result<(), AllocError> {
    let class = if is_cell(part) {
        Class::Cell
    } else {
        Class::Dashed
    };
    put_rectangle(out, class, spot, spot.height)?;
    put_rectangle(out, Class::Bar, spot, BAR)
}

/// Appends a text that is drawn, as much of it as is drawn. An `Err` means out of memory.
fn put_cut(out: &mut Html, text: &[u8]) -> Result<(), AllocError> {
    if text.len() > CUT {
        out.show(&text[..CUT - 2])?;
        return out.show(b"..");
    }
    out.show(text)
}

/// Appends a text at a place of a drawing. An `Err` means out of memory.
fn put_label(out: &mut Html, class: Class, x: u32, y: u32, text: &[u8]) -> Result<(), AllocError> {
    out.open(
        Element::Label,
        class,
        &[Attribute::X.with(x), Attribute::Y.with(y)],
    )?;
    put_cut(out, text)?;
    out.close(Element::Label)
}

/// Where texts at the right side of a box end.
fn right_side(spot: Spot) -> u32 {
    spot.x.saturating_add(spot.width).saturating_sub(7)
}

/// Appends the head of a box. An `Err` means out of memory.
fn put_head(out: &mut Html, part: &Part, spot: Spot) -> Result<(), AllocError> {
    let y = spot.y.saturating_add(15);
    put_label(out, Class::At, spot.x.saturating_add(7), y, address(part))?;
    out.open(
        Element::Label,
        Class::Kind,
        &[Attribute::X.with(right_side(spot)), Attribute::Y.with(y)],
    )?;
    put_cut(out, &part.label)?;
    out.show(kind(part))?;
    out.close(Element::Label)
}

/// The height at which the text of a line stands.
fn line_height(spot: Spot, k: usize) -> u32 {
    let before = if k > 64 { 64 } else { k as u32 };
    LINE.saturating_mul(before)
        .saturating_add(spot.y)
        .saturating_add(BAR + 15)
}

/// Appends the lines of a box. An `Err` means out of memory.
fn put_lines(out: &mut Html, part: &Part, spot: Spot) -> Result<(), AllocError> {
    for k in 0..line_count(part) {
        if let Some(line) = line_at(part, k) {
            let y = line_height(spot, k);
            put_label(out, Class::Field, spot.x.saturating_add(7), y, line.name)?;
            put_label(out, Class::Content, right_side(spot), y, line.term)?;
        }
    }
    Ok(())
}

/// Appends the names of the variables with a term. An `Err` means out of memory.
fn put_names(out: &mut Html, values: &[Value], term: &[u8]) -> Result<(), AllocError> {
    for value in values {
        if value.term.as_slice() == term {
            put_cut(out, &value.name)?;
            out.show(b"  ")?;
        }
    }
    Ok(())
}

/// Appends the names of the variables that point at a part, above it. An `Err` means out of memory.
fn put_pointers(out: &mut Html, scene: &Scene, term: &[u8], spot: Spot) -> Result<(), AllocError> {
    if is_nil(term) {
        return Ok(());
    }
    out.open(
        Element::Label,
        Class::Pointers,
        &[
            Attribute::X.with(spot.x.saturating_add(3)),
            Attribute::Y.with(spot.y.saturating_sub(6)),
        ],
    )?;
    put_names(out, &scene.variables, term)?;
    for task in &scene.tasks {
        put_names(out, &task.variables, term)?;
    }
    out.close(Element::Label)
}

/// The place of the part at an address that isn't nil: one that was handed over only where there is
/// no other.
fn target(parts: &[Part], spots: &[Spot], term: &[u8]) -> Option<Spot> {
    let mut found = None;
    if is_nil(term) {
        return found;
    }
    for (k, part) in parts.iter().enumerate() {
        if address(part) == term
            && let Some(spot) = spots.get(k)
        {
            if !part.gone {
                return Some(*spot);
            }
            found = Some(*spot);
        }
    }
    found
}

/// The place of another part than that one that is a segment whose last cell is at an address.
fn last_target(parts: &[Part], spots: &[Spot], k: usize, term: &[u8]) -> Option<Spot> {
    for (j, part) in parts.iter().enumerate() {
        if j != k && ends_at(part, term) {
            return copied(spots, j);
        }
    }
    None
}

/// The place of that number.
fn copied(spots: &[Spot], k: usize) -> Option<Spot> {
    match spots.get(k) {
        Some(spot) => Some(*spot),
        None => None,
    }
}

/// Whether no box of its row is behind a place.
fn is_last(spots: &[Spot], of: Spot) -> bool {
    for spot in spots {
        if spot.y == of.y && spot.x > of.x {
            return false;
        }
    }
    true
}

/// Appends all arrows. An `Err` means out of memory.
fn put_arrows(out: &mut Html, parts: &[Part], spots: &[Spot]) -> Result<(), AllocError> {
    for (k, part) in parts.iter().enumerate() {
        if let Some(spot) = spots.get(k) {
            put_arrows_of(out, parts, spots, k, part, *spot)?;
        }
    }
    Ok(())
}

/// Where an arrow from a line of that part ends, if it has one: at what begins there, else at a
/// segment whose last cell is there.
fn end_of(parts: &[Part], spots: &[Spot], k: usize, term: &[u8]) -> Option<Spot> {
    match target(parts, spots, term) {
        Some(spot) => Some(spot),
        None => last_target(parts, spots, k, term),
    }
}

/// Appends the arrows from that part. An `Err` means out of memory.
fn put_arrows_of(
    out: &mut Html,
    parts: &[Part],
    spots: &[Spot],
    k: usize,
    part: &Part,
    from: Spot,
) -> Result<(), AllocError> {
    for n in 0..line_count(part) {
        if let Some(line) = line_at(part, n)
            && let Some(to) = end_of(parts, spots, k, line.term)
        {
            let class = if line.loose {
                Class::Loose
            } else {
                Class::Arrow
            };
            let y = line_height(from, n).saturating_sub(4);
            let curve = way(from, y, to, is_last(spots, to));
            put_arrow(out, class, curve, u32::from(part.gone))?;
        }
    }
    Ok(())
}

/// Appends an arrow. An `Err` means out of memory.
fn put_arrow(out: &mut Html, class: Class, curve: Curve, gone: u32) -> Result<(), AllocError> {
    out.open(
        Element::Path,
        class,
        &[
            Attribute::MoveX.with(curve.x0),
            Attribute::MoveY.with(curve.y0),
            Attribute::Bend.with(curve.x1),
            Attribute::Bend.with(curve.y1),
            Attribute::Bend.with(curve.x2),
            Attribute::Bend.with(curve.y2),
            Attribute::Bend.with(curve.x3),
            Attribute::Last.with(curve.y3),
            Attribute::Gone.with(gone),
        ],
    )?;
    out.close(Element::Path)
}
