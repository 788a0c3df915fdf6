//! Where the parts of a heap are drawn: those that lead to each other beside each other.

use crate::model::{Part, Scene, Value};
use crate::parts::{address, drawn_len, is_nil, kind, line_at, line_count, points_at};
use std::alloc::{AllocError, Global};

/// The free space at each side of a drawing.
const MARGIN: u32 = 30;
/// The free space between two boxes of a row.
pub const GAP: u32 = 46;
/// The free space between two rows.
const ROWS: u32 = 52;
/// How high the head of a box is.
pub const BAR: u32 = 22;
/// How high a line of a box is.
pub const LINE: u32 = 19;
/// From where on a row takes no further box.
const FULL: u32 = 430;

/// Where a part is drawn.
#[derive(Clone, Copy)]
pub struct Spot {
    /// The left side of its box.
    pub x: u32,
    /// The upper side.
    pub y: u32,
    /// How wide its box is.
    pub width: u32,
    /// How high its box is.
    pub height: u32,
    /// The lower side of its row.
    pub floor: u32,
    /// Whether it has a place.
    pub placed: bool,
}

/// Where the next box is drawn, and how far the drawing reaches.
#[derive(Clone, Copy)]
pub struct Pen {
    /// The left side of the next box.
    pub x: u32,
    /// The upper side.
    pub y: u32,
    /// The height of the highest box of the row.
    pub tallest: u32,
    /// How far the drawing reaches to the right.
    pub right: u32,
}

/// Parts with their places.
#[derive(Drop)]
pub struct Placed {
    /// The place of each part.
    pub spots: Vec<Spot>,
    /// How wide the drawing is.
    pub width: u32,
    /// How high it is.
    pub height: u32,
}

/// How wide so many letters are.
fn letters(count: u32) -> u32 {
    count.saturating_mul(15) / 2
}

/// How many letters the names of the variables with that term have.
fn names_len(values: &[Value], term: &[u8]) -> u32 {
    let mut length: u32 = 0;
    for value in values {
        if value.term.as_slice() == term {
            length = length
                .saturating_add(drawn_len(&value.name))
                .saturating_add(2);
        }
    }
    length
}

/// How many letters the names of all variables with that term have.
fn pointers_len(scene: &Scene, term: &[u8]) -> u32 {
    if is_nil(term) {
        return 0;
    }
    let mut length = names_len(&scene.variables, term);
    for task in &scene.tasks {
        length = length.saturating_add(names_len(&task.variables, term));
    }
    length
}

/// How wide the box of a part is.
fn width_of(scene: &Scene, part: &Part) -> u32 {
    let head = drawn_len(address(part))
        .saturating_add(drawn_len(&part.label))
        .saturating_add(drawn_len(kind(part)))
        .saturating_add(2);
    let mut widest = head.max(pointers_len(scene, address(part)));
    for k in 0..line_count(part) {
        if let Some(line) = line_at(part, k) {
            let length = drawn_len(line.name).saturating_add(drawn_len(line.term));
            widest = widest.max(length.saturating_add(2));
        }
    }
    letters(widest).saturating_add(18)
}

/// How high so many lines are.
fn lines_height(count: usize) -> u32 {
    if count > 64 {
        return LINE.saturating_mul(64);
    }
    LINE.saturating_mul(count as u32)
}

/// How high the box of a part is.
fn height_of(part: &Part) -> u32 {
    lines_height(line_count(part))
        .saturating_add(BAR)
        .saturating_add(5)
}

/// The places of parts. An `Err` means out of memory.
pub fn places(alloc: Global, scene: &Scene, parts: &[Part]) -> Result<Placed, AllocError> {
    let mut spots = Vec::new(alloc);
    for part in parts {
        spots.push(Spot {
            x: 0,
            y: 0,
            width: width_of(scene, part),
            height: height_of(part),
            floor: 0,
            placed: false,
        })?;
    }
    let pen = place_all(parts, &mut spots);
    Ok(Placed {
        spots,
        width: pen.right.saturating_sub(22),
        height: pen.y.saturating_sub(24),
    })
}

/// Places all parts: first the rows that begin where nothing leads to, then what is left.
fn place_all(parts: &[Part], spots: &mut [Spot]) -> Pen {
    let mut pen = Pen {
        x: MARGIN,
        y: MARGIN,
        tallest: 0,
        right: MARGIN,
    };
    for (k, part) in parts.iter().enumerate() {
        if !is_led_to(parts, k, address(part)) {
            place_row(parts, spots, k, &mut pen);
        }
    }
    for k in 0..parts.len() {
        place_row(parts, spots, k, &mut pen);
    }
    pen
}

/// Whether another part than that one leads to a term.
fn is_led_to(parts: &[Part], k: usize, term: &[u8]) -> bool {
    for (j, other) in parts.iter().enumerate() {
        if j != k && points_at(other, term) {
            return true;
        }
    }
    false
}

/// Whether that part has a place.
fn is_placed(spots: &[Spot], k: usize) -> bool {
    match spots.get(k) {
        Some(spot) => spot.placed,
        None => true,
    }
}

/// Places that part, where it has no place, and those that it leads to.
fn place_row(parts: &[Part], spots: &mut [Spot], first: usize, pen: &mut Pen) {
    if is_placed(spots, first) {
        return;
    }
    let mut at = first;
    for _ in 0..parts.len() {
        place_one(spots, at, pen);
        let Some(next) = next_of(parts, spots, at) else {
            break;
        };
        at = next;
    }
    end_row(spots, pen);
}

/// Places that part.
fn place_one(spots: &mut [Spot], k: usize, pen: &mut Pen) {
    if pen.x > FULL {
        end_row(spots, pen);
    }
    if k < spots.len() {
        let mut spot = spots[k];
        spot.x = pen.x;
        spot.y = pen.y;
        spot.placed = true;
        pen.x = pen.x.saturating_add(spot.width).saturating_add(GAP);
        pen.tallest = pen.tallest.max(spot.height);
        spots[k] = spot;
    }
}

/// The next part of the row of that part: the first without a place that its lines lead to, and one
/// that was handed over last.
fn next_of(parts: &[Part], spots: &[Spot], k: usize) -> Option<usize> {
    let part = parts.get(k)?;
    match led_to(parts, spots, part, false) {
        Some(next) => Some(next),
        None => led_to(parts, spots, part, true),
    }
}

/// The first part without a place, handed over or not, that the lines of a part lead to.
fn led_to(parts: &[Part], spots: &[Spot], part: &Part, gone: bool) -> Option<usize> {
    for n in 0..line_count(part) {
        if let Some(line) = line_at(part, n)
            && let Some(next) = unplaced_at(parts, spots, line.term, gone)
        {
            return Some(next);
        }
    }
    None
}

/// Whether a part that wasn't handed over is at that address.
fn is_there(parts: &[Part], term: &[u8]) -> bool {
    for part in parts {
        if !part.gone && address(part) == term {
            return true;
        }
    }
    false
}

/// The part without a place at that address, handed over or not; one that was handed over only where
/// there is no other.
fn unplaced_at(parts: &[Part], spots: &[Spot], term: &[u8], gone: bool) -> Option<usize> {
    if is_nil(term) || (gone && is_there(parts, term)) {
        return None;
    }
    for (j, part) in parts.iter().enumerate() {
        if part.gone == gone && address(part) == term && !is_placed(spots, j) {
            return Some(j);
        }
    }
    None
}

/// Ends a row: the next box begins a new one.
fn end_row(spots: &mut [Spot], pen: &mut Pen) {
    let floor = pen.y.saturating_add(pen.tallest);
    for spot in spots.iter_mut() {
        if spot.placed && spot.y == pen.y {
            spot.floor = floor;
        }
    }
    pen.right = pen.right.max(pen.x);
    pen.x = MARGIN;
    pen.y = floor.saturating_add(ROWS);
    pen.tallest = 0;
}
