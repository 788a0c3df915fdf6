//! How an arrow goes from a line of a box to another box.

use crate::spots::{BAR, GAP, Spot};

/// A curve: where it begins, the two points that it bends to, where it ends.
#[derive(Clone, Copy)]
pub struct Curve {
    /// Where it begins, from the left.
    pub x0: u32,
    /// Where it begins, from the top.
    pub y0: u32,
    /// The first point that it bends to, from the left.
    pub x1: u32,
    /// The first point that it bends to, from the top.
    pub y1: u32,
    /// The second point, from the left.
    pub x2: u32,
    /// The second point, from the top.
    pub y2: u32,
    /// Where it ends, from the left.
    pub x3: u32,
    /// Where it ends, from the top.
    pub y3: u32,
}

/// How far a curve bends out of a box.
const BEND: u32 = 26;
/// How far a curve that passes under other boxes goes below them.
const DEPTH: u32 = 34;

/// The right side of a box.
fn right_of(spot: Spot) -> u32 {
    spot.x.saturating_add(spot.width)
}

/// The height at which arrows end at a box.
fn middle_of(spot: Spot) -> u32 {
    spot.y.saturating_add(BAR / 2)
}

/// The curve from a line of a box, which is at that height, to a box, which may be the last of its
/// row.
pub fn way(from: Spot, y: u32, to: Spot, is_last: bool) -> Curve {
    if from.x == to.x && from.y == to.y {
        return back_to_itself(from, y);
    }
    if from.y != to.y {
        if is_last && right_of(to) <= right_of(from).saturating_add(GAP) {
            return around_the_right(from, y, to);
        }
        return to_another_row(from, y, to);
    }
    if from.x < to.x {
        return to_the_right(from, y, to);
    }
    to_the_left(from, y, to)
}

/// From a line of a box to its own head.
fn back_to_itself(from: Spot, y: u32) -> Curve {
    let right = right_of(from);
    let out = right.saturating_add(BEND);
    Curve {
        x0: right,
        y0: y,
        x1: out,
        y1: y,
        x2: out,
        y2: middle_of(from),
        x3: right,
        y3: middle_of(from),
    }
}

/// To the right side of a box of another row, which has none behind it.
fn around_the_right(from: Spot, y: u32, to: Spot) -> Curve {
    let right = right_of(from);
    let end = right_of(to);
    Curve {
        x0: right,
        y0: y,
        x1: right.saturating_add(BEND),
        y1: y,
        x2: end.max(right).saturating_add(BEND),
        y2: middle_of(to),
        x3: end,
        y3: middle_of(to),
    }
}

/// To a box of another row: around the box where it begins.
fn to_another_row(from: Spot, y: u32, to: Spot) -> Curve {
    let right = right_of(from);
    let is_below = from.y < to.y;
    let end = middle_of(to);
    Curve {
        x0: right,
        y0: y,
        x1: right.saturating_add(BEND * 2),
        y1: if is_below {
            from.floor.saturating_add(DEPTH)
        } else {
            from.y.saturating_sub(DEPTH)
        },
        x2: to.x.saturating_sub(BEND * 2),
        y2: if is_below {
            end.saturating_sub(BEND)
        } else {
            end.saturating_add(BEND)
        },
        x3: to.x,
        y3: end,
    }
}

/// To a box of the same row, to the right: under those that are between.
fn to_the_right(from: Spot, y: u32, to: Spot) -> Curve {
    let right = right_of(from);
    let is_next = to.x <= right.saturating_add(GAP);
    Curve {
        x0: right,
        y0: y,
        x1: right.saturating_add(BEND),
        y1: if is_next {
            y
        } else {
            from.floor.saturating_add(DEPTH)
        },
        x2: to.x.saturating_sub(BEND),
        y2: if is_next {
            middle_of(to)
        } else {
            from.floor.saturating_add(DEPTH)
        },
        x3: to.x,
        y3: middle_of(to),
    }
}

/// To a box of the same row, to the left: under those that are between.
fn to_the_left(from: Spot, y: u32, to: Spot) -> Curve {
    let right = right_of(to);
    let is_next = from.x <= right.saturating_add(GAP);
    Curve {
        x0: from.x,
        y0: y,
        x1: from.x.saturating_sub(BEND),
        y1: if is_next {
            y
        } else {
            from.floor.saturating_add(DEPTH)
        },
        x2: right.saturating_add(BEND),
        y2: if is_next {
            middle_of(to)
        } else {
            from.floor.saturating_add(DEPTH)
        },
        x3: right,
        y3: middle_of(to),
    }
}
