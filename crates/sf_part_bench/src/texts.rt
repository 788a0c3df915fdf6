//! The programs that run, and their states.

ghost use Rattle.std.specs.Prelude.{ℕ, ◌<◌, ◌^◌};

use std::alloc::{AllocError, Global};

/// The file of a case of events: what its procedure does again and again.
pub fn file_of(case: &str) -> &'static [u8] {
    match case {
        "cells" => {
            b"run() { local x, y; while (true) [] { x = new(); x->tl = y; y = x->tl; dispose(x); } }"
        }
        "calls" => {
            b"keep(x; y) { local z; z = y; x = z; }
            run() { local x; while (true) [] { keep(x; 1); } }"
        }
        _ => b"run() { local x, y; while (true) [] { x = y; y = 1; x = nil; y = x; } }",
    }
}

/// A region is entered and left again and again, beside a list.
pub const VISITS: &[u8] = b"
    resource mm (f) [list(f)]
    run(i) [list(i)] { while (true) [list(i)] { with mm when (true) { } } } [list(i)]";

/// A list is lent to the one of two children again and again.
pub const FORKS: &[u8] = b"
    keep(i) [list(i)] { } [list(i)]
    idle() { }
    run(i) [list(i)] { while (true) [list(i)] { keep(i) || idle(); } } [list(i)]";

/// Appends the cells of a list at the locations from the first on.
fn put_list(alloc: Global, text: &mut Vec<u8>, first: u64, count: u32) -> Result<(), AllocError>
    requires { first < 2 ^ 33 }
{
    for number in 0..count {
        let at = first + number as u64;
        let line = if number + 1 < count {
            format!(in alloc; "@{at} tl=@{}\n", at + 1)?
        } else {
            format!(in alloc; "@{at}\n")?
        };
        text.extend_from_slice(line.as_bytes())?;
    }
    Ok(())
}

/// A list of so many cells.
pub fn list_state(alloc: Global, count: u32) -> Result<Vec<u8>, AllocError> {
    let mut text = Vec::from_slice(alloc, b"i = @1\n")?;
    put_list(alloc, &mut text, 1, count)?;
    Ok(text)
}

/// The same, and one of ten cells for the resource.
pub fn visits_state(alloc: Global, count: u32) -> Result<Vec<u8>, AllocError> {
    let mut text = list_state(alloc, count)?;
    let free = count as u64 + 1;
    let line = format!(in alloc; "mm.f = @{free}\n")?;
    text.extend_from_slice(line.as_bytes())?;
    put_list(alloc, &mut text, free, 10)?;
    Ok(text)
}
