//! The programs that run.

use sf_core::Program;
use sf_elab::elaborate;
use sf_lex::tokens;
use sf_parse::parse;
use std::alloc::Global;

/// The text of the program of a case: what it does again and again.
fn text_of(case: &str) -> &'static str {
    match case {
        "cells" => {
            "run() { local x, y; while (true) [] { x = new(); x->tl = y; y = x->tl; dispose(x); } }"
        }
        "list" => "run() { local x, y; while (true) [] { x = new(); x->tl = y; y = x; } }",
        "calls" => {
            "keep(x; y) { local z; z = y; x = z; }
            run() { local x; while (true) [] { keep(x; 1); } }"
        }
        "nested" => "down() { down(); } run() { down(); }",
        "forks" => {
            "leaf() { local x; x = 1; x = 2; }
            run() { while (true) [] { leaf() || leaf(); } }"
        }
        _ => "run() { local x, y; while (true) [] { x = y; y = 1; x = nil; y = x; } }",
    }
}

/// The program of a case, or `None` where memory runs out.
pub fn program_of_case(alloc: Global, case: &str) -> Option<Program> {
    let text = text_of(case).as_bytes();
    let tokens = tokens(alloc, text).ok()?;
    let file = parse(alloc, &tokens).ok()?;
    elaborate(alloc, text, file).ok()
}
