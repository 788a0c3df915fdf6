//! Files and the answers to them, worked out by hand, by subject.

mod answers;
mod in_order;
mod language;
mod limits;
mod refused;
mod words;

use super::examples::EXAMPLES;
use super::{Host, are_answered, is_answered};
use answers::ANSWERS;
use in_order::IN_ORDER;
pub use language::STACK;
use language::{CHANGED, LANGUAGE};
use std::test::Fail;

/// Each of the files in which that line is replaced by the next has the answer beside it.
fn are_answered_otherwise(rt: &impl Host, cases: &[(&str, &str, &str, &str)]) -> Result<(), Fail> {
    for (text, line, other, answer) in cases {
        let changed = text.replace(rt.alloc(), line, other)?;
        is_answered(rt, changed.as_bytes(), answer)?;
    }
    Ok(())
}

#[test]
fn files_have_their_answers(rt: HostRuntime) -> Result<(), Fail> {
    let tables: [&[(&str, &str)]; 4] = [&ANSWERS, &IN_ORDER, &LANGUAGE, &EXAMPLES];
    for table in tables {
        are_answered(&rt, table)?;
    }
    are_answered_otherwise(&rt, &CHANGED)
}
