//! Files with the answers that another implementation of the same rules gives to them. Each is in a
//! module of its own.

mod append;
mod beside;
mod both;
mod both_ways;
mod buffer;
mod copy;
mod disposal;
mod ends;
mod filter;
mod forgotten;
mod gone;
mod grab;
mod last;
mod one_way;
mod queue;
pub mod reverse;
mod ring;
mod scopes;
mod swap;
mod tied;
mod twice;
mod walk;

use super::are_answered;
use std::test::Fail;

/// Files that it proves.
pub const PROVED: [(&str, &str); 12] = [
    buffer::FILE,
    ring::FILE,
    scopes::FILE,
    append::FILE,
    reverse::FILE,
    swap::FILE,
    beside::FILE,
    queue::FILE,
    last::FILE,
    copy::FILE,
    both_ways::FILE,
    ends::FILE,
];

/// Files with a procedure that it has no proof of.
pub const FAILED: [(&str, &str); 10] = [
    tied::FILE,
    twice::FILE,
    filter::FILE,
    grab::FILE,
    disposal::FILE,
    forgotten::FILE,
    both::FILE,
    gone::FILE,
    walk::FILE,
    one_way::FILE,
];

#[test]
fn answers_are_those_of_another_implementation(rt: HostRuntime) -> Result<(), Fail> {
    are_answered(&rt, &PROVED)?;
    are_answered(&rt, &FAILED)
}
