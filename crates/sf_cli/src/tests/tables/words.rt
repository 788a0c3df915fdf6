//! Words of the command line.

use super::super::files::set;
use super::super::{are_no_commands, says, shelf_with};
use std::test::Fail;

/// Words that are no command.
const NO_COMMANDS: [&[&str]; 28] = [
    &[],
    &["verify"],
    &["verify", "a", "b"],
    &["verify", ""],
    &["verify", "-"],
    &["verify", "--help"],
    &["--help"],
    &["Verify", "set.sf"],
    &["recheck", "a"],
    &["recheck", "a", "-b"],
    &["recheck", "a", "b", "c"],
    &["recheck", "a", "b", "--workers", "1"],
    &["verify", "set.sf", "--workers", "0"],
    &["verify", "set.sf", "--workers", "+2"],
    &["verify", "set.sf", "--workers", "1", "--workers", "1"],
    &["verify", "set.sf", "--workers"],
    &["verify", "--", "--workers", "1"],
    &["demo", "0"],
    &["demo", "1001"],
    &["order"],
    &["order", "a", "b"],
    &["order", "set.sf", "--workers", "1"],
    &["order", "-"],
    &["replay", "a", "b", "c"],
    &["replay", "a", "b", "c", "d", "e"],
    &["journal", "a", "b"],
    &["journal", "a", "b", "c", "d"],
    &["journal", "a", "b", "c", "--workers", "1"],
];

#[test]
fn words_that_are_no_command_are_answered_with_the_usage(rt: HostRuntime) -> Result<(), Fail> {
    are_no_commands(&rt, &NO_COMMANDS)
}

/// Words that have the file set.sf proved.
const FORMS: [&[&str]; 5] = [
    &["verify", "set.sf"],
    &["verify", "set.sf", "--workers", "4"],
    &["verify", "--workers=64", "set.sf"],
    &["verify", "--", "set.sf"],
    &["verify", "--workers", "01", "--", "set.sf"],
];

#[test]
fn words_stand_in_any_order_that_the_usage_allows(rt: HostRuntime) -> Result<(), Fail> {
    let alloc = rt.alloc();
    let mut shelf = shelf_with(alloc, "")?;
    for words in FORMS {
        says(&rt, words, &mut shelf, (set::PROOF, 0))?;
    }
    Ok(())
}
