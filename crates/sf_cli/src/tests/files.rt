//! The files that commands work on. A test can't read files, so each is a text in a module of its
//! own, with its proof, or why it has none.

use super::compared::reverse;

pub mod buffer;
pub mod chain;
pub mod copy;
pub mod doubles;
pub mod forking;
pub mod free;
pub mod fresh;
pub mod late;
pub mod leak;
pub mod link_first;
pub mod mi;
pub mod mm;
pub mod set;
pub mod stay;
pub mod tree;
pub mod two;
pub mod vacuous;

/// What is on the shelf: names, and the parts of the texts.
pub const FILES: [(&str, &[&str]); 23] = [
    ("set.sf", &[set::FILE]),
    ("tree.sf", &[tree::FILE]),
    ("leak.sf", &[leak::FILE]),
    ("mm.sf", &[mm::FILE]),
    ("mi.sf", &[mm::FILE, mi::INIT]),
    ("mi3.sf", &[mm::FILE, mi::WRONG_INIT]),
    ("fork.sf", &[forking::FILE]),
    ("buf.sf", &[buffer::PUT, buffer::GET]),
    ("pair.sf", &[buffer::PUT, buffer::GET, buffer::PAIR]),
    ("copy.sf", &[copy::FILE]),
    ("late.sf", &[buffer::PUT, late::DISPOSAL, buffer::GET]),
    ("rev.sf", &[reverse::TEXT]),
    ("cat.sf", &[chain::FILE]),
    ("k.sf", &[link_first::FILE]),
    ("stay.sf", &[stay::FILE]),
    ("two.sf", &[two::FILE]),
    ("vac.sf", &[vacuous::FILE]),
    ("free.sf", &[free::FILE]),
    ("calls.sf", &[fresh::FILE]),
    ("last.sf", &[doubles::LAST]),
    ("ends.sf", &[doubles::ENDS]),
    ("jobs.sf", &[doubles::SHARED]),
    ("bad.sf", &["f() { @ }"]),
];
