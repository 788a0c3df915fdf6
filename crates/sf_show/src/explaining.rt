//! What is said to `explain` and to `goals`, in the order of its work: the program, the text of a
//! proof, and what comes of them.

use crate::failing::say_verdict;
use crate::goals::{say_goals, say_goals_of};
use crate::proving::say_proof;
use crate::reading::admit;
use crate::refused::say_refused;
use crate::reply::{Said, Unsaid, fetch_up_to};
use sf_base::limits::{FILE_BYTES, PROOF_BYTES};
use sf_io::Shelf;
use sf_precise::Arranged;
use sf_tour::Source;
use std::alloc::Global;

/// What is shown of a program and its proof.
#[derive(Clone, Copy, Debug, PartialEq, Eq)]
pub enum View {
    /// What is wrong.
    Faults,
    /// The goals after the tags.
    Goals,
}

/// What is said of the text of a proof that the file of that name has.
fn say_given<S: Shelf>(
    alloc: Global,
    arranged: &Arranged,
    proof: &str,
    view: View,
    shelf: &mut S,
) -> Result<Said, Unsaid> {
    let text = fetch_up_to(alloc, proof, PROOF_BYTES, shelf)?;
    let said = match view {
        View::Faults => say_proof(alloc, arranged, proof, text.as_slice())?,
        View::Goals => say_goals_of(alloc, arranged, proof, text.as_slice())?,
    };
    Ok(said)
}

/// What is said of a program with which nothing is wrong.
fn say_program(
    alloc: Global,
    source: Source<'_>,
    arranged: &Arranged,
    view: View,
) -> Result<Said, Unsaid> {
    let said = match view {
        View::Faults => say_verdict(alloc, source, arranged)?,
        View::Goals => say_goals(alloc, arranged)?,
    };
    Ok(said)
}

/// What is said to `explain`, or to `goals`, of the file of that name, and of the proof of the other
/// one, if one is named.
pub fn explain<S: Shelf>(
    alloc: Global,
    file: &str,
    proof: Option<&str>,
    view: View,
    shelf: &mut S,
) -> Result<Said, Unsaid> {
    let bytes = fetch_up_to(alloc, file, FILE_BYTES, shelf)?;
    let source = Source {
        file,
        bytes: bytes.as_slice(),
    };
    match admit(alloc, source.bytes) {
        Ok(arranged) => match proof {
            Some(proof) => say_given(alloc, &arranged, proof, view, shelf),
            None => say_program(alloc, source, &arranged, view),
        },
        Err(refusal) => Ok(say_refused(alloc, file, source.bytes, &refusal)?),
    }
}
