//! Why a procedure and a text are no start, and the line that says so.

ghost use Rattle.std.specs.Prelude.{◌≡◌, ◌≢◌, ◌++◌, IfOk, OnOk, codes};
ghost use Rattle.sf_cli.specs.StartRefusals.{kind_text, number_and_word, rest_text, start_refusal_text};
ghost use Rattle.sf_state.specs.declared.fault.StartFault.TheVariants.{OutOfMemory};

use crate::writing::{put, put_number};
use sf_base::Name;
use sf_state::StartFault;
use std::alloc::{AllocError, Global};

/// The number and the word of a kind; none where memory ran out.
fn number_and_word(fault: &StartFault) -> (u64, &'static str)
    ensures number { result.0 ≡ (number_and_word fault.now).0 }
    ensures word { result.1.now ≡ (number_and_word fault.now).1 }
{
    match fault {
        StartFault::BadLine(_) => (70, "BadLine"),
        StartFault::Twice(_) => (71, "Twice"),
        StartFault::Missing(_) => (72, "Missing"),
        StartFault::Unknown(_) => (73, "Unknown"),
        StartFault::Unmet(_) => (74, "Unmet"),
        StartFault::LeftOver(_) => (75, "LeftOver"),
        StartFault::FreeEntry(_) => (76, "FreeEntry"),
        StartFault::TooLong => (77, "TooLong"),
        StartFault::OutOfMemory => (0, ""),
    }
}

/// Appends the line up to its word. An `Err` says that memory ran out.
fn put_kind(text: &mut Vec<u8>, fault: &StartFault) -> Result<(), AllocError>
    ensures { OnOk result (text.new.items ≡ text.old.items ++ kind_text fault.now) }
{
    let (number, word) = number_and_word(fault);
    put_number(text, "start refused: ", number)?;
    put(text, " ")?;
    put(text, word)
}

/// Appends a name behind a blank. An `Err` says that memory ran out.
fn put_name(text: &mut Vec<u8>, name: &Name) -> Result<(), AllocError>
    ensures { OnOk result (text.new.items ≡ text.old.items ++ (codes " " ++ name.now)) }
{
    put(text, " ")?;
    text.extend_from_slice(name.as_bytes())?;
    Ok(())
}

/// Appends what is said after the word. An `Err` says that memory ran out.
fn put_rest(text: &mut Vec<u8>, fault: &StartFault) -> Result<(), AllocError>
    ensures { OnOk result (text.new.items ≡ text.old.items ++ rest_text fault.now) }
{
    match fault {
        StartFault::BadLine(line) => put_number(text, " line ", u64::from(*line)),
        StartFault::LeftOver(location) => put_number(text, " @", *location),
        StartFault::Twice(name)
        | StartFault::Missing(name)
        | StartFault::Unknown(name)
        | StartFault::Unmet(name)
        | StartFault::FreeEntry(name) => put_name(text, name),
        StartFault::TooLong | StartFault::OutOfMemory => Ok(()),
    }
}

/// The line that says why there is no start. An `Err` says that memory ran out, which is also the
/// answer where that was the cause.
pub fn start_refusal_text(alloc: Global, fault: &StartFault) -> Result<Vec<u8>, AllocError>
    ensures text { IfOk result (λ text. text.items ≡ start_refusal_text fault.now) }
    ensures cause { IfOk result (λ text. fault.now ≢ OutOfMemory) }
{
    if let StartFault::OutOfMemory = fault {
        return Err(AllocError);
    }
    let mut text = Vec::new(alloc);
    put_kind(&mut text, fault)?;
    put_rest(&mut text, fault)?;
    put(&mut text, "\n")?;
    Ok(text)
}
