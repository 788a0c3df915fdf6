//! Why the text of a proof is refused, and the line that says so.

ghost use Rattle.std.specs.Prelude.{◌≡◌, ◌≢◌, ◌++◌, IfOk, OnOk, decimal};
ghost use Rattle.sf_cli.specs.declared.rejection.Rejection.TheVariants.{OutOfMemory};
ghost use Rattle.sf_cli.specs.Rejections.{kind_number, kind_of, line_of, of_tags, rejection_text};

use crate::writing::{put, put_number};
use sf_check::Refusal as TagRefusal;
use sf_proof::ProofFault;
use std::alloc::{AllocError, Global};

/// The kinds of what is wrong with the text of a proof. `kind_number` has what is printed of each.
#[derive(Clone, Copy, Debug, PartialEq, Eq)]
pub enum RejectionKind {
    /// A line that is none of a proof's.
    BadLine,
    /// More bytes than a proof may have.
    TooLong,
    /// A tag without a row at the open goal, or, with none open, another than the next procedure's.
    NotARule,
    /// Tags that end while goals are open or procedures are left.
    Unfinished,
    /// A tag after all is proved.
    Leftover,
}

/// Why the text of a proof is refused.
#[derive(Clone, Copy, Debug, PartialEq, Eq)]
pub enum Rejection {
    /// For that, at the line of that number, from 1.
    At(RejectionKind, u64),
    /// Memory ran out, which says nothing of the proof.
    OutOfMemory,
}

impl From<ProofFault> for Rejection {
    ghost use Rattle.std.specs.Prelude.{◌≡◌};
    ghost use Rattle.sf_cli.specs.Rejections.{of_text};

    ghost from_gives = { λ fault e. e ≡ of_text fault };

    fn from(fault: ProofFault) -> Rejection {
        match fault {
            ProofFault::BadLine(line) => Rejection::At(RejectionKind::BadLine, u64::from(line)),
            ProofFault::TooLong => Rejection::At(RejectionKind::TooLong, 1),
            ProofFault::OutOfMemory => Rejection::OutOfMemory,
        }
    }
}

/// The line that is named for the tag of that number, counted from 0: its own; past the last tag
/// the line after the last tag's, which is the second one where there is none.
fn line_of(lines: &[u32], number: usize) -> u64
    ensures { result ≡ line_of lines.now number }
{
    match lines.get(number) {
        Some(line) => u64::from(*line),
        None => match lines.last() {
            Some(line) => u64::from(*line) + 1,
            None => 2,
        },
    }
}

/// The kind of what is wrong with a tag.
fn kind_of(why: TagRefusal) -> RejectionKind
    ensures { result ≡ kind_of why }
{
    match why {
        TagRefusal::NotARule => RejectionKind::NotARule,
        TagRefusal::Unfinished => RejectionKind::Unfinished,
        TagRefusal::Leftover => RejectionKind::Leftover,
    }
}

impl Rejection {
    /// For the tag of that number, counted from 0, of tags that stand on these lines.
    pub fn of_tags(lines: &[u32], number: usize, why: TagRefusal) -> Rejection
        ensures { result ≡ of_tags lines.now number why }
    {
        Rejection::At(kind_of(why), line_of(lines, number))
    }
}

/// The number of a kind.
fn kind_number(kind: RejectionKind) -> u32
    ensures { result ≡ kind_number kind }
{
    match kind {
        RejectionKind::BadLine => 50,
        RejectionKind::TooLong => 51,
        RejectionKind::NotARule => 60,
        RejectionKind::Unfinished => 61,
        RejectionKind::Leftover => 62,
    }
}

/// The line that says why the text of a proof is refused. An `Err` says that memory ran out, which
/// is also the answer where that was the cause.
pub fn rejection_text(alloc: Global, rejection: Rejection) -> Result<Vec<u8>, AllocError>
    ensures text { IfOk result (λ text. text.items ≡ rejection_text rejection) }
    ensures cause { IfOk result (λ text. rejection ≢ OutOfMemory) }
{
    match rejection {
        Rejection::At(kind, line) => {
            let mut text = Vec::new(alloc);
            put_number(&mut text, "proof refused: line ", line)?;
            put_number(&mut text, " kind ", u64::from(kind_number(kind)))?;
            put(&mut text, "\n")?;
            Ok(text)
        }
        Rejection::OutOfMemory => Err(AllocError),
    }
}
