//! Reading the text of a proof.

ghost use Rattle.std.specs.Prelude.{◌≡◌, ◌≤◌, ◌∷◌, ◌==◌, length, not};
ghost use Rattle.std.specs.List.{prefix_len};
ghost use Rattle.std.specs.Str.Lines.{strip_carriage_return};
ghost use Rattle.sf_base.specs.Results.{Decides};
ghost use Rattle.sf_base.specs.declared.limits.TheConstants.{PROOF_BYTES};
ghost use Rattle.sf_lines.specs.Lines.{bytes_left, lines, lines_left};
ghost use Rattle.sf_core.specs.Program.ProgramView.{program_of};
ghost use Rattle.sf_proof.specs.Checked.Walk.{IsRead, reading};
ghost use Rattle.sf_proof.specs.Reading.{IsFault, IsLined};

use crate::entry::Entry;
use crate::fault::ProofFault;
use crate::lined::Lined;
use crate::words::entry;
use sf_base::Sequence;
use sf_base::limits::PROOF_BYTES;
use sf_core::Program;
use sf_lines::next_line;
use std::alloc::Global;

impl Lined {
    ghost use Rattle.std.specs.Prelude.{◌<◌};
    ghost use Rattle.sf_proof.specs.Checked.Walk.{KeepsEntry};

    /// Keeps what is said on the line of that number.
    fn keep(&mut self, number: u32, entry: Entry) -> Result<(), ProofFault>
        requires { 0 < number }
        ensures { KeepsEntry result self.old self.new number entry }
    {
        match entry {
            Entry::Nothing => Ok(()),
            Entry::Says(tag) => {
                self.tags.push(tag)?;
                self.lines.push(number)?;
                Ok(())
            }
            Entry::Bad => Err(ProofFault::BadLine(number)),
        }
    }
}

/// The tags of a text within the limit.
fn read_lines(alloc: Global, p: &Program, text: &[u8]) -> Result<Lined, ProofFault>
    requires { length text.now ≤ PROOF_BYTES }
    ensures { IsRead result (reading (program_of p.now) 0 (lines text.now)) }
{
    let mut found = Lined {
        tags: Sequence::new(alloc),
        lines: Sequence::new(alloc),
    };
    let mut before: u32 = 0;
    let mut left = Some(text);
    while let Some(rest) = left {
        let (line, more) = next_line(rest);
        found.keep(before + 1, entry(p, before, line))?;
        before += 1;
        left = more;
    }
    Ok(found)
}

/// The tags that a text says, with the numbers of their lines, from 1. The first line is
/// `accepted`, and each other one is empty or a tag. Words may have spaces and tabs around them, a
/// line may end with a carriage return, and numbers may begin with zeros. The name of no procedure
/// gives a tag that has a row nowhere.
///
/// `TooLong` comes where the text has more than 33,554,432 bytes, and else `BadLine` with the
/// number of the first line that isn't so, exactly where there is one; or memory runs out.
pub fn read(alloc: Global, p: &Program, text: &[u8]) -> Result<Lined, ProofFault>
    ensures { Decides result (λ lined. lined) (IsLined (program_of p.now) text.now)
        (IsFault (program_of p.now) text.now) ProofFault.OutOfMemory }
{
    if text.len() > PROOF_BYTES {
        return Err(ProofFault::TooLong);
    }
    read_lines(alloc, p, text)
}
