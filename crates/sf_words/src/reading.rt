ghost use Rattle.std.specs.Prelude.{◌≡◌, ◌⊎◌, [], IfOk, IfErr, MatchResult, Some, None, option_and_then};
ghost use Rattle.clap.specs.Words.{fault_of, subcommand_of, subcommand_rows_of};
ghost use Rattle.sf_words.specs.Checked.Forms.{program_form};
ghost use Rattle.sf_words.specs.Checked.Found.{fault_as, met_order};
ghost use Rattle.sf_words.specs.Words.{HasNumbersInRange, order_of};
ghost use Rattle.sf_words.specs.WordsOf.{order_as, order_in, words_of};

use crate::forms::program;
use crate::given::order;
use crate::order::{Order, WordFault};
use crate::screen::{has_blank, has_bundle};
use clap::ArgMatches;
use clap::error::ErrorKind;
use std::alloc::Global;

/// The order that the words are, its numbers from 1 to their limits. `Usage` exactly where they are
/// none; `OutOfMemory` says that memory ran out.
pub fn read<'a>(alloc: Global, words: &'a [&'a str]) -> Result<Order<'a>, WordFault>
    ensures order { MatchResult result
        (λ order. order_of (words_of words.entry.now) ≡ Some (order_as order))
        (λ fault. (fault ≡ WordFault.OutOfMemory)
        ⊎ ((fault ≡ WordFault.Usage) × (order_of (words_of words.entry.now) ≡ None))) }
    ensures numbers { IfOk result (λ order. HasNumbersInRange (order_as order)) }
{
    if has_blank(words) {
        return Err(WordFault::Usage);
    }
    if has_bundle(words) {
        return Err(WordFault::Usage);
    }
    let matches = matches(alloc, words)?;
    met(&matches).ok_or(WordFault::Usage)
}

/// What `clap` finds in the words. An `Err` says that memory ran out, or, as `Usage`, that they are
/// not of the form that it was told.
fn matches<'a>(alloc: Global, words: &'a [&'a str]) -> Result<ArgMatches<'a>, WordFault>
    ensures met { IfOk result (λ m.
        subcommand_rows_of m ≡ subcommand_of program_form (words_of words.entry.now)) }
    ensures fits { IfOk result (λ m. fault_of program_form (words_of words.entry.now) ≡ []) }
    ensures fault { IfErr result (λ fault. (fault ≡ WordFault.OutOfMemory)
        ⊎ ((fault ≡ WordFault.Usage)
        × ((fault_of program_form (words_of words.entry.now) ≡ []) → ⊥))) }
{
    let command = program(alloc)?;
    match command.try_get_matches_from(words) {
        Ok(matches) => Ok(matches),
        Err(error) => Err(fault(error.kind())),
    }
}

/// The order of the command that was met. `None` exactly where none was, or what stands under its
/// operands and options is no order of it.
fn met<'a>(matches: &ArgMatches<'a>) -> Option<Order<'a>>
    ensures { order_in result ≡ met_order (subcommand_rows_of matches.now) }
{
    match matches.subcommand() {
        Some((name, inner)) => order(name, inner),
        None => None,
    }
}

/// Why there are no matches.
fn fault(kind: ErrorKind) -> WordFault
    ensures { result ≡ fault_as kind }
{
    match kind {
        ErrorKind::OutOfMemory => WordFault::OutOfMemory,
        _ => WordFault::Usage,
    }
}
