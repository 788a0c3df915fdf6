//! Laws of reading tokens. Each function does nothing; its contract is the law.

ghost use Rattle.sf_lex.specs.Checked.Laws.{EachFileReadsOnce, EachTokenIsItsText};

/// Each file reads in exactly one way: as one list of tokens, or with one fault.
pub fn each_file_reads_once()
    ensures { EachFileReadsOnce }
{}

/// Each token is its text: bytes of the file of that kind, in order, words no longer than allowed,
/// numbers that fit.
#[tactic(auto, using(crate::proofs::Closing::each_token_is_its_text))]
pub fn each_token_is_its_text()
    ensures { EachTokenIsItsText }
{}
