//! What the words of a line say.

ghost use Rattle.std.specs.Prelude.{◌≡◌, ◌∷◌, ◌≤◌, [], drop, length, not, MatchOption};
ghost use Rattle.std.specs.List.{position_or_len, prefix_len};
ghost use Rattle.std.specs.Str.{bytes_eq};
ghost use Rattle.sf_lines.specs.Lines.{is_space, words};
ghost use Rattle.sf_core.specs.Program.ProgramView.{program_of};
ghost use Rattle.sf_proof.specs.Reading.{entry, entry_after, entry_of, is_verdict};
ghost use Rattle.sf_proof.specs.Words.{natural_of, procedure_named, symbol_of, tag_alone, tag_of, tag_of_procedure, tag_with, tag_with_atom, tag_with_two, term_of};

use crate::entry::Entry;
use sf_base::ProcId;
use sf_core::{Proc, Program};
use sf_lex::{is_name, number};
use sf_lines::next_word;
use sf_sym::{Tag, Term};

/// The number of 32 bits that a word of digits writes.
fn natural(word: &[u8]) -> Option<u32>
    ensures { result ≡ natural_of word.now }
{
    let digit = matches!(word, [first, ..] if first.is_ascii_digit());
    if !digit {
        return None;
    }
    match u32::try_from(number(word)?) {
        Ok(natural) => Some(natural),
        Err(_) => None,
    }
}

/// The symbol that a word writes.
fn symbol(word: &[u8]) -> Option<Term>
    ensures { result ≡ symbol_of word.now }
{
    match word {
        [b's', digits @ ..] => Some(Term::Sym(natural(digits)?)),
        _ => None,
    }
}

/// The term that a word writes.
fn term(word: &[u8]) -> Option<Term>
    ensures { result ≡ term_of word.now }
{
    if word == b"nil".as_slice() {
        return Some(Term::Nil);
    }
    if let Some(symbol) = symbol(word) {
        return Some(symbol);
    }
    Some(Term::Int(number(word)?))
}

/// The tag that is one word.
#[tactic(auto, unfolding(crate::specs::Words::tag_alone))]
fn tag_alone(word: &[u8]) -> Option<Tag>
    ensures { result ≡ tag_alone word.now }
{
    match word {
        b"absurd" => Some(Tag::Absurd),
        b"assign" => Some(Tag::Assign),
        b"new" => Some(Tag::New),
        b"then" => Some(Tag::Then),
        b"else" => Some(Tag::Else),
        b"loop" => Some(Tag::Loop),
        b"around" => Some(Tag::Around),
        b"again" => Some(Tag::Again),
        b"call" => Some(Tag::Call),
        b"fork" => Some(Tag::Fork),
        b"enter" => Some(Tag::Enter),
        b"exit" => Some(Tag::Exit),
        b"return" => Some(Tag::Return),
        b"give" => Some(Tag::Give),
        b"end" => Some(Tag::End),
        b"add" => Some(Tag::Add),
        b"bind" => Some(Tag::Bind),
        b"same" => Some(Tag::Same),
        b"apart" => Some(Tag::Apart),
        b"empty" => Some(Tag::Empty),
        _ => None,
    }
}

/// The tag that is a word and the number of an atom.
#[tactic(auto, unfolding(crate::specs::Words::tag_with_atom))]
fn tag_with_atom(word: &[u8], atom: u32) -> Option<Tag>
    ensures { result ≡ tag_with_atom word.now atom }
{
    match word {
        b"drop" => Some(Tag::Drop(atom)),
        b"force" => Some(Tag::Force(atom)),
        b"unroll" => Some(Tag::Unroll(atom)),
        b"back" => Some(Tag::Back(atom)),
        b"look" => Some(Tag::Look(atom)),
        b"mutate" => Some(Tag::Mutate(atom)),
        b"dispose" => Some(Tag::Dispose(atom)),
        b"cell" => Some(Tag::Cell(atom)),
        b"exact" => Some(Tag::Exact(atom)),
        b"head" => Some(Tag::Head(atom)),
        b"join" => Some(Tag::Join(atom)),
        b"node" => Some(Tag::Node(atom)),
        _ => None,
    }
}

/// How many procedures come before the first of that name, which are all where there is none.
fn procedures_before(procedures: &[Proc], name: &[u8]) -> usize
    ensures before { result ≡ position_or_len
        (λ f. bytes_eq f.name name.now) procedures.now }
    ensures within { result ≤ length procedures.now }
{
    procedures
        .iter()
        .take_while(|procedure| procedure.name.as_bytes() != name)
        .count()
}

/// The number of the first procedure of that name, and the first number of none where there is no
/// such procedure.
fn procedure_named(p: &Program, name: &[u8]) -> ProcId
    ensures { result ≡ procedure_named (program_of p.now) name.now }
{
    ProcId(procedures_before(&p.procedures, name) as u32)
}

/// The tag that begins the procedure of that name. `None` where the word is no name.
fn tag_of_procedure(p: &Program, name: &[u8]) -> Option<Tag>
    ensures { result ≡ tag_of_procedure (program_of p.now) name.now }
{
    if is_name(name) {
        Some(Tag::Procedure(procedure_named(p, name)))
    } else {
        None
    }
}

/// The tag that is a word and one more.
fn tag_with(p: &Program, word: &[u8], operand: &[u8]) -> Option<Tag>
    ensures { result ≡ tag_with (program_of p.now) word.now operand.now }
{
    if word == b"procedure".as_slice() {
        return tag_of_procedure(p, operand);
    }
    tag_with_atom(word, natural(operand)?)
}

/// The tag that is a word and two more.
fn tag_with_two(word: &[u8], first: &[u8], second: &[u8]) -> Option<Tag>
    ensures { result ≡ tag_with_two word.now first.now second.now }
{
    if word == b"split".as_slice() {
        return Some(Tag::Split(term(first)?, term(second)?));
    }
    None
}

/// The tag that the words of a line say, the first of which is given with what comes after it.
fn tag_of(p: &Program, word: &[u8], after: &[u8]) -> Option<Tag>
    ensures { result ≡ tag_of (program_of p.now) (word.now ∷ words after.now) }
{
    let Some((first, after_first)) = next_word(after) else {
        return tag_alone(word);
    };
    let Some((second, after_second)) = next_word(after_first) else {
        return tag_with(p, word, first);
    };
    match next_word(after_second) {
        Some(_) => None,
        None => tag_with_two(word, first, second),
    }
}

/// What a line says that says this tag, if it says one.
fn entry_of(tag: Option<Tag>) -> Entry
    ensures { result ≡ entry_of tag }
{
    match tag {
        Some(tag) => Entry::Says(tag),
        None => Entry::Bad,
    }
}

/// Whether the first line of a proof's text is this one.
fn is_verdict(line: &[u8]) -> bool
    ensures { result ≡ is_verdict (words line.now) }
{
    match next_word(line) {
        Some((word, after)) => next_word(after).is_none() && word == b"accepted".as_slice(),
        None => false,
    }
}

/// What a line after the first says.
fn entry_after(p: &Program, line: &[u8]) -> Entry
    ensures { result ≡ entry_after (program_of p.now) (words line.now) }
{
    match next_word(line) {
        Some((word, after)) => entry_of(tag_of(p, word, after)),
        None => Entry::Nothing,
    }
}

/// What a line says before which there are so many.
pub fn entry(p: &Program, before: u32, line: &[u8]) -> Entry
    ensures { result ≡ entry (program_of p.now) before line.now }
{
    if before > 0 {
        return entry_after(p, line);
    }
    if is_verdict(line) {
        Entry::Nothing
    } else {
        Entry::Bad
    }
}
