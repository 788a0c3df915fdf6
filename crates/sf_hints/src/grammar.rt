//! The slip behind a token that can't continue a file.

use crate::context::{
    Inside, count_between, kind_before, open_before, surrounding, text_of, token_before,
};
use crate::name::slip_of_name;
use crate::slip::Slip;
use sf_lex::{Kind, Token};

/// The tokens of a file, and the number of the one that can't stand there.
#[derive(Clone, Copy)]
struct Spot<'a> {
    bytes: &'a [u8],
    tokens: &'a [Token],
    at: usize,
}

impl<'a> Spot<'a> {
    /// The kind of the token so many places before.
    fn back(&self, count: usize) -> Option<Kind> {
        kind_before(self.tokens, self.at, count)
    }

    /// The text of the token so many places before.
    fn text_back(&self, count: usize) -> &'a [u8] {
        match token_before(self.tokens, self.at, count) {
            Some(token) => text_of(self.bytes, &token),
            None => &[],
        }
    }

    /// Inside of what the token stands.
    fn around(&self) -> Inside {
        surrounding(self.tokens, self.at)
    }
}

/// The slip behind the token of that number, with which the tokens before it aren't the beginning of
/// any file; after the last one it is the file's end.
pub fn slip_of_token(bytes: &[u8], tokens: &[Token], at: usize) -> Option<Slip> {
    let spot = Spot { bytes, tokens, at };
    if let Some(slip) = of_word(&spot) {
        return Some(slip);
    }
    match spot.back(0) {
        Some(Kind::Name) => of_second_name(&spot),
        Some(Kind::Local) => Some(Slip::LocalsFirst),
        Some(Kind::Equals) => of_equals(&spot),
        Some(Kind::Arrow) => of_arrow(&spot),
        Some(Kind::Bars) => of_bars(&spot),
        Some(Kind::Star) => of_star(&spot),
        Some(Kind::OpenRound) => of_round(&spot),
        _ => of_end(&spot),
    }
}

/// The slip behind a word before the token that isn't reserved: it began a call, or a command of two
/// names.
fn of_word(spot: &Spot<'_>) -> Option<Slip> {
    match spot.around() {
        Inside::Call(name) => slip_of_name(text_of(spot.bytes, &name)).or(of_call(spot)),
        Inside::Nothing if spot.back(1) == Some(Kind::Name) => {
            of_name_before(spot.back(0), spot.text_back(1))
        }
        Inside::Nothing if spot.back(1) == Some(Kind::CloseRound) => of_called(spot),
        _ => None,
    }
}

/// The slip behind a name that stands right before a token with which no command goes on.
fn of_name_before(next: Option<Kind>, name: &[u8]) -> Option<Slip> {
    match next {
        Some(Kind::Equals) | Some(Kind::Comma) => None,
        _ => slip_of_name(name),
    }
}

/// The slip behind the name of something like a call that ends right before the token.
fn of_called(spot: &Spot<'_>) -> Option<Slip> {
    let end = spot.at.checked_sub(1)?;
    let open = open_before(spot.tokens, end)?;
    let name = token_before(spot.tokens, open, 1)?;
    if name.kind == Kind::Name {
        slip_of_name(text_of(spot.bytes, &name))
    } else {
        None
    }
}

/// The slip inside the brackets of a call.
fn of_call(spot: &Spot<'_>) -> Option<Slip> {
    match spot.back(1) {
        Some(Kind::Nil) | Some(Kind::Null) | Some(Kind::Number) => Some(Slip::ReferenceIsVariable),
        _ => None,
    }
}

/// The slip behind a name after a token with which it doesn't go on.
fn of_second_name(spot: &Spot<'_>) -> Option<Slip> {
    match spot.back(1) {
        Some(Kind::Name) => Some(of_two_names(spot)),
        Some(Kind::New) => Some(Slip::NewAlone),
        Some(Kind::While) | Some(Kind::If) | Some(Kind::When) => Some(Slip::TestInBrackets),
        _ => of_end(spot),
    }
}

/// The slip behind two names, of which the first is a type where a command or a parameter begins
/// with it, and else the end of a command.
fn of_two_names(spot: &Spot<'_>) -> Slip {
    match spot.back(2) {
        Some(Kind::Equals) | Some(Kind::Arrow) => Slip::Semicolon,
        _ => Slip::Typed,
    }
}

/// The slip behind `=`.
fn of_equals(spot: &Spot<'_>) -> Option<Slip> {
    match spot.around() {
        Inside::Test | Inside::Square => Some(Slip::TwoEquals),
        _ if spot.back(2) == Some(Kind::Local) => Some(Slip::LocalBegins),
        _ if spot.back(2) == Some(Kind::Comma) => Some(Slip::LocalBegins),
        _ => None,
    }
}

/// The slip behind `->`.
fn of_arrow(spot: &Spot<'_>) -> Option<Slip> {
    match spot.around() {
        Inside::Square => Some(Slip::FieldOfCell),
        Inside::Test => Some(Slip::TestLooksUp),
        Inside::Nothing => Some(Slip::OneCell),
        Inside::Call(_) | Inside::Round => Some(Slip::ValueLooksUp),
    }
}

/// The slip behind `||`.
fn of_bars(spot: &Spot<'_>) -> Option<Slip> {
    match spot.around() {
        Inside::Square => Some(Slip::JoinedByStar),
        Inside::Test => Some(Slip::NoConnective),
        _ => Some(Slip::TwoCalls),
    }
}

/// The slip behind `*`.
fn of_star(spot: &Spot<'_>) -> Option<Slip> {
    match spot.around() {
        Inside::Square => of_square(spot),
        _ => Some(Slip::NoSum),
    }
}

/// The slip behind `(`.
fn of_round(spot: &Spot<'_>) -> Option<Slip> {
    if spot.back(1) != Some(Kind::Name) || spot.back(2) != Some(Kind::Equals) {
        return None;
    }
    match slip_of_name(spot.text_back(1)) {
        Some(Slip::Makes) => Some(Slip::Makes),
        _ => Some(Slip::CallAlone),
    }
}

/// The slip behind a token that doesn't go on with what stands before it.
fn of_end(spot: &Spot<'_>) -> Option<Slip> {
    match spot.around() {
        Inside::Square => of_square(spot),
        Inside::Test => of_test(spot),
        Inside::Nothing => of_command(spot),
        Inside::Call(_) | Inside::Round => None,
    }
}

/// The slip in a test.
fn of_test(spot: &Spot<'_>) -> Option<Slip> {
    if spot.back(0) == Some(Kind::CloseRound) && spot.back(2) == Some(Kind::OpenRound) {
        return Some(Slip::TestCompares);
    }
    None
}

/// The slip in an assertion.
fn of_square(spot: &Spot<'_>) -> Option<Slip> {
    if spot.back(0) == Some(Kind::True) {
        return Some(Slip::AnyHeap);
    }
    if lacks_else(spot)? {
        return Some(Slip::ThenElse);
    }
    if spot.back(1) == Some(Kind::PointsTo) {
        return Some(Slip::WhichField);
    }
    if spot.back(1) == Some(Kind::Name) && spot.back(2) == Some(Kind::PointsTo) {
        return Some(Slip::WhichField);
    }
    None
}

/// Whether the assertion ends at the token, or goes on with a part, though an `else` is due.
fn lacks_else(spot: &Spot<'_>) -> Option<bool> {
    let open = open_before(spot.tokens, spot.at)?;
    let thens = count_between(spot.tokens, open, spot.at, Kind::Then);
    let elses = count_between(spot.tokens, open, spot.at, Kind::Else);
    let ends = spot.back(0) == Some(Kind::CloseSquare) || spot.back(0) == Some(Kind::Star);
    Some(ends && elses < thens)
}

/// Whether a command may end with a token of that kind, before its `;`.
fn ends_value(kind: Kind) -> bool {
    match kind {
        Kind::Name | Kind::Number | Kind::Nil | Kind::Null | Kind::CloseRound => true,
        _ => false,
    }
}

/// The slip in a command.
fn of_command(spot: &Spot<'_>) -> Option<Slip> {
    let last = spot.back(1)?;
    if spot.back(0) == Some(Kind::Semicolon) && last == Kind::CloseBrace {
        return Some(Slip::NoSemicolon);
    }
    if is_test_word(last) && spot.back(0) != Some(Kind::OpenRound) {
        return Some(Slip::TestInBrackets);
    }
    if ends_value(last) && spot.back(0) != Some(Kind::Semicolon) {
        return Some(Slip::Semicolon);
    }
    None
}

/// Whether a test follows the word.
fn is_test_word(kind: Kind) -> bool {
    kind == Kind::While || kind == Kind::If || kind == Kind::When
}
