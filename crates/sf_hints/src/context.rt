//! What stands before a token, and inside of what it stands.

use sf_lex::{Kind, Token};

/// Inside of what a token stands.
#[derive(Clone, Copy, Debug, PartialEq, Eq)]
pub enum Inside {
    /// In the round brackets of a test.
    Test,
    /// In the round brackets of a call, whose name is that token.
    Call(Token),
    /// In other round brackets.
    Round,
    /// In square brackets: an assertion.
    Square,
    /// In no brackets but braces.
    Nothing,
}

/// The kind of the token that stands so many places before one.
pub fn kind_before(tokens: &[Token], at: usize, back: usize) -> Option<Kind> {
    match token_before(tokens, at, back) {
        Some(token) => Some(token.kind),
        None => None,
    }
}

/// The token that stands so many places before one.
pub fn token_before(tokens: &[Token], at: usize, back: usize) -> Option<Token> {
    let index = at.checked_sub(back)?;
    match tokens.get(index) {
        Some(token) => Some(*token),
        None => None,
    }
}

/// The text of a token.
pub fn text_of<'a>(bytes: &'a [u8], token: &Token) -> &'a [u8] {
    match bytes.get(token.start..token.end) {
        Some(text) => text,
        None => &[],
    }
}

/// Whether it closes round or square brackets.
fn is_closing(kind: Kind) -> bool {
    kind == Kind::CloseRound || kind == Kind::CloseSquare
}

/// Whether it opens round or square brackets.
fn is_opening(kind: Kind) -> bool {
    kind == Kind::OpenRound || kind == Kind::OpenSquare
}

/// Whether it is a brace.
fn is_brace(kind: Kind) -> bool {
    kind == Kind::OpenBrace || kind == Kind::CloseBrace
}

/// The number of the round or square bracket that is open before a token, if one is.
pub fn open_before(tokens: &[Token], at: usize) -> Option<usize> {
    let mut closed: usize = 0;
    for back in 0..at {
        let index = at - 1 - back;
        let kind = tokens.get(index)?.kind;
        if is_brace(kind) {
            return None;
        }
        if is_closing(kind) {
            closed = closed.saturating_add(1);
        } else if is_opening(kind) {
            if closed == 0 {
                return Some(index);
            }
            closed -= 1;
        }
    }
    None
}

/// Inside of what the token of that number stands, or would stand.
pub fn surrounding(tokens: &[Token], at: usize) -> Inside {
    let Some(open) = open_before(tokens, at) else {
        return Inside::Nothing;
    };
    if kind_before(tokens, open, 0) == Some(Kind::OpenSquare) {
        return Inside::Square;
    }
    match token_before(tokens, open, 1) {
        Some(token) if token.kind == Kind::Name => Inside::Call(token),
        Some(token) if is_testing(token.kind) => Inside::Test,
        _ => Inside::Round,
    }
}

/// Whether a test follows the word, in round brackets.
fn is_testing(kind: Kind) -> bool {
    kind == Kind::If || kind == Kind::While || kind == Kind::When
}

/// How many tokens of that kind stand between the two.
pub fn count_between(tokens: &[Token], from: usize, to: usize, kind: Kind) -> usize {
    match tokens.get(from..to) {
        Some(part) => part.iter().filter(|token| token.kind == kind).count(),
        None => 0,
    }
}
