//! How tokens are written, and which word a name is nearly.

use sf_lex::Kind;

/// How a reserved word or a sign is written; of other tokens a word for them.
pub fn spelling(kind: Kind) -> &'static str {
    match kind {
        Kind::Name | Kind::Existential | Kind::Number => of_free(kind),
        Kind::OpenRound
        | Kind::CloseRound
        | Kind::OpenSquare
        | Kind::CloseSquare
        | Kind::OpenBrace
        | Kind::CloseBrace => of_bracket(kind),
        Kind::Comma
        | Kind::Semicolon
        | Kind::Colon
        | Kind::Star
        | Kind::Equals
        | Kind::EqualEqual
        | Kind::NotEqual
        | Kind::Arrow
        | Kind::PointsTo
        | Kind::Bars => of_sign(kind),
        _ => of_word(kind),
    }
}

/// A word for a token whose text is free.
fn of_free(kind: Kind) -> &'static str {
    match kind {
        Kind::Name => "a name",
        Kind::Existential => "an existential",
        _ => "a number",
    }
}

/// How a bracket is written.
fn of_bracket(kind: Kind) -> &'static str {
    match kind {
        Kind::OpenRound => "(",
        Kind::CloseRound => ")",
        Kind::OpenSquare => "[",
        Kind::CloseSquare => "]",
        Kind::OpenBrace => "{",
        _ => "}",
    }
}

/// How a sign is written.
fn of_sign(kind: Kind) -> &'static str {
    match kind {
        Kind::Comma => ",",
        Kind::Semicolon => ";",
        Kind::Colon => ":",
        Kind::Star => "*",
        Kind::Equals => "=",
        Kind::EqualEqual => "==",
        Kind::NotEqual => "!=",
        Kind::Arrow => "->",
        Kind::PointsTo => "|->",
        _ => "||",
    }
}

/// How a reserved word is written.
fn of_word(kind: Kind) -> &'static str {
    match kind {
        Kind::Null => "NULL",
        Kind::Dispose => "dispose",
        Kind::Else => "else",
        Kind::Emp => "emp",
        Kind::If => "if",
        Kind::List => "list",
        Kind::Local => "local",
        Kind::Ls => "ls",
        Kind::Lseg => "lseg",
        Kind::New => "new",
        Kind::Nil => "nil",
        Kind::Resource => "resource",
        Kind::Then => "then",
        Kind::Dll => "dll",
        Kind::Tree => "tree",
        Kind::True => "true",
        Kind::When => "when",
        Kind::While => "while",
        _ => "with",
    }
}

/// The words of commands and declarations, for which a name may stand by a slip.
const WORDS: &[Kind] = &[
    Kind::While,
    Kind::If,
    Kind::Else,
    Kind::With,
    Kind::When,
    Kind::Dispose,
    Kind::Local,
    Kind::Resource,
    Kind::Then,
    Kind::List,
    Kind::Lseg,
    Kind::Tree,
    Kind::True,
    Kind::New,
    Kind::Nil,
];

/// The reserved word that a name is but for one letter, or two that changed places.
pub(crate) fn nearly(name: &[u8]) -> Option<Kind> {
    for kind in WORDS {
        if is_near(name, of_word(*kind).as_bytes()) {
            return Some(*kind);
        }
    }
    None
}

/// How many bytes the two begin with in common.
fn common(a: &[u8], b: &[u8]) -> usize {
    let mut count: usize = 0;
    for (x, y) in a.iter().zip(b.iter()) {
        if x != y {
            break;
        }
        count = count.saturating_add(1);
    }
    count
}

/// The bytes from there on, none past the end.
fn from_index(bytes: &[u8], index: usize) -> &[u8] {
    match bytes.get(index..) {
        Some(rest) => rest,
        None => &[],
    }
}

/// Whether two of the first bytes are those of the other text in the other order, and the rest is
/// the same.
fn is_exchanged(a: &[u8], b: &[u8]) -> bool {
    match (a, b) {
        ([a1, a2, a_rest @ ..], [b1, b2, b_rest @ ..]) => {
            a1 == b2 && a2 == b1 && a_rest == b_rest
        }
        _ => false,
    }
}

/// Whether a text becomes the other one by another letter, one letter more or less, or two letters
/// that change places. Short words become too many by letters.
fn is_near(a: &[u8], b: &[u8]) -> bool {
    let same = common(a, b);
    let a_left = from_index(a, same);
    let b_left = from_index(b, same);
    if is_exchanged(a_left, b_left) {
        return true;
    }
    if a.len() < 4 || b.len() < 4 || a_left.is_empty() && b_left.is_empty() {
        return false;
    }
    from_index(a_left, 1) == from_index(b_left, 1)
        || from_index(a_left, 1) == b_left
        || a_left == from_index(b_left, 1)
}
