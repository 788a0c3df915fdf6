//! The slip behind a name that nothing has, and behind a part that is never determined.

use crate::slip::Slip;
use crate::words::nearly;
use sf_lex::Kind;

/// The slip behind a name that is no reserved word, if it looks like one.
pub fn slip_of_name(name: &[u8]) -> Option<Slip> {
    match name {
        b"free" | b"delete" => Some(Slip::Frees),
        b"malloc" | b"calloc" | b"alloc" => Some(Slip::Makes),
        b"null" | b"Null" | b"NIL" | b"Nil" | b"nullptr" | b"None" => Some(Slip::Nothing),
        b"false" | b"True" | b"False" => Some(Slip::NoTruth),
        b"return" => Some(Slip::Returns),
        b"for" | b"do" | b"until" | b"loop" => Some(Slip::OneLoop),
        _ => match nearly(name) {
            Some(kind) => Some(Slip::Misspelt(kind)),
            None => None,
        },
    }
}

/// The slip behind a part of an assertion that begins with that token and is never determined.
pub fn slip_of_part(kind: Option<Kind>) -> Slip {
    match kind {
        Some(Kind::Ls) | Some(Kind::Lseg) => Slip::NoEnd,
        Some(Kind::Dll) => Slip::NoLastCell,
        _ => Slip::NoRoot,
    }
}
