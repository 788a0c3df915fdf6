//! A whole file.

ghost use Rattle.std.specs.Prelude.{◌≡◌, ◌≤◌, ◌⊎◌, ◌∷◌, [], length, map, IfErr, IfOk};
ghost use Rattle.sf_ast.specs.View.{item_of};
ghost use Rattle.sf_base.specs.Results.{Decides};
ghost use Rattle.sf_parse.specs.Checked.Faults.{place_left};
ghost use Rattle.sf_parse.specs.Checked.Machine as m;
ghost use Rattle.sf_parse.specs.Parsing.{IsFault, IsFile};
ghost use Rattle.sf_parse.specs.Checked.Parser.{FailsAt};

use crate::fault::ParseFault;
use crate::item::items;
use crate::stop::Stop;
use sf_ast::File;
use sf_base::Place;
use sf_lex::{Token, Tokens};
use std::alloc::Global;

/// The place of the token with which so many are left, or that of the file's end.
fn place_left(end: Place, tokens: &[Token], left: usize) -> Place
    requires { left ≤ length tokens.now }
    ensures { result ≡ place_left end tokens.now left }
{
    if left == 0 {
        return end;
    }
    tokens[tokens.len() - left].place
}

/// The fault of a file, where the parser's functions stop so.
fn fault_of(end: Place, tokens: &[Token], stop: Stop) -> ParseFault
    requires { FailsAt stop (m.items ∷ []) tokens.now }
    ensures { (result ≡ ParseFault.OutOfMemory) ⊎ IsFault end tokens.now result }
{
    match stop {
        Stop::Unexpected(left) => ParseFault::Unexpected(place_left(end, tokens, left)),
        Stop::TooDeep(left) => ParseFault::TooDeep(place_left(end, tokens, left)),
        Stop::OutOfMemory => ParseFault::OutOfMemory,
    }
}

/// A file from its tokens, item by item, where it ends at that place.
fn read(alloc: Global, end: Place, tokens: &[Token]) -> Result<File, ParseFault>
    ensures found { IfOk result (λ file. IsFile tokens.now (map item_of file.items.items)) }
    ensures refused { IfErr result (λ fault. (fault ≡ ParseFault.OutOfMemory)
        ⊎ IsFault end tokens.now fault) }
{
    match items(alloc, tokens) {
        Ok(items) => Ok(File { items }),
        Err(stop) => Err(fault_of(end, tokens, stop)),
    }
}

/// The surface tree of a file, from its tokens.
///
/// Refused at the first token with which no file begins, at the end of the file where only more
/// tokens would make one, at the first token of a command or an assertion nested deeper than 64
/// levels, or where memory runs out.
pub fn parse(alloc: Global, tokens: &Tokens) -> Result<File, ParseFault>
    ensures { Decides result (λ file. map item_of file.items.items)
        (IsFile tokens.now.items.items) (IsFault tokens.now.end tokens.now.items.items)
        ParseFault.OutOfMemory }
{
    read(alloc, tokens.end, tokens.items.as_slice())
}
