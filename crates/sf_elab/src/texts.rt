//! What words say.

ghost use Rattle.std.specs.Prelude.{◌≡◌, IfOk};
ghost use Rattle.sf_elab.specs.Names.Texts.{text};

use sf_ast::Word;
use sf_base::Name;
use std::alloc::{AllocError, Global};

/// The text of a word: what of the bytes is in its span.
pub fn text(bytes: &[u8], word: Word) -> &[u8]
    ensures { result.now ≡ text bytes.now word }
{
    let end = word.end.min(bytes.len());
    match bytes.get(word.start..end) {
        Some(span) => span,
        None => &[],
    }
}

/// The text of a word, as a name of its own.
pub fn name(alloc: Global, bytes: &[u8], word: Word) -> Result<Name, AllocError>
    ensures { IfOk result (λ n. n ≡ text bytes.now word) }
{
    Name::new(alloc, text(bytes, word))
}
