ghost use Rattle.std.specs.Prelude.{◌≡◌, ◌≢◌};
ghost use Rattle.sf_lex.specs.Lexeme.{word_kind};

use crate::token::Kind;

/// The kind of a word: a reserved one has a kind of its own.
pub fn word_kind(text: &[u8]) -> Kind
    ensures kind { result ≡ word_kind text.now }
    ensures no_number { result ≢ Kind.Number }
{
    match text {
        b"NULL" => Kind::Null,
        b"dispose" => Kind::Dispose,
        b"else" => Kind::Else,
        b"emp" => Kind::Emp,
        b"if" => Kind::If,
        b"list" => Kind::List,
        b"local" => Kind::Local,
        b"ls" => Kind::Ls,
        b"lseg" => Kind::Lseg,
        b"new" => Kind::New,
        b"nil" => Kind::Nil,
        b"resource" => Kind::Resource,
        b"then" => Kind::Then,
        b"dll" => Kind::Dll,
        b"tree" => Kind::Tree,
        b"true" => Kind::True,
        b"when" => Kind::When,
        b"while" => Kind::While,
        b"with" => Kind::With,
        _ => Kind::Name,
    }
}
