use sf_base::Place;

/// What a token is: a word, a number or a symbol.
#[derive(Clone, Copy, Debug, PartialEq, Eq)]
pub enum Kind {
    /// A letter, then letters, digits and `_`, which is no reserved word.
    Name,
    /// `_`, then one or more letters, digits and `_`.
    Existential,
    /// Digits, with a `-` before them or none, of a number that fits `i64`.
    Number,
    /// `NULL`
    Null,
    /// `dispose`
    Dispose,
    /// `else`
    Else,
    /// `emp`
    Emp,
    /// `if`
    If,
    /// `list`
    List,
    /// `local`
    Local,
    /// `ls`
    Ls,
    /// `lseg`
    Lseg,
    /// `new`
    New,
    /// `nil`
    Nil,
    /// `resource`
    Resource,
    /// `then`
    Then,
    /// `dll`
    Dll,
    /// `tree`
    Tree,
    /// `true`
    True,
    /// `when`
    When,
    /// `while`
    While,
    /// `with`
    With,
    /// `(`
    OpenRound,
    /// `)`
    CloseRound,
    /// `[`
    OpenSquare,
    /// `]`
    CloseSquare,
    /// `{`
    OpenBrace,
    /// `}`
    CloseBrace,
    /// `,`
    Comma,
    /// `;`
    Semicolon,
    /// `:`
    Colon,
    /// `*`
    Star,
    /// `=`
    Equals,
    /// `==`
    EqualEqual,
    /// `!=`
    NotEqual,
    /// `->`
    Arrow,
    /// `|->`
    PointsTo,
    /// `||`
    Bars,
}

/// A token: its kind, what it writes where it is a number, and where its text occurs in the file.
#[derive(Clone, Copy, Debug, PartialEq, Eq)]
pub struct Token {
    /// What it is.
    pub kind: Kind,
    /// What a number writes; 0 for other tokens.
    pub value: i64,
    /// How many bytes come before its text.
    pub start: usize,
    /// How many bytes come before what follows its text.
    pub end: usize,
    /// The place of its first byte.
    pub place: Place,
}

/// The tokens of a file, and where it ends.
#[derive(Debug, Drop)]
pub struct Tokens {
    /// The tokens, in order.
    pub items: Vec<Token>,
    /// The place after the file's last byte.
    pub end: Place,
}
