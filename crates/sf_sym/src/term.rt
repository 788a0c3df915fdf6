ghost use Rattle.std.specs.Prelude.{◌≡◌};
ghost use Rattle.sf_sym.specs.Below.{is_below};
ghost use Rattle.sf_sym.specs.Tests.{is_constant, same_term};

/// A value as a state knows it. Terms are ordered: nil, the integers by value, the symbols by
/// number.
#[derive(Clone, Copy, Debug, Default, PartialEq, Eq, PartialOrd, Ord, Hash)]
pub enum Term {
    /// No location and no number.
    #[default]
    Nil,
    /// That number.
    Int(i64),
    /// The symbol of that number: some value, of which only what the state says is known.
    Sym(u32),
}

impl Term {
    /// Whether it is nil or an integer.
    pub fn is_constant(self) -> bool
        ensures { result ≡ is_constant self }
    {
        !matches!(self, Term::Sym(_))
    }

    /// Whether it is that term.
    pub fn is(self, other: Term) -> bool
        ensures { result ≡ same_term self other }
    {
        self == other
    }

    /// Whether it is a constant, or a symbol below that number.
    pub fn is_below(self, next: u32) -> bool
        ensures { result ≡ is_below next self }
    {
        match self {
            Term::Nil | Term::Int(_) => true,
            Term::Sym(n) => n < next,
        }
    }
}
