//! The tests of a state: what it knows of terms, and whether it can be at all.

ghost use Rattle.std.specs.Prelude.{◌≡◌};
ghost use Rattle.sf_sym.specs.Tests.{allocated, differs, is_absurd};

use crate::state::State;
use crate::term::Term;

impl State {
    /// Whether an atom or a taken atom other than number `except` has a cell at the term.
    pub fn allocated(&self, t: Term, except: Option<u32>) -> bool
        ensures { result ≡ allocated self.now t except }
    {
        self.known.store.allocated(t, except)
    }

    /// Whether two terms surely differ: at once, or as a constant and a location, or as the
    /// locations of two cells. It looks the pair up, and the atoms that have cells at the terms.
    pub fn differs(&self, t: Term, u: Term) -> bool
        ensures { result ≡ differs self.now t u }
    {
        self.known.store.differs(t, u)
    }

    /// Whether no store and heap have the state: a term would differ from itself, or a constant
    /// would be a location, or an integer a tree, or two cells would be one. It looks at the atoms
    /// for which that may have changed since the state was settled.
    pub fn is_absurd(&self) -> bool
        ensures { result ≡ is_absurd self.now }
    {
        self.known.store.is_absurd()
    }

    /// Has the next tests look only at what changes from now on, if those of now find nothing. The
    /// state stays the same.
    pub fn settle(&mut self)
        ensures { self.new ≡ self.old }
    {
        self.known.store.settle();
    }
}
