//! The tests of a state, by what is kept beside its parts: they look at those that begin at the
//! terms in question, and at those that are marked.

ghost use Rattle.std.specs.Prelude.{◌≡◌, ◌&&◌, ◌||◌, not, is_some, None};
ghost use Rattle.std.specs.List.{list_any};
ghost use Rattle.sf_sym.specs.Checked.Keeping.{IsIndexed, are_allocated, is_closed, is_empty, is_forced, is_hopeless, row_beside, rows_of};
ghost use Rattle.sf_sym.specs.Checked.Rows.{bare};
ghost use Rattle.sf_sym.specs.Checked.Stores.{Kept, heap};
ghost use Rattle.sf_sym.specs.Checked.Wanted.{all_rows, are_first, fits, is_first, is_found, is_wanted, known, lower, lowest_of};
ghost use Rattle.sf_sym.specs.Kinds.{is_kind};
ghost use Rattle.sf_sym.specs.Known.{IsLowest, first_forced, first_nothing, forced_by};
ghost use Rattle.sf_sym.specs.Tests.{allocated, are_both_allocated, differs, is_absurd, is_left_out, roots};

use crate::atom::Kind;
use crate::outline::{Outline, Row};
use crate::store::Store;
use crate::term::Term;

/// What an atom is looked for.
#[derive(Clone, Copy)]
pub(crate) enum Wanted {
    /// One that can only be empty though two terms aren't one yet.
    Forced,
    /// One that is of that kind at the term.
    At(Term, Kind),
}

impl Store {
    /// Whether a part other than number `except` has a cell at the term.
    #[tactic(auto, using(crate::proofs::ByRows::all_allocated))]
    pub(crate) fn allocated(&self, t: Term, except: Option<u32>) -> bool
        requires { Kept self.now }
        ensures { result ≡ allocated (known self.now) t except }
    {
        self.has_allocator(t, except)
    }

    /// The same by the rows of the parts.
    fn has_allocator(&self, t: Term, except: Option<u32>) -> bool
        requires { Kept self.now }
        ensures { result ≡ are_allocated self.now.apart (all_rows self.now) t except }
    {
        let mut left = self.index.cells.at(t);
        while let Some((row, rest)) = left.split_first() {
            if self.allocates_beside(row, t, except) {
                return true;
            }
            left = rest;
        }
        false
    }

    /// Whether the part isn't number `except` and has a cell at the term.
    fn allocates_beside(&self, row: &Row, t: Term, except: Option<u32>) -> bool
        ensures { result ≡ row_beside self.now.apart t except row.now }
    {
        !is_left_out(except, row.number)
            && (row.outline.begins(t) && self.apart.give_cell(&row.outline))
    }

    /// Whether two terms surely differ: at once, or as a constant and a location, or as the
    /// locations of two cells.
    pub(crate) fn differs(&self, t: Term, u: Term) -> bool
        requires { Kept self.now }
        ensures { result ≡ differs (known self.now) t u }
    {
        self.apart.differ(t, u)
            || t.is_constant() && self.allocated(u, None)
            || u.is_constant() && self.allocated(t, None)
            || self.are_both_allocated(t, u)
    }

    /// Whether two different parts have cells at these terms.
    #[tactic(auto, using(crate::proofs::ByRows::both_allocated))]
    fn are_both_allocated(&self, t: Term, u: Term) -> bool
        requires { Kept self.now }
        ensures { result ≡ are_both_allocated (known self.now) t u }
    {
        self.has_first(t, u)
    }

    /// The same by the rows of the parts.
    fn has_first(&self, t: Term, u: Term) -> bool
        requires { Kept self.now }
        ensures { result ≡ are_first self.now t u }
    {
        let mut left = self.index.cells.at(t);
        while let Some((row, rest)) = left.split_first() {
            if self.is_first(row, t, u) {
                return true;
            }
            left = rest;
        }
        false
    }

    /// Whether the part has a cell at the first term, and another one at the second.
    fn is_first(&self, row: &Row, t: Term, u: Term) -> bool
        requires { Kept self.now }
        ensures { result ≡ is_first self.now t u row.now }
    {
        row.outline.begins(t)
            && self.apart.give_cell(&row.outline)
            && self.has_allocator(u, Some(row.number))
    }

    /// Whether no store and heap have the state. It looks at the parts that are marked.
    #[tactic(auto, using(crate::proofs::Hopeless::absurd_by_rows))]
    pub(crate) fn is_absurd(&self) -> bool
        requires { Kept self.now }
        ensures { result ≡ is_absurd (known self.now) }
    {
        self.apart.are_reflexive() || self.has_hopeless()
    }

    /// Whether there is a part that no heap has beside the others.
    fn has_hopeless(&self) -> bool
        requires { Kept self.now }
        ensures { result ≡ list_any (is_hopeless self.now.apart (all_rows self.now))
            (all_rows self.now) }
    {
        let mut left = self.index.marks.as_slice();
        while let Some((row, rest)) = left.split_first() {
            if self.is_hopeless(row) {
                return true;
            }
            left = rest;
        }
        false
    }

    /// Whether no heap has the part beside the others.
    fn is_hopeless(&self, row: &Row) -> bool
        requires { Kept self.now }
        ensures { result ≡ is_hopeless self.now.apart (all_rows self.now) row.now }
    {
        row.outline.is_integer_tree()
            || self.apart.give_cell(&row.outline) && self.is_closed_at_roots(row)
    }

    /// Whether nothing of the part can be at one of the terms at which it begins.
    fn is_closed_at_roots(&self, row: &Row) -> bool
        requires { Kept self.now }
        ensures { result ≡ list_any
            (is_closed self.now.apart (all_rows self.now) row.now.number)
            (roots (bare row.now.outline)) }
    {
        match row.outline {
            Outline::Cell(r) | Outline::Segment(r, _) | Outline::Tree(r) => {
                self.is_closed(row.number, r)
            }
            Outline::Double(v, _, l, _) => {
                self.is_closed(row.number, v) || self.is_closed(row.number, l)
            }
        }
    }

    /// Whether nothing of the part of that number can be at the term: it is a constant, or another
    /// one has a cell there.
    fn is_closed(&self, n: u32, t: Term) -> bool
        requires { Kept self.now }
        ensures { result ≡ is_closed self.now.apart (all_rows self.now) n t }
    {
        t.is_constant() || self.has_allocator(t, Some(n))
    }

    /// Whether the part can only be empty, though two terms aren't one yet.
    #[tactic(auto, using(crate::proofs::ByRows::forced_where_closed))]
    fn is_forced(&self, row: &Row) -> bool
        requires { Kept self.now }
        ensures { result ≡ is_forced self.now.apart (all_rows self.now) row.now }
    {
        row.outline.forced_by(false).is_some()
            || row.outline.forced_by(true).is_some()
                && self.is_closed(row.number, row.outline.root())
    }

    /// Whether the part is such a one.
    fn fits(&self, wanted: Wanted, row: &Row) -> bool
        requires { Kept self.now }
        ensures { result ≡ fits self.now wanted row.now }
    {
        match wanted {
            Wanted::Forced => self.is_forced(row),
            Wanted::At(t, kind) => row.outline.is_kind(kind, t),
        }
    }

    /// Whether it is one, and wasn't handed over.
    fn is_wanted(&self, wanted: Wanted, row: &Row) -> bool
        requires { Kept self.now }
        ensures { result ≡ is_wanted self.now wanted row.now }
    {
        self.fits(wanted, row) && self.atoms.atom(row.number).is_some()
    }

    /// The one of these rows that has the lowest number of those that are it.
    fn lowest(&self, wanted: Wanted, rows: &[Row]) -> Option<Row>
        requires { Kept self.now }
        ensures { result ≡ lowest_of (is_wanted self.now wanted) None rows.now }
    {
        let mut best = None;
        let mut left = rows;
        while let Some((row, rest)) = left.split_first() {
            if self.is_wanted(wanted, row) {
                best = lower(best, *row);
            }
            left = rest;
        }
        best
    }

    /// The one of the marked rows that has the lowest number of those that are it.
    fn lowest_marked(&self, wanted: Wanted) -> Option<Row>
        requires { Kept self.now }
        ensures { result ≡ lowest_of (is_wanted self.now wanted) None self.now.index.marks }
    {
        self.lowest(wanted, self.index.marks.as_slice())
    }

    /// The lowest number of an atom that is an empty segment or tree.
    pub(crate) fn droppable(&self) -> Option<u32>
        ensures { result ≡ first_nothing self.now.atoms }
    {
        self.atoms.first_nothing()
    }

    /// The lowest number of an atom that can only be empty though two terms that are the same then
    /// aren't one yet, with those.
    pub(crate) fn forced(&self) -> Option<(u32, Term, Term)>
        requires { Kept self.now }
        ensures { result ≡ first_forced (known self.now) self.now.atoms }
    {
        let row = self.lowest_marked(Wanted::Forced)?;
        let (t, u) = row.outline.forced_by(true)?;
        Some((row.number, t, u))
    }

    /// The lowest number of an atom that is of that kind at the term.
    pub(crate) fn lowest_at(&self, t: Term, kind: Kind) -> Option<u32>
        requires { Kept self.now }
        ensures { IsLowest (λ a. is_kind kind t a.atom) self.now.atoms result }
    {
        let row = self.lowest(Wanted::At(t, kind), self.index.roots.at(t))?;
        Some(row.number)
    }

    /// Has the next tests leave out the parts of which those of now find nothing, until something
    /// changes for them.
    pub(crate) fn settle(&mut self)
        requires { Kept self.old }
        ensures kept { Kept self.new }
        ensures same { heap self.new ≡ heap self.old }
    {
        let mut i = self.index.marks.as_slice().len();
        while i > 0 {
            i -= 1;
            self.settle_at(i);
        }
    }

    /// The same of the part that is the marked one at that index.
    fn settle_at(&mut self, i: usize)
        requires { Kept self.old }
        ensures kept { Kept self.new }
        ensures same { heap self.new ≡ heap self.old }
    {
        let Some(&row) = self.index.marks.as_slice().get(i) else {
            return;
        };
        if self.is_found(&row) {
            return;
        }
        self.index.marks.remove(row);
    }

    /// Whether the tests find something of the part: no heap has it beside the others, or it is an
    /// atom that can only be empty though two terms aren't one yet.
    fn is_found(&self, row: &Row) -> bool
        requires { Kept self.now }
        ensures { result ≡ is_found self.now row.now }
    {
        self.is_hopeless(row) || self.is_wanted(Wanted::Forced, row)
    }
}

/// Whether that number is the one left out.
fn is_left_out(except: Option<u32>, number: u32) -> bool
    ensures { result ≡ is_left_out except number }
{
    match except {
        Some(other) => number == other,
        None => false,
    }
}

/// The one of the lower number, of two of which the first may be there.
fn lower(best: Option<Row>, row: Row) -> Option<Row>
    ensures { result ≡ lower best row }
{
    match best {
        Some(other) if other.number <= row.number => Some(other),
        _ => Some(row),
    }
}
