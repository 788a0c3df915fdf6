//! The pairs of terms that differ: in the order in which they came, and beyond a few as a set too.

ghost use Rattle.std.specs.Prelude.{◌≡◌, ◌||◌, ◌++◌, ◌∷◌, [], map, IfOk, IfSome, OnErr, OnOk};
ghost use Rattle.std.specs.List.{list_any};
ghost use Rattle.sf_sym.specs.Equalities.{put_for};
ghost use Rattle.sf_sym.specs.Tests.{differs_at_once, has_cell, is_pair, same_term};
ghost use Rattle.sf_sym.specs.Checked.Rows.{bare};
ghost use Rattle.sf_sym.specs.Checked.Sets.{AreSame};

use crate::outline::Outline;
use crate::replace::Replacement;
use crate::term::Term;
use indexmap::IndexSet;
use std::alloc::{AllocError, Global};
use std::marker::Model;

/// Up to so many pairs are looked through one by one: that is as fast as a look-up, and the list
/// alone is copied at once.
const FEW: usize = 16;

/// Pairs of terms that differ. Contracts see them in the order in which they came.
pub(crate) struct Pairs {
    list: Vec<(Term, Term)>,
    /// The same pairs, each once, where there are more than a few. In a box, as a state is moved at
    /// each step and most often has few.
    set: Option<Box<IndexSet<(Term, Term)>>>,
    /// Whether one of them is of one term.
    reflexive: bool,
}

// A call for the proofs of those who drop one, as that of an index.
impl Drop for Pairs {
    fn drop(self) {
        let Pairs {
            list: _,
            set: _,
            reflexive: _,
        } = self;
    }
}

impl Model for Pairs {
    ghost use Rattle.std.specs.Prelude.{◌≡◌, IfSome, List};
    ghost use Rattle.std.specs.List.{list_any};
    ghost use Rattle.sf_sym.specs.declared.term.Term.{Term};

    ghost Value = { List (Term × Term) };

    ghost use Rattle.sf_sym.specs.Tests.{same_term};
    ghost use Rattle.sf_sym.specs.Checked.Sets.{AreSame};

    ghost invariant = { λ s. IfSome s.set (λ set. AreSame s.list.items set.value.keys)
        × (s.reflexive ≡ list_any (λ p. same_term p.0 p.1) s.list.items) };

    ghost view = { λ s. s.list.items };
}

impl Pairs {
    /// No pairs.
    pub(crate) fn new(alloc: Global) -> Pairs
        ensures { result ≡ [] }
    {
        Pairs {
            list: Vec::new(alloc),
            set: None,
            reflexive: false,
        }
    }

    /// The pairs.
    pub(crate) fn as_slice(&self) -> &[(Term, Term)]
        ensures { result.now ≡ self.now }
    {
        self.list.as_slice()
    }

    /// Whether one of the pairs is of these terms.
    fn lists(&self, t: Term, u: Term) -> bool
        ensures { result ≡ list_any (is_pair t u) self.now }
    {
        match &self.set {
            Some(set) => is_in(set, self.list.as_slice(), t, u),
            None => is_among(self.list.as_slice(), t, u),
        }
    }

    /// Whether two terms differ at once: different constants, or one of the pairs.
    pub(crate) fn differ(&self, t: Term, u: Term) -> bool
        ensures { result ≡ differs_at_once self.now t u }
    {
        t.is_constant() && u.is_constant() && !t.is(u) || self.lists(t, u)
    }

    /// Whether an atom of the outline has a cell at each of its roots.
    pub(crate) fn give_cell(&self, outline: &Outline) -> bool
        ensures { result ≡ has_cell self.now (bare outline.now) }
    {
        match outline {
            Outline::Cell(_) => true,
            Outline::Segment(t, u) => self.differ(*t, *u),
            Outline::Tree(t) => self.differ(*t, Term::Nil),
            Outline::Double(v, _, _, u) => self.differ(*v, *u),
        }
    }

    /// Whether a term is to differ from itself.
    pub(crate) fn are_reflexive(&self) -> bool
        ensures { result ≡ list_any (λ p. same_term p.0 p.1) self.now }
    {
        self.reflexive
    }

    /// The two terms differ from now on. An `Err` means out of memory, and then nothing changes.
    pub(crate) fn push(&mut self, t: Term, u: Term) -> Result<(), AllocError>
        ensures ok { OnOk result (self.new ≡ self.old ++ (t, u) ∷ []) }
        ensures err { OnErr result (self.new ≡ self.old) }
    {
        self.list.reserve(1)?;
        let alloc = *self.list.allocator();
        note(alloc, &mut self.set, self.list.as_slice(), (t, u))?;
        self.list.push_reserved((t, u));
        self.reflexive = self.reflexive || t.is(u);
        Ok(())
    }

    /// The pairs with a symbol replaced. An `Err` means out of memory.
    pub(crate) fn with(&self, alloc: Global, r: Replacement) -> Result<Pairs, AllocError>
        ensures { IfOk result (λ pairs. pairs
            ≡ map (λ p. (put_for r.symbol r.by p.0, put_for r.symbol r.by p.1)) self.now) }
    {
        let mut pairs = Pairs::new(alloc);
        pairs.list.reserve(self.list.len())?;
        let mut left = self.as_slice();
        while let Some((p, rest)) = left.split_first() {
            pairs.push(r.term(p.0), r.term(p.1))?;
            left = rest;
        }
        Ok(pairs)
    }

    /// The same pairs. An `Err` means out of memory.
    pub(crate) fn copy(&self, alloc: Global) -> Result<Pairs, AllocError>
        ensures { IfOk result (λ pairs. pairs ≡ self.now) }
    {
        // With room for one more: where a goal is split, its copy gets a pair at once.
        let mut list = Vec::with_capacity(alloc, self.list.len().saturating_add(1))?;
        list.extend_from_slice(self.list.as_slice())?;
        let set = copied(alloc, self.list.as_slice(), &self.set)?;
        Ok(Pairs {
            list,
            set,
            reflexive: self.reflexive,
        })
    }
}

/// Whether one of the pairs is of these terms.
fn is_among(pairs: &[(Term, Term)], t: Term, u: Term) -> bool
    ensures { result ≡ list_any (is_pair t u) pairs.now }
{
    pairs
        .iter()
        .any(|p| p.0.is(t) && p.1.is(u) || p.0.is(u) && p.1.is(t))
}

/// The same, by the set of the pairs of the list.
fn is_in(set: &IndexSet<(Term, Term)>, list: &[(Term, Term)], t: Term, u: Term) -> bool
    requires { AreSame list.now set.now.keys }
    ensures { result ≡ list_any (is_pair t u) list.now }
{
    set.contains(&(t, u)) || set.contains(&(u, t))
}

/// The pairs of the list and one more, each once. An `Err` means out of memory.
fn set_of(
    alloc: Global,
    list: &[(Term, Term)],
    pair: (Term, Term),
) -> Result<IndexSet<(Term, Term)>, AllocError>
    ensures { IfOk result (λ set. AreSame (list.now ++ pair ∷ []) set.keys) }
{
    let mut set = IndexSet::with_capacity(alloc, 2 * list.len())?;
    let mut left = list;
    while let Some((p, rest)) = left.split_first() {
        set.insert(*p)?;
        left = rest;
    }
    set.insert(pair)?;
    Ok(set)
}

/// One pair more in the set of a list. An `Err` means out of memory, and then nothing changes.
fn put(
    set: &mut IndexSet<(Term, Term)>,
    list: &[(Term, Term)],
    pair: (Term, Term),
) -> Result<(), AllocError>
    requires { AreSame list.now set.old.keys }
    ensures ok { OnOk result (AreSame (list.now ++ pair ∷ []) set.new.keys) }
    ensures err { OnErr result (set.new.keys ≡ set.old.keys) }
{
    set.insert(pair)?;
    Ok(())
}

/// The list is to have one pair more: so has its set, which is made once there are more than a few.
/// An `Err` means out of memory, and then the set has the pairs that it had.
fn note(
    alloc: Global,
    set: &mut Option<Box<IndexSet<(Term, Term)>>>,
    list: &[(Term, Term)],
    pair: (Term, Term),
) -> Result<(), AllocError>
    requires { IfSome set.old (λ had. AreSame list.now had.value.keys) }
    ensures ok { OnOk result (IfSome set.new (λ has. AreSame (list.now ++ pair ∷ []) has.value.keys)) }
    ensures err { OnErr result (IfSome set.new (λ has. AreSame list.now has.value.keys)) }
{
    match set {
        Some(set) => {
            put(set, list, pair)?;
        }
        None if list.len() < FEW => {}
        None => *set = Some(Box::new(alloc, set_of(alloc, list, pair)?)?),
    }
    Ok(())
}

/// The same set. An `Err` means out of memory.
fn cloned(
    alloc: Global,
    set: &IndexSet<(Term, Term)>,
) -> Result<Box<IndexSet<(Term, Term)>>, AllocError>
    ensures { IfOk result (λ made. made.value.keys ≡ set.now.keys) }
{
    Ok(Box::new(alloc, set.clone()?)?)
}

/// A copy of the set of a list. An `Err` means out of memory.
fn copied(
    alloc: Global,
    list: &[(Term, Term)],
    set: &Option<Box<IndexSet<(Term, Term)>>>,
) -> Result<Option<Box<IndexSet<(Term, Term)>>>, AllocError>
    requires { IfSome set.now (λ it. AreSame list.now it.value.keys) }
    ensures { IfOk result (λ made. IfSome made (λ it. AreSame list.now it.value.keys)) }
{
    match set {
        Some(set) => Ok(Some(cloned(alloc, set)?)),
        None => Ok(None),
    }
}
