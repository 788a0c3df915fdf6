//! Whether a state has a witness: it isn't absurd, and its atoms have cells at symbols of their own,
//! at which they don't end.

ghost use Rattle.std.specs.BTreeSet.{contains};
ghost use Rattle.std.specs.Ordering.{nat_cmp};
ghost use Rattle.std.specs.List.{list_all};
ghost use Rattle.std.specs.Prelude.{◌≡◌, ◌↔◌, ◌&&◌, ◌++◌, ◌∷◌, ℕ, IfOk, IsTrue, List, false};
ghost use Rattle.sf_sym.specs.declared.term.Term.{Term as TermOf};
ghost use Rattle.sf_witness.specs.Checked.Own.{are_new, is_new, seeing};
ghost use Rattle.sf_sym.specs.Tests.{parts};
ghost use Rattle.sf_witness.specs.Normal.{Normal, all_roots, is_open, roots};

use sf_sym::{Atom, Numbered, State, Term};
use std::alloc::{AllocError, Global};
use std::collections::BTreeSet;

/// Notes a term. `true` exactly where it is a symbol that wasn't there. An `Err` means out of
/// memory.
fn note(seen: &mut BTreeSet<u32>, t: Term) -> Result<bool, AllocError>
    ensures new { IfOk result (λ b. b ≡ is_new (contains nat_cmp seen.old) t) }
    ensures noted { IfOk result (λ b. (n : ℕ) → contains nat_cmp seen.new n
        ≡ seeing t (contains nat_cmp seen.old) n) }
{
    match t {
        Term::Nil | Term::Int(_) => Ok(false),
        Term::Sym(n) => Ok(seen.insert(n)?),
    }
}

/// Notes two terms. `true` exactly where these are symbols that weren't there, and not the same. An
/// `Err` means out of memory.
fn note_two(seen: &mut BTreeSet<u32>, t: Term, u: Term) -> Result<bool, AllocError>
    ensures { IfOk result (λ b. (later : List TermOf)
        → are_new (contains nat_cmp seen.old) (t ∷ u ∷ later)
        ≡ (b && are_new (contains nat_cmp seen.new) later)) }
{
    if !note(seen, t)? {
        return Ok(false);
    }
    note(seen, u)
}

/// Notes where the atom has its cells, if it has some. `true` exactly where these are at symbols that
/// weren't there, each at its own. An `Err` means out of memory.
fn note_root(seen: &mut BTreeSet<u32>, atom: &Atom) -> Result<bool, AllocError>
    ensures { IfOk result (λ b. (later : List TermOf)
        → are_new (contains nat_cmp seen.old) (roots atom.now ++ later)
        ≡ (b && are_new (contains nat_cmp seen.new) later)) }
{
    if atom.is_nothing() {
        return Ok(true);
    }
    match atom {
        Atom::Points(t, _) | Atom::Ls(t, _) | Atom::Tree(t) => note(seen, *t),
        Atom::Dll(v, _, l, _) => {
            if l.is(*v) {
                return note(seen, *v);
            }
            note_two(seen, *v, *l)
        }
    }
}

/// Notes where the atoms have their cells. `true` exactly where these are symbols that weren't
/// there, each once. An `Err` means out of memory.
fn note_roots(seen: &mut BTreeSet<u32>, atoms: &[Numbered]) -> Result<bool, AllocError>
    ensures { IfOk result (λ b. (later : List TermOf)
        → are_new (contains nat_cmp seen.old) (all_roots atoms.now ++ later)
        ≡ (b && are_new (contains nat_cmp seen.new) later)) }
{
    let mut left = atoms;
    while let Some((first, rest)) = left.split_first() {
        if !note_root(seen, &first.atom)? {
            return Ok(false);
        }
        left = rest;
    }
    Ok(true)
}

/// Whether the atoms of the state, taken ones among them, have their cells at symbols, each at its
/// own. An `Err` means out of memory.
fn has_own_roots(alloc: Global, s: &State) -> Result<bool, AllocError>
    ensures { IfOk result (λ b. b
        ≡ are_new (λ n. false) (all_roots s.now.atoms ++ all_roots s.now.taken)) }
{
    let mut seen = BTreeSet::new(alloc);
    if !note_roots(&mut seen, s.atoms())? {
        return Ok(false);
    }
    let own = note_roots(&mut seen, s.taken())?;
    Ok(own)
}

/// Whether the atom has no cell where it ends.
fn is_open(atom: &Atom) -> bool
    ensures { result ≡ is_open atom.now }
{
    match atom {
        Atom::Points(..) | Atom::Ls(..) | Atom::Tree(_) => true,
        Atom::Dll(v, _, l, u) => atom.is_nothing() || !(v.is(*u) || l.is(*u)),
    }
}

/// Whether that is so of each of these.
fn are_open(atoms: &[Numbered]) -> bool
    ensures { result ≡ list_all (λ a. is_open a.atom) atoms.now }
{
    atoms.iter().all(|a| is_open(&a.atom))
}

/// Whether that is so of the atoms of the state, taken ones among them.
#[tactic(auto, using(crate::proofs::Normality::open_parts))]
fn has_open_parts(s: &State) -> bool
    ensures { result ≡ list_all (λ a. is_open a.atom) (parts s.now) }
{
    are_open(s.atoms()) && are_open(s.taken())
}

/// Whether the state has a witness. An `Err` means out of memory.
#[tactic(auto, using(crate::proofs::Normality::normal_is, crate::proofs::Normality::normal_has, crate::proofs::Normality::normal_open))]
pub fn is_normal(alloc: Global, s: &State) -> Result<bool, AllocError>
    ensures { IfOk result (λ b. IsTrue b ↔ Normal s.now) }
{
    if !has_own_roots(alloc, s)? {
        return Ok(false);
    }
    if !has_open_parts(s) {
        return Ok(false);
    }
    Ok(!s.is_absurd())
}
