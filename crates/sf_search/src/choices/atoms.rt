//! What is done where a cell is wanted, and where a goal would be stuck: the lowest part of the heap
//! of which it isn't known whether it is empty is split.

ghost use Rattle.std.specs.Prelude.{◌≡◌, MatchResult, None, Some};
ghost use Rattle.std.specs.Option.{option_map};
ghost use Rattle.sf_search.specs.Checked.Chooses.{opened, opened_back, opened_by, opened_double, split_or};
ghost use Rattle.sf_search.specs.Strategy.{lower, lowest, or_else, undecided_ends};
ghost use Rattle.sf_sym.specs.Cells.{fields_at};
ghost use Rattle.sf_sym.specs.Tests.{parts};

use crate::choices::choice::Choice;
use crate::choices::seeking::{
    lowest_cell, lowest_double, lowest_last, lowest_segment, lowest_tree,
};
use sf_sym::{Atom, Numbered, State, Stuck, Tag, Term};

/// Where a goal would be stuck: the ends of the lowest atom or taken atom of which it isn't known
/// whether it is empty are split, and without one the goal is stuck for that reason.
pub(crate) fn split_or(state: &State, kind: Stuck) -> Choice
    ensures { result ≡ split_or state.now kind }
{
    match lowest_undecided(state) {
        Some((_, (t, u))) => Choice::Takes(Tag::Split(t, u)),
        None => Choice::Stays(kind),
    }
}

/// The lowest atom or taken atom of which it isn't known whether it is empty: its number and its
/// ends.
#[tactic(auto, using(crate::proofs::Lowest::lowest_append))]
fn lowest_undecided(state: &State) -> Option<(u32, (Term, Term))>
    ensures { result ≡ lowest (undecided_ends state.now) (parts state.now) }
{
    lower(
        first_undecided(state),
        lowest_undecided_of(state, state.taken()),
    )
}

/// The same among the atoms that are there, which are in the order of their numbers.
fn first_undecided(state: &State) -> Option<(u32, (Term, Term))>
    ensures { result ≡ lowest (undecided_ends state.now) state.now.atoms }
{
    state.is_numbered();
    let mut left = state.atoms();
    while let Some((first, rest)) = left.split_first() {
        if let Some(ends) = undecided_ends(state, &first.atom) {
            return Some((first.number, ends));
        }
        left = rest;
    }
    None
}

/// The same among these atoms.
#[tactic(auto, using(crate::proofs::Lowest::lower_assoc))]
fn lowest_undecided_of(state: &State, atoms: &[Numbered]) -> Option<(u32, (Term, Term))>
    ensures { result ≡ lowest (undecided_ends state.now) atoms.now }
{
    let mut best = None;
    let mut left = atoms;
    while let Some((first, rest)) = left.split_first() {
        if let Some(ends) = undecided_ends(state, &first.atom) {
            best = lower(best, Some((first.number, ends)));
        }
        left = rest;
    }
    best
}

/// What has the lower number, of two things that are there or not.
fn lower(
    a: Option<(u32, (Term, Term))>,
    b: Option<(u32, (Term, Term))>,
) -> Option<(u32, (Term, Term))>
    ensures { result ≡ lower a b }
{
    match (a, b) {
        (Some(x), Some(y)) => if y.0 < x.0 { Some(y) } else { Some(x) }
        (Some(x), None) => Some(x),
        (None, y) => y,
    }
}

/// The ends of a segment or tree of which it isn't known whether it is empty.
fn undecided_ends(state: &State, atom: &Atom) -> Option<(Term, Term)>
    ensures { result ≡ undecided_ends state.now atom.now }
{
    let (t, u) = atom.ends()?;
    if t.is(u) || state.differs(t, u) {
        None
    } else {
        Some((t, u))
    }
}

/// The number of the lowest cell at the term. Where there is none the `Err` is what is done: a part
/// of the heap that may begin with one is opened, and without one the goal would be stuck for that
/// reason.
pub(crate) fn at_cell(state: &State, t: Term, kind: Stuck) -> Result<u32, Choice>
    ensures { MatchResult result
        (λ a. Some a ≡ option_map (λ f. f.0) (lowest (λ x. fields_at x t) state.now.atoms))
        (λ c. (None ≡ option_map (λ f. f.0) (lowest (λ x. fields_at x t) state.now.atoms))
        × (c ≡ or_else (opened state.now t) (split_or state.now kind))) }
{
    match lowest_cell(state, t) {
        Some(a) => Ok(a),
        None => Err(without_cell(state, t, kind)),
    }
}

/// Where a cell at the term is wanted and there is none: a part of the heap that may begin with one
/// is opened, and without one the goal would be stuck for that reason.
fn without_cell(state: &State, t: Term, kind: Stuck) -> Choice
    ensures { result ≡ or_else (opened state.now t) (split_or state.now kind) }
{
    match opened(state, t) {
        Some(choice) => choice,
        None => split_or(state, kind),
    }
}

/// The lowest segment from the term is opened, or else the lowest tree there, or else a doubly linked
/// segment.
fn opened(state: &State, t: Term) -> Option<Choice>
    ensures { result ≡ opened state.now t }
{
    if let Some((a, end)) = lowest_segment(state, t) {
        return Some(opened_by(state, t, end, a));
    }
    if let Some(a) = lowest_tree(state, t) {
        return Some(opened_by(state, t, Term::Nil, a));
    }
    opened_double(state, t)
}

/// The lowest doubly linked segment from the term is opened, or else the lowest whose last cell may be
/// there.
fn opened_double(state: &State, t: Term) -> Option<Choice>
    ensures { result ≡ opened_double state.now t }
{
    if let Some((a, (_, _, end))) = lowest_double(state, t) {
        return Some(opened_by(state, t, end, a));
    }
    let (a, (first, end)) = lowest_last(state, t)?;
    Some(opened_back(state, first, end, a))
}

/// A doubly linked segment with these ends is unrolled from its last cell where it surely isn't empty,
/// and else its ends are split.
fn opened_back(state: &State, first: Term, end: Term, a: u32) -> Choice
    ensures { result ≡ opened_back state.now (a, (first, end)) }
{
    if state.differs(first, end) {
        Choice::Takes(Tag::Back(a))
    } else {
        Choice::Takes(Tag::Split(first, end))
    }
}

/// A segment or tree with these ends is unrolled where it surely isn't empty, and else its ends are
/// split.
fn opened_by(state: &State, t: Term, u: Term, a: u32) -> Choice
    ensures { result ≡ opened_by state.now t u a }
{
    if state.differs(t, u) {
        Choice::Takes(Tag::Unroll(a))
    } else {
        Choice::Takes(Tag::Split(t, u))
    }
}
