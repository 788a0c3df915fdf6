//! What the tests of a state tell of each store and heap of which a goal with that state holds.
//! Each function is a law: calling it gives its fact to the caller's proof, and does nothing.

ghost use Rattle.sf_sym.specs.Checked.Laws.{AllocatedTermsAreLocations, AssumedTermsAreBelow, DifferingTermsDiffer, DifferingTermsMayBeAssumed, EqualTermsMayBeAssumed, HeldStatesAreNotAbsurd, HoldsOnTwoHeaps, OtherSymbolsAreFree, RestatedTermsAreSet};

/// Terms for which `State::differs` is true have different values.
#[tactic(auto, using(crate::specs::Checked::Lemmas::States::differing_terms_differ))]
pub fn differing_terms_differ()
    ensures { DifferingTermsDiffer }
{}

/// A term for which `State::allocated` is true is the location of a cell of the heap.
#[tactic(auto, using(crate::specs::Checked::Lemmas::States::allocated_terms_are_locations))]
pub fn allocated_terms_are_locations()
    ensures { AllocatedTermsAreLocations }
{}

/// `State::is_absurd` is false.
#[tactic(auto, using(crate::specs::Checked::Lemmas::States::held_states_are_not_absurd))]
pub fn held_states_are_not_absurd()
    ensures { HeldStatesAreNotAbsurd }
{}

/// A goal holds of a heap exactly where it holds of two parts of it: what is there, and what was
/// handed over.
#[tactic(auto, using(crate::specs::Checked::Lemmas::TwoHeaps::holds_on_two_heaps))]
pub fn holds_on_two_heaps()
    ensures { HoldsOnTwoHeaps }
{}

/// What a goal stands for rests on no symbol's value but those below its next one.
#[tactic(auto, using(crate::specs::Checked::Lemmas::TwoHeaps::other_symbols_are_free))]
pub fn other_symbols_are_free()
    ensures { OtherSymbolsAreFree }
{}

/// Two terms of one value may be assumed to be the same.
#[tactic(auto, using(crate::specs::Checked::Lemmas::TwoHeaps::equal_terms_may_be_assumed))]
pub fn equal_terms_may_be_assumed()
    ensures { EqualTermsMayBeAssumed }
{}

/// Two terms of different values may be assumed to differ.
#[tactic(auto, using(crate::specs::Checked::Lemmas::TwoHeaps::differing_terms_may_be_assumed))]
pub fn differing_terms_may_be_assumed()
    ensures { DifferingTermsMayBeAssumed }
{}

/// A goal still speaks of symbols below its next one only, where two terms of such symbols are
/// assumed to be the same or to differ.
#[tactic(auto, using(crate::specs::Checked::Lemmas::TwoHeaps::assumed_terms_are_below))]
pub fn assumed_terms_are_below()
    ensures { AssumedTermsAreBelow }
{}

/// Variables are to get terms of the same values where what is still to do is the same with other
/// terms.
#[tactic(auto, using(crate::specs::Checked::Lemmas::Restated::restated_terms_are_set))]
pub fn restated_terms_are_set()
    ensures { RestatedTermsAreSet }
{}
