//! Laws of orders. Each function does nothing; its contract is the law.

ghost use Rattle.sf_precise.specs.Checked.Laws.{DeterminedHasOrder, UndeterminedHasPlace, UndeterminedAnnotationsHavePlace, TakenFixExistentials, NeverTakenIsUndetermined, OrderIsUnique, OrderKeepsForm, OrderKeepsMeaning, OrderedIsDetermined, OrdersFromTruncation, InOrderIsDetermined, OrderingExists};

/// An assertion has one order at most.
#[tactic(auto, using(crate::proofs::Closing::order_is_unique))]
pub fn order_is_unique()
    ensures { OrderIsUnique }
{}

/// An assertion in order is determined, and its conjuncts are in an order in which each is ready
/// when it comes.
#[tactic(auto, using(crate::proofs::Closing::ordered_is_determined))]
pub fn ordered_is_determined()
    ensures { OrderedIsDetermined }
{}

/// An assertion whose conjuncts are so is determined.
#[tactic(auto, using(crate::proofs::Closing::in_order_is_determined))]
pub fn in_order_is_determined()
    ensures { InOrderIsDetermined }
{}

/// An assertion with a conjunct that is never taken is not determined.
#[tactic(auto, using(crate::proofs::Closing::never_taken_is_undetermined))]
pub fn never_taken_is_undetermined()
    ensures { NeverTakenIsUndetermined }
{}

/// A determined assertion has its order.
#[tactic(auto, using(crate::proofs::Closing::determined_has_order))]
pub fn determined_has_order()
    ensures { DeterminedHasOrder }
{}

/// An assertion is determined, or has a first conjunct that is never taken.
#[tactic(auto, using(crate::proofs::Closing::undetermined_has_place))]
pub fn undetermined_has_place()
    ensures { UndeterminedHasPlace }
{}

/// Annotations are all determined, or there is a first place among them at which a conjunct is
/// never taken.
pub fn undetermined_annotations_have_place()
    ensures { UndeterminedAnnotationsHavePlace }
{}

/// Conjuncts that were taken fix the values of what became known by them.
#[tactic(auto, using(crate::proofs::Closing::taken_fix_existentials))]
pub fn taken_fix_existentials()
    ensures { TakenFixExistentials }
{}

/// An assertion in order means the same.
#[tactic(auto, using(crate::proofs::Closing::order_keeps_meaning))]
pub fn order_keeps_meaning()
    ensures { OrderKeepsMeaning }
{}

/// A well-formed assertion in order is well-formed: its scopes still make no existential twice.
#[tactic(auto, using(crate::proofs::Closing::order_keeps_form))]
pub fn order_keeps_form()
    ensures { OrderKeepsForm }
{}

/// That assertions are others in order follows from its truncation.
#[tactic(auto, using(crate::proofs::Closing::orders_from_truncation))]
pub fn orders_from_truncation()
    ensures { OrdersFromTruncation }
{}

/// One function puts each determined assertion in its order.
#[tactic(auto, using(crate::proofs::Closing::ordering_exists))]
pub fn ordering_exists()
    ensures { OrderingExists }
{}
