//! A law of footprints. The function does nothing; its contract is the law.

ghost use Rattle.sf_foot.specs.Checked.Laws.{FootprintIsDecided};

/// Whether an assertion in order has a footprint in a heap with finitely many cells is decided.
#[tactic(auto, using(crate::proofs::FootDecided::footprint_is_decided))]
pub fn footprint_is_decided()
    ensures { FootprintIsDecided }
{}
