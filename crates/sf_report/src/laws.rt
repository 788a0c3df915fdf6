//! Laws of how pairs and parts of the heap are listed. Each function does nothing; its contract is
//! the law.

ghost use Rattle.sf_report.specs.Checked.Laws.{AtomsAreListed, PairsAreListed};

/// The pairs of terms that differ are listed in order, each once, all of them and no others.
#[tactic(auto, using(crate::proofs::Listing::pairs_are_listed))]
pub fn pairs_are_listed()
    ensures { PairsAreListed }
{}

/// The parts of the heap that were handed over are listed by number, all of them and no others.
#[tactic(auto, using(crate::proofs::Listing::atoms_are_listed))]
pub fn atoms_are_listed()
    ensures { AtomsAreListed }
{}
