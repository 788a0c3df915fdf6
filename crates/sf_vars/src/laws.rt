//! That each program has one answer, and that nothing comes earlier than what is first. Each
//! function does nothing; its contract is the law.

ghost use Rattle.sf_vars.specs.Checked.Laws.{EachProgramHasAnAnswer, EachProgramHasOneAnswer, NothingComesEarlier};

/// No condition on variables is broken, or a fault comes first.
#[tactic(auto, using(crate::proofs::Closing::each_program_has_an_answer))]
pub fn each_program_has_an_answer()
    ensures { EachProgramHasAnAnswer }
{}

/// A program has one first fault at most, and none where no condition is broken.
#[tactic(auto, using(crate::proofs::Closing::each_program_has_one_answer))]
pub fn each_program_has_one_answer()
    ensures { EachProgramHasOneAnswer }
{}

/// No breach of the conditions on variables is in an earlier procedure than the first one, or at an
/// earlier command of that procedure, or of an earlier kind at that command.
#[tactic(auto, using(crate::proofs::Closing::nothing_comes_earlier))]
pub fn nothing_comes_earlier()
    ensures { NothingComesEarlier }
{}
