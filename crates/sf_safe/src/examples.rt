//! Examples of safety, each the contract of a function that does nothing.

ghost use Rattle.sf_safe.specs.Checked.Examples.{FillingTwiceIsSound, SettingUpIsSound, UnmetInvariantsAreNotSound, WritingIsNotSafe};

/// A body that writes a cell which its precondition doesn't give it isn't safe for one event.
#[tactic(auto, using(crate::proofs::Writing::writing_is_not_safe))]
pub fn writing_is_not_safe()
    ensures { WritingIsNotSafe }
{}

/// Two tasks that write one cell, each inside the region of the resource that owns it, are sound.
#[tactic(auto, using(crate::proofs::FillingTwice::filling_twice_is_sound))]
pub fn filling_twice_is_sound()
    ensures { FillingTwiceIsSound }
{}

/// A program whose resource is set up by a procedure that makes the invariant's cell is sound, from
/// fresh starts too.
#[tactic(auto, using(crate::proofs::SettingUp::setting_up_is_sound))]
pub fn setting_up_is_sound()
    ensures { SettingUpIsSound }
{}

/// One whose resource is set up by a procedure that leaves the invariant unmet isn't.
#[tactic(auto, using(crate::proofs::SettingUp::unmet_invariants_are_not_sound))]
pub fn unmet_invariants_are_not_sound()
    ensures { UnmetInvariantsAreNotSound }
{}
