//! A part while its task sets the resources up. Each function is a law, and does nothing.

ghost use Rattle.sf_part.specs.Checked.LawsOfSettingUp.{
  FreshPartsSetUp,
  SettingUpGoesOn,
  SettingUpIsAlone,
};

/// A run that begins with the procedure that sets the resources up begins with such a part.
#[tactic(auto, using(crate::proofs::SettingUp::fresh_parts_set_up))]
pub fn fresh_parts_set_up()
    ensures { FreshPartsSetUp }
{}

/// Private events keep it so.
#[tactic(auto, using(crate::proofs::SettingUp::setting_up_goes_on))]
pub fn setting_up_goes_on()
    ensures { SettingUpGoesOn }
{}

/// Meanwhile the task is at no region, leaves none, and hasn't ended.
#[tactic(auto, using(crate::proofs::SettingUp::setting_up_is_alone))]
pub fn setting_up_is_alone()
    ensures { SettingUpIsAlone }
{}
