//! Laws of the checker. Each function does nothing; its contract is the law.

ghost use Rattle.sf_check.specs.Checked.Laws.{ProvenFromTruncation, ProvesNotRefused, ProvesOrRefused, RefusedOnce};

use sf_precise::laws::ordering_exists;
use sf_rules::laws::{arranged_has_setting, setting_is_unique};

/// Tags prove the program, or are refused.
#[tactic(auto, using(crate::proofs::Closing::proves_or_refused))]
pub fn proves_or_refused()
    ensures { ProvesOrRefused }
{}

/// Tags that prove the program are not refused.
#[tactic(auto, using(crate::proofs::Closing::proves_not_refused))]
pub fn proves_not_refused()
    ensures { ProvesNotRefused }
{}

/// Tags are refused at one number, and for one reason.
#[tactic(auto, using(crate::proofs::Closing::refused_once))]
pub fn refused_once()
    ensures { RefusedOnce }
{}

/// That tags prove a program follows from its truncation.
pub fn proven_from_truncation()
    ensures { ProvenFromTruncation }
{
    ordering_exists();
    setting_is_unique();
    arranged_has_setting();
}
