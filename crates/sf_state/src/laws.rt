//! Laws of entries, starts and texts. Each function only cites other laws; its contract is the law.

ghost use Rattle.sf_state.specs.Checked.Laws.{EntryExists, EntryIsUnique, FinishTextExists, FinishTextIsUnique, StartExists, StartIsUnique, WrittenStatesReadBack};

use sf_calls::laws::sets_exist;
use sf_core::laws::assertions::determined_has_one_footprint;
use sf_foot::laws::footprint_is_decided;
use sf_precise::laws::{determined_has_order, order_keeps_meaning, ordered_is_determined};

/// A name is that of one entry at most, or is refused for one reason at most, and not both.
#[tactic(auto, using(crate::proofs::Once::entry_is_unique))]
pub fn entry_is_unique()
    ensures { EntryIsUnique }
{}

/// Each name is that of an entry, or is refused.
pub fn entry_exists()
    ensures { EntryExists }
{
    sets_exist();
}

/// A text is one start of a procedure at most, or is refused for one reason at most, and not both.
pub fn start_is_unique()
    ensures { StartIsUnique }
{
    determined_has_one_footprint();
}

/// Variables and cells have one text at most.
#[tactic(auto, using(crate::proofs::Once::finish_text_is_unique))]
pub fn finish_text_is_unique()
    ensures { FinishTextIsUnique }
{}

/// Variables and cells have a text.
#[tactic(auto, using(crate::proofs::Once::finish_text_exists))]
pub fn finish_text_exists()
    ensures { FinishTextExists }
{}

/// What is written of variables and cells is read back as these, where names are names and differ,
/// and values, cells and the text are within the limits.
#[tactic(auto, using(crate::proofs::Returned::written_states_read_back))]
pub fn written_states_read_back()
    ensures { WrittenStatesReadBack }
{}

/// Each text is a start of a procedure that holds no resource, or is refused.
pub fn start_exists()
    ensures { StartExists }
{
    determined_has_order();
    ordered_is_determined();
    order_keeps_meaning();
    footprint_is_decided();
}
