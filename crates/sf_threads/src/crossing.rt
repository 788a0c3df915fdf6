//! What may go to other threads, and what references to it may. Each function is a law: calling it
//! gives its fact to the caller's proof, and does nothing.

ghost use denote.Ref.{NamedLft};
ghost use Rattle.std.specs.contracts.option.Option as option;
ghost use Rattle.std.specs.Thread.{IsSend, IsSync};
ghost use Rattle.sf_part.specs.contracts.content.Content as content;
ghost use Rattle.sf_region.specs.contracts.receipt.Misses as misses;
ghost use Rattle.sf_region.specs.contracts.regions.RegionSeat as seat;
ghost use Rattle.sf_region.specs.contracts.regions.Regions as regions;
ghost use Rattle.sf_region.specs.contracts.task.Task as task;

use sf_crossing::parts_are_sent;
use sf_part::Content;

/// Such a value may go to another thread.
fn is_sent<T: Send>()
    ensures { IsSend T.row }
{}

/// A reference to such a value may go to another thread.
fn is_shared<T: Sync>()
    ensures { IsSync T.row }
{}

/// Contents are sent, where there is one, and shared.
fn contents_are_sent()
    ensures sent { IsSend (option.the_row content.the_row) }
    ensures shared { IsSync content.the_row }
{
    is_sent::<Option<Content>>();
    is_shared::<Content>();
}

/// Seats are sent.
fn seats_are_sent()
    ensures { (κ : NamedLft) → IsSend (seat.the_row κ) }
{
    contents_are_sent();
}

/// Tasks are sent.
pub fn tasks_are_sent()
    ensures { (κ : NamedLft) → IsSend (task.the_row κ) }
{
    parts_are_sent();
    seats_are_sent();
}

/// Receipts are sent.
pub(crate) fn receipts_are_sent()
    ensures { (κ : NamedLft) → IsSend (misses.the_row κ) }
{
    contents_are_sent();
}

/// Tables are shared.
pub fn tables_are_shared()
    ensures { (κ : NamedLft) → IsSync (regions.the_row κ) }
{
    contents_are_sent();
}
