//! What may go to other threads, and what references to it may. Each function is a law: calling it
//! gives its fact to the caller's proof, and does nothing. The facts go up by parts, since of a
//! whole at once they aren't found.

ghost use denote.Ref.{NamedLft};
ghost use Rattle.std.specs.Thread.{IsSend, IsSync};
ghost use Rattle.sf_calls.specs.contracts.calls.Calls as calls;
ghost use Rattle.sf_core.specs.contracts.assertion.Assertion as assertion;
ghost use Rattle.sf_core.specs.contracts.command.Command as command;
ghost use Rattle.sf_core.specs.contracts.ordered.Ordered as ordered;
ghost use Rattle.sf_core.specs.contracts.program.Program as program;
ghost use Rattle.sf_precise.specs.contracts.arranged.Arranged as arranged;
ghost use Rattle.sf_sym.specs.contracts.pending.Pending as pending;
ghost use Rattle.sf_sym.specs.contracts.state.State as state;
ghost use Rattle.sf_sym.specs.contracts.tag.Tag as tag;
ghost use Rattle.sf_verify.specs.contracts.board.Found as found;

use sf_calls::Calls;
use sf_core::{Assertion, Command, Ordered, Proc, Program, Resource};
use sf_sym::{Pending, State, Tag};

/// A reference to such a value may go to another thread.
fn is_shared<T: Sync>()
    ensures { IsSync T.row }
{}

/// Such a value may go to another thread.
fn is_sent<T: Send>()
    ensures { IsSend T.row }
{}

/// Commands and assertions are shared.
fn commands_are_shared()
    ensures command { IsSync command.the_row }
    ensures assertion { IsSync assertion.the_row }
{
    is_shared::<Command>();
    is_shared::<Assertion>();
}

/// Programs are shared.
fn programs_are_shared()
    ensures { IsSync program.the_row }
{
    is_shared::<Proc>();
    is_shared::<Resource>();
    is_shared::<Program>();
}

/// What calls reach, and annotations in order, are shared.
fn sets_and_orders_are_shared()
    ensures calls { IsSync calls.the_row }
    ensures ordered { IsSync ordered.the_row }
{
    is_shared::<Calls>();
    is_shared::<Ordered>();
}

/// So are arranged programs.
pub(crate) fn arranged_programs_are_shared()
    ensures { IsSync arranged.the_row }
{
    programs_are_shared();
    sets_and_orders_are_shared();
}

/// States, conjuncts that are still to be met, and tags are sent.
fn states_and_tags_are_sent()
    ensures state { IsSend state.the_row }
    ensures pending { IsSend pending.the_row }
    ensures tag { IsSend tag.the_row }
{
    is_sent::<State>();
    is_sent::<Pending>();
    is_sent::<Tag>();
}

/// What a search comes to is sent.
pub(crate) fn findings_are_sent()
    ensures { (κ : NamedLft) → IsSend (found.the_row κ) }
{
    commands_are_shared();
    sets_and_orders_are_shared();
    states_and_tags_are_sent();
}
