//! Receipts: what a table has seen of a task.

ghost use Rattle.std.specs.Prelude.{◌≡◌};
ghost use Rattle.sf_region.specs.Waits.{Missed};

use crate::views::View;
use atomic_table::Seat;
use sf_base::{ResId, TaskPath};
use sf_part::Content;
use std::marker::Model;

/// A receipt for the misses of a task at a region since the task's last event. A call of the table
/// makes it, and nothing else does.
#[derive(Drop)]
pub struct Misses<'p> {
    pub(crate) note: Seat<Option<Content>, View<'p>>,
    pub(crate) task: TaskPath,
    pub(crate) resource: ResId,
    pub(crate) count: u32,
}

impl<'p> Model for Misses<'p> {
    ghost use Rattle.std.specs.Prelude.{◌≡◌};
    ghost use Rattle.sf_part.specs.PartView.{part_of};
    ghost use Rattle.sf_region.specs.Plays.{Known};
    ghost use Rattle.sf_region.specs.Receipt.{Receipt};
    ghost use Rattle.std.specs.Coded.{codes};
    ghost use denote.Signature.{static_lft};
    ghost use Rattle.sf_region.specs.contracts.views.Begun as begun;

    ghost Value = { Receipt };

    ghost coded = { Prim.hlevel (codes, (begun.the_row static_lft).coded) };

    ghost view = { λ m. record {
      begun = m.note.me.0.begun;
      task = m.task;
      resource = m.resource;
      count = m.count;
    } };

    ghost invariant = { λ m. (m.task ≡ (part_of m.note.me.0.part).part.task)
        × (m.resource ≡ m.note.me.0.missed)
        × (m.count ≡ m.note.me.0.misses)
        × Known m.note.me.0 };
}

impl<'p> Misses<'p> {
    /// The task.
    pub fn task(&self) -> TaskPath
        ensures { result ≡ self.now.task }
    {
        self.task
    }

    /// The resource of the region.
    pub fn resource(&self) -> ResId
        ensures { result ≡ self.now.resource }
    {
        self.resource
    }

    /// How many, up to 2^32 - 1. In some list of events from where the table began there are as
    /// many places at which a try of the task may miss, with no event of it between them.
    pub fn count(&self) -> u32
        ensures value { result ≡ self.now.count }
        ensures places { Missed self.now.begun self.now.task self.now.resource self.now.count }
    {
        self.count
    }
}

/// A receipt that a table was closed with its first task ended. The call that closes a table makes
/// it, and nothing else does. Contracts see with what the table began.
#[derive(Drop)]
pub struct Closed<'p> {
    pub(crate) note: Seat<Option<Content>, View<'p>>,
}

impl<'p> Model for Closed<'p> {
    ghost use Rattle.std.specs.Coded.{codes};
    ghost use denote.Signature.{static_lft};
    ghost use Rattle.sf_region.specs.contracts.views.Begun as begun;
    ghost use Rattle.sf_region.specs.declared.views.Begun.{Begun};

    ghost Value = { Begun };

    ghost coded = { Prim.hlevel (codes, (begun.the_row static_lft).coded) };

    ghost view = { λ c. c.note.me.0.begun };
}
