//! Parts: one task, with all that is its own.

ghost use Rattle.sf_part.specs.Checked.KeepsIsProp.{AreOwn, AreOwn-prop, Keeps-prop};
ghost use Rattle.sf_part.specs.Keeps.{Keeps};
ghost use Rattle.sf_part.specs.Parts.{part_with};

use crate::log::Stamped;
use crate::stand::Stand;
use crate::supply::Supply;
use sf_base::TaskPath;
use sf_frame::Shared;
use sf_heap::Cell;
use std::alloc::AllocError;

/// One task's part of a run: its frames, its variables and cells, the resources that it holds, and
/// the numbers that it may still give its events. It keeps that these numbers differ, that none is
/// a location or the number of a slot of it, and that a task that waits has none; that its clock
/// and the count of these numbers are together at most `STEPS`; and that no stamp of its log is
/// above its clock.
#[derive(Drop)]
pub struct Part<'p> {
    pub(crate) task: TaskPath,
    pub(crate) stand: Stand<'p>,
    pub(crate) shared: Shared,
    pub(crate) supply: Supply,
    pub(crate) clock: u64,
    pub(crate) keeps: bool,
    pub(crate) log: Vec<Stamped>,
    pub(crate) given: u64,
    pub(crate) blank: Cell,
    ghost kept: { Keeps (part_with task stand shared supply clock keeps log.items given) } by { Keeps-prop (part_with task stand shared supply clock keeps log.items given) },
    ghost own: { AreOwn shared.held task } by { AreOwn-prop shared.held task },
}

impl<'p> Part<'p> {
    ghost use Rattle.std.specs.Prelude.{◌≡◌, ◌≢◌, ◌↔◌, [], IsTrue, OnOk};
    ghost use Rattle.sf_core.specs.Machine.Whole.{numbers};
    ghost use Rattle.sf_core.specs.Program.Syntax.{Program as P};
    ghost use Rattle.sf_part.specs.PartView.{HasLogRoom, IsPartOf, part_of};

    /// The path of its task.
    pub fn task(&self) -> TaskPath
        ensures path { result ≡ (part_of self.now).part.task }
        ensures keeps { Keeps (part_of self.now) }
    {
        self.task
    }

    /// Whether a number is left that the task may give an event: the test for the one that `enter`,
    /// `give` and `split` need. For `join` it is asked of the two children's parts.
    pub fn has_unit(&self) -> bool
        ensures { IsTrue result ↔ (numbers (part_of self.now).part.supply ≢ []) }
    {
        !self.supply.is_empty()
    }

    /// How many numbers the task was given at its start.
    pub fn given(&self) -> u64
        ensures { result ≡ (part_of self.now).given }
    {
        self.given
    }

    /// Takes room in the log for one event more, where a log is kept. An `Err` says that memory ran
    /// out. The part stays as it is.
    pub fn make_room(&mut self) -> Result<(), AllocError>
        ensures room { OnOk result (HasLogRoom self.new) }
        ensures same { part_of self.new ≡ part_of self.old }
        ensures of { (p : P) → IsPartOf p self.old → IsPartOf p self.new }
    {
        if self.keeps {
            self.log.reserve(1)?;
        }
        Ok(())
    }
}
