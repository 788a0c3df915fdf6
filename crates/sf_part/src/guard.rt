//! The conditions of regions.

ghost use Rattle.std.specs.Prelude.{◌≡◌, ◌↔◌, IsTrue};
ghost use Rattle.sf_base.specs.declared.ids.ResId.{ResId as R};
ghost use Rattle.sf_base.specs.declared.place.Place.{Place as P};
ghost use Rattle.sf_core.specs.declared.assertion.Test.{Test as T};
ghost use Rattle.sf_core.specs.declared.command.Expr.{Expr as E};
ghost use Rattle.sf_core.specs.Assertions.Sat.{IsTrueOf};
ghost use Rattle.sf_core.specs.Machine.Config.{Fixed, evaluate};
ghost use Rattle.sf_core.specs.Program.ProgramView.{program_of};
ghost use Rattle.sf_core.specs.Program.Syntax.{with, Block};
ghost use Rattle.sf_core.specs.Program.View.{command_of};
ghost use Rattle.sf_frame.specs.Frames.{fixed_of};
ghost use Rattle.sf_frame.specs.Stores.{store_of, together};
ghost use Rattle.sf_part.specs.Contents.{IsContentIn, content_of};
ghost use Rattle.sf_part.specs.Guards.{IsAtRegion, StandsAt};
ghost use Rattle.sf_part.specs.PartView.{IsPartOf, part_of};

use crate::content::Content;
use crate::part::Part;
use crate::stand::Stand;
use sf_core::{Command, Program};
use sf_frame::{Both, Frame, Next, is_true, next_of};

impl<'p> Part<'p> {
    /// Whether the condition of the region at which the task stands is true of a content of its
    /// resource, beside the task's own variables. It takes no memory, and nothing moves.
    pub fn condition(&self, p: &Program, content: &Content) -> bool
        requires of { IsPartOf (program_of p.now) self.now }
        requires content { IsContentIn (program_of p.now) content.now }
        requires region { IsAtRegion (part_of self.now).part content.now.resource }
        ensures { (f : Fixed) (test : T E)
            → StandsAt (part_of self.now).part content.now.resource f test
            → IsTrue result ↔ IsTrueOf (evaluate f.slots
            (together (part_of self.now).part.store (content_of content.now).content.store)) test }
    {
        let both = Both {
            first: &self.shared.store,
            other: &content.store,
        };
        if let Stand::Runs(stack) = &self.stand {
            if let Next::Does(frame, command) = next_of(stack, self.task.len() == 0) {
                return guard_holds(&both, frame, command);
            }
        }
        unreachable!()
    }
}

/// Whether the condition of a region is true in a frame, by the variables that are looked up.
fn guard_holds(both: &Both<'_>, frame: &Frame<'_>, command: &Command) -> bool
    requires { (place : P) × (r : R) × (test : T E) × (body : Block)
        × (command_of command.now ≡ with place r test body) }
    ensures { (place : P) (r : R) (test : T E) (body : Block)
        → command_of command.now ≡ with place r test body
        → IsTrue result ↔ IsTrueOf (evaluate (fixed_of frame.now).slots
        (together (store_of both.now.first.now) (store_of both.now.other.now))) test }
{
    let Command::With(_, _, test, _) = command else {
        unreachable!()
    };
    is_true(both, frame, test)
}
