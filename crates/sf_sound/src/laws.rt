//! What a proof promises. Each function is a law: calling it gives its fact to the caller's proof,
//! and does nothing.

ghost use Rattle.sf_sound.specs.Checked.Bodies.{ProvedBodiesAreLocallySafe, ProvedBodiesAreSafe};
ghost use Rattle.sf_sound.specs.Proofs.{ProofsAreSound};

use sf_calls::laws::{changes_are_assigned, first_breach_is_broken};
use sf_precise::laws::{
    determined_has_order, order_keeps_form, order_keeps_meaning, ordered_is_determined,
};
use sf_rules::laws::{first_goals_are_shaped, rows_have_laws, rows_keep_shape};
use sf_safe::{locally_safe_bodies_are_safe, locally_safe_programs_are_sound};

/// The bodies of a program that tags prove by the rows of the whole table are safe as they see
/// themselves: one that is formed, meets the conditions on variables and has determined
/// annotations, proved by its own least sets and with its annotations in order.
pub fn proved_bodies_are_locally_safe()
    ensures { ProvedBodiesAreLocallySafe }
{
    first_goals_are_shaped();
    rows_keep_shape();
    rows_have_laws();
    first_breach_is_broken();
    changes_are_assigned();
    order_keeps_meaning();
    ordered_is_determined();
    order_keeps_form();
    determined_has_order();
}

/// They are safe as the machine runs them.
#[tactic(auto, using(crate::proofs::Soundness::proved_bodies_are_safe))]
pub fn proved_bodies_are_safe()
    ensures { ProvedBodiesAreSafe }
{
    proved_bodies_are_locally_safe();
    locally_safe_bodies_are_safe();
}

/// A program that tags prove by the rows of the whole table is sound: one that is formed, meets the
/// conditions on variables and has determined annotations, proved by its own least sets and with
/// its annotations in order. Whatever procedure it starts with, from whatever store and heap that
/// the precondition and the invariants allow, and whatever events come in whatever order: no event
/// touches a cell that isn't there, no two tasks race, free resources and finished calls have
/// disjoint footprints of their invariants and postconditions, and where the procedure has ended
/// nothing is leaked.
#[tactic(auto, using(crate::proofs::Soundness::proofs_are_sound))]
pub fn proofs_are_sound()
    ensures { ProofsAreSound }
{
    proved_bodies_are_locally_safe();
    locally_safe_programs_are_sound();
}
