//! A program with all its annotations in order.

ghost use Rattle.std.specs.Prelude.{◌≡◌, ◌⊎◌, List, Some, length, map, IfErr, IfOk, MatchResult};
ghost use Rattle.sf_base.specs.declared.place.Place.{Place};
ghost use Rattle.sf_core.specs.Program.Syntax as s;
ghost use Rattle.sf_core.specs.Program.View.{assertion_of, procedure_of};
ghost use Rattle.sf_core.specs.Program.ProgramView.{program_of};
ghost use Rattle.sf_calls.specs.FirstBreach.{Conditions};
ghost use Rattle.sf_calls.specs.Sets.{AreSetsOf};
ghost use Rattle.sf_precise.specs.declared.fault.OrderFault.TheVariants.{OutOfMemory, Undetermined};
ghost use Rattle.sf_precise.specs.Annotations.{AreOrdersOf, IsFirstPlace, NeverTakenIn, earlier_of, annotations_in};
ghost use Rattle.sf_precise.specs.Taken.{IfUndetermined};
ghost use Rattle.sf_precise.specs.Checked.Starts.{starts_from};

use crate::annotations::annotations_in;
use crate::arranged::Arranged;
use crate::fault::{OrderFault, push};
use crate::ordering::order;
use sf_base::Place;
use sf_calls::Calls;
use sf_core::{Assertion, Ordered, Program};
use std::alloc::Global;

/// The program with each of its annotations in order. The calls are those that `reach` finds for
/// it, and no condition on its variables is broken. `Undetermined` comes exactly where an
/// annotation has no order, with the place of the first conjunct in the file that is never taken;
/// instead of either answer memory may have run out.
pub fn arrange(alloc: Global, p: Program, c: Calls) -> Result<Arranged, OrderFault>
    requires sets { AreSetsOf (program_of p) c }
    requires conditions { Conditions (program_of p) }
    ensures program { IfOk result (λ a. a.program ≡ p) }
    ensures calls { IfOk result (λ a. a.calls ≡ c) }
    ensures orders { IfOk result (λ a.
        AreOrdersOf (annotations_in (program_of p))
        (map (λ o. assertion_of o.assertion) a.orders.items)) }
    ensures undetermined { IfErr result
        (λ e. IfUndetermined e
        (λ q. IsFirstPlace (NeverTakenIn (annotations_in (program_of p))) (Some q))) }
    ensures only_arranged { (orders : List s.Assertion)
        → AreOrdersOf (annotations_in (program_of p)) orders
        → MatchResult result (λ a. map (λ o. assertion_of o.assertion) a.orders.items ≡ orders)
        (λ e. e ≡ OutOfMemory) }
    ensures only_undetermined { (q : Place)
        → IsFirstPlace (NeverTakenIn (annotations_in (program_of p))) (Some q)
        → MatchResult result (λ _. ⊥) (λ e. (e ≡ Undetermined q) ⊎ (e ≡ OutOfMemory)) }
{
    let found = order_annotations(alloc, &p)?;
    Ok(Arranged {
        program: p,
        calls: c,
        orders: found.orders,
        starts: found.starts,
    })
}

/// Annotations in order, and where those of each procedure start.
#[derive(Drop)]
struct Found {
    orders: Vec<Ordered>,
    starts: Vec<usize>,
}

/// The orders of the program's annotations, or the first place at which a conjunct is never taken.
fn order_annotations(alloc: Global, p: &Program) -> Result<Found, OrderFault>
    ensures orders { IfOk result (λ found.
        AreOrdersOf (annotations_in (program_of p.now))
        (map (λ o. assertion_of o.assertion) found.orders.items)) }
    ensures starts { IfOk result (λ found. found.starts.items
        ≡ starts_from (length p.now.resources.items) (map procedure_of p.now.procedures.items)) }
    ensures undetermined { IfErr result
        (λ e. IfUndetermined e
        (λ q. IsFirstPlace (NeverTakenIn (annotations_in (program_of p.now))) (Some q))) }
{
    let notes = annotations_in(alloc, p)?;
    let orders = order_all(alloc, &notes.assertions)?;
    Ok(Found {
        orders,
        starts: notes.starts,
    })
}

/// The annotations in order, or the first place at which a conjunct of one is never taken.
fn order_all(alloc: Global, notes: &[&Assertion]) -> Result<Vec<Ordered>, OrderFault>
    ensures orders { IfOk result (λ orders.
        AreOrdersOf (map (λ a. assertion_of a.now) notes.now)
        (map (λ o. assertion_of o.assertion) orders.items)) }
    ensures undetermined { IfErr result
        (λ e. IfUndetermined e
        (λ q. IsFirstPlace (NeverTakenIn (map (λ a. assertion_of a.now) notes.now)) (Some q))) }
{
    let mut orders = Vec::with_capacity(alloc, notes.len())?;
    let mut first = None;
    for a in notes {
        match order(alloc, a) {
            Ok(ordered) => push(&mut orders, ordered)?,
            Err(OrderFault::Undetermined(place)) => first = Some(earlier(first, place)),
            Err(OrderFault::OutOfMemory) => return Err(OrderFault::OutOfMemory),
        }
    }
    match first {
        None => Ok(orders),
        Some(place) => Err(OrderFault::Undetermined(place)),
    }
}

/// The earlier of two places, where there may be no first one.
fn earlier(first: Option<Place>, place: Place) -> Place
    ensures { result ≡ earlier_of first place }
{
    match first {
        None => place,
        Some(other) => { if place.is_before(other) { place } else { other } }
    }
}
