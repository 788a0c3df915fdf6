ghost use Rattle.std.specs.Prelude.{◌≡◌, ◌<◌, length, map, slice_get, IfOk, IfSome};
ghost use Rattle.sf_core.specs.Program.View.{assertion_of, block_of, procedure_of};
ghost use Rattle.sf_core.specs.Program.ProgramView.{program_of};
ghost use Rattle.sf_calls.specs.Changes.{changes_in};
ghost use Rattle.sf_calls.specs.FirstBreach.{Conditions};
ghost use Rattle.sf_calls.specs.Sets.{AreSetsOf};
ghost use Rattle.sf_precise.specs.Annotations.{AreOrdersOf, annotations_in, owed};
ghost use Rattle.sf_precise.specs.Checked.Starts.{starts_from};
ghost use Rattle.sf_precise.specs.Order.{IsOrderOf};

use crate::laws::orders_from_truncation;
use sf_base::{ProcId, ResId};
use sf_calls::{Calls, VarSet};
use sf_core::{Command, Ordered, Program};
use std::alloc::{AllocError, Global};
use std::slice;

/// A program, what its calls reach, and its annotations in order. It keeps that the calls are the
/// program's, that no condition on its variables is broken, and that each order is that of its
/// annotation. It keeps each without telling how it was found, and a law gives it back:
/// `sets_from_truncation` and `conditions_from_truncation` of sf_calls, and
/// `orders_from_truncation` here. `arrange` makes it.
#[derive(Debug, Drop)]
pub struct Arranged {
    /// The program.
    pub program: Program,
    /// What its calls enter, hold and use.
    pub calls: Calls,
    /// The annotations in order: the resources' invariants, and then, for each procedure in file
    /// order, its pre, the invariants of its loops in text order, and its post.
    pub orders: Vec<Ordered>,
    /// Where the orders of each procedure start, and after the last ones where they end.
    pub(crate) starts: Vec<usize>,
    ghost sets: { ∥ AreSetsOf (program_of program) calls ∥₁ },
    ghost conditions: { ∥ Conditions (program_of program) ∥₁ },
    ghost ordered: { ∥ AreOrdersOf (annotations_in (program_of program))
        (map (λ o. assertion_of o.assertion) orders.items) ∥₁ },
    ghost started: { starts.items ≡ starts_from (length program.resources.items)
        (map procedure_of program.procedures.items) },
}

impl Arranged {
    /// The variables that commands may change, each once and in order of number. The commands are
    /// those of any block; of a block of the program `changes_are_assigned` of sf_calls says which
    /// they are. An `Err` is out of memory, and comes for nothing else.
    pub fn assigned(&self, alloc: Global, body: &[Command]) -> Result<VarSet, AllocError>
        ensures { IfOk result (λ xs. xs ≡ changes_in self.now.calls (block_of body.now)) }
    {
        self.calls.assigned(alloc, body)
    }

    /// The resource's invariant, in order.
    pub fn invariant(&self, r: ResId) -> &Ordered
        requires { r.0 < length self.now.program.resources.items }
        ensures { IfSome (slice_get (program_of self.now.program).resources r.0)
            (λ h. IsOrderOf h.invariant (assertion_of result.now.assertion)) }
    {
        orders_from_truncation();
        &self.orders[r.0 as usize]
    }

    /// The procedure's pre, in order.
    pub fn pre(&self, f: ProcId) -> &Ordered
        requires { f.0 < length self.now.program.procedures.items }
        ensures { IfSome (slice_get (program_of self.now.program).procedures f.0)
            (λ h. IsOrderOf h.pre (assertion_of result.now.assertion)) }
    {
        orders_from_truncation();
        &self.orders[self.starts[f.0 as usize]]
    }

    /// The procedure's post, in order.
    pub fn post(&self, f: ProcId) -> &Ordered
        requires { f.0 < length self.now.program.procedures.items }
        ensures { IfSome (slice_get (program_of self.now.program).procedures f.0)
            (λ h. IsOrderOf h.post (assertion_of result.now.assertion)) }
    {
        orders_from_truncation();
        &self.orders[self.starts[f.0 as usize + 1] - 1]
    }

    /// What the procedure's return owes, in order: its post, or the invariant of each resource where
    /// it sets the resources up.
    pub fn owed(&self, f: ProcId) -> &[Ordered]
        requires { f.0 < length self.now.program.procedures.items }
        ensures { IfSome (slice_get (program_of self.now.program).procedures f.0)
            (λ h. AreOrdersOf (owed (program_of self.now.program) h)
            (map (λ o. assertion_of o.assertion) result.now)) }
    {
        if self.program.is_init(f) {
            self.invariants()
        } else {
            slice::from_ref(self.post(f))
        }
    }

    /// The invariants of all resources, in order.
    fn invariants(&self) -> &[Ordered]
        ensures { AreOrdersOf
            (map (λ r. r.invariant) (program_of self.now.program).resources)
            (map (λ o. assertion_of o.assertion) result.now) }
    {
        orders_from_truncation();
        &self.orders[..self.program.resources.len()]
    }
}
