//! The witness of a goal.

ghost use Rattle.std.specs.Prelude.{◌≡◌, ◌↔◌, IfNone, IfOk, IfSome, IsTrue, false};
ghost use Rattle.sf_heap.specs.Cells.{heap_of};
ghost use Rattle.sf_sym.specs.Goal.{goal_of};
ghost use Rattle.sf_witness.specs.Normal.{Normal};
ghost use Rattle.sf_witness.specs.Satisfied.{HasCells, Satisfied};
ghost use Rattle.sf_witness.specs.Wanted.{WantHolds, whole_heap};
ghost use Rattle.sf_witness.specs.WitnessState.{values};

use crate::cells::add_atoms;
use crate::laws::witnesses_satisfy;
use crate::normal::is_normal;
use crate::values::values;
use crate::wanted::{left_has, whole_has};
use sf_base::{Value, Var};
use sf_core::Program;
use sf_heap::Heap;
use sf_sym::{Goal, Stuck};
use std::alloc::{AllocError, Global};

/// A concrete state that satisfies what a goal knows.
#[derive(Drop)]
pub struct Witness {
    /// The values of the goal's variables, in the order of the variables.
    pub vars: Vec<(Var, Value)>,
    /// The cells, with a value for each of the program's fields at least.
    pub heap: Heap,
    /// Whether what the goal is stuck at isn't so there.
    pub fails: bool,
}

/// The heap of the goal's atoms, taken ones among them, and whether what the goal is stuck at is so
/// there. An `Err` means out of memory.
fn heap_and_want(
    alloc: Global,
    fields: usize,
    goal: &Goal,
    kind: Stuck,
) -> Result<(Heap, bool), AllocError>
    ensures heap { IfOk result (λ r. heap_of r.0 ≡ whole_heap goal.now.state) }
    ensures want { IfOk result (λ r. IsTrue r.1 ↔ WantHolds (goal_of goal.now) kind) }
{
    let s = &goal.state;
    let mut heap = Heap::new(alloc);
    add_atoms(alloc, &mut heap, fields, s.links(), s.atoms())?;
    let of_left = left_has(alloc, &heap, goal, kind)?;
    add_atoms(alloc, &mut heap, fields, s.links(), s.taken())?;
    let holds = match kind {
        Stuck::NoCell => whole_has(&heap, goal),
        _ => of_left,
    };
    Ok((heap, holds))
}

/// The witness of a goal at which a search has no rule, for that reason: each symbol a location of
/// its own, one cell for each cell, segment and tree of the state, taken ones among them, and nil in
/// each field that isn't known. `None` exactly where the state isn't normal; an `Err` means out of
/// memory. Nothing says that a run can come to this state. The work grows with the state as sorting
/// it would.
pub fn witness_of(
    alloc: Global,
    p: &Program,
    goal: &Goal,
    kind: Stuck,
) -> Result<Option<Witness>, AllocError>
    ensures none { IfOk result (λ w. IfNone w (Normal goal.now.state → ⊥)) }
    ensures normal { IfOk result (λ w. IfSome w (λ x. Normal goal.now.state)) }
    ensures vars { IfOk result (λ w. IfSome w (λ x. x.vars.items ≡ values goal.now.state.vars)) }
    ensures heap { IfOk result (λ w. IfSome w
        (λ x. heap_of x.heap ≡ whole_heap goal.now.state)) }
    ensures satisfied { HasCells goal.now.state → IfOk result (λ w. IfSome w
        (λ x. Satisfied goal.now.state x.vars.items (heap_of x.heap))) }
    ensures fails { IfOk result (λ w. IfSome w
        (λ x. x.fails ≡ false ↔ WantHolds (goal_of goal.now) kind)) }
{
    witnesses_satisfy();
    if !is_normal(alloc, &goal.state)? {
        return Ok(None);
    }
    let (heap, holds) = heap_and_want(alloc, p.fields.len(), goal, kind)?;
    Ok(Some(Witness {
        vars: values(alloc, goal.state.vars())?,
        heap,
        fails: !holds,
    }))
}
