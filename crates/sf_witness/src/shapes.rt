//! Whether a part of a heap is a wanted segment or tree.

ghost use Rattle.std.specs.Prelude.{◌≡◌, ◌↔◌, false, IfOk, IsTrue};
ghost use Rattle.sf_core.specs.Assertions.InOrder.{IsNext};
ghost use Rattle.sf_core.specs.Assertions.Sat.{Dseg, SatOne, Seg, Tree, value};
ghost use Rattle.sf_core.specs.Program.View.{conjunct_of};
ghost use Rattle.sf_foot.specs.Variables.{value_of};
ghost use Rattle.sf_heap.specs.Cells.{heap_of};
ghost use Rattle.sf_witness.specs.Checked.Shapes.{HasPart, variable};

use sf_base::{FieldId, Place, Value, Var};
use sf_core::{Assertion, Conjunct, Expr, Level, Occurrence, Operand, Ordered, Scope};
use sf_foot::{Vars, footprint};
use sf_heap::Heap;
use std::alloc::{AllocError, Global};

/// A place for what stands in no text.
const NOWHERE: Place = Place { line: 1, column: 1 };

/// The own variable of that number, in an assertion.
fn variable(n: u32) -> Operand<Expr>
    ensures { result ≡ variable n }
{
    Operand::Known(Expr::Var(Occurrence {
        var: Var::Own(n),
        place: NOWHERE,
    }))
}

/// Whether a part of the heap satisfies the conjunct, for these values of variables. An `Err` means
/// out of memory.
fn has_part(
    alloc: Global,
    heap: &Heap,
    conjunct: Conjunct<Expr>,
    vars: &Vars,
) -> Result<bool, AllocError>
    requires { IsNext (λ n. false) (conjunct_of conjunct) }
    ensures { IfOk result (λ b. IsTrue b ↔ HasPart
        (SatOne (conjunct_of conjunct) (value (value_of vars.now)) (λ n. Value.Nil))
        (heap_of heap.now)) }
{
    let level = Level {
        made: Scope { first: 0, count: 0 },
        conjuncts: vec![in alloc; conjunct]?,
    };
    let assertion = Ordered {
        assertion: Assertion {
            names: Vec::new(alloc),
            level,
        },
    };
    let found = footprint(alloc, &assertion, vars, heap)?;
    Ok(found.is_some())
}

/// Variables with these values.
fn own(alloc: Global, values: Vec<Value>) -> Vars
    ensures { result.own.items ≡ values.items }
{
    Vars {
        own: values,
        shared: Vec::new(alloc),
    }
}

/// Whether a part of the heap is a segment along that field. An `Err` means out of memory.
pub fn has_segment(
    alloc: Global,
    heap: &Heap,
    next: FieldId,
    from: Value,
    to: Value,
) -> Result<bool, AllocError>
    ensures { IfOk result (λ b. IsTrue b ↔ HasPart (Seg next to from) (heap_of heap.now)) }
{
    let conjunct = Conjunct::Segment(NOWHERE, next, variable(0), variable(1));
    let vars = own(alloc, vec![in alloc; from, to]?);
    let has = has_part(alloc, heap, conjunct, &vars)?;
    Ok(has)
}

/// Whether a part of the heap is a doubly linked segment along those fields, from the first value up
/// to the last one: before its first cell stands the second, and its last cell is at the third. An
/// `Err` means out of memory.
pub fn has_double(
    alloc: Global,
    heap: &Heap,
    next: FieldId,
    back: FieldId,
    values: (Value, Value, Value, Value),
) -> Result<bool, AllocError>
    ensures { IfOk result (λ b. IsTrue b
        ↔ HasPart (Dseg next back values.2 values.3 values.1 values.0) (heap_of heap.now)) }
{
    let conjunct = Conjunct::Doubly(
        NOWHERE,
        next,
        back,
        variable(0),
        variable(1),
        variable(2),
        variable(3),
    );
    let vars = own(
        alloc,
        vec![in alloc; values.0, values.1, values.2, values.3]?,
    );
    let has = has_part(alloc, heap, conjunct, &vars)?;
    Ok(has)
}

/// Whether a part of the heap is a tree with those fields. An `Err` means out of memory.
pub fn has_tree(
    alloc: Global,
    heap: &Heap,
    left: FieldId,
    right: FieldId,
    root: Value,
) -> Result<bool, AllocError>
    ensures { IfOk result (λ b. IsTrue b ↔ HasPart (Tree left right root) (heap_of heap.now)) }
{
    let conjunct = Conjunct::Tree(NOWHERE, left, right, variable(0));
    let vars = own(alloc, vec![in alloc; root]?);
    let has = has_part(alloc, heap, conjunct, &vars)?;
    Ok(has)
}
