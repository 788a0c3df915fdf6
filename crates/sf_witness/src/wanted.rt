//! Whether what a goal is stuck at is so in its witness.

ghost use Rattle.std.specs.Option.{option_map};
ghost use Rattle.std.specs.Prelude.{◌≡◌, ◌≢◌, ◌↔◌, ◌++◌, false, IfOk, IsTrue, List};
ghost use Rattle.sf_consume.specs.Misfit.{met_term, misfit_of};
ghost use Rattle.sf_consume.specs.Subtract.{four};
ghost use Rattle.sf_core.specs.Program.View.{conjunct_of};
ghost use Rattle.sf_core.specs.declared.assertion.Test.TheVariants.{Differ, Equal};
ghost use Rattle.sf_heap.specs.Cells.{heap_of};
ghost use Rattle.sf_sym.specs.Goal.{Item as Thing, goal_of, items_of, todo_of};
ghost use Rattle.sf_sym.specs.Checked.Items.{is_nothing};
ghost use Rattle.sf_witness.specs.Checked.Wishes.{AreSame, HasDoubleOf, HasSegmentWith, HasTreeWith, IsTrueWith, is_one, plain_of, wish_of};
ghost use Rattle.sf_witness.specs.Wanted.{IsIn, IsThere, IsTrueEquality, WantHolds, left_heap, misfit, printed_value, wanted, wanted_cell, whole_heap};

use crate::meeting::has_cell;
use crate::shapes::{has_double, has_segment, has_tree};
use crate::values::{is_same, value_at};
use sf_base::{FieldId, Value};
use sf_consume::{Met, Misfit, four};
use sf_core::{Conjunct, Operand, Test};
use sf_heap::Heap;
use sf_report::{address, double_misfit, misfit_at, term};
use sf_sym::{Goal, Item, State, Stuck, Term, peek_item, term_of};
use std::alloc::{AllocError, Global};

/// A conjunct that is wanted, and what its existentials stand for.
#[derive(Clone, Copy)]
struct Want<'b> {
    bindings: &'b [Option<Term>],
    conjunct: &'b Conjunct<Term>,
}

/// The term at which an item wants a cell.
fn cell_of_item(s: &State, item: &Item) -> Option<Term>
    requires { is_nothing item.now ≡ false }
    ensures { (rest : List Thing) → result ≡ wanted_cell s.now (items_of item.now ++ rest) }
{
    match item {
        Item::Run(commands) => {
            let e = address(commands.first()?)?;
            Some(term(s, e))
        }
        _ => None,
    }
}

/// The term at which a cell is wanted.
fn wanted_cell(s: &State, todo: &[Item]) -> Option<Term>
    ensures { result ≡ wanted_cell s.now (todo_of todo.now) }
{
    let item = peek_item(todo)?;
    cell_of_item(s, item)
}

/// Whether the heap has a cell there.
fn is_there(heap: &Heap, at: Option<Term>) -> bool
    ensures { IsTrue result ↔ IsThere (heap_of heap.now) at }
{
    let Some(t) = at else {
        return false;
    };
    match value_at(t) {
        Value::Loc(location) => heap.get(location).is_some(),
        Value::Nil | Value::Int(_) => false,
    }
}

/// What an item wants first.
fn want_of_item<'b, 'a>(item: &'b Item<'a>) -> Option<Want<'b>>
    requires { is_nothing item.now ≡ false }
    ensures { (rest : List Thing) → wish_of result ≡ wanted (items_of item.now ++ rest) }
{
    match item {
        Item::Take(_, want, _) => {
            let conjunct = want.first()?;
            Some(Want {
                bindings: want.bindings(),
                conjunct,
            })
        }
        _ => None,
    }
}

/// What is wanted first.
fn wanted<'b, 'a>(todo: &'b [Item<'a>]) -> Option<Want<'b>>
    ensures { wish_of result ≡ wanted (todo_of todo.now) }
{
    let item = peek_item(todo)?;
    want_of_item(item)
}

/// Whether two operands can have one value.
fn is_equal(bindings: &[Option<Term>], x: &Operand<Term>, y: &Operand<Term>) -> bool
    ensures { IsTrue result ↔ IsTrueWith bindings.now (Equal x.now y.now) }
{
    let Some(t) = term_of(bindings, x) else {
        return true;
    };
    let Some(u) = term_of(bindings, y) else {
        return true;
    };
    is_same(value_at(t), value_at(u))
}

/// Whether both operands are the same existential.
fn is_one(x: &Operand<Term>, y: &Operand<Term>) -> bool
    ensures { result ≡ is_one x.now y.now }
{
    match (x, y) {
        (Operand::Exists(n), Operand::Exists(m)) => *n == *m,
        _ => false,
    }
}

/// Whether two operands can have different values.
fn is_different(bindings: &[Option<Term>], x: &Operand<Term>, y: &Operand<Term>) -> bool
    ensures { IsTrue result ↔ IsTrueWith bindings.now (Differ x.now y.now) }
{
    let Some(t) = term_of(bindings, x) else {
        return !is_one(x, y);
    };
    let Some(u) = term_of(bindings, y) else {
        return true;
    };
    !is_same(value_at(t), value_at(u))
}

/// Whether a test is true, with some values of the existentials that have no term.
fn is_true(bindings: &[Option<Term>], test: &Test<Operand<Term>>) -> bool
    ensures { IsTrue result ↔ IsTrueWith bindings.now test.now }
{
    match test {
        Test::True => true,
        Test::Equal(x, y) => is_equal(bindings, x, y),
        Test::Differ(x, y) => is_different(bindings, x, y),
    }
}

/// Whether a part of the heap is a wanted segment. An `Err` means out of memory.
fn has_wanted_segment(
    alloc: Global,
    heap: &Heap,
    bindings: &[Option<Term>],
    next: FieldId,
    from: &Operand<Term>,
    to: &Operand<Term>,
) -> Result<bool, AllocError>
    ensures { IfOk result (λ b. IsTrue b
        ↔ HasSegmentWith bindings.now next from.now to.now (heap_of heap.now)) }
{
    let Some(t) = term_of(bindings, from) else {
        return Ok(true);
    };
    let Some(u) = term_of(bindings, to) else {
        return Ok(true);
    };
    let has = has_segment(alloc, heap, next, value_at(t), value_at(u))?;
    Ok(has)
}

/// Whether a part of the heap is a wanted doubly linked segment, whose operands all have terms. An
/// `Err` means out of memory.
fn has_wanted_double(
    alloc: Global,
    heap: &Heap,
    next: FieldId,
    back: FieldId,
    terms: Option<(Term, Term, Term, Term)>,
) -> Result<bool, AllocError>
    ensures { IfOk result (λ b. IsTrue b ↔ HasDoubleOf next back terms (heap_of heap.now)) }
{
    let Some((v, p, l, u)) = terms else {
        return Ok(false);
    };
    let values = (value_at(v), value_at(p), value_at(l), value_at(u));
    let has = has_double(alloc, heap, next, back, values)?;
    Ok(has)
}

/// Whether a part of the heap is a wanted tree. An `Err` means out of memory.
fn has_wanted_tree(
    alloc: Global,
    heap: &Heap,
    bindings: &[Option<Term>],
    left: FieldId,
    right: FieldId,
    root: &Operand<Term>,
) -> Result<bool, AllocError>
    ensures { IfOk result (λ b. IsTrue b
        ↔ HasTreeWith bindings.now left right root.now (heap_of heap.now)) }
{
    let Some(t) = term_of(bindings, root) else {
        return Ok(true);
    };
    let has = has_tree(alloc, heap, left, right, value_at(t))?;
    Ok(has)
}

/// Whether a part of the heap satisfies the conjunct. An `Err` means out of memory.
fn is_satisfied(alloc: Global, heap: &Heap, want: Want<'_>) -> Result<bool, AllocError>
    ensures { IfOk result (λ b. IsTrue b ↔ IsIn (heap_of heap.now) (plain_of want.entry)) }
{
    match want.conjunct {
        Conjunct::Holds(_, test) => Ok(is_true(want.bindings, test)),
        Conjunct::Points(_, root, fields) => has_cell(alloc, heap, want.bindings, root, fields),
        Conjunct::Segment(_, next, from, to) => {
            has_wanted_segment(alloc, heap, want.bindings, *next, from, to)
        }
        Conjunct::Doubly(_, next, back, from, before, last, to) => {
            let terms = four(want.bindings, *from, *before, *last, *to);
            has_wanted_double(alloc, heap, *next, *back, terms)
        }
        Conjunct::Tree(_, left, right, root) => {
            has_wanted_tree(alloc, heap, want.bindings, *left, *right, root)
        }
        Conjunct::If(..) => Ok(false),
    }
}

/// The value of a term that was met, where the next symbol has that number.
fn met_value(next_sym: u32, met: Met) -> Value
    ensures { result ≡ printed_value next_sym (met_term next_sym met) }
{
    match met {
        Met::Known(t) if t.is_below(next_sym) => value_at(t),
        Met::Known(_) | Met::Fresh(_) => Value::Nil,
    }
}

/// Whether the two terms that meet in a field are the same; a field that isn't known is nil.
fn meets(next_sym: u32, m: Misfit) -> bool
    ensures { IsTrue result ↔ AreSame next_sym (misfit_of next_sym m) }
{
    let there = match m.there {
        Some(met) => met_value(next_sym, met),
        None => Value::Nil,
    };
    is_same(there, met_value(next_sym, m.wanted))
}

/// What meets in the first field of a wanted cell that doesn't fit the cell that is there, or should be
/// one for a doubly linked segment. `None` exactly where there is no such thing; an `Err` means out of
/// memory.
fn misfit(alloc: Global, s: &State, want: Want<'_>) -> Result<Option<Misfit>, AllocError>
    ensures { IfOk result (λ m. option_map (misfit_of s.now.next_sym) m
        ≡ misfit s.now want.entry.bindings.now (conjunct_of want.entry.conjunct.now)) }
{
    match want.conjunct {
        Conjunct::Points(_, root, fields) => misfit_at(alloc, s, want.bindings, root, fields),
        Conjunct::Doubly(_, _, back, x, b, l, y) => {
            Ok(double_misfit(s, want.bindings, *back, *x, *b, *l, *y))
        }
        _ => Ok(None),
    }
}

/// Whether the equality that is wanted is true. An `Err` means out of memory.
fn is_equality(alloc: Global, s: &State, heap: &Heap, want: Want<'_>) -> Result<bool, AllocError>
    ensures { IfOk result (λ b. IsTrue b
        ↔ IsTrueEquality s.now (heap_of heap.now) (plain_of want.entry)) }
{
    match misfit(alloc, s, want)? {
        Some(m) => Ok(meets(s.next_sym(), m)),
        None => is_satisfied(alloc, heap, want),
    }
}

/// Whether the equality that is wanted is there and true. An `Err` means out of memory.
fn has_equality(
    alloc: Global,
    s: &State,
    heap: &Heap,
    want: Option<Want<'_>>,
) -> Result<bool, AllocError>
    ensures { IfOk result (λ b. IsTrue b
        ↔ IsTrueEquality s.now (heap_of heap.now) (wish_of want.entry)) }
{
    match want {
        Some(want) => is_equality(alloc, s, heap, want),
        None => Ok(false),
    }
}

/// Whether something is wanted that a part of the heap satisfies. An `Err` means out of memory.
fn has_wanted(alloc: Global, heap: &Heap, want: Option<Want<'_>>) -> Result<bool, AllocError>
    ensures { IfOk result (λ b. IsTrue b ↔ IsIn (heap_of heap.now) (wish_of want.entry)) }
{
    match want {
        Some(want) => is_satisfied(alloc, heap, want),
        None => Ok(false),
    }
}

/// Whether what the goal wants of the heap that was not handed over is so. An `Err` means out of
/// memory.
pub fn left_has(alloc: Global, left: &Heap, goal: &Goal, kind: Stuck) -> Result<bool, AllocError>
    requires { heap_of left.now ≡ left_heap goal.now.state }
    ensures { IfOk result (λ b. kind ≢ Stuck.NoCell
        → IsTrue b ↔ WantHolds (goal_of goal.now) kind) }
{
    match kind {
        Stuck::Leak => Ok(left.len() == 0),
        Stuck::NotEqual => has_equality(alloc, &goal.state, left, wanted(&goal.todo)),
        _ => has_wanted(alloc, left, wanted(&goal.todo)),
    }
}

/// Whether the cell that the goal wants is in the heap of all that it knows.
pub fn whole_has(whole: &Heap, goal: &Goal) -> bool
    requires { heap_of whole.now ≡ whole_heap goal.now.state }
    ensures { IsTrue result ↔ WantHolds (goal_of goal.now) Stuck.NoCell }
{
    is_there(whole, wanted_cell(&goal.state, &goal.todo))
}
