//! Which cells the conjuncts of an assertion take, one after the other.

ghost use Rattle.std.specs.Prelude.{◌≡◌, ℕ, false, map, IfOk, IsTrue};
ghost use Rattle.sf_base.specs.declared.place.Place.{Place};
ghost use Rattle.sf_core.specs.Assertions.Determined.{is_in_fields, is_learned, is_learned_in};
ghost use Rattle.sf_core.specs.Assertions.Sat.{IsTrueOf, operand, value};
ghost use Rattle.sf_core.specs.Program.Syntax.{doubly, holds, points, segment, tree};
ghost use Rattle.sf_core.specs.Program.View.{conjunct_of, conjuncts, level_of};
ghost use Rattle.sf_foot.specs.Checked.Known.{Learns, Refutes};
ghost use Rattle.sf_foot.specs.Checked.Taking.{AllTake, AreReady, BranchIsReady, IsReadyNow, LevelTakes, OneTakes, Overflows, Takes};
ghost use Rattle.sf_foot.specs.Variables.{value_of};

use crate::known::Known;
use crate::vars::Vars;
use crate::walks::{Ends, walk_double, walk_segment, walk_tree};
use sf_base::{FieldId, Value};
use sf_core::{Conjunct, Expr, Level, Operand, Test};
use sf_heap::Heap;
use std::alloc::{AllocError, Global};

/// Appends the locations of the cells that conjuncts take, in their order. It stops with `false`
/// where one of them finds no such cells, or more than there are.
#[cycle(taking)]
#[tactic(auto, using(crate::proofs::Taken::next_ready))]
pub(crate) fn take_all(
    alloc: Global,
    heap: &Heap,
    vars: &Vars,
    cs: &[Conjunct<Expr>],
    known: &mut Known,
    found: &mut Vec<u64>,
) -> Result<bool, AllocError>
    requires { AreReady known.old (conjuncts (map conjunct_of cs.now)) }
    ensures yes { IfOk result (λ b. IsTrue b → Takes
        (AllTake heap.now (conjuncts (map conjunct_of cs.now)) (value (value_of vars.now)))
        (is_learned_in (conjuncts (map conjunct_of cs.now)))
        known.old known.new found.old.items found.new.items) }
    ensures no { IfOk result (λ b. b ≡ false → Overflows
        (AllTake heap.now (conjuncts (map conjunct_of cs.now)) (value (value_of vars.now)))
        heap.now known.old found.old.items) }
{
    for c in cs {
        if !take_one(alloc, heap, vars, c, known, found)? {
            return Ok(false);
        }
    }
    Ok(true)
}

/// Appends the locations of the cells that a conjunct takes.
#[cycle(taking)]
fn take_one(
    alloc: Global,
    heap: &Heap,
    vars: &Vars,
    c: &Conjunct<Expr>,
    known: &mut Known,
    found: &mut Vec<u64>,
) -> Result<bool, AllocError>
    requires { IsReadyNow known.old (conjunct_of c.now) }
    ensures yes { IfOk result (λ b. IsTrue b → Takes
        (OneTakes heap.now (conjunct_of c.now) (value (value_of vars.now)))
        (is_learned (conjunct_of c.now)) known.old known.new found.old.items found.new.items) }
    ensures no { IfOk result (λ b. b ≡ false → Overflows
        (OneTakes heap.now (conjunct_of c.now) (value (value_of vars.now)))
        heap.now known.old found.old.items) }
{
    match c {
        Conjunct::Holds(_, test) => take_test(vars, test, known),
        Conjunct::Points(_, root, fields) => take_cell(heap, vars, *root, fields, known, found),
        Conjunct::Segment(_, next, from, to) => {
            take_segment(heap, vars, *next, *from, *to, known, found)
        }
        Conjunct::Doubly(_, next, back, from, before, last, to) => {
            let ends = (*from, *before, *last, *to);
            take_double(heap, vars, *next, *back, ends, known, found)
        }
        Conjunct::Tree(_, left, right, root) => {
            take_tree(alloc, heap, vars, *left, *right, *root, known, found)
        }
        Conjunct::If(_, test, this, that) => {
            if known.is_true(vars, test) {
                take_level(alloc, heap, vars, this, known, found)
            } else {
                take_level(alloc, heap, vars, that, known, found)
            }
        }
    }
}

/// Appends the locations of the cells that a branch takes.
#[cycle(taking)]
fn take_level(
    alloc: Global,
    heap: &Heap,
    vars: &Vars,
    level: &Level<Expr>,
    known: &mut Known,
    found: &mut Vec<u64>,
) -> Result<bool, AllocError>
    requires { BranchIsReady known.old (level_of level.now) }
    ensures yes { IfOk result (λ b. IsTrue b → Takes
        (LevelTakes heap.now (level_of level.now) (value (value_of vars.now)))
        (λ n. false) known.old known.new found.old.items found.new.items) }
    ensures no { IfOk result (λ b. b ≡ false → Overflows
        (LevelTakes heap.now (level_of level.now) (value (value_of vars.now)))
        heap.now known.old found.old.items) }
{
    known.enter(level.made)?;
    let all = take_all(alloc, heap, vars, &level.conjuncts, known, found)?;
    known.leave();
    Ok(all)
}

/// Whether a test is true. An existential that an equality gives becomes known.
fn take_test(vars: &Vars, test: &Test<Operand<Expr>>, known: &mut Known) -> Result<bool, AllocError>
    requires { (p : Place) → IsReadyNow known.old (holds p test.now) }
    ensures yes { IfOk result (λ b. IsTrue b → (p : Place) → Learns
        (λ some. IsTrueOf (operand (value (value_of vars.now)) some) test.now)
        (is_learned (holds p test.now)) known.old known.new) }
    ensures no { IfOk result (λ b. b ≡ false → Refutes
        (λ some. IsTrueOf (operand (value (value_of vars.now)) some) test.now) known.old) }
{
    if let Test::Equal(x, y) = test {
        if let Some(v) = known.value(vars, *x) {
            return known.meet(vars, *y, v);
        }
        if let Some(v) = known.value(vars, *y) {
            return known.meet(vars, *x, v);
        }
        return Ok(false);
    }
    Ok(known.is_true(vars, test))
}

/// Appends the location of the one cell of a points-to.
fn take_cell(
    heap: &Heap,
    vars: &Vars,
    root: Operand<Expr>,
    fields: &[(FieldId, Operand<Expr>)],
    known: &mut Known,
    found: &mut Vec<u64>,
) -> Result<bool, AllocError>
    requires { (p : Place) → IsReadyNow known.old (points p root fields.now) }
    ensures yes { IfOk result (λ b. IsTrue b → (p : Place) → Takes
        (OneTakes heap.now (points p root fields.now) (value (value_of vars.now)))
        (λ n. is_in_fields n fields.now) known.old known.new found.old.items found.new.items) }
    ensures no { IfOk result (λ b. b ≡ false → (p : Place) → Overflows
        (OneTakes heap.now (points p root fields.now) (value (value_of vars.now)))
        heap.now known.old found.old.items) }
{
    let Some(Value::Loc(l)) = known.value(vars, root) else {
        return Ok(false);
    };
    let Some(cell) = heap.get(l) else {
        return Ok(false);
    };
    if !known.meet_fields(vars, fields, cell)? {
        return Ok(false);
    }
    found.push(l)?;
    Ok(true)
}

/// Appends the locations of a segment's cells.
fn take_segment(
    heap: &Heap,
    vars: &Vars,
    next: FieldId,
    from: Operand<Expr>,
    to: Operand<Expr>,
    known: &Known,
    found: &mut Vec<u64>,
) -> Result<bool, AllocError>
    requires { (p : Place) → IsReadyNow known.now (segment p next from to) }
    ensures yes { IfOk result (λ b. IsTrue b → (p : Place) → Takes
        (OneTakes heap.now (segment p next from to) (value (value_of vars.now)))
        (λ n. false) known.now known.now found.old.items found.new.items) }
    ensures no { IfOk result (λ b. b ≡ false → (p : Place) → Overflows
        (OneTakes heap.now (segment p next from to) (value (value_of vars.now)))
        heap.now known.now found.old.items) }
{
    let Some(first) = known.value(vars, from) else {
        return Ok(false);
    };
    let Some(end) = known.value(vars, to) else {
        return Ok(false);
    };
    walk_segment(heap, next, first, end, found)
}

/// Appends the locations of a doubly linked segment's cells, of which it is told where it begins, what
/// is before it, where its last cell is, and where it ends.
fn take_double(
    heap: &Heap,
    vars: &Vars,
    next: FieldId,
    back: FieldId,
    ends: (Operand<Expr>, Operand<Expr>, Operand<Expr>, Operand<Expr>),
    known: &Known,
    found: &mut Vec<u64>,
) -> Result<bool, AllocError>
    requires { (p : Place) → IsReadyNow known.now (doubly p next back ends.0 ends.1 ends.2 ends.3) }
    ensures yes { IfOk result (λ b. IsTrue b → (p : Place) → Takes
        (OneTakes heap.now (doubly p next back ends.0 ends.1 ends.2 ends.3)
        (value (value_of vars.now)))
        (λ n. false) known.now known.now found.old.items found.new.items) }
    ensures no { IfOk result (λ b. b ≡ false → (p : Place) → Overflows
        (OneTakes heap.now (doubly p next back ends.0 ends.1 ends.2 ends.3)
        (value (value_of vars.now)))
        heap.now known.now found.old.items) }
{
    let Some(from) = known.value(vars, ends.0) else {
        return Ok(false);
    };
    let Some(before) = known.value(vars, ends.1) else {
        return Ok(false);
    };
    let Some(last) = known.value(vars, ends.2) else {
        return Ok(false);
    };
    let Some(to) = known.value(vars, ends.3) else {
        return Ok(false);
    };
    let ends = Ends {
        from,
        before,
        last,
        to,
    };
    walk_double(heap, next, back, ends, found)
}

/// Appends the locations of a tree's cells.
fn take_tree(
    alloc: Global,
    heap: &Heap,
    vars: &Vars,
    left: FieldId,
    right: FieldId,
    root: Operand<Expr>,
    known: &Known,
    found: &mut Vec<u64>,
) -> Result<bool, AllocError>
    requires { (p : Place) → IsReadyNow known.now (tree p left right root) }
    ensures yes { IfOk result (λ b. IsTrue b → (p : Place) → Takes
        (OneTakes heap.now (tree p left right root) (value (value_of vars.now)))
        (λ n. false) known.now known.now found.old.items found.new.items) }
    ensures no { IfOk result (λ b. b ≡ false → (p : Place) → Overflows
        (OneTakes heap.now (tree p left right root) (value (value_of vars.now)))
        heap.now known.now found.old.items) }
{
    let Some(root) = known.value(vars, root) else {
        return Ok(false);
    };
    walk_tree(alloc, heap, left, right, root, found)
}
