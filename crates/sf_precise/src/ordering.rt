//! The order of an assertion, branches first: what is known around a branch decides nothing about
//! its order, once all that it takes from there is known.

ghost use Rattle.std.specs.Prelude.{◌≡◌, ◌⊎◌, [], map, option_map, IfErr, IfOk, MatchResult, Some, None};
ghost use Rattle.sf_base.specs.Results.{Appends};
ghost use Rattle.std.specs.List.{AllZip};
ghost use Rattle.sf_core.specs.Assertions.Determined.{Determined, HasOrder};
ghost use Rattle.sf_base.specs.declared.place.Place.{Place};
ghost use Rattle.sf_core.specs.Program.Syntax as s;
ghost use Rattle.sf_core.specs.Program.View.{assertion_of, conjunct_of, level_of};
ghost use Rattle.sf_precise.specs.declared.fault.OrderFault.TheVariants.{OutOfMemory, Undetermined};
ghost use Rattle.sf_precise.specs.Order.{IsOrderFrom, IsOrderOf};
ghost use Rattle.sf_precise.specs.Checked.Outer.{outer_of, outer_of_level};
ghost use Rattle.sf_precise.specs.Checked.Prepared.{IsBranch, IsPrepared, joined};
ghost use Rattle.sf_precise.specs.Taken.{IfUndetermined, NeverTakenAt, NeverTakenFrom};
ghost use Rattle.sf_precise.specs.Checked.Waits.{known_outside};

use crate::fault::OrderFault;
use crate::outer::{add_all_not_made, add_existential, add_of_fields, add_of_four, add_of_test};
use crate::sequence::sequence;
use sf_base::{Name, Place};
use sf_core::{Assertion, Conjunct, Expr, Level, Operand, Ordered, Scope, Test};
use std::alloc::{AllocError, Global};

/// The assertion with its conjuncts in order: the first ready one, in text order, and then the
/// others in order, inside branches too. `Undetermined` comes exactly where there is no order at
/// all, with the place of the first conjunct that is never taken, whichever are taken before it;
/// instead of either answer memory may have run out.
pub fn order(alloc: Global, a: &Assertion) -> Result<Ordered, OrderFault>
    ensures ordered { IfOk result (λ o. IsOrderOf (assertion_of a.now) (assertion_of o.assertion)) }
    ensures determined { IfOk result (λ o. Determined (assertion_of a.now).level) }
    ensures undetermined { IfErr result (λ e. IfUndetermined e
        (λ p. ¬ Determined (assertion_of a.now).level)) }
    ensures place { IfErr result (λ e. IfUndetermined e (NeverTakenAt (assertion_of a.now).level)) }
    ensures only_ordered { (o : s.Assertion) → IsOrderOf (assertion_of a.now) o
        → MatchResult result (λ x. assertion_of x.assertion ≡ o) (λ e. e ≡ OutOfMemory) }
    ensures only_undetermined { (p : Place) → NeverTakenAt (assertion_of a.now).level p
        → MatchResult result (λ _. ⊥) (λ e. (e ≡ Undetermined p) ⊎ (e ≡ OutOfMemory)) }
{
    find_order(alloc, a)
}

/// The order that the rule gives, or the first conjunct that is never taken.
fn find_order(alloc: Global, a: &Assertion) -> Result<Ordered, OrderFault>
    ensures ordered { IfOk result (λ o. IsOrderOf (assertion_of a.now) (assertion_of o.assertion)) }
    ensures determined { IfOk result (λ o. Determined (assertion_of a.now).level) }
    ensures undetermined { IfErr result (λ e. IfUndetermined e
        (λ p. ¬ Determined (assertion_of a.now).level)) }
    ensures place { IfErr result (λ e. IfUndetermined e (NeverTakenAt (assertion_of a.now).level)) }
{
    let parts = prepare_all(alloc, &a.level.conjuncts)?;
    let level = order_level(alloc, None, &a.level, parts)?;
    let names = copy_names(alloc, &a.names)?;
    Ok(Ordered {
        assertion: Assertion { names, level },
    })
}

/// Those names again.
fn copy_names(alloc: Global, names: &[Name]) -> Result<Vec<Name>, AllocError>
    ensures { IfOk result (λ copy. copy.items ≡ names.now) }
{
    let mut copy = Vec::with_capacity(alloc, names.len())?;
    for name in names {
        copy.push(Name::new(alloc, name.as_bytes())?)?;
    }
    Ok(copy)
}

/// The conjuncts of a level, looked at before any is taken.
#[derive(Debug, Drop)]
struct Parts {
    /// Each with its branches in order, if they have one.
    orders: Vec<Option<Conjunct<Expr>>>,
    /// The existentials that each takes from the scopes around it.
    outers: Vec<Vec<u32>>,
}

/// The level in order, where nothing is known at first, or all but what that scope makes. The parts
/// are those of its conjuncts.
fn order_level(
    alloc: Global,
    start: Option<Scope>,
    level: &Level<Expr>,
    parts: Parts,
) -> Result<Level<Expr>, OrderFault>
    requires prepared { AllZip (λ c o.
        IsPrepared (conjunct_of c)
        (option_map conjunct_of o)) level.now.conjuncts.items parts.orders.items }
    requires outer { AllZip (λ c ns. ns.items
        ≡ outer_of (conjunct_of c)) level.now.conjuncts.items parts.outers.items }
    ensures ordered { IfOk result (λ o. IsOrderFrom (known_outside start) (level_of level.now)
        (level_of o)) }
    ensures undetermined { IfErr result
        (λ e. IfUndetermined e (NeverTakenFrom (known_outside start) (level_of level.now))) }
{
    let conjuncts = sequence(alloc, start, &level.conjuncts, parts.orders, &parts.outers)?;
    Ok(Level {
        made: level.made,
        conjuncts,
    })
}

/// The branch in order, if it has one. Appends the existentials that it takes from the scopes
/// around it.
#[cycle(levels)]
fn order_branch(
    alloc: Global,
    branch: &Level<Expr>,
    outer: &mut Vec<u32>,
) -> Result<Option<Level<Expr>>, AllocError>
    ensures order { IfOk result (λ o. IsBranch (level_of branch.now) (option_map level_of o)) }
    ensures outer { Appends result outer.old.items outer.new.items
        (outer_of_level (level_of branch.now)) }
{
    let parts = prepare_all(alloc, &branch.conjuncts)?;
    add_all_not_made(branch.made, &parts.outers, outer)?;
    match order_level(alloc, Some(branch.made), branch, parts) {
        Ok(level) => Ok(Some(level)),
        Err(OrderFault::Undetermined(_)) => Ok(None),
        Err(OrderFault::OutOfMemory) => Err(AllocError),
    }
}

/// Each of the conjuncts before any is taken.
#[cycle(levels)]
fn prepare_all(alloc: Global, cs: &[Conjunct<Expr>]) -> Result<Parts, AllocError>
    ensures prepared { IfOk result (λ parts.
        AllZip (λ c o.
        IsPrepared (conjunct_of c) (option_map conjunct_of o)) cs.now parts.orders.items) }
    ensures outer { IfOk result (λ parts.
        AllZip (λ c ns. ns.items ≡ outer_of (conjunct_of c)) cs.now parts.outers.items) }
{
    let mut orders = Vec::with_capacity(alloc, cs.len())?;
    let mut outers = Vec::with_capacity(alloc, cs.len())?;
    for c in cs {
        let mut outer = Vec::new(alloc);
        orders.push(prepare(alloc, c, &mut outer)?)?;
        outers.push(outer)?;
    }
    Ok(Parts { orders, outers })
}

/// The conjunct with its branches in order, if they have one. Appends the existentials that it
/// takes from the scopes around it.
#[cycle(levels)]
fn prepare(
    alloc: Global,
    c: &Conjunct<Expr>,
    outer: &mut Vec<u32>,
) -> Result<Option<Conjunct<Expr>>, AllocError>
    ensures prepared { IfOk result (λ o. IsPrepared (conjunct_of c.now)
        (option_map conjunct_of o)) }
    ensures outer { Appends result outer.old.items outer.new.items (outer_of (conjunct_of c.now)) }
{
    match c {
        Conjunct::Holds(place, test) => {
            add_of_test(test, outer)?;
            Ok(Some(Conjunct::Holds(*place, *test)))
        }
        Conjunct::Points(place, root, fields) => {
            add_existential(root, outer)?;
            add_of_fields(fields, outer)?;
            let fields = Vec::from_slice(alloc, fields)?;
            Ok(Some(Conjunct::Points(*place, *root, fields)))
        }
        Conjunct::Segment(place, next, from, to) => {
            add_existential(from, outer)?;
            add_existential(to, outer)?;
            Ok(Some(Conjunct::Segment(*place, *next, *from, *to)))
        }
        Conjunct::Doubly(place, next, back, from, before, last, to) => {
            add_of_four(from, before, last, to, outer)?;
            let (from, before, last, to) = (*from, *before, *last, *to);
            Ok(Some(Conjunct::Doubly(*place, *next, *back, from, before, last, to)))
        }
        Conjunct::Tree(place, left, right, root) => {
            add_existential(root, outer)?;
            Ok(Some(Conjunct::Tree(*place, *left, *right, *root)))
        }
        Conjunct::If(place, test, this, that) => {
            add_of_test(test, outer)?;
            let this = order_branch(alloc, this, outer)?;
            let that = order_branch(alloc, that, outer)?;
            Ok(join_branches(*place, *test, this, that))
        }
    }
}

/// The choice with its branches in order, if both have one.
fn join_branches(
    place: Place,
    test: Test<Operand<Expr>>,
    this: Option<Level<Expr>>,
    that: Option<Level<Expr>>,
) -> Option<Conjunct<Expr>>
    ensures { option_map conjunct_of result
        ≡ joined place test (option_map level_of this) (option_map level_of that) }
{
    let this = this?;
    let that = that?;
    Some(Conjunct::If(place, test, this, that))
}
