//! The order of the conjuncts of one level, their branches being in order already.

ghost use Rattle.std.specs.Prelude.{◌≡◌, ◌↔◌, ◌+◌, ◌<◌, true, false, cond, length, map, option_map, is_some, IfErr, IfOk, IfSome, IsSome};
ghost use Rattle.std.specs.BTreeSet.{btree_set_len, contains, IsLowerBound, Updates};
ghost use Rattle.std.specs.List.{AllZip};
ghost use Rattle.std.specs.Ordering.{nat_cmp};
ghost use Rattle.sf_core.specs.Program.View.{conjunct_of, conjuncts};
ghost use Rattle.sf_precise.specs.Order.{IsOrder};
ghost use Rattle.sf_precise.specs.Checked.Outer.{outer_of};
ghost use Rattle.sf_precise.specs.Checked.Prepared.{IsPrepared};
ghost use Rattle.sf_precise.specs.Taken.{IfUndetermined, IsFirstNeverTaken, place_at};
ghost use Rattle.sf_precise.specs.Checked.Waits.{jobs_of, known_outside};
ghost use Rattle.sf_precise.specs.Checked.Work.{IsFirstLacking, IsWork, none_taken};

use crate::fault::{OrderFault, push};
use crate::waits::demand_of;
use crate::work::Work;
use sf_base::Place;
use sf_core::{Conjunct, Expr, Scope};
use std::alloc::{AllocError, Global};
use std::collections::BTreeSet;

/// Takes the conjuncts one after the other, the first ready one each time, from nothing that is
/// known, or from all but what that scope makes. The parts are the conjuncts with their branches
/// in order, and the outer existentials those that each takes from the scopes around it.
pub fn sequence(
    alloc: Global,
    start: Option<Scope>,
    cs: &[Conjunct<Expr>],
    parts: Vec<Option<Conjunct<Expr>>>,
    outers: &[Vec<u32>],
) -> Result<Vec<Conjunct<Expr>>, OrderFault>
    requires outer { AllZip (λ c ns. ns.items ≡ outer_of (conjunct_of c)) cs.now outers.now }
    requires prepared { AllZip (λ c o. IsPrepared (conjunct_of c) (option_map conjunct_of o))
        cs.now parts.items }
    ensures ordered { IfOk result (λ os.
        IsOrder (known_outside start) (conjuncts (map conjunct_of cs.now))
        (conjuncts (map conjunct_of os.items))) }
    ensures undetermined { IfErr result
        (λ e. IfUndetermined e
        (IsFirstNeverTaken (known_outside start) (conjuncts (map conjunct_of cs.now))
        (conjuncts (map conjunct_of cs.now)))) }
{
    let mut parts = parts;
    let mut work = begin(alloc, start, cs, &parts, outers)?;
    let mut taken = Vec::new(alloc);
    while let Some(i) = take_first(&mut work.ready) {
        let Some(c) = parts[i].take() else {
            unreachable!();
        };
        work.learn_from(&c)?;
        push(&mut taken, c)?;
    }
    match first_lacking(&work.lacking) {
        Some(i) => Err(OrderFault::Undetermined(place_of(&cs[i]))),
        None => Ok(taken),
    }
}

/// The work before any conjunct is taken.
fn begin(
    alloc: Global,
    start: Option<Scope>,
    cs: &[Conjunct<Expr>],
    parts: &[Option<Conjunct<Expr>>],
    outers: &[Vec<u32>],
) -> Result<Work, AllocError>
    requires parts { length parts.now ≡ length cs.now }
    requires outer { AllZip (λ c ns. ns.items ≡ outer_of (conjunct_of c)) cs.now outers.now }
    ensures { IfOk result (λ w.
        let jobs = jobs_of (known_outside start) (map conjunct_of cs.now)
        (map is_some parts.now) in IsWork jobs (known_outside start) (none_taken jobs) w) }
{
    let mut work = Work::new(alloc);
    for (i, c) in cs.iter().enumerate() {
        let demand = demand_of(alloc, start, c, &outers[i], parts[i].is_some())?;
        work.add(&demand)?;
    }
    Ok(work)
}

/// The least of the numbers, which is taken out.
fn take_first(ready: &mut BTreeSet<usize>) -> Option<usize>
    ensures variant { IsSome result ↔ (0 < btree_set_len ready.old) }
    ensures member { IfSome result (λ i. contains nat_cmp ready.old i ≡ true) }
    ensures least { IfSome result (IsLowerBound nat_cmp ready.old) }
    ensures updates { IfSome result (λ i. Updates nat_cmp ready.old ready.new i false) }
    ensures len { btree_set_len ready.new + cond (is_some result) 1 0 ≡ btree_set_len ready.old }
{
    ready.pop_first()
}

/// The first number at which something is lacking.
fn first_lacking(lacking: &[usize]) -> Option<usize>
    ensures { IsFirstLacking lacking.now result }
{
    lacking.iter().position(|n| *n > 0)
}

/// Where the conjunct's first token is.
fn place_of(c: &Conjunct<Expr>) -> Place
    ensures { result ≡ place_at (conjunct_of c.now) }
{
    match c {
        Conjunct::Holds(place, _) => *place,
        Conjunct::Points(place, _, _) => *place,
        Conjunct::Segment(place, _, _, _) => *place,
        Conjunct::Doubly(place, _, _, _, _, _, _) => *place,
        Conjunct::Tree(place, _, _, _) => *place,
        Conjunct::If(place, _, _, _) => *place,
    }
}
