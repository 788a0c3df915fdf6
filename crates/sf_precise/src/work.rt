//! What is kept while conjuncts are taken: how much is lacking for each, which ones wait for which
//! existential, and which ones are ready. Each wait is looked at once.

ghost use Rattle.std.specs.Prelude.{◌≡◌, ◌<◌, ◌≤◌, ℕ, Bool, [], ◌∷◌, ◌++◌, length, All, Contains, IfOk, OnOk, IfSome, IfNone, false, true, slice_index_or};
ghost use Rattle.sf_core.specs.Program.View.{conjunct_of};
ghost use Rattle.sf_precise.specs.Checked.Outer.{existential, field_existentials};
ghost use Rattle.sf_precise.specs.Checked.Waits.{equated, learned_from, Job};
ghost use Rattle.sf_precise.specs.Checked.Work.{AddsJob, AddsWaits, IsWork, Learns, Serves, WaitsWithin, row};

use crate::waits::Demand;
use sf_base::FieldId;
use sf_core::{Conjunct, Expr, Operand, Test};
use std::alloc::{AllocError, Global};
use std::collections::{BTreeMap, BTreeSet};

/// The work on jobs, by their numbers.
#[derive(Debug, Drop)]
pub struct Work {
    alloc: Global,
    /// How many existentials each one lacks.
    pub lacking: Vec<usize>,
    /// Those that wait for an unknown existential, each as often as it waits for it.
    pub waiting: BTreeMap<u32, Vec<usize>>,
    /// Those that are ready and not taken.
    pub ready: BTreeSet<usize>,
}

impl Work {
    /// No jobs.
    pub fn new(alloc: Global) -> Work
        ensures { (known : ℕ → Bool) → IsWork [] known [] result }
    {
        Work {
            alloc,
            lacking: Vec::new(alloc),
            waiting: BTreeMap::new(alloc),
            ready: BTreeSet::new(alloc),
        }
    }

    /// Adds a job. None of what it waits for is known, and no job is taken.
    pub fn add(&mut self, demand: &Demand) -> Result<(), AllocError>
        ensures { OnOk result (AddsJob
            (record { need = demand.now.need; waits = demand.now.waits.items }) self.old self.new) }
    {
        let i = self.lacking.len();
        add_waits(self.alloc, i, &demand.waits, &mut self.waiting)?;
        self.lacking.push(demand.need)?;
        if demand.need == 0 {
            self.ready.insert(i)?;
        }
        Ok(())
    }

    /// The existentials that the conjunct gives become known.
    pub fn learn_from(&mut self, c: &Conjunct<Expr>) -> Result<(), AllocError>
        requires { WaitsWithin self.now }
        ensures { OnOk result (Learns (learned_from (conjunct_of c.now)) self.old self.new) }
    {
        match c {
            Conjunct::Holds(_, test) => {
                self.learn_test(test)?;
                Ok(())
            }
            Conjunct::Points(_, _, fields) => {
                self.learn_fields(fields)?;
                Ok(())
            }
            Conjunct::Segment(_, _, _, _) => Ok(()),
            Conjunct::Doubly(_, _, _, _, _, _, _) => Ok(()),
            Conjunct::Tree(_, _, _, _) => Ok(()),
            Conjunct::If(_, _, _, _) => Ok(()),
        }
    }

    /// The sides of an equality become known.
    fn learn_test(&mut self, test: &Test<Operand<Expr>>) -> Result<(), AllocError>
        requires { WaitsWithin self.now }
        ensures { OnOk result (Learns (equated test.now) self.old self.new) }
    {
        match test {
            Test::True => Ok(()),
            Test::Equal(x, y) => {
                self.learn_operand(x)?;
                self.learn_operand(y)?;
                Ok(())
            }
            Test::Differ(_, _) => Ok(()),
        }
    }

    /// Those among the values of fields become known.
    fn learn_fields(&mut self, fields: &[(FieldId, Operand<Expr>)]) -> Result<(), AllocError>
        requires { WaitsWithin self.now }
        ensures { OnOk result (Learns (field_existentials fields.now) self.old self.new) }
    {
        for f in fields {
            self.learn_operand(&f.1)?;
        }
        Ok(())
    }

    /// The operand becomes known, if it is an existential.
    fn learn_operand(&mut self, x: &Operand<Expr>) -> Result<(), AllocError>
        requires { WaitsWithin self.now }
        ensures { OnOk result (Learns (existential x.now) self.old self.new) }
    {
        match x {
            Operand::Known(_) => Ok(()),
            Operand::Exists(n) => {
                self.learn(*n)?;
                Ok(())
            }
        }
    }

    /// The existential becomes known: those that wait for it lack it no more.
    fn learn(&mut self, n: u32) -> Result<(), AllocError>
        requires { WaitsWithin self.now }
        ensures { OnOk result (Learns (n ∷ []) self.old self.new) }
    {
        if let Some(jobs) = self.waiting.remove(&n) {
            self.serve_all(&jobs)?;
        }
        Ok(())
    }

    /// For each of those one thing less is lacking.
    fn serve_all(&mut self, jobs: &[usize]) -> Result<(), AllocError>
        requires { All (λ i. i < length self.now.lacking.items) jobs.now }
        ensures { OnOk result (Serves jobs.now self.old self.new) }
    {
        for i in jobs {
            self.serve(*i)?;
        }
        Ok(())
    }

    /// For the job one thing less is lacking.
    fn serve(&mut self, i: usize) -> Result<(), AllocError>
        requires { i < length self.now.lacking.items }
        ensures { OnOk result (Serves (i ∷ []) self.old self.new) }
    {
        if self.lacking[i] > 0 {
            self.lacking[i] -= 1;
            if self.lacking[i] == 0 {
                self.ready.insert(i)?;
            }
        }
        Ok(())
    }
}

/// The job waits for those existentials.
fn add_waits(
    alloc: Global,
    i: usize,
    ns: &[u32],
    waiting: &mut BTreeMap<u32, Vec<usize>>,
) -> Result<(), AllocError>
    ensures { OnOk result (AddsWaits i ns.now waiting.old waiting.new) }
{
    for n in ns {
        add_wait(alloc, i, *n, waiting)?;
    }
    Ok(())
}

/// The job waits for the existential.
fn add_wait(
    alloc: Global,
    i: usize,
    n: u32,
    waiting: &mut BTreeMap<u32, Vec<usize>>,
) -> Result<(), AllocError>
    ensures { OnOk result (AddsWaits i (n ∷ []) waiting.old waiting.new) }
{
    let mut jobs = match waiting.remove(&n) {
        Some(jobs) => jobs,
        None => Vec::new(alloc),
    };
    jobs.push(i)?;
    waiting.insert(n, jobs)?;
    Ok(())
}
