ghost use Rattle.std.specs.Prelude.{◌≡◌, ◌<◌, length, Some, slice_get};
ghost use Rattle.sf_calls.specs.Changes.{free_in};

use crate::set::{ResSet, VarSet};
use sf_base::{ProcId, Var};
use std::marker::Model;

/// For each procedure of a program what calls of it may enter, what it holds, and what is free in
/// it. `reach` makes it.
#[derive(Debug, Drop)]
pub struct Calls {
    takes: Vec<ResSet>,
    holds: Vec<ResSet>,
    free: Vec<VarSet>,
}

impl Model for Calls {
    ghost use Rattle.sf_calls.specs.Sets.{Sets};

    ghost Value = { Sets };

    ghost view = { λ c.
        record { takes = c.takes.items; holds = c.holds.items; free = c.free.items } };
}

impl Calls {
    /// Of those sets, by the numbers of the procedures.
    pub(crate) fn new(takes: Vec<ResSet>, holds: Vec<ResSet>, free: Vec<VarSet>) -> Calls
        ensures { result ≡ record { takes = takes.items; holds = holds.items; free = free.items } }
    {
        Calls { takes, holds, free }
    }

    /// The resources that the procedure enters, itself or by its calls. There is such a procedure.
    pub fn takes(&self, f: ProcId) -> &ResSet
        requires { f.0 < length self.now.takes }
        ensures { slice_get self.now.takes f.0 ≡ Some result.now }
    {
        &self.takes[f.0 as usize]
    }

    /// The resources whose variables occur in the procedure's pre or post, and all of them where it
    /// sets the resources up. There is such a procedure.
    pub fn holds(&self, f: ProcId) -> &ResSet
        requires { f.0 < length self.now.holds }
        ensures { slice_get self.now.holds f.0 ≡ Some result.now }
    {
        &self.holds[f.0 as usize]
    }

    /// The variables of resources that occur in the procedure's pre or post, or that it uses
    /// outside the regions of their resources, itself or by its calls there. There is such a
    /// procedure.
    pub fn free(&self, f: ProcId) -> &VarSet
        requires { f.0 < length self.now.free }
        ensures { slice_get self.now.free f.0 ≡ Some result.now }
    {
        &self.free[f.0 as usize]
    }
    /// The variables that `free` has, by a procedure's number: none where there is no such
    /// procedure.
    pub fn free_in(&self, f: ProcId) -> &[Var]
        ensures { result.now ≡ free_in self.now f }
    {
        match self.free.get(f.0 as usize) {
            Some(xs) => xs.as_slice(),
            None => &[],
        }
    }

    /// How many procedures there are.
    pub(crate) fn count(&self) -> usize
        ensures { result ≡ length self.now.free }
    {
        self.free.len()
    }
}
