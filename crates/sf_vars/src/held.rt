//! Which resources are held at a place.

ghost use Rattle.std.specs.Prelude.{◌≡◌, ◌<◌, All};
ghost use Rattle.sf_vars.specs.Checked.Search.{has, lacks, none_held, with_all, with_one};

use sf_base::limits::RESOURCES;
use sf_base::{ResId, Var};
use std::marker::Model;

/// The resources that are held. Contracts see a visit for each number.
#[derive(Debug, Drop)]
pub struct Held {
    visited: [bool; RESOURCES],
}

impl Model for Held {
    ghost use Rattle.std.specs.Prelude.{List, Bool};

    ghost Value = { List Bool };

    ghost view = { λ h. h.visited };
}

impl Held {
    /// Those resources, and no others.
    pub fn of(resources: &[ResId]) -> Held
        requires { All (λ r. r.0 < RESOURCES) resources.now }
        ensures { result ≡ with_all none_held resources.now }
    {
        let mut held = Held {
            visited: [false; RESOURCES],
        };
        for r in resources {
            held = held.and(*r);
        }
        held
    }

    /// The resource too.
    pub fn and(&self, r: ResId) -> Held
        requires { r.0 < RESOURCES }
        ensures { result ≡ with_one self.now r }
    {
        let mut visited = self.visited;
        visited[r.0 as usize] = true;
        Held { visited }
    }

    /// Whether the resource is held.
    pub fn has(&self, r: ResId) -> bool
        ensures { result ≡ has self.now r }
    {
        match self.visited.get(r.0 as usize) {
            Some(visit) => *visit,
            None => false,
        }
    }

    /// Whether it is a variable of a resource that is not held.
    pub fn lacks(&self, x: Var) -> bool
        ensures { result ≡ lacks self.now x }
    {
        match x {
            Var::Own(_) => false,
            Var::Shared(r, _) => !self.has(r),
        }
    }
}
