ghost use Rattle.std.specs.Prelude.{◌≡◌, [], ◌∷◌, ◌++◌, ◌↔◌, IsTrue, OnOk, OnErr};
ghost use Rattle.sf_io.specs.FaultPlan.{Plan, after_call, IsDue};

use std::alloc::{AllocError, Global};
use std::marker::Model;

/// The calls that a stand-in for the outside was given, and which of them are to fail.
#[derive(Debug, Drop)]
pub(crate) struct FaultPlan {
    made: u64,
    failing: Vec<u64>,
}

impl Model for FaultPlan {
    ghost Value = { Plan };

    ghost view = { λ c. record { made = c.made; failing = c.failing.items } };
}

impl FaultPlan {
    /// No call was made, and none is to fail.
    pub(crate) fn new(alloc: Global) -> FaultPlan
        ensures { result ≡ record { made = 0; failing = [] } }
    {
        FaultPlan {
            made: 0,
            failing: Vec::new(alloc),
        }
    }

    /// From now on the call with that number, counted from 1, is to fail. An `Err` says that
    /// memory ran out, and nothing is changed.
    pub(crate) fn fail_at(&mut self, call: u64) -> Result<(), AllocError>
        ensures ok { OnOk result
            (self.new ≡ record self.old { failing = self.old.failing ++ call ∷ [] }) }
        ensures err { OnErr result (self.new ≡ self.old) }
    {
        self.failing.push(call)?;
        Ok(())
    }

    /// Counts one more call, and says whether it is to fail.
    pub(crate) fn next_fails(&mut self) -> bool
        ensures counted { self.new ≡ after_call self.old }
        ensures answer { IsTrue result ↔ IsDue self.old }
    {
        self.made = self.made.saturating_add(1);
        self.failing.contains(&self.made)
    }
}
