//! The end of a run.

ghost use Rattle.std.specs.Prelude.{◌<◌, [], length, IfOk, IsTrue, ◌↔◌};
ghost use Rattle.sf_core.specs.Machine.Enabled.{HasEnded};
ghost use Rattle.sf_core.specs.Program.ProgramView.{program_of};
ghost use Rattle.sf_frame.specs.Checked.Resources.{counts_of};
ghost use Rattle.sf_frame.specs.Stores.{store_of};
ghost use Rattle.sf_machine.specs.Configs.{config_of, IsWide};
ghost use Rattle.sf_machine.specs.Ending.{Ends};
ghost use Rattle.sf_machine.specs.Checked.Endings.{AreRows};

use crate::config::Config;
use crate::task::Task;
use sf_base::{ProcId, ResId, Value};
use sf_core::Program;
use sf_foot::{Finish, Vars};
use sf_frame::{Shared, Store, own_values, parameter_count, shared_values, variable_count};
use std::alloc::{AllocError, Global};

impl<'p> Config<'p> {
    /// Whether the entry's task has ended.
    pub fn has_ended(&self) -> bool
        ensures { IsTrue result ↔ HasEnded [] (config_of self.now).tasks }
    {
        match &self.tasks {
            Task::Over => true,
            Task::Runs(stack) => stack.has_ended(),
            Task::Waits(_, _, _) => false,
        }
    }

    /// What a run of procedure `f` ends with: the values of its references and values and of the
    /// variables of the resources, and the cells, which move and aren't copied. An `Err` says that
    /// memory ran out.
    pub fn finish(self, alloc: Global, p: &Program, f: ProcId) -> Result<Finish, AllocError>
        requires procedure { f.0 < length p.now.procedures.items }
        requires wide { IsWide (program_of p.now) self }
        ensures { IfOk result (λ finish. Ends (program_of p.now) f (config_of self.entry)
            finish.vars finish.heap) }
    {
        let count = parameter_count(p, f);
        let own = own_values(alloc, &self.common.store, count)?;
        let shared = values_of_resources(alloc, &self.common.store, p)?;
        let Config { common, .. } = self;
        let Shared { heap, .. } = common;
        Ok(Finish {
            vars: Vars { own, shared },
            heap,
        })
    }
}

/// The values of the variables of each resource.
fn values_of_resources(
    alloc: Global,
    store: &Store,
    p: &Program,
) -> Result<Vec<Vec<Value>>, AllocError>
    ensures { IfOk result (λ rows. AreRows (store_of store.now) (counts_of p.now.resources.items)
        (length p.now.resources.items) rows.items) }
{
    let mut rows = Vec::with_capacity(alloc, p.resources.len())?;
    for r in 0..p.resources.len() {
        let count = variable_count(p, r);
        let values = shared_values(alloc, store, ResId(r as u32), count)?;
        rows.push(values)?;
    }
    Ok(rows)
}
