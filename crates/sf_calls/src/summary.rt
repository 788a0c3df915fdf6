//! What occurs in each procedure's text, for all variables and resources at once.

ghost use Rattle.std.specs.Prelude.{◌≡◌, Contains, IfOk};
ghost use Rattle.sf_core.specs.Program.Init.{is_init};
ghost use Rattle.sf_core.specs.Program.View.{procedure_of};
ghost use Rattle.sf_core.specs.Program.ProgramView.{program_of};
ghost use Rattle.sf_calls.specs.Checked.Summaries.{AreSummaries, IsSummaryOf};
ghost use Rattle.sf_calls.specs.Sets.{IsVarSet};

use crate::assigned::insert_all;
use crate::regions::{add_regions, add_with_calls};
use crate::set::{Set, VarSet};
use crate::shared::{add_kept, add_shared};
use sf_base::{ProcId, ResId, Var};
use sf_core::{Proc, Program, add_level_occurrences, sites};
use std::alloc::{AllocError, Global};

/// What occurs in a procedure's text.
#[derive(Debug, Drop)]
pub struct Summary {
    /// Whether it is the procedure that sets the resources up.
    pub sets_up: bool,
    /// The variables of resources in its pre and post.
    pub in_contract: VarSet,
    /// These, and those in its body outside the regions of their resources.
    pub mentioned: VarSet,
    /// The resources of its regions.
    pub entered: Vec<ResId>,
    /// The resources of its regions with a call inside.
    pub with_calls: Vec<ResId>,
}

/// For each procedure what occurs in its text. An `Err` means that memory ran out.
pub fn summaries_of(alloc: Global, p: &Program) -> Result<Vec<Summary>, AllocError>
    ensures { IfOk result (λ summaries. AreSummaries (program_of p.now) summaries.items) }
{
    let mut summaries = Vec::with_capacity(alloc, p.procedures.len())?;
    for (i, h) in p.procedures.iter().enumerate() {
        let sets_up = p.is_init(ProcId(i as u32));
        summaries.push(summary_of(alloc, h, sets_up)?)?;
    }
    Ok(summaries)
}

/// What occurs in the text of a procedure that sets the resources up, or doesn't.
fn summary_of(alloc: Global, h: &Proc, sets_up: bool) -> Result<Summary, AllocError>
    requires { sets_up ≡ is_init (procedure_of h.now) }
    ensures { IfOk result (IsSummaryOf (procedure_of h.now)) }
{
    let mut words = Vec::new(alloc);
    add_level_occurrences(&h.pre.level, &mut words)?;
    add_level_occurrences(&h.post.level, &mut words)?;
    let mut named = Vec::new(alloc);
    add_kept(&[], &words, &mut named)?;
    let in_contract = ordered(alloc, &named)?;
    let body = sites(alloc, &h.body)?;
    add_shared(alloc, &body, &mut named)?;
    let mentioned = ordered(alloc, &named)?;
    let mut entered = Vec::new(alloc);
    add_regions(&body, &mut entered)?;
    let mut with_calls = Vec::new(alloc);
    add_with_calls(&body, &mut with_calls)?;
    Ok(Summary {
        sets_up,
        in_contract,
        mentioned,
        entered,
        with_calls,
    })
}

/// The set of those variables.
fn ordered(alloc: Global, xs: &[Var]) -> Result<VarSet, AllocError>
    ensures { IfOk result (IsVarSet (Contains xs.now)) }
{
    let mut found = Vec::new(alloc);
    insert_all(&mut found, xs)?;
    Ok(Set::from_ordered(found))
}
