//! The first goal of a procedure.

ghost use Rattle.std.specs.Prelude.{◌≡◌, ◌++◌, ◌-◌, ◌<◌, ◌≤◌, ◌^◌, ◌+◌, [], All, AllPairs, IfOk, IfSome, Some, get_or, length};
ghost use Rattle.std.specs.List.{flat_map, slice_get};
ghost use Rattle.sf_precise.specs.Order.{IsOrdering};
ghost use Rattle.sf_core.specs.Program.Formed.{ProcedureWithin};
ghost use Rattle.sf_core.specs.Program.View.{procedure_of};
ghost use Rattle.sf_core.specs.Program.ProgramView.{program_of};
ghost use Rattle.sf_sym.specs.Goal.{goal_of};
ghost use Rattle.sf_rules.specs.First.{first_goal, links_of, nil_for, nils, state_by, symbols, with_held};
ghost use Rattle.sf_rules.specs.Resources.{variables_of};
ghost use Rattle.sf_calls.specs.Sets.{IsEarlierResource};
ghost use Rattle.sf_rules.specs.Setting.{Setting, setting_of};

use crate::regions::add_variables;
use crate::words::{Terms, with_assumed};
use sf_base::{ProcId, ResId, Var};
use sf_calls::laws::{held_resources_are_there, sets_from_truncation};
use sf_core::{Links, Proc, Program};
use sf_precise::Arranged;
use sf_sym::{Goal, Item, State, Term};
use std::alloc::{AllocError, Global};

/// The first goal of the procedure of that number. There is such a procedure. An `Err` means out of
/// memory.
pub fn first_goal<'a>(
    alloc: Global,
    arranged: &'a Arranged,
    f: ProcId,
) -> Result<Goal<'a>, AllocError>
    ghost d: { Setting }
    requires ordered { IsOrdering d.ordered }
    requires setting { d ≡ setting_of d.ordered arranged.now }
    requires there { f.0 < length arranged.now.program.procedures.items }
    ensures { IfOk result (λ first. IfSome (slice_get d.program.procedures f.0)
        (λ g. goal_of first ≡ first_goal d f g)) }
{
    let procedure = arranged.program.proc(f);
    let state = first_state(alloc, arranged, f, procedure)?;
    let mut todo = Vec::with_capacity(alloc, 3)?;
    todo.push(Item::Return(procedure.end, arranged.owed(f)))?;
    todo.push(Item::Run(&procedure.body))?;
    let terms = Terms::Of(state.vars());
    let pre = &arranged.pre(f).assertion;
    let todo = with_assumed(alloc, todo, procedure.place, terms, pre)?;
    Ok(Goal { state, todo })
}

/// The first state of a procedure, which has that number.
fn first_state(
    alloc: Global,
    arranged: &Arranged,
    f: ProcId,
    procedure: &Proc,
) -> Result<State, AllocError>
    requires there { f.0 < length arranged.now.program.procedures.items }
    requires own { slice_get (program_of arranged.now.program).procedures f.0
        ≡ Some (procedure_of procedure.now) }
    requires formed { ProcedureWithin (program_of arranged.now.program)
        (procedure_of procedure.now) }
    ensures { IfOk result (λ state. state ≡ state_by (program_of arranged.now.program)
        (get_or arranged.now.calls.holds f.0 []) (procedure_of procedure.now)) }
{
    let parameters = procedure.references + procedure.values;
    let vars = first_vars(alloc, parameters, procedure.names.len() as u32)?;
    let state = State::new(alloc, links_of(&arranged.program), vars, parameters)?;
    let held = held_variables(alloc, arranged, f)?;
    with_held(alloc, arranged.program.is_init(f), &held, state)
}

/// The state in which these variables are there: each with a fresh symbol, or nil where they are
/// still to be set up.
fn with_held(
    alloc: Global,
    sets_up: bool,
    held: &[Var],
    mut state: State,
) -> Result<State, AllocError>
    requires { state.next_sym + length held.now < 2 ^ 32 }
    ensures { IfOk result (λ after. after ≡ with_held sets_up held.now state) }
{
    if sets_up {
        state.set_vars(&nil_for(alloc, held)?)?;
    } else {
        state.set_fresh(held)?;
    }
    Ok(state)
}

/// Nil for each of the variables, in their order.
fn nil_for(alloc: Global, xs: &[Var]) -> Result<Vec<(Var, Term)>, AllocError>
    ensures { IfOk result (λ set. set.items ≡ nil_for xs.now) }
{
    let mut set = Vec::with_capacity(alloc, xs.len())?;
    for x in xs {
        set.push((*x, Term::Nil))?;
    }
    Ok(set)
}

/// The variables of the resources that the procedure holds, in file order: fewer than 2^20.
fn held_variables(alloc: Global, arranged: &Arranged, f: ProcId) -> Result<Vec<Var>, AllocError>
    requires { f.0 < length arranged.now.program.procedures.items }
    ensures variables { IfOk result (λ xs. xs.items
        ≡ flat_map (variables_of (program_of arranged.now.program))
        (get_or arranged.now.calls.holds f.0 [])) }
    ensures few { IfOk result (λ xs. length xs.items < 2 ^ 20) }
{
    sets_from_truncation();
    held_resources_are_there();
    variables_of_all(alloc, &arranged.program, arranged.calls.holds(f).as_slice())
}

/// The variables of those resources of the program, in their order: fewer than 2^20.
fn variables_of_all(alloc: Global, p: &Program, rs: &[ResId]) -> Result<Vec<Var>, AllocError>
    requires rising { AllPairs IsEarlierResource rs.now }
    requires there { All (λ r. r.0 < length (program_of p.now).resources) rs.now }
    ensures variables { IfOk result (λ xs.
        xs.items ≡ flat_map (variables_of (program_of p.now)) rs.now) }
    ensures few { IfOk result (λ xs. length xs.items < 2 ^ 20) }
{
    let mut found = Vec::new(alloc);
    let mut left = rs;
    while let Some((r, rest)) = left.split_first() {
        if let Some(resource) = p.resources.get(r.0 as usize) {
            add_variables(*r, &resource.variables, &mut found)?;
        }
        left = rest;
    }
    Ok(found)
}

/// The fields that segments and trees go by.
fn links_of(p: &Program) -> Links
    ensures { result ≡ links_of (program_of p.now) }
{
    p.links
}

/// The terms of a procedure's own variables at first: fresh symbols for the parameters, nil for the
/// locals.
fn first_vars(alloc: Global, parameters: u32, count: u32) -> Result<Vec<(Var, Term)>, AllocError>
    requires { parameters ≤ count }
    ensures { IfOk result (λ vars. vars.items
        ≡ symbols 0 parameters ++ nils parameters (count - parameters)) }
{
    let mut vars = Vec::with_capacity(alloc, count as usize)?;
    for i in 0..parameters {
        vars.push((Var::Own(i), Term::Sym(i)))?;
    }
    with_nils(vars, parameters, count)
}

/// The variables, and after them the locals from number `from` up to `to`, which are nil.
fn with_nils(mut vars: Vec<(Var, Term)>, from: u32, to: u32) -> Result<Vec<(Var, Term)>, AllocError>
    requires { from ≤ to }
    ensures { IfOk result (λ r. r.items ≡ vars.items ++ nils from (to - from)) }
{
    for i in from..to {
        vars.push((Var::Own(i), Term::Nil))?;
    }
    Ok(vars)
}
