//! The loop around a place, and what a procedure's annotations leave out.

use sf_base::{Place, ProcId, Var};
use sf_core::{Assertion, Command, Expr, Proc, Program, sites};
use std::alloc::{AllocError, Global};

/// Whether an assertion says nothing: it isn't written, or is `emp`.
fn is_silent(assertion: &Assertion) -> bool {
    assertion.level.conjuncts.is_empty()
}

/// The procedure of that number, if it is there.
pub fn procedure_at(p: &Program, f: ProcId) -> Option<&Proc> {
    p.procedures.get(f.0 as usize)
}

/// Whether nothing is in the procedure's precondition.
pub fn has_silent_pre(p: &Program, f: ProcId) -> bool {
    match procedure_at(p, f) {
        Some(procedure) => is_silent(&procedure.pre),
        None => false,
    }
}

/// Whether nothing is in the procedure's postcondition.
pub fn has_silent_post(p: &Program, f: ProcId) -> bool {
    match procedure_at(p, f) {
        Some(procedure) => is_silent(&procedure.post),
        None => false,
    }
}

/// Whether the procedure's body sets one of its values, and so has a copy of it, with a prime.
pub fn has_primes(p: &Program, f: ProcId) -> bool {
    let Some(procedure) = procedure_at(p, f) else {
        return false;
    };
    let parameters = procedure.references.saturating_add(procedure.values);
    procedure.names.len() > parameters.saturating_add(procedure.locals) as usize
}

/// Whether an expression is one of the procedure's values, which no body sets.
pub fn is_value(p: &Program, f: ProcId, e: Option<Expr>) -> bool {
    let (Some(Expr::Var(x)), Some(procedure)) = (e, procedure_at(p, f)) else {
        return false;
    };
    let end = procedure.references.saturating_add(procedure.values);
    match x.var {
        Var::Own(n) => procedure.references <= n && n < end,
        Var::Shared(_, _) => false,
    }
}

/// Whether the place is that of the procedure's closing brace.
pub fn is_end(p: &Program, f: ProcId, place: Place) -> bool {
    match procedure_at(p, f) {
        Some(procedure) => procedure.end == place,
        None => false,
    }
}

/// Whether a command of that block is at the place.
fn has_command_at(alloc: Global, body: &[Command], place: Place) -> Result<bool, AllocError> {
    let found = sites(alloc, body)?;
    Ok(found.iter().any(|site| site.command.place() == place))
}

/// How a loop stands to a place.
#[derive(Clone, Copy, Debug, PartialEq, Eq)]
pub enum Loop {
    /// None is around the place.
    None,
    /// The innermost one around it has an invariant.
    Said,
    /// The innermost one around it has none.
    Silent,
    /// The place is that of a loop, which has an invariant.
    Itself,
    /// The place is that of a loop, which has none.
    ItselfSilent,
}

/// How one command stands to a place, where what was known of those before it is given.
fn loop_at(
    alloc: Global,
    command: &Command,
    place: Place,
    before: Loop,
) -> Result<Loop, AllocError> {
    let Command::While(at, _, invariant, body) = command else {
        return Ok(before);
    };
    let silent = is_silent(invariant);
    if *at == place {
        return Ok(if silent {
            Loop::ItselfSilent
        } else {
            Loop::Itself
        });
    }
    if has_command_at(alloc, body, place)? {
        return Ok(if silent { Loop::Silent } else { Loop::Said });
    }
    Ok(before)
}

/// How the innermost loop around a place of the procedure stands to it. An `Err` says that memory ran
/// out.
pub fn loop_around(
    alloc: Global,
    p: &Program,
    f: ProcId,
    place: Place,
) -> Result<Loop, AllocError> {
    let mut found = Loop::None;
    let Some(procedure) = procedure_at(p, f) else {
        return Ok(found);
    };
    let commands = sites(alloc, &procedure.body)?;
    for site in &commands {
        found = loop_at(alloc, site.command, place, found)?;
    }
    Ok(found)
}

/// Whether the procedure's body enters a region. An `Err` says that memory ran out.
pub fn has_region(alloc: Global, p: &Program, f: ProcId) -> Result<bool, AllocError> {
    let Some(procedure) = procedure_at(p, f) else {
        return Ok(false);
    };
    let commands = sites(alloc, &procedure.body)?;
    Ok(
        commands
            .iter()
            .any(|site| matches!(site.command, Command::With(_, _, _, _))),
    )
}

/// Whether a region that has ended took cells last, once a command before the place is done, where
/// what was so before it is given.
fn left_after(
    alloc: Global,
    command: &Command,
    place: Place,
    before: bool,
) -> Result<bool, AllocError> {
    match command {
        Command::With(_, _, _, body) => Ok(!has_command_at(alloc, body, place)?),
        Command::While(_, _, _, _) | Command::Dispose(_, _) => Ok(false),
        Command::Call(_, _) | Command::Fork(_, _, _) => Ok(false),
        _ => Ok(before),
    }
}

/// Whether what took cells last before a command at the place of the procedure is a region that has
/// ended, and no call, loop or `dispose`. An `Err` says that memory ran out.
pub fn has_left_region(
    alloc: Global,
    p: &Program,
    f: ProcId,
    place: Place,
) -> Result<bool, AllocError> {
    let mut found = false;
    let Some(procedure) = procedure_at(p, f) else {
        return Ok(found);
    };
    let commands = sites(alloc, &procedure.body)?;
    for site in &commands {
        if site.command.place() == place {
            break;
        }
        found = left_after(alloc, site.command, place, found)?;
    }
    Ok(found)
}
