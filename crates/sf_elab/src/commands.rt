//! The commands of a file, numbered.

ghost use Rattle.std.specs.Prelude.{◌≡◌, ◌∷◌, ◌++◌, [], map, IfOk};
ghost use Rattle.sf_base.specs.Results.{Appends};
ghost use Rattle.std.specs.Option.{option_map};
ghost use Rattle.sf_ast.specs.View.{arguments_of, call_of as surface_call, command_of as surface_command, commands as surface_commands, annotation_of as surface_annotation};
ghost use Rattle.sf_core.specs.Program.Syntax as syntax;
ghost use Rattle.sf_core.specs.Program.View as core;
ghost use Rattle.sf_elab.specs.Annotations.Assertions.{maybe_faults, maybe_of};
ghost use Rattle.sf_elab.specs.Bodies.Commands.{references_in, values_in, call_of, fits, all_faults, callee_faults, call_faults, command_of, commands_of, command_faults, commands_faults, set_in, set_in_all};
ghost use Rattle.sf_elab.specs.Names.InEnv.{env_of, occurrence, variable_faults, expr_of, expr_faults, expr_place as place_of_expr, field_of, field_faults, test_of, test_faults, resource_named, resource_faults, header_named};

use crate::assertions::maybe;
use crate::env::{Env, expr_place, report_if};
use crate::fault::Fault;
use crate::shape::add_call;
use crate::texts::text;
use sf_ast::{
    SurfaceArguments, SurfaceCall, SurfaceCommand, SurfaceExpr, SurfaceNote, SurfaceTest, Word,
};
use sf_base::{Place, ProcId, ResId};
use sf_core::{Assertion, Call, Command, Expr, Occurrence, Test};
use std::alloc::{AllocError, Global};

/// The references of a call.
pub fn references_in(arguments: &SurfaceArguments) -> &[Word]
    ensures { result.now ≡ references_in (arguments_of arguments.now) }
{
    match arguments {
        SurfaceArguments::Values(_) => &[],
        SurfaceArguments::Both(references, _) => references.as_slice(),
    }
}

/// The values of a call.
fn values_in(arguments: &SurfaceArguments) -> &[SurfaceExpr]
    ensures { result.now ≡ values_in (arguments_of arguments.now) }
{
    match arguments {
        SurfaceArguments::Values(values) => values.as_slice(),
        SurfaceArguments::Both(_, values) => values.as_slice(),
    }
}

/// The variables that those words name.
fn references(
    alloc: Global,
    env: &Env<'_>,
    words: &[Word],
    found: &mut Vec<Fault>,
) -> Result<Vec<Occurrence>, AllocError>
    ensures same { IfOk result (λ v. v.items ≡ map (occurrence (env_of env.now)) words.now) }
    ensures faults { Appends result found.old.items found.new.items
        (all_faults (variable_faults (env_of env.now)) words.now) }
{
    let mut done = Vec::new(alloc);
    for word in words {
        let one = env.occurrence(*word, found)?;
        done.push(one)?;
    }
    Ok(done)
}

/// Those expressions.
fn values(
    alloc: Global,
    env: &Env<'_>,
    exprs: &[SurfaceExpr],
    found: &mut Vec<Fault>,
) -> Result<Vec<Expr>, AllocError>
    ensures same { IfOk result (λ v. v.items ≡ map (expr_of (env_of env.now)) exprs.now) }
    ensures faults { Appends result found.old.items found.new.items
        (all_faults (expr_faults (env_of env.now)) exprs.now) }
{
    let mut done = Vec::new(alloc);
    for e in exprs {
        let one = env.expr(*e, found)?;
        done.push(one)?;
    }
    Ok(done)
}

/// The procedure that a call names, with what is wrong where it has other counts.
fn callee(env: &Env<'_>, call: &SurfaceCall, found: &mut Vec<Fault>) -> Result<ProcId, AllocError>
    ensures same { IfOk result
        (λ f. f ≡ (header_named (env_of env.now) (surface_call call.now).name).id) }
    ensures faults { Appends result found.old.items found.new.items
        (callee_faults (env_of env.now) (surface_call call.now)) }
{
    match env.declared.procedures.find(text(env.bytes, call.name)) {
        Some(header) => {
            let fits = references_in(&call.arguments).len() == header.references
                && values_in(&call.arguments).len() == header.values;
            report_if(!fits, Fault::Arity(call.name), found)?;
            Ok(header.id)
        }
        None => {
            found.push(Fault::Unknown(call.name))?;
            Ok(ProcId(0))
        }
    }
}

/// A call, with what is wrong where it names `init`.
fn call(
    alloc: Global,
    env: &Env<'_>,
    call: &SurfaceCall,
    found: &mut Vec<Fault>,
) -> Result<Call, AllocError>
    ensures same { IfOk result
        (λ x. core.call_of x ≡ call_of (env_of env.now) (surface_call call.now)) }
    ensures faults { Appends result found.old.items found.new.items
        (call_faults (env_of env.now) (surface_call call.now)) }
{
    let callee = callee(env, call, found)?;
    add_call(env.bytes, call.name, found)?;
    let references = references(alloc, env, references_in(&call.arguments), found)?;
    let values = values(alloc, env, values_in(&call.arguments), found)?;
    Ok(Call {
        callee,
        place: call.name.place,
        references,
        values,
    })
}

/// Appends a command that was made.
fn push(one: Command, done: &mut Vec<Command>) -> Result<(), AllocError>
    ensures { Appends result (map core.command_of done.old.items)
        (map core.command_of done.new.items)
        (core.command_of one ∷ []) }
{
    done.push(one)?;
    Ok(())
}

/// Appends an assignment.
fn assign(
    env: &Env<'_>,
    x: Word,
    e: SurfaceExpr,
    done: &mut Vec<Command>,
    found: &mut Vec<Fault>,
) -> Result<(), AllocError>
    ensures commands { Appends result (map core.command_of done.old.items)
        (map core.command_of done.new.items)
        (syntax.assign x.place (occurrence (env_of env.now) x) (expr_of (env_of env.now) e)
        ∷ []) }
    ensures faults { Appends result found.old.items found.new.items
        (variable_faults (env_of env.now) x
        ++ expr_faults (env_of env.now) e) }
{
    let var = env.occurrence(x, found)?;
    let e = env.expr(e, found)?;
    push(Command::Assign(x.place, var, e), done)
}

/// Appends a look-up.
fn look_up(
    env: &Env<'_>,
    x: Word,
    e: SurfaceExpr,
    field: Word,
    done: &mut Vec<Command>,
    found: &mut Vec<Fault>,
) -> Result<(), AllocError>
    ensures commands { Appends result (map core.command_of done.old.items)
        (map core.command_of done.new.items)
        (syntax.look_up x.place (occurrence (env_of env.now) x) (expr_of (env_of env.now) e)
        (field_of (env_of env.now) field) ∷ []) }
    ensures faults { Appends result found.old.items found.new.items
        (variable_faults (env_of env.now) x
        ++ expr_faults (env_of env.now) e ++ field_faults (env_of env.now) field) }
{
    let var = env.occurrence(x, found)?;
    let e = env.expr(e, found)?;
    let field = env.field(field, found)?;
    push(Command::LookUp(x.place, var, e, field), done)
}

/// Appends a `new`.
fn new_cell(
    env: &Env<'_>,
    x: Word,
    done: &mut Vec<Command>,
    found: &mut Vec<Fault>,
) -> Result<(), AllocError>
    ensures commands { Appends result (map core.command_of done.old.items)
        (map core.command_of done.new.items)
        (syntax.new x.place (occurrence (env_of env.now) x) ∷ []) }
    ensures faults { Appends result found.old.items found.new.items
        (variable_faults (env_of env.now) x) }
{
    let var = env.occurrence(x, found)?;
    push(Command::New(x.place, var), done)
}

/// Appends a mutation.
fn mutate(
    env: &Env<'_>,
    e: SurfaceExpr,
    field: Word,
    value: SurfaceExpr,
    done: &mut Vec<Command>,
    found: &mut Vec<Fault>,
) -> Result<(), AllocError>
    ensures commands { Appends result (map core.command_of done.old.items)
        (map core.command_of done.new.items)
        (syntax.mutate (place_of_expr e) (expr_of (env_of env.now) e)
        (field_of (env_of env.now) field) (expr_of (env_of env.now) value) ∷ []) }
    ensures faults { Appends result found.old.items found.new.items (expr_faults (env_of env.now) e
        ++ field_faults (env_of env.now) field ++ expr_faults (env_of env.now) value) }
{
    let cell = env.expr(e, found)?;
    let field = env.field(field, found)?;
    let value = env.expr(value, found)?;
    push(Command::Mutate(expr_place(e), cell, field, value), done)
}

/// Appends a `dispose`.
fn dispose(
    env: &Env<'_>,
    place: Place,
    e: SurfaceExpr,
    done: &mut Vec<Command>,
    found: &mut Vec<Fault>,
) -> Result<(), AllocError>
    ensures commands { Appends result (map core.command_of done.old.items)
        (map core.command_of done.new.items)
        (syntax.dispose place (expr_of (env_of env.now) e) ∷ []) }
    ensures faults { Appends result found.old.items found.new.items
        (expr_faults (env_of env.now) e) }
{
    let e = env.expr(e, found)?;
    push(Command::Dispose(place, e), done)
}

/// Appends a call alone.
fn single(
    alloc: Global,
    env: &Env<'_>,
    one: &SurfaceCall,
    done: &mut Vec<Command>,
    found: &mut Vec<Fault>,
) -> Result<(), AllocError>
    ensures commands { Appends result (map core.command_of done.old.items)
        (map core.command_of done.new.items)
        (syntax.call one.now.name.place (call_of (env_of env.now) (surface_call one.now)) ∷ []) }
    ensures faults { Appends result found.old.items found.new.items
        (call_faults (env_of env.now) (surface_call one.now)) }
{
    let made = call(alloc, env, one, found)?;
    push(Command::Call(one.name.place, made), done)
}

/// Appends two calls side by side.
fn fork(
    alloc: Global,
    env: &Env<'_>,
    left: &SurfaceCall,
    right: &SurfaceCall,
    done: &mut Vec<Command>,
    found: &mut Vec<Fault>,
) -> Result<(), AllocError>
    ensures commands { Appends result (map core.command_of done.old.items)
        (map core.command_of done.new.items)
        (syntax.fork left.now.name.place (call_of (env_of env.now) (surface_call left.now))
        (call_of (env_of env.now) (surface_call right.now)) ∷ []) }
    ensures faults { Appends result found.old.items found.new.items
        (call_faults (env_of env.now) (surface_call left.now)
        ++ call_faults (env_of env.now) (surface_call right.now)) }
{
    let one = call(alloc, env, left, found)?;
    let other = call(alloc, env, right, found)?;
    push(Command::Fork(left.name.place, one, other), done)
}

/// The test of a loop and its invariant.
fn head(
    alloc: Global,
    env: &Env<'_>,
    test: &SurfaceTest<SurfaceExpr>,
    invariant: &Option<SurfaceNote>,
    found: &mut Vec<Fault>,
) -> Result<(Test<Expr>, Assertion), AllocError>
    ensures test { IfOk result (λ x. x.0 ≡ test_of (expr_of (env_of env.now)) test.now) }
    ensures invariant { IfOk result (λ x. core.assertion_of x.1
        ≡ maybe_of (env_of env.now) (option_map surface_annotation invariant.now)) }
    ensures faults { Appends result found.old.items found.new.items
        (test_faults (expr_faults (env_of env.now)) test.now
        ++ maybe_faults (env_of env.now) (option_map surface_annotation invariant.now)) }
{
    let test = env.test(test, found)?;
    let invariant = maybe(alloc, env, invariant, found)?;
    Ok((test, invariant))
}

/// The resource of a region and its test.
fn region(
    env: &Env<'_>,
    resource: Word,
    test: &SurfaceTest<SurfaceExpr>,
    found: &mut Vec<Fault>,
) -> Result<(ResId, Test<Expr>), AllocError>
    ensures resource { IfOk result (λ x. x.0 ≡ resource_named (env_of env.now) resource) }
    ensures test { IfOk result (λ x. x.1 ≡ test_of (expr_of (env_of env.now)) test.now) }
    ensures faults { Appends result found.old.items found.new.items
        (resource_faults (env_of env.now) resource
        ++ test_faults (expr_faults (env_of env.now)) test.now) }
{
    let resource = env.resource(resource, found)?;
    let test = env.test(test, found)?;
    Ok((resource, test))
}

/// Appends a command, or those in its braces.
#[cycle(commands)]
fn add_command(
    alloc: Global,
    env: &Env<'_>,
    c: &SurfaceCommand,
    done: &mut Vec<Command>,
    found: &mut Vec<Fault>,
) -> Result<(), AllocError>
    ensures commands { Appends result (map core.command_of done.old.items)
        (map core.command_of done.new.items)
        (command_of (env_of env.now) (surface_command c.now)) }
    ensures faults { Appends result found.old.items found.new.items
        (command_faults (env_of env.now) (surface_command c.now)) }
{
    match c {
        SurfaceCommand::Assign(x, e) => assign(env, *x, *e, done, found),
        SurfaceCommand::LookUp(x, e, f) => look_up(env, *x, *e, *f, done, found),
        SurfaceCommand::New(x) => new_cell(env, *x, done, found),
        SurfaceCommand::Mutate(e, f, v) => mutate(env, *e, *f, *v, done, found),
        SurfaceCommand::Dispose(p, _, e) => dispose(env, *p, *e, done, found),
        SurfaceCommand::Call(one) => single(alloc, env, one, done, found),
        SurfaceCommand::Fork(left, right) => fork(alloc, env, left, right, done, found),
        SurfaceCommand::IfAlone(p, test, one) => if_alone(alloc, env, *p, test, one, done, found),
        SurfaceCommand::If(p, test, this, that) => {
            let test = env.test(test, found)?;
            let this = inside(alloc, env, this, found)?;
            let that = inside(alloc, env, that, found)?;
            push(Command::If(*p, test, this, that), done)
        }
        SurfaceCommand::While(p, test, invariant, body) => {
            repeat(alloc, env, *p, test, invariant, body, done, found)
        }
        SurfaceCommand::With(p, resource, test, body) => {
            with(alloc, env, *p, *resource, test, body, done, found)
        }
        SurfaceCommand::Block(_, commands, _) => add_commands(alloc, env, commands, done, found),
    }
}

/// Appends an `if` without its other branch.
#[cycle(commands)]
fn if_alone(
    alloc: Global,
    env: &Env<'_>,
    place: Place,
    test: &SurfaceTest<SurfaceExpr>,
    this: &SurfaceCommand,
    done: &mut Vec<Command>,
    found: &mut Vec<Fault>,
) -> Result<(), AllocError>
    ensures commands { Appends result (map core.command_of done.old.items)
        (map core.command_of done.new.items)
        (syntax.if place (test_of (expr_of (env_of env.now)) test.now)
        (core.block (command_of (env_of env.now) (surface_command this.now))) syntax.done
        ∷ []) }
    ensures faults { Appends result found.old.items found.new.items
        (test_faults (expr_faults (env_of env.now)) test.now
        ++ command_faults (env_of env.now) (surface_command this.now)) }
{
    let test = env.test(test, found)?;
    let this = inside(alloc, env, this, found)?;
    push(Command::If(place, test, this, Vec::new(alloc)), done)
}

/// Appends a loop.
#[cycle(commands)]
fn repeat(
    alloc: Global,
    env: &Env<'_>,
    place: Place,
    test: &SurfaceTest<SurfaceExpr>,
    invariant: &Option<SurfaceNote>,
    body: &SurfaceCommand,
    done: &mut Vec<Command>,
    found: &mut Vec<Fault>,
) -> Result<(), AllocError>
    ensures commands { Appends result (map core.command_of done.old.items)
        (map core.command_of done.new.items)
        (syntax.while place (test_of (expr_of (env_of env.now)) test.now)
        (maybe_of (env_of env.now) (option_map surface_annotation invariant.now))
        (core.block (command_of (env_of env.now) (surface_command body.now))) ∷ []) }
    ensures faults { Appends result found.old.items found.new.items
        (test_faults (expr_faults (env_of env.now)) test.now
        ++ maybe_faults (env_of env.now) (option_map surface_annotation invariant.now)
        ++ command_faults (env_of env.now) (surface_command body.now)) }
{
    let (test, invariant) = head(alloc, env, test, invariant, found)?;
    let body = inside(alloc, env, body, found)?;
    push(Command::While(place, test, invariant, body), done)
}

/// Appends a region of a resource.
#[cycle(commands)]
fn with(
    alloc: Global,
    env: &Env<'_>,
    place: Place,
    resource: Word,
    test: &SurfaceTest<SurfaceExpr>,
    body: &SurfaceCommand,
    done: &mut Vec<Command>,
    found: &mut Vec<Fault>,
) -> Result<(), AllocError>
    ensures commands { Appends result (map core.command_of done.old.items)
        (map core.command_of done.new.items)
        (syntax.with place (resource_named (env_of env.now) resource)
        (test_of (expr_of (env_of env.now)) test.now)
        (core.block (command_of (env_of env.now) (surface_command body.now))) ∷ []) }
    ensures faults { Appends result found.old.items found.new.items
        (resource_faults (env_of env.now) resource
        ++ test_faults (expr_faults (env_of env.now)) test.now
        ++ command_faults (env_of env.now) (surface_command body.now)) }
{
    let (resource, test) = region(env, resource, test, found)?;
    let body = inside(alloc, env, body, found)?;
    push(Command::With(place, resource, test, body), done)
}

/// The commands that one command is.
#[cycle(commands)]
fn inside(
    alloc: Global,
    env: &Env<'_>,
    c: &SurfaceCommand,
    found: &mut Vec<Fault>,
) -> Result<Vec<Command>, AllocError>
    ensures same { IfOk result (λ v. map core.command_of v.items
        ≡ command_of (env_of env.now) (surface_command c.now)) }
    ensures faults { Appends result found.old.items found.new.items
        (command_faults (env_of env.now) (surface_command c.now)) }
{
    let mut done = Vec::new(alloc);
    add_command(alloc, env, c, &mut done, found)?;
    Ok(done)
}

/// Appends those commands.
#[cycle(commands)]
pub fn add_commands(
    alloc: Global,
    env: &Env<'_>,
    commands: &[SurfaceCommand],
    done: &mut Vec<Command>,
    found: &mut Vec<Fault>,
) -> Result<(), AllocError>
    ensures commands { Appends result (map core.command_of done.old.items)
        (map core.command_of done.new.items)
        (commands_of (env_of env.now) (surface_commands (map surface_command commands.now))) }
    ensures faults { Appends result found.old.items found.new.items
        (commands_faults (env_of env.now) (surface_commands (map surface_command commands.now))) }
{
    for c in commands {
        add_command(alloc, env, c, done, found)?;
    }
    Ok(())
}

/// Appends a word.
fn add_word(word: Word, words: &mut Vec<Word>) -> Result<(), AllocError>
    ensures { Appends result words.old.items words.new.items (word ∷ []) }
{
    words.push(word)?;
    Ok(())
}

/// Appends the words that the command sets or passes as references.
#[cycle(sets)]
fn add_set_in(c: &SurfaceCommand, words: &mut Vec<Word>) -> Result<(), AllocError>
    ensures { Appends result words.old.items words.new.items (set_in (surface_command c.now)) }
{
    match c {
        SurfaceCommand::Assign(x, _) | SurfaceCommand::LookUp(x, _, _) | SurfaceCommand::New(x) =>
            add_word(*x, words),
        SurfaceCommand::Mutate(_, _, _) | SurfaceCommand::Dispose(_, _, _) => Ok(()),
        SurfaceCommand::IfAlone(_, _, body)
        | SurfaceCommand::While(_, _, _, body)
        | SurfaceCommand::With(_, _, _, body) => add_set_in(body, words),
        SurfaceCommand::If(_, _, this, that) => {
            add_set_in(this, words)?;
            add_set_in(that, words)
        }
        SurfaceCommand::Call(one) => add_all(references_in(&one.arguments), words),
        SurfaceCommand::Fork(left, right) => {
            add_all(references_in(&left.arguments), words)?;
            add_all(references_in(&right.arguments), words)
        }
        SurfaceCommand::Block(_, commands, _) => add_set_in_all(commands, words),
    }
}

/// Appends those of several commands, in text order.
#[cycle(sets)]
pub fn add_set_in_all(commands: &[SurfaceCommand], words: &mut Vec<Word>) -> Result<(), AllocError>
    ensures { Appends result words.old.items words.new.items
        (set_in_all (surface_commands (map surface_command commands.now))) }
{
    for c in commands {
        add_set_in(c, words)?;
    }
    Ok(())
}

/// Appends those words.
pub fn add_all(more: &[Word], words: &mut Vec<Word>) -> Result<(), AllocError>
    ensures { Appends result words.old.items words.new.items more.now }
{
    for word in more {
        words.push(*word)?;
    }
    Ok(())
}
