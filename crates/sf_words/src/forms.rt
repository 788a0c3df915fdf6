ghost use Rattle.std.specs.Prelude.{◌≡◌, IfOk};
ghost use Rattle.clap.specs.Words.{app_of};
ghost use Rattle.sf_words.specs.Checked.Forms.{IsAddedAs, bare_form, program_form, run_form, verify_form};

use clap::{Arg, ArgAction, Command};
use std::alloc::{AllocError, Global};

/// Where the operands of a command stand in its matches.
pub(crate) const OPERANDS: &str = "operands";

/// A command with operands, of which each is kept, and no option. An `Err` says that memory ran
/// out.
fn bare<'a>(alloc: Global, name: &'a str) -> Result<Command<'a>, AllocError>
    ensures { IfOk result (IsAddedAs (bare_form name.entry.now)) }
{
    let operands = Arg::new(alloc, OPERANDS).action(ArgAction::Append);
    let command = Command::new(alloc, name).arg(operands)?;
    Ok(command)
}

/// `verify` with its option, of which each value is kept. An `Err` says that memory ran out.
fn verify<'a>(alloc: Global) -> Result<Command<'a>, AllocError>
    ensures { IfOk result (IsAddedAs verify_form) }
{
    let operands = Arg::new(alloc, OPERANDS).action(ArgAction::Append);
    let workers = Arg::new(alloc, "workers")
        .long("workers")
        .action(ArgAction::Append);
    let bare = Command::new(alloc, "verify").arg(operands)?;
    let command = bare.arg(workers)?;
    Ok(command)
}

/// A command that runs a procedure, with its options, of which each value is kept. An `Err` says that
/// memory ran out.
fn run<'a>(alloc: Global, name: &'a str) -> Result<Command<'a>, AllocError>
    ensures { IfOk result (IsAddedAs (run_form name.entry.now)) }
{
    let operands = Arg::new(alloc, OPERANDS).action(ArgAction::Append);
    let steps = Arg::new(alloc, "steps")
        .long("steps")
        .action(ArgAction::Append);
    let waits = Arg::new(alloc, "waits")
        .long("waits")
        .action(ArgAction::Append);
    let bare = Command::new(alloc, name).arg(operands)?;
    let first = bare.arg(steps)?;
    let command = first.arg(waits)?;
    Ok(command)
}

/// The program with its commands, without the forms of help and of the version. An `Err` says that
/// memory ran out.
pub(crate) fn program<'a>(alloc: Global) -> Result<Command<'a>, AllocError>
    ensures { IfOk result (λ c. app_of c ≡ program_form) }
{
    let program = Command::new(alloc, "smallfoot")
        .no_binary_name(true)
        .disable_help_flag(true)
        .disable_help_subcommand(true)
        .disable_version_flag(true)
        .subcommand_required(true);
    let verify = verify(alloc)?;
    let recheck = bare(alloc, "recheck")?;
    let journal = run(alloc, "journal")?;
    let run = run(alloc, "run")?;
    let demo = bare(alloc, "demo")?;
    let order = bare(alloc, "order")?;
    let replay = bare(alloc, "replay")?;
    let witness = bare(alloc, "witness")?;
    let one = program.subcommand(verify)?;
    let two = one.subcommand(recheck)?;
    let three = two.subcommand(run)?;
    let four = three.subcommand(demo)?;
    let five = four.subcommand(order)?;
    let six = five.subcommand(replay)?;
    let seven = six.subcommand(witness)?;
    let all = seven.subcommand(journal)?;
    Ok(all)
}
