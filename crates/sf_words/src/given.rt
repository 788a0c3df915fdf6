ghost use Rattle.std.specs.Prelude.{◌≡◌};
ghost use Rattle.clap.specs.Words.{found_of, rows_of};
ghost use Rattle.sf_words.specs.Checked.Found.{order_found, texts_under};
ghost use Rattle.sf_words.specs.Words.{demo_of, journal_of, ranking_of, recheck_of, replay_of, run_of, steps_of, verify_of, waits_of, witness_of, workers_of};
ghost use Rattle.sf_words.specs.WordsOf.{order_in};

use crate::forms::OPERANDS;
use crate::number::{chosen, number};
use crate::order::Order;
use clap::ArgMatches;
use sf_base::limits::{DEFAULT_STEPS, DEFAULT_WAITS, DEMO, STEPS, WAITS, WORKERS};

// The workers that search where nothing is said.
const DEFAULT_WORKERS: u64 = 1;

/// `verify FILE [--workers K]`, by the operands and the values of its option.
fn verify<'a>(operands: Option<&[&'a str]>, workers: Option<&[&str]>) -> Option<Order<'a>>
    ensures { order_in result ≡ verify_of (texts_under operands.entry)
        (workers_of (texts_under workers.entry)) }
{
    match operands {
        Some([file]) => {
            let workers = chosen(workers, WORKERS as u64, DEFAULT_WORKERS)? as u32;
            Some(Order::Verify { file, workers })
        }
        _ => None,
    }
}

/// `recheck FILE PROOF`, by the operands.
fn recheck<'a>(operands: Option<&[&'a str]>) -> Option<Order<'a>>
    ensures { order_in result ≡ recheck_of (texts_under operands.entry) }
{
    match operands {
        Some([file, proof]) => Some(Order::Recheck { file, proof }),
        _ => None,
    }
}

/// `run FILE ENTRY STATE [--steps N] [--waits W]`, by the operands and the values of its options.
fn run<'a>(
    operands: Option<&[&'a str]>,
    steps: Option<&[&str]>,
    waits: Option<&[&str]>,
) -> Option<Order<'a>>
    ensures { order_in result ≡ run_of (texts_under operands.entry)
        (steps_of (texts_under steps.entry)) (waits_of (texts_under waits.entry)) }
{
    match operands {
        Some([file, entry, state]) => {
            let steps = chosen(steps, STEPS, DEFAULT_STEPS)?;
            let waits = chosen(waits, WAITS as u64, DEFAULT_WAITS as u64)? as u32;
            Some(Order::Run {
                file,
                entry,
                state,
                steps,
                waits,
            })
        }
        _ => None,
    }
}

/// `demo N`, by the operands.
fn demo<'a>(operands: Option<&[&'a str]>) -> Option<Order<'a>>
    ensures { order_in result ≡ demo_of (texts_under operands.entry) }
{
    match operands {
        Some([text]) => {
            let procedures = number(text, DEMO as u64)? as u32;
            Some(Order::Demo { procedures })
        }
        _ => None,
    }
}

/// `order FILE`, by the operands.
fn ranking<'a>(operands: Option<&[&'a str]>) -> Option<Order<'a>>
    ensures { order_in result ≡ ranking_of (texts_under operands.entry) }
{
    match operands {
        Some([file]) => Some(Order::Ranking { file }),
        _ => None,
    }
}

/// `replay FILE ENTRY STATE SCHEDULE`, by the operands.
fn replay<'a>(operands: Option<&[&'a str]>) -> Option<Order<'a>>
    ensures { order_in result ≡ replay_of (texts_under operands.entry) }
{
    match operands {
        Some([file, entry, state, schedule]) => Some(Order::Replay {
            file,
            entry,
            state,
            schedule,
        }),
        _ => None,
    }
}

/// `witness FILE`, by the operands.
fn witness<'a>(operands: Option<&[&'a str]>) -> Option<Order<'a>>
    ensures { order_in result ≡ witness_of (texts_under operands.entry) }
{
    match operands {
        Some([file]) => Some(Order::Witness { file }),
        _ => None,
    }
}

/// `journal FILE ENTRY STATE [--steps N] [--waits W]`, by the operands and the values of its options.
fn journal<'a>(
    operands: Option<&[&'a str]>,
    steps: Option<&[&str]>,
    waits: Option<&[&str]>,
) -> Option<Order<'a>>
    ensures { order_in result ≡ journal_of (texts_under operands.entry)
        (steps_of (texts_under steps.entry)) (waits_of (texts_under waits.entry)) }
{
    match operands {
        Some([file, entry, state]) => {
            let steps = chosen(steps, STEPS, DEFAULT_STEPS)?;
            let waits = chosen(waits, WAITS as u64, DEFAULT_WAITS as u64)? as u32;
            Some(Order::Journal {
                file,
                entry,
                state,
                steps,
                waits,
            })
        }
        _ => None,
    }
}

/// The order of a command's name and of what stands under its operands and options. `None` exactly
/// where there are too few or too many of them, or one is no number of its range.
pub(crate) fn order<'a>(name: &str, matches: &ArgMatches<'a>) -> Option<Order<'a>>
    ensures { order_in result ≡ order_found name.now (rows_of (found_of matches.now)) }
{
    let operands = matches.get_strs(OPERANDS);
    match name {
        "verify" => verify(operands, matches.get_strs("workers")),
        "recheck" => recheck(operands),
        "run" => run(
            operands,
            matches.get_strs("steps"),
            matches.get_strs("waits"),
        ),
        "demo" => demo(operands),
        "order" => ranking(operands),
        "replay" => replay(operands),
        "witness" => witness(operands),
        "journal" => journal(
            operands,
            matches.get_strs("steps"),
            matches.get_strs("waits"),
        ),
        _ => None,
    }
}
