//! The commands: to each order what is said, and of which files.

ghost use Rattle.std.specs.Prelude.{◌≡◌, ◌<◌, ◌≤◌, Some, IfOk};
ghost use Rattle.sf_cli.specs.Answer.{IsAnswering, IsSaid, Reaches, Reply};
ghost use Rattle.sf_words.specs.Words.{HasNumbersInRange, Text, order_of};
ghost use Rattle.sf_words.specs.WordsOf.{order_as, words_of};

use crate::demo::demonstrate;
use crate::ranking::rank_file;
use crate::recheck::recheck_file;
use crate::replay::{ReplayWords, replay_file};
use crate::reply::{Said, say};
use crate::run::{RunWords, run_file};
use crate::usage::USAGE;
use crate::verify::verify_file;
use crate::witness::witness_file;
use sf_io::{Gate, Shelf};
use sf_run::Budget;
use sf_words::{Order, WordFault, read};
use std::alloc::{AllocError, Global};
use std::sync::Wait;
use std::thread::Threads;

/// What a run is asked for, by the words and numbers of its order.
fn run_words<'a>(entry: &'a str, state: &'a str, steps: u64, waits: u32, kept: bool) -> RunWords<'a>
    ensures entry { result.procedure.now ≡ entry.entry.now }
    ensures state { result.state.now ≡ state.entry.now }
    ensures budget { (result.budget.steps ≡ steps) × (result.budget.waits ≡ waits) }
    ensures kept { result.kept ≡ kept }
{
    RunWords {
        procedure: entry,
        state,
        budget: Budget { steps, waits },
        kept,
    }
}

/// What the command says to an order.
fn follow<R: Threads + Wait + Sync, S: Shelf, G: Gate>(
    rt: &R,
    alloc: Global,
    order: Order<'_>,
    shelf: &mut S,
    gate: &G,
) -> Result<Said, AllocError>
    requires { HasNumbersInRange (order_as order) }
    ensures status { IfOk result (λ said. IsSaid said.status) }
    ensures said { IfOk result (λ said.
        Reply (S.files shelf.old) (S.faults shelf.old) (S.faults shelf.new)
        (Some (order_as order.entry)) said.text.items said.status) }
    ensures files { S.files shelf.new ≡ S.files shelf.old }
    ensures others { (other : Text)
        → (Reaches (S.files shelf.old) (Some (order_as order.entry)) other → ⊥)
        → S.faults shelf.new other ≡ S.faults shelf.old other }
    ensures quiet { IfOk result (λ said. IsAnswering said.status
        → (any : Text) → S.faults shelf.new any ≡ S.faults shelf.old any) }
    ensures counts { (any : Text) → S.faults shelf.old any ≤ S.faults shelf.new any }
{
    match order {
        Order::Verify { file, workers } => verify_file(rt, alloc, file, workers, shelf, gate),
        Order::Recheck { file, proof } => recheck_file(alloc, file, proof, shelf),
        Order::Run {
            file,
            entry,
            state,
            steps,
            waits,
        } => {
            let words = run_words(entry, state, steps, waits, false);
            run_file(rt, alloc, file, &words, shelf, gate)
        }
        Order::Demo { procedures } => demonstrate(rt, alloc, procedures, gate),
        Order::Ranking { file } => rank_file(alloc, file, shelf),
        Order::Replay {
            file,
            entry,
            state,
            schedule,
        } => {
            let words = ReplayWords {
                procedure: entry,
                state,
                schedule,
            };
            replay_file(alloc, file, &words, shelf)
        }
        Order::Witness { file } => witness_file(alloc, file, shelf),
        Order::Journal {
            file,
            entry,
            state,
            steps,
            waits,
        } => {
            let words = run_words(entry, state, steps, waits, true);
            run_file(rt, alloc, file, &words, shelf, gate)
        }
    }
}

/// What the command says to its words. An `Err` says that memory ran out.
pub fn respond<'a, R: Threads + Wait + Sync, S: Shelf, G: Gate>(
    rt: &R,
    alloc: Global,
    words: &'a [&'a str],
    shelf: &mut S,
    gate: &G,
) -> Result<Said, AllocError>
    ensures status { IfOk result (λ said. IsSaid said.status) }
    ensures said { IfOk result (λ said.
        Reply (S.files shelf.old) (S.faults shelf.old) (S.faults shelf.new)
        (order_of (words_of words.entry.now)) said.text.items said.status) }
    ensures files { S.files shelf.new ≡ S.files shelf.old }
    ensures others { (other : Text)
        → (Reaches (S.files shelf.old) (order_of (words_of words.entry.now)) other → ⊥)
        → S.faults shelf.new other ≡ S.faults shelf.old other }
    ensures quiet { IfOk result (λ said. IsAnswering said.status
        → (any : Text) → S.faults shelf.new any ≡ S.faults shelf.old any) }
    ensures counts { (any : Text) → S.faults shelf.old any ≤ S.faults shelf.new any }
{
    match read(alloc, words) {
        Ok(order) => follow(rt, alloc, order, shelf, gate),
        Err(WordFault::Usage) => say(alloc, USAGE, 2),
        Err(WordFault::OutOfMemory) => Err(AllocError),
    }
}
