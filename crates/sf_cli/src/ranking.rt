//! What the command says to `order`: the resources by rank, the first cycle, or why the file is
//! refused.

ghost use Rattle.std.specs.Prelude.{◌≡◌, ◌≢◌, ◌<◌, ◌≤◌, ◌⊎◌, ◌++◌, All, IfOk, OnOk, Some, length};
ghost use Rattle.std.specs.List.{flat_map};
ghost use Rattle.sf_core.specs.Program.ProgramView.{program_of};
ghost use Rattle.sf_order.specs.Cycles.{IsFirstCycle};
ghost use Rattle.sf_order.specs.Nests.{Nests};
ghost use Rattle.sf_order.specs.Rank.{IsRanking};
ghost use Rattle.sf_cli.specs.Answer.{IsAnswering, IsSaid, RankingFileAnswer, Reply};
ghost use Rattle.sf_cli.specs.Ranked.{RankingAnswer, again, cycle_word, rank_line};
ghost use Rattle.sf_words.specs.Words.{Text, ranking};

use crate::outcome::resource_name;
use crate::reading::admit;
use crate::reply::{Said, fetch_up_to, say_of, say_refusal};
use crate::writing::{put, put_number};
use sf_base::ResId;
use sf_base::limits::FILE_BYTES;
use sf_calls::laws::sets_from_truncation;
use sf_core::Program;
use sf_io::{FetchFault, Shelf};
use sf_order::{RankFault, Ranks, ResList, by_rank, ranking};
use sf_precise::Arranged;
use std::alloc::{AllocError, Global};

/// Appends the line of a resource: its rank and its name.
fn put_rank(text: &mut Vec<u8>, p: &Program, ranks: &Ranks, r: ResId) -> Result<(), AllocError>
    requires { r.0 < length ranks.now }
    ensures { OnOk result (text.new.items
        ≡ text.old.items ++ rank_line (program_of p.now) ranks.now r) }
{
    put_number(text, "", u64::from(ranks.of(r)))?;
    put(text, " ")?;
    text.extend_from_slice(resource_name(p, r))?;
    put(text, "\n")
}

/// Appends the lines of those resources.
fn put_ranks(text: &mut Vec<u8>, p: &Program, ranks: &Ranks, rs: &[ResId]) -> Result<(), AllocError>
    requires { All (λ r. r.0 < length ranks.now) rs.now }
    ensures { OnOk result (text.new.items
        ≡ text.old.items ++ flat_map (rank_line (program_of p.now) ranks.now) rs.now) }
{
    for r in rs {
        put_rank(text, p, ranks, *r)?;
    }
    Ok(())
}

/// The resources by rank, and then by file order. An `Err` means that memory ran out.
fn say_ranks(alloc: Global, p: &Program, ranks: &Ranks) -> Result<Said, AllocError>
    requires ranks { IsRanking (Nests (program_of p.now)) (length p.now.resources.items) ranks.now }
    requires low { All (λ rank. rank < length p.now.resources.items) ranks.now }
    ensures { IfOk result (λ said.
        RankingAnswer (program_of p.now) said.text.items said.status) }
{
    let rs = by_rank(alloc, ranks, p.resources.len() as u32)?;
    let mut text = Vec::from_slice(alloc, b"order\n")?;
    put_ranks(&mut text, p, ranks, &rs)?;
    Ok(Said { text, status: 0 })
}

/// Appends a resource of a cycle.
fn put_word(text: &mut Vec<u8>, p: &Program, r: ResId) -> Result<(), AllocError>
    ensures { OnOk result (text.new.items ≡ text.old.items ++ cycle_word (program_of p.now) r) }
{
    put(text, " ")?;
    text.extend_from_slice(resource_name(p, r))?;
    Ok(())
}

/// Appends the resources of a cycle.
fn put_words(text: &mut Vec<u8>, p: &Program, rs: &[ResId]) -> Result<(), AllocError>
    ensures { OnOk result (text.new.items
        ≡ text.old.items ++ flat_map (cycle_word (program_of p.now)) rs.now) }
{
    for r in rs {
        put_word(text, p, *r)?;
    }
    Ok(())
}

/// Appends the first resource of a cycle.
fn put_again(text: &mut Vec<u8>, p: &Program, rs: &[ResId]) -> Result<(), AllocError>
    ensures { OnOk result (text.new.items ≡ text.old.items ++ again (program_of p.now) rs.now) }
{
    match rs {
        [] => Ok(()),
        [first, ..] => put_word(text, p, *first),
    }
}

/// The first cycle. An `Err` means that memory ran out.
fn say_cycle(alloc: Global, p: &Program, cycle: &ResList) -> Result<Said, AllocError>
    requires { IsFirstCycle (Nests (program_of p.now)) cycle.now }
    ensures { IfOk result (λ said.
        RankingAnswer (program_of p.now) said.text.items said.status) }
{
    let mut text = Vec::from_slice(alloc, b"cycle:")?;
    put_words(&mut text, p, cycle.as_slice())?;
    put_again(&mut text, p, cycle.as_slice())?;
    put(&mut text, "\n")?;
    Ok(Said { text, status: 12 })
}

/// The answer to a program with which nothing is wrong. An `Err` means that memory ran out.
fn answer_to_program(alloc: Global, arranged: &Arranged) -> Result<Said, AllocError>
    ensures { IfOk result (λ said.
        RankingAnswer (program_of arranged.now.program) said.text.items said.status) }
{
    sets_from_truncation();
    let p = &arranged.program;
    match ranking(alloc, p, &arranged.calls) {
        Ok(ranks) => say_ranks(alloc, p, &ranks),
        Err(RankFault::Cycle(cycle)) => say_cycle(alloc, p, &cycle),
        Err(RankFault::OutOfMemory) => Err(AllocError),
    }
}

/// The answer to a file's bytes, of which those past the limit don't matter.
fn answer_to_bytes(alloc: Global, bytes: &[u8]) -> Result<Said, AllocError>
    ensures { IfOk result (λ said. RankingFileAnswer bytes.now said.text.items said.status) }
{
    match admit(alloc, bytes) {
        Ok(arranged) => answer_to_program(alloc, &arranged),
        Err(refusal) => say_refusal(alloc, &refusal),
    }
}

/// What the command says to `order` of the file of that name.
pub fn rank_file<S: Shelf>(alloc: Global, file: &str, shelf: &mut S) -> Result<Said, AllocError>
    ensures status { IfOk result (λ said. IsSaid said.status) }
    ensures said { IfOk result (λ said.
        Reply (S.files shelf.old) (S.faults shelf.old) (S.faults shelf.new)
        (Some (ranking file.now)) said.text.items said.status) }
    ensures files { S.files shelf.new ≡ S.files shelf.old }
    ensures others { (other : Text) → other ≢ file.now
        → S.faults shelf.new other ≡ S.faults shelf.old other }
    ensures quiet { IfOk result (λ said. IsAnswering said.status
        → (any : Text) → S.faults shelf.new any ≡ S.faults shelf.old any) }
    ensures counts { (any : Text) → S.faults shelf.old any ≤ S.faults shelf.new any }
{
    match fetch_up_to(alloc, file, FILE_BYTES, shelf) {
        Ok(bytes) => answer_to_bytes(alloc, bytes.as_slice()),
        Err(FetchFault::Failed) => say_of(alloc, "read fault: ", file.as_bytes(), 7),
        Err(FetchFault::OutOfMemory) => Err(AllocError),
    }
}
