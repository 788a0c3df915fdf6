//! What the command says to `demo`: a file is made, and verified by one worker; what is printed is
//! how large the file and its proof are.

ghost use Rattle.std.specs.Prelude.{◌≡◌, ◌++◌, IfOk, OnOk};
ghost use Rattle.std.specs.List.{count_by};
ghost use Rattle.sf_check.specs.Accepted.{tags_in};
ghost use Rattle.sf_cli.specs.Answer.{DemoAnswer};
ghost use Rattle.sf_cli.specs.DemoText.{count_text, demo_text, is_step, size_text, steps_text};
ghost use Rattle.sf_core.specs.Program.ProgramView.{program_of};
ghost use Rattle.sf_cli.specs.FileFault.{Admits};
ghost use Rattle.sf_gen.specs.Made.{made_text};

use crate::reading::admit;
use crate::reply::{Said, say_failure, say_refusal};
use crate::writing::{put, put_number};
use sf_check::Proof;
use sf_gen::make;
use sf_io::Gate;
use sf_precise::Arranged;
use sf_rules::laws::arranged_has_setting;
use sf_search::VerifyFault;
use sf_sym::Tag;
use sf_verify::verify;
use std::alloc::{AllocError, Global};
use std::sync::Wait;
use std::thread::Threads;

/// How many steps the tags are.
fn count_steps(tags: &[Tag]) -> usize
    ensures { result ≡ count_by is_step tags.now }
{
    tags.iter()
        .filter(|tag| !matches!(tag, Tag::Procedure(_)))
        .count()
}

/// Appends how many procedures were asked for, and how many made. An `Err` means that memory ran
/// out.
fn put_count(text: &mut Vec<u8>, procedures: u32) -> Result<(), AllocError>
    ensures { OnOk result (text.new.items ≡ text.old.items ++ count_text procedures) }
{
    put_number(text, "demo ", procedures as u64)?;
    put_number(text, ": ", procedures as u64)
}

/// Appends the same, and of how many bytes. An `Err` means that memory ran out.
fn put_size(text: &mut Vec<u8>, procedures: u32, bytes: usize) -> Result<(), AllocError>
    ensures { OnOk result (text.new.items ≡ text.old.items ++ size_text procedures bytes) }
{
    put_count(text, procedures)?;
    put_number(text, " procedures, ", bytes as u64)?;
    Ok(())
}

/// Appends how many steps their proof has. An `Err` means that memory ran out.
fn put_steps(text: &mut Vec<u8>, steps: usize) -> Result<(), AllocError>
    ensures { OnOk result (text.new.items ≡ text.old.items ++ steps_text steps) }
{
    put_number(text, " bytes, ", steps as u64)?;
    put(text, " tags\n")
}

/// How large a made file and its proof are, printed. An `Err` means that memory ran out.
fn say_sizes(
    alloc: Global,
    procedures: u32,
    made: &[u8],
    found: &Proof<'_>,
) -> Result<Said, AllocError>
    requires { made.now ≡ made_text procedures }
    ensures { IfOk result (λ said.
        (said.text.items ≡ demo_text procedures (tags_in found.now)) × (said.status ≡ 0)) }
{
    let mut text = Vec::new(alloc);
    put_size(&mut text, procedures, made.len())?;
    put_steps(&mut text, count_steps(found.tags()))?;
    Ok(Said { text, status: 0 })
}

/// The answer to a made file whose program has nothing wrong with it. An `Err` means that memory
/// ran out.
fn answer_to_program<R: Threads + Wait + Sync, G: Gate>(
    rt: &R,
    alloc: Global,
    arranged: &Arranged,
    procedures: u32,
    made: &[u8],
    gate: &G,
) -> Result<Said, AllocError>
    requires made { made.now ≡ made_text procedures }
    requires admitted { Admits made.now (program_of arranged.now.program) }
    ensures { IfOk result (λ said. DemoAnswer procedures said.text.items said.status) }
{
    arranged_has_setting();
    let p = &arranged.program;
    match verify(rt, alloc, arranged, 1, gate) {
        Ok(found) => say_sizes(alloc, procedures, made, &found),
        Err(VerifyFault::Failed(f, why)) => say_failure(alloc, p, f, &why),
        Err(VerifyFault::OutOfMemory) => Err(AllocError),
    }
}

/// The answer to a made file. An `Err` means that memory ran out.
fn answer_to_made<R: Threads + Wait + Sync, G: Gate>(
    rt: &R,
    alloc: Global,
    procedures: u32,
    made: &[u8],
    gate: &G,
) -> Result<Said, AllocError>
    requires { made.now ≡ made_text procedures }
    ensures { IfOk result (λ said. DemoAnswer procedures said.text.items said.status) }
{
    match admit(alloc, made) {
        Ok(arranged) => answer_to_program(rt, alloc, &arranged, procedures, made, gate),
        Err(refusal) => say_refusal(alloc, &refusal),
    }
}

/// What the command says to `demo` with that many procedures. An `Err` means that memory ran out.
pub fn demonstrate<R: Threads + Wait + Sync, G: Gate>(
    rt: &R,
    alloc: Global,
    procedures: u32,
    gate: &G,
) -> Result<Said, AllocError>
    ensures { IfOk result (λ said. DemoAnswer procedures said.text.items said.status) }
{
    let made = make(alloc, procedures)?;
    answer_to_made(rt, alloc, procedures, made.as_slice(), gate)
}
