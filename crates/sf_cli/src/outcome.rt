//! What is said of what comes of a run.

ghost use Rattle.std.specs.Prelude.{◌≡◌, ◌≢◌, ◌<◌, ◌++◌, IfOk, IfSome, codes, length, slice_get};
ghost use Rattle.sf_core.specs.Program.ProgramView.{program_of};
ghost use Rattle.sf_cli.specs.Checked.Printed.{SaysFinish, stop_text};
ghost use Rattle.sf_cli.specs.Ran.{resource_name, spent_steps_text, spent_waits_text};
ghost use Rattle.sf_threads.specs.declared.stop.Stop.TheVariants.{OutOfMemory};

use crate::reply::Said;
use crate::writing::{put, put_number, put_task};
use sf_base::{ProcId, ResId, TaskPath};
use sf_core::Program;
use sf_foot::Finish;
use sf_precise::Arranged;
use sf_run::Stop;
use sf_state::write;
use std::alloc::{AllocError, Global};

/// What procedure `f` ends with: the variables and cells as the text of a state. An `Err` says that
/// memory ran out.
pub fn say_finish(
    alloc: Global,
    arranged: &Arranged,
    f: ProcId,
    end: &Finish,
) -> Result<Said, AllocError>
    requires { f.0 < length arranged.now.program.procedures.items }
    ensures { IfOk result (λ said.
        IfSome (slice_get (program_of arranged.now.program).procedures f.0)
        (λ g. SaysFinish (program_of arranged.now.program) g end.now.vars end.now.heap
        said.text.items said.status)) }
{
    let state = write(alloc, arranged, f, end)?;
    let mut text = Vec::from_slice(alloc, b"finished\n")?;
    text.extend_from_slice(state.as_slice())?;
    Ok(Said { text, status: 0 })
}

/// That a task has used so many units. An `Err` says that memory ran out.
fn spent_steps_text(alloc: Global, path: TaskPath, used: u64) -> Result<Vec<u8>, AllocError>
    ensures { IfOk result (λ text. text.items ≡ spent_steps_text path used) }
{
    let mut text = Vec::new(alloc);
    put_task(&mut text, "spent steps: task ", path)?;
    put_number(&mut text, " used ", used)?;
    put(&mut text, "\n")?;
    Ok(text)
}

/// The name of a resource, empty where it isn't there.
pub fn resource_name(p: &Program, r: ResId) -> &[u8]
    ensures { result.now ≡ resource_name (program_of p.now) r }
{
    match p.resources.get(r.0 as usize) {
        Some(resource) => resource.name.as_bytes(),
        None => &[],
    }
}

/// That a task has tried a region of that resource so often in vain. An `Err` says that memory ran
/// out.
fn spent_waits_text(
    alloc: Global,
    p: &Program,
    path: TaskPath,
    r: ResId,
    tries: u32,
) -> Result<Vec<u8>, AllocError>
    ensures { IfOk result (λ text. text.items
        ≡ spent_waits_text (program_of p.now) path r tries) }
{
    let mut text = Vec::new(alloc);
    put_task(&mut text, "spent waits: task ", path)?;
    put(&mut text, " resource ")?;
    text.extend_from_slice(resource_name(p, r))?;
    put_number(&mut text, " tries ", u64::from(tries))?;
    put(&mut text, "\n")?;
    Ok(text)
}

/// Why a run stops before its end. An `Err` says that memory ran out, which is also the answer
/// where it stopped for that.
pub fn say_stop(alloc: Global, p: &Program, stop: &Stop<'_>) -> Result<Said, AllocError>
    ensures said { IfOk result (λ said. (said.text.items ≡ stop_text (program_of p.now) stop.now)
        × (said.status ≡ 6)) }
    ensures cause { IfOk result (λ said. stop.now ≢ OutOfMemory) }
{
    let text = match stop {
        Stop::Steps(path, used) => spent_steps_text(alloc, *path, *used)?,
        Stop::Waits(path, r, misses) => spent_waits_text(alloc, p, *path, *r, misses.count())?,
        Stop::OutOfMemory => return Err(AllocError),
    };
    Ok(Said { text, status: 6 })
}
