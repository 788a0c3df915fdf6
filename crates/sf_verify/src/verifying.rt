ghost use Rattle.std.specs.Prelude.{◌≡◌, ◌<◌, IfErr, IfOk, IfSome, length, min};
ghost use Rattle.std.specs.List.{slice_get};
ghost use Rattle.sf_check.specs.Accepted.{arranged_in, tags_in};
ghost use Rattle.sf_precise.specs.Order.{IsOrdering};
ghost use Rattle.sf_rules.specs.Setting.{Setting, setting_of};
ghost use Rattle.sf_rules.specs.First.{first_goal};
ghost use Rattle.sf_search.specs.Ends.{EndsAs, FailsAs};
ghost use Rattle.sf_search.specs.Judge.{Judge, Search, proof, proved};

use crate::board::Board;
use crate::subject::Subject;
use crate::workers::{Shared, work_all};
use sf_base::ProcId;
use sf_base::limits::FILE_TAGS;
use sf_check::{CheckFault, Proof, check};
use sf_io::Gate;
use sf_precise::Arranged;
use sf_search::{SearchFault, VerifyFault, append, failure, search, taken_tags_prove};
use sf_sym::Tag;
use std::alloc::{AllocError, Global};
use std::marker::Brand;
use std::sync::atomic::AtomicU64;
use std::sync::{Mutex, Wait};
use std::thread::Threads;

/// The proof of a program, its tags those that the strategy takes, once the checker has accepted
/// them; or the first procedure that fails, and why. So says the verdict on the program, for every
/// number of workers and every gate. `OutOfMemory` may come instead of either.
///
/// As many workers as are asked for, but no more than there are procedures, search procedures side
/// by side. Where there is more than one, this call may wait.
pub fn verify<'a, R: Threads + Wait + Sync, G: Gate>(
    rt: &R,
    alloc: Global,
    arranged: &'a Arranged,
    workers: u32,
    gate: &G,
) -> Result<Proof<'a>, VerifyFault<'a>>
    ghost d: { Setting }
    requires ordered { IsOrdering d.ordered }
    requires setting { d ≡ setting_of d.ordered arranged.now }
    ensures proved { IfOk result (λ accepted. Judge d (proof (tags_in accepted))) }
    ensures arranged { IfOk result (λ accepted. arranged_in accepted ≡ arranged.now) }
    ensures failed { IfErr result (λ fault. FailsAs d fault) }
{
    let tags = tags_of::<Brand, R, G>(rt, alloc, arranged, workers, gate)?;
    Ok(accept(alloc, arranged, tags)?)
}

/// The tags of a proof of the whole program, each procedure's after its `procedure` tag, as that
/// many workers find them. An `Err` says which procedure fails and why, or means out of memory.
fn tags_of<'a, K: Subject + Send + Sync, R: Threads + Wait + Sync, G: Gate>(
    rt: &R,
    alloc: Global,
    arranged: &'a Arranged,
    workers: u32,
    gate: &G,
) -> Result<Vec<Tag>, VerifyFault<'a>>
    requires ordered { IsOrdering K.setting.ordered }
    requires setting { K.setting ≡ setting_of K.setting.ordered arranged.now }
    ensures ok { IfOk result (λ tags. Judge K.setting (proof tags.items)) }
    ensures err { IfErr result (λ fault. FailsAs K.setting fault) }
{
    let procedures = arranged.program.procedures.len();
    let shared: Shared<'a, '_, K, G> = Shared {
        arranged,
        gate,
        next: AtomicU64::new(0),
        board: Mutex::new(Board::new(alloc, procedures)?),
    };
    work_all(rt, alloc, &shared, lesser(workers, procedures));
    let Shared {
        arranged: _,
        gate: _,
        next: _,
        board,
    } = shared;
    tags_on(alloc, arranged, board.into_inner())
}

/// The lesser of the two.
fn lesser(workers: u32, procedures: usize) -> u32
    ensures { result ≡ min workers procedures }
{
    if (workers as usize) < procedures {
        workers
    } else {
        procedures as u32
    }
}

/// The tags of a proof of the whole program, where some of its procedures were searched already.
/// An `Err` says which procedure is the first that fails, in file order, and why, or means out of
/// memory.
fn tags_on<'a, K: Subject>(
    alloc: Global,
    arranged: &'a Arranged,
    mut board: Board<'a, K>,
) -> Result<Vec<Tag>, VerifyFault<'a>>
    requires ordered { IsOrdering K.setting.ordered }
    requires setting { K.setting ≡ setting_of K.setting.ordered arranged.now }
    ensures ok { IfOk result (λ tags. Judge K.setting (proof tags.items)) }
    ensures err { IfErr result (λ fault. FailsAs K.setting fault) }
{
    let mut tags = Vec::new(alloc);
    let mut spent = 0;
    let mut i = 0;
    while i < arranged.program.procedures.len() {
        let f = ProcId(i as u32);
        let found = match found_of(alloc, arranged, &mut board, f) {
            Ok(found) => found,
            Err(fault) => return Err(failure(f, fault, spent)),
        };
        spent += found.len();
        if spent > FILE_TAGS {
            return Err(VerifyFault::Failed(f, SearchFault::TooLarge));
        }
        append(&mut tags, f, &found)?;
        i += 1;
    }
    Ok(tags)
}

/// The tags of a proof of the procedure of that number, which stand on the board, or else are
/// searched now. An `Err` says how the search ended.
fn found_of<'a, K: Subject>(
    alloc: Global,
    arranged: &'a Arranged,
    board: &mut Board<'a, K>,
    f: ProcId,
) -> Result<Vec<Tag>, SearchFault<'a>>
    requires ordered { IsOrdering K.setting.ordered }
    requires setting { K.setting ≡ setting_of K.setting.ordered arranged.now }
    requires there { f.0 < length arranged.now.program.procedures.items }
    ensures ok { IfOk result (λ tags. IfSome (slice_get K.setting.program.procedures f.0)
        (λ g. Search K.setting (first_goal K.setting f g) tags.items proved)) }
    ensures err { IfErr result (λ why. IfSome (slice_get K.setting.program.procedures f.0)
        (λ g. EndsAs K.setting (first_goal K.setting f g) why)) }
{
    match board.take(f) {
        Some(found) => found.end,
        None => search(alloc, arranged, f),
    }
}

/// The proof that the tags of a verdict are. An `Err` says that memory ran out: the checker accepts
/// them.
fn accept<'a>(
    alloc: Global,
    arranged: &'a Arranged,
    tags: Vec<Tag>,
) -> Result<Proof<'a>, AllocError>
    ghost d: { Setting }
    requires ordered { IsOrdering d.ordered }
    requires setting { d ≡ setting_of d.ordered arranged.now }
    requires judged { Judge d (proof tags.items) }
    ensures tags { IfOk result (λ accepted. tags_in accepted ≡ tags.items) }
    ensures arranged { IfOk result (λ accepted. arranged_in accepted ≡ arranged.now) }
{
    taken_tags_prove();
    match check(alloc, arranged, tags) {
        Ok(proof) => Ok(proof),
        Err(CheckFault::Refused(..)) => unreachable!(),
        Err(CheckFault::OutOfMemory) => Err(AllocError),
    }
}
