ghost use Rattle.std.specs.Prelude.{◌≡◌, ◌<◌, ◌+◌, ◌^◌, IfSome, length};
ghost use Rattle.std.specs.Thread.{IsSync};
ghost use Rattle.sf_precise.specs.Order.{IsOrdering};
ghost use Rattle.sf_rules.specs.Setting.{setting_of};

use crate::board::{Board, Found};
use crate::crossing::{arranged_programs_are_shared, findings_are_sent};
use crate::subject::Subject;
use sf_base::ProcId;
use sf_io::{Gate, Point};
use sf_precise::Arranged;
use sf_search::{SearchFault, search};
use std::alloc::Global;
use std::sync::atomic::{AtomicU64, Ordering};
use std::sync::{Mutex, Wait};
use std::thread::{Threads, join};

/// What workers share: the program, the gate that they pass, the number of the next procedure that
/// nobody has claimed, and the board.
pub(crate) struct Shared<'a, 'g, K: Subject, G: Gate> {
    pub(crate) arranged: &'a Arranged,
    pub(crate) gate: &'g G,
    pub(crate) next: AtomicU64,
    pub(crate) board: Mutex<Board<'a, K>>,
}

/// The next procedure that nobody has claimed. `None` where there is none, or no search of it can
/// matter.
fn claim<K: Subject, R: Wait, G: Gate>(rt: &R, shared: &Shared<'_, '_, K, G>) -> Option<ProcId>
    ensures { IfSome result (λ f. f.0 < length shared.now.arranged.now.program.procedures.items) }
{
    if shared.board.lock(rt).is_settled() {
        return None;
    }
    let next = shared.next.fetch_add(1, Ordering::SeqCst);
    if next >= shared.arranged.program.procedures.len() as u64 {
        return None;
    }
    Some(ProcId(next as u32))
}

/// Searches a procedure and puts what it found on the board, unless memory ran out. Whether there
/// was enough.
fn search_one<K: Subject, R: Wait, G: Gate>(
    rt: &R,
    alloc: Global,
    shared: &Shared<'_, '_, K, G>,
    f: ProcId,
) -> bool
    requires ordered { IsOrdering K.setting.ordered }
    requires setting { K.setting ≡ setting_of K.setting.ordered shared.now.arranged.now }
    requires there { f.0 < length shared.now.arranged.now.program.procedures.items }
{
    let end = search(alloc, shared.arranged, f);
    if matches!(end, Err(SearchFault::OutOfMemory)) {
        return false;
    }
    shared.board.lock(rt).fill(f, Found { end });
    true
}

/// What the worker of that number does: one after the other it searches the procedures that it
/// claims, till there is none or memory runs out.
fn work<K: Subject, R: Wait, G: Gate>(
    rt: &R,
    alloc: Global,
    shared: &Shared<'_, '_, K, G>,
    number: u32,
)
    requires ordered { IsOrdering K.setting.ordered }
    requires setting { K.setting ≡ setting_of K.setting.ordered shared.now.arranged.now }
{
    for _ in 0..shared.arranged.program.procedures.len() {
        let Some(f) = claim(rt, shared) else {
            return;
        };
        shared.gate.pass(&Point::Worker(number, f));
        if !search_one(rt, alloc, shared, f) {
            return;
        }
    }
}

/// Lets that many workers work side by side till all have ended. One alone works on the caller's
/// thread.
pub(crate) fn work_all<'a, 'g, K: Subject + Send + Sync, R: Threads + Wait + Sync, G: Gate>(
    rt: &R,
    alloc: Global,
    shared: &Shared<'a, 'g, K, G>,
    count: u32,
)
    requires ordered { IsOrdering K.setting.ordered }
    requires setting { K.setting ≡ setting_of K.setting.ordered shared.now.arranged.now }
{
    arranged_programs_are_shared();
    findings_are_sent();
    let each = |number: u32|
        requires { IsOrdering K.setting.ordered
            × (K.setting ≡ setting_of K.setting.ordered shared.now.arranged.now) }
    { work(rt, alloc, shared, number) };
    call_beside(rt, &each, 0, count);
}

/// Calls the closure at that many numbers, from the first on, each on a thread of its own where one
/// can be made. One number alone is called on the caller's.
#[cycle(workers)]
fn call_beside<R: Threads + Sync, F: Fn(u32) + Sync>(rt: &R, each: &F, first: u32, count: u32)
    requires callable { F.IsAlwaysCallable each.now }
    requires numbers { first + count < 2 ^ 32 }
{
    if count < 2 {
        each(first);
        return;
    }
    let low = count / 2;
    let high = count - low;
    let middle = first + low;
    let front = ||
        requires { IsSync R.row × IsSync F.row × F.IsAlwaysCallable each.now
            × (first + low < 2 ^ 32) }
    { call_beside(rt, each, first, low) };
    let back = ||
        requires { IsSync R.row × IsSync F.row × F.IsAlwaysCallable each.now
            × (middle + high < 2 ^ 32) }
    { call_beside(rt, each, middle, high) };
    join(rt, front, back);
}
