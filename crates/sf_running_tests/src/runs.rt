//! Runs. What they end with, and how many events they have, is worked out by hand, and doesn't
//! depend on which task goes first.

ghost use Rattle.std.specs.Prelude.{◌≡◌, ◌≤◌, ◌<◌, IfOk, IfSome, IsTrue, length, true};
ghost use Rattle.sf_base.specs.declared.limits.TheConstants.{STEPS as MOST_STEPS, WAITS as MOST_WAITS};
ghost use Rattle.sf_check.specs.Accepted.{arranged_in};
ghost use Rattle.sf_core.specs.Program.ProgramView.{program_of};
ghost use Rattle.sf_foot.specs.Starting.{StartsWith};
ghost use Rattle.sf_run.specs.Sequential.{IsSequentialStart};

use crate::running::{TURNED, TWO_CELLS};
use sf_base::ProcId;
use sf_base::limits::{STEPS, WAITS};
use sf_check::{Proof, check};
use sf_core::Program;
use sf_files::{Entered, fitted, start_of};
use sf_io::OpenGate;
use sf_precise::Arranged;
use sf_run::{Budget, Stop, is_init_sequential, is_sequential, run};
use sf_search::verify;
use sf_state::write;
use std::alloc::{AllocError, Global};
use std::process::Abort;
use std::test::Fail;
use std::thread::Threads;

/// Why a run stops. A task is told by how many turns its path has.
fn told(alloc: Global, stop: &Stop<'_>) -> Result<Vec<u8>, AllocError> {
    let line = match stop {
        Stop::Steps(task, used) => format!(in alloc; "steps {} {}", task.len(), *used)?,
        Stop::Waits(task, r, misses) => {
            format!(in alloc; "waits {} {} {}", task.len(), r.0, misses.count())?
        }
        Stop::OutOfMemory => return Err(AllocError),
    };
    Vec::from_slice(alloc, line.as_bytes())
}

/// The proof of a program, if the strategy finds one.
fn proof_of<'a>(alloc: Global, p: &'a Arranged) -> Option<Proof<'a>>
    ensures { IfSome result (λ proof. arranged_in proof ≡ p.now) }
{
    match verify(alloc, p) {
        Ok(tags) => check(alloc, p, tags).ok(),
        Err(_) => None,
    }
}

/// Whether a run may be given that.
fn is_within(budget: Budget) -> bool
    ensures steps { IsTrue result → (1 ≤ budget.steps) × (budget.steps ≤ MOST_STEPS) }
    ensures waits { IsTrue result → (1 ≤ budget.waits) × (budget.waits ≤ MOST_WAITS) }
{
    let steps = 1 <= budget.steps && budget.steps <= STEPS;
    steps && 1 <= budget.waits && budget.waits <= WAITS
}

/// What the run answers: the text of what it ends with, or why it stops.
fn run_text<R: Threads + Sync>(
    rt: &R,
    alloc: Global,
    p: &Arranged,
    proof: &Proof<'_>,
    entered: Entered,
    budget: Budget,
) -> Result<Vec<u8>, AllocError>
    requires proved { arranged_in proof.now ≡ p.now }
    requires within { entered.f.0 < length p.now.program.procedures.items }
    requires starts { StartsWith (program_of p.now.program) entered.f entered.start.fresh
        entered.start.vars entered.start.heap entered.start.parts.items }
    requires steps { (1 ≤ budget.steps) × (budget.steps ≤ MOST_STEPS) }
    requires waits { (1 ≤ budget.waits) × (budget.waits ≤ MOST_WAITS) }
{
    let gate = OpenGate;
    let Entered { f, start } = entered;
    match run(rt, alloc, proof, f, start, budget, &gate) {
        Ok((finish, _)) => write(alloc, p, f, &finish),
        Err(stop) => told(alloc, &stop),
    }
}

/// Whether it is told that no parallel call can be reached where a start of the procedure runs.
fn is_alone(alloc: Global, p: &Program, f: ProcId, fresh: bool) -> Result<bool, AllocError>
    requires { f.0 < length p.now.procedures.items }
    ensures { IfOk result (λ yes. yes ≡ true → IsSequentialStart (program_of p.now) f fresh) }
{
    if !is_sequential(alloc, p, f)? {
        return Ok(false);
    }
    if fresh {
        return is_init_sequential(alloc, p);
    }
    Ok(true)
}

/// A run: its procedure, the text of its start, and its budget.
type Row<'a> = (&'a str, &'a [u8], Budget);

/// Whether no parallel call can be reached, and what the run answers, in a program that is proved.
fn answer<R: Threads + Sync>(
    rt: &R,
    alloc: Global,
    p: &Arranged,
    row: Row<'_>,
) -> Result<Option<(bool, Vec<u8>)>, AllocError> {
    let (name, text, budget) = row;
    let Some(proof) = proof_of(alloc, p) else {
        return Ok(None);
    };
    let Some(entered) = start_of(alloc, p, name, text) else {
        return Ok(None);
    };
    if !is_within(budget) {
        return Ok(None);
    }
    let alone = is_alone(alloc, &p.program, entered.f, entered.start.fresh)?;
    let text = run_text(rt, alloc, p, &proof, entered, budget)?;
    Ok(Some((alone, text)))
}

/// The run answers that, of a program of which that is told.
fn is_answered<R: Threads + Sync + Abort>(
    rt: &R,
    alloc: Global,
    file: &[u8],
    row: Row<'_>,
    expected: (bool, &[u8]),
) -> Result<(), Fail> {
    let p = fitted(alloc, file).expect(rt, "a program");
    let (alone, said) = answer(rt, alloc, &p, row)?.expect(rt, "an answer");
    assert!(rt; alone == expected.0);
    assert!(rt; said.as_slice() == expected.1);
    Ok(())
}

/// So many events and tries.
fn budget(steps: u64, waits: u32) -> Budget {
    Budget { steps, waits }
}

/// A resource of free cells.
const FREE_CELLS: &[u8] = b"
    resource mm (f) [list(f)]
    alloc(x;) [emp] {
      with mm when (true) { if (f == nil) { x = new(); } else { x = f; f = x->tl; } }
    } [x|->]";

/// As these, where the list of free cells is set up first.
const SET_UP: &[u8] = b"
    resource mm (f) [list(f)]
    alloc(x;) [emp] {
      with mm when (true) { if (f == nil) { x = new(); } else { x = f; f = x->tl; } }
    } [x|->]
    init() { local y; y = new(); y->tl = f; f = y; }";

/// A tree is given up, the subtrees at once; and a procedure that sets resources up forks.
const FORKING: &[u8] = b"
    resource r (v) []
    fell(p) [tree(p)] {
      local i, j;
      if (p != nil) { i = p->l; j = p->r; fell(i) || fell(j); dispose(p); }
    }
    none() { }
    set(x;) { x = 1; }
    init() { none() || none(); }";

#[test]
fn runs_answer_what_comes_of_their_starts(rt: HostRuntime) -> Result<(), Fail> {
    let two = b"two(x;) { x = nil; x = 1; }";
    let stay = b"resource r (v) [] stay() { with r when (v != v) { } }";
    let turned = b"o = @2
i = @1
@1 hd=nil tl=nil l=nil r=nil
@2 hd=nil tl=@1 l=nil r=nil
";
    let made = b"x = @3\nmm.f = nil\n@3 hd=nil tl=nil l=nil r=nil\n";
    let given = b"x = @1\nmm.f = nil\n@1 hd=nil tl=nil l=nil r=nil\n";
    let tree = b"p = @1\nr.v = 5\n@1 l=@2 r=@3\n@2\n@3";
    let cases: [(&[u8], Row<'_>, &[u8]); 9] = [
        (two, ("two", b"x = nil", budget(1, 1)), b"steps 0 1"),
        (two, ("two", b"x = nil", budget(2, 1)), b"x = 1\n"),
        (stay, ("stay", b"r.v = nil", budget(9, 5)), b"waits 0 0 5"),
        (TURNED, ("rev", TWO_CELLS, budget(12, 1)), b"steps 0 12"),
        (TURNED, ("rev", TWO_CELLS, budget(13, 1)), turned),
        (
            FREE_CELLS,
            ("alloc", b"x = nil\nmm.f = nil", budget(4, 1)),
            made,
        ),
        (
            SET_UP,
            ("alloc", b"x = nil\nmm.f = nil", budget(4, 1)),
            made,
        ),
        (SET_UP, ("alloc", b"x = nil", budget(9, 1)), given),
        (SET_UP, ("alloc", b"x = nil", budget(8, 1)), b"steps 0 8"),
    ];
    let alloc = rt.alloc();
    for (file, row, text) in cases {
        is_answered(&rt, alloc, file, row, (true, text))?;
    }
    let forking: [(Row<'_>, (bool, &[u8])); 6] = [
        (("fell", tree, budget(28, 1)), (false, b"p = @1\nr.v = 5\n")),
        (("fell", tree, budget(27, 1)), (false, b"steps 0 27")),
        (("fell", tree, budget(25, 1)), (false, b"steps 1 10")),
        (("set", b"x = nil", budget(5, 1)), (false, b"steps 0 5")),
        (
            ("set", b"x = nil", budget(6, 1)),
            (false, b"x = 1\nr.v = nil\n"),
        ),
        (
            ("set", b"x = nil\nr.v = 5", budget(1, 1)),
            (true, b"x = 1\nr.v = 5\n"),
        ),
    ];
    for (row, answer) in forking {
        is_answered(&rt, alloc, FORKING, row, answer)?;
    }
    Ok(())
}
