//! What calls take, hold and use, and what commands change, worked out by hand.

ghost use Rattle.std.specs.Prelude.{◌<◌, length};

use crate::reading::admit;
use sf_base::{ProcId, ResId, Var};
use sf_calls::laws::sets_from_truncation;
use sf_precise::Arranged;
use std::alloc::{AllocError, Global};
use std::process::Abort;
use std::test::Fail;

/// `f` holds r, `g` takes it, and so does `e` by its call; v is free in `f`, and in `h` by its
/// call.
const FILE: &[u8] = b"resource r (v) []
f() [v == nil] { } [v == nil]
g() { with r when (true) { f(); } }
h() [v == nil] { f(); } [v == nil]
e(x;) { local y; y = nil; k(x;); while (y == nil) [] { y = x; x = new(); } g(); }
k(z;) { z = nil; }
";

/// The resource, and its variable.
const R: ResId = ResId(0);

const V: Var = Var::Shared(R, 0);

/// The procedure of that number takes and holds those resources, and those variables are free in
/// it.
fn has<A: Abort>(
    rt: &A,
    arranged: &Arranged,
    f: ProcId,
    takes: &[ResId],
    holds: &[ResId],
    free: &[Var],
)
    requires { f.0 < length arranged.now.program.procedures.items }
{
    sets_from_truncation();
    assert_eq!(rt; arranged.calls.takes(f).as_slice(), takes);
    assert_eq!(rt; arranged.calls.holds(f).as_slice(), holds);
    assert_eq!(rt; arranged.calls.free(f).as_slice(), free);
}

/// The body of the procedure of that number may change those variables.
fn changes<A: Abort>(
    rt: &A,
    alloc: Global,
    arranged: &Arranged,
    f: ProcId,
    variables: &[Var],
) -> Result<(), AllocError>
    requires { f.0 < length arranged.now.program.procedures.items }
{
    let found = arranged.assigned(alloc, &arranged.program.proc(f).body)?;
    assert_eq!(rt; found.as_slice(), variables);
    Ok(())
}

#[test]
fn sets_are_found(rt: HostRuntime) -> Result<(), Fail> {
    let alloc = rt.alloc();
    match admit(alloc, FILE) {
        Ok(arranged) => {
            assert_eq!(rt; arranged.program.procedures.len(), 5);
            has(&rt, &arranged, ProcId(0), &[], &[R], &[V]);
            has(&rt, &arranged, ProcId(1), &[R], &[], &[]);
            has(&rt, &arranged, ProcId(2), &[], &[R], &[V]);
            has(&rt, &arranged, ProcId(3), &[R], &[], &[]);
            changes(&rt, alloc, &arranged, ProcId(0), &[])?;
            changes(&rt, alloc, &arranged, ProcId(1), &[V])?;
            changes(&rt, alloc, &arranged, ProcId(2), &[V])?;
            changes(
                &rt,
                alloc,
                &arranged,
                ProcId(3),
                &[Var::Own(0), Var::Own(1)],
            )?;
        }
        Err(_) => assert!(rt; false),
    }
    Ok(())
}
