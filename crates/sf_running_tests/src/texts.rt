//! What no clause says: what texts written by hand give, with ample memory. The fields are `hd` and
//! `tl`, and the variables `p`, `q` and `r.v`.

use sf_base::{FieldId, Value};
use sf_files::fitted;
use sf_heap::{Cell, Heap, Locations};
use sf_precise::Arranged;
use sf_state::{StartFault, State, entry, read_state, state_text};
use std::alloc::Global;
use std::test::Fail;

/// A procedure with a reference, a value and a local, beside a resource.
const FILE: &[u8] = b"hd, tl; resource r (v) [] f(p; q) { local i; }";

/// What the text gives.
fn read_text(alloc: Global, p: &Arranged, text: &[u8]) -> Result<State, StartFault> {
    let f = entry(alloc, p, "f")?;
    read_state(alloc, &p.program, f, text)
}

/// Whether the text gives these values and cells.
fn gives(
    alloc: Global,
    p: &Arranged,
    text: &[u8],
    values: &[Value],
    cells: &[(u64, Value, Value)],
) -> bool {
    match read_text(alloc, p, text) {
        Ok(state) => {
            state.values.as_slice() == values
                && state.cells.len() == cells.len()
                && has_all(&state, cells)
        }
        Err(_) => false,
    }
}

/// Whether these cells are among those.
fn has_all(state: &State, cells: &[(u64, Value, Value)]) -> bool {
    for (at, first, second) in cells {
        match state.cells.get(at) {
            Some(cell) => {
                if cell.get(FieldId(0)) != *first || cell.get(FieldId(1)) != *second {
                    return false;
                }
            }
            None => return false,
        }
    }
    true
}

/// What a text is refused for.
#[derive(Clone, Copy)]
enum Because<'a> {
    Bad(u32),
    Again(&'a [u8]),
    Absent(&'a [u8]),
    Nowhere(&'a [u8]),
}

/// Whether the text is refused for that.
fn is_refused(alloc: Global, p: &Arranged, text: &[u8], because: Because<'_>) -> bool {
    match (read_text(alloc, p, text), because) {
        (Err(StartFault::BadLine(line)), Because::Bad(n)) => line == n,
        (Err(StartFault::Twice(name)), Because::Again(text)) => name.as_bytes() == text,
        (Err(StartFault::Missing(name)), Because::Absent(text)) => name.as_bytes() == text,
        (Err(StartFault::Unknown(name)), Because::Nowhere(text)) => name.as_bytes() == text,
        _ => false,
    }
}

const NIL: Value = Value::Nil;

#[test]
fn texts_are_read_leniently(rt: HostRuntime) {
    let most = 4_611_686_018_427_387_903;
    let nils: &[Value] = &[NIL, NIL, NIL];
    let cases: [(&[u8], &[Value], &[(u64, Value, Value)]); 8] = [
        (b"p=nil\nq=nil\nr.v=nil", nils, &[]),
        (
            b"finished\np = NULL\n  q\t= nil \r\n\tr.v =nil\r\n\n \t\n",
            nils,
            &[],
        ),
        (
            b" \tfinished \r\np = @1\nq = -007\nr.v = 00\n@1",
            &[Value::Loc(1), Value::Int(-7), Value::Int(0)],
            &[(1, NIL, NIL)],
        ),
        (
            b"# a = comment\n\t # @0\nr.v=nil\nq=nil\np=nil\n#",
            nils,
            &[],
        ),
        (
            b"@2 tl=@1 hd=5\n@01\thd=NULL \np=@2\nq=@00001\nr.v=@9\n",
            &[Value::Loc(2), Value::Loc(1), Value::Loc(9)],
            &[(1, NIL, NIL), (2, Value::Int(5), Value::Loc(1))],
        ),
        (
            b"p=nil\nq=nil\nr.v=@4611686018427387903\n@4611686018427387903",
            &[NIL, NIL, Value::Loc(most)],
            &[(most, NIL, NIL)],
        ),
        (
            b"p=9223372036854775807\nq=-9223372036854775808\nr.v=nil",
            &[Value::Int(i64::MAX), Value::Int(i64::MIN), NIL],
            &[],
        ),
        (
            b"p=nil\nq=nil\nr.v=nil\n@7 tl=@7\n@3 hd=-1",
            nils,
            &[(3, Value::Int(-1), NIL), (7, NIL, Value::Loc(7))],
        ),
    ];
    let alloc = rt.alloc();
    let p = fitted(alloc, FILE).expect(&rt, "a program");
    for (text, values, cells) in cases {
        assert!(rt; gives(alloc, &p, text, values, cells));
    }
}

#[test]
fn lines_without_a_form_are_refused(rt: HostRuntime) {
    let cases: [(&[u8], u32); 20] = [
        (b"p = nil / @7", 1),
        (b"p = @0", 1),
        (b"p = @4611686018427387904", 1),
        (b"p = @-1", 1),
        (b"p = 9223372036854775808", 1),
        (b"p = +1", 1),
        (b"p = Nil", 1),
        (b"p =", 1),
        (b"= 1", 1),
        (b"p = 1 2", 1),
        (b"p == 1", 1),
        (b"p = 1\r\r", 1),
        (b"r . v = 1", 1),
        (b"r.v.w = 1", 1),
        (b"nil = 1", 1),
        (b"\nfinished", 2),
        (b"@1 hd = 1", 1),
        (b"@1 hd", 1),
        (b"@0", 1),
        (b"@7 data=1 hd=@0", 1),
    ];
    let alloc = rt.alloc();
    let p = fitted(alloc, FILE).expect(&rt, "a program");
    for (text, line) in cases {
        assert!(rt; is_refused(alloc, &p, text, Because::Bad(line)));
    }
}

#[test]
fn the_first_refusal_is_told(rt: HostRuntime) {
    let cases: [(&[u8], Because<'static>); 16] = [
        (b"", Because::Absent(b"p")),
        (b"q = 1\np = 2\n", Because::Absent(b"r.v")),
        (b"x = 1", Because::Nowhere(b"x")),
        (b"v = 1", Because::Nowhere(b"v")),
        (b"r.w = 1", Because::Nowhere(b"r.w")),
        (b"@1 data=1", Because::Nowhere(b"data")),
        (b"p = 1\nq = 1\np = 1", Because::Again(b"p")),
        (b"r.v = 1\nr.v = 2", Because::Again(b"r.v")),
        (b"@07\n@7 hd=1 hd=2", Because::Again(b"@7")),
        (b"@7 hd=1 tl=2 tl=3 hd=4", Because::Again(b"tl")),
        (b"@7 hd=1 hd=2 data=1", Because::Nowhere(b"data")),
        (b"p = 1\np = 1\nx = 1\n?", Because::Again(b"p")),
        (b"x = 1\np = 1\np = 1\n?", Because::Nowhere(b"x")),
        (b"p = 1\n?\nx = 1", Because::Bad(2)),
        (b"@1\n@1\n@0", Because::Again(b"@1")),
        (b"p = @1\n@1\n", Because::Absent(b"q")),
    ];
    let alloc = rt.alloc();
    let p = fitted(alloc, FILE).expect(&rt, "a program");
    for (text, because) in cases {
        assert!(rt; is_refused(alloc, &p, text, because));
    }
}

#[test]
fn a_state_is_written_in_canonical_order(rt: HostRuntime) -> Result<(), Fail> {
    let alloc = rt.alloc();
    let mut heap = Heap::new(alloc);
    let second = Cell::from_values(vec![in alloc; Value::Int(-5), NIL]?);
    heap.put(12, second)?;
    let first = Cell::from_values(vec![in alloc; NIL, Value::Loc(12)]?);
    heap.put(3, first)?;
    let at = Locations::from_vec(vec![in alloc; 12, 3]?);
    let values = [Value::Loc(3), Value::Int(7)];
    let p = fitted(alloc, b"hd, tl; f(p; q) { local i; }").expect(&rt, "a program");
    let f = entry(alloc, &p, "f")?;
    let g = p.program.proc(f);
    let text = state_text(alloc, &p.program, g, &values, &heap, &at)?;
    assert!(rt;
        text.as_slice() == b"p = @3\nq = 7\n@3 hd=nil tl=@12\n@12 hd=-5 tl=nil\n".as_slice()
    );
    Ok(())
}
