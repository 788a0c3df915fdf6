//! The numbers that names get, worked out by hand.

use crate::reading::admit;
use sf_base::{FieldId, Name, ProcId, Var};
use sf_core::{Command, Conjunct, Expr, Level, Occurrence, Proc, Program};
use std::process::Abort;
use std::test::Fail;

/// Two of f's values are set or passed as references, so its body works on copies of them. In g an
/// existential is made around a choice, and each branch makes its own.
const FILE: &str = "q, tl;
f(x; y, z, u) { local t; u = nil; f(y; z, t, u); }
g(x) [_a == x * if x == _a then _b == x * _y == x else _y == x] { x->tl = nil; }";

/// The names are these, in order.
fn are_named<R: Abort>(rt: &R, names: &[Name], texts: &[&str]) {
    assert_eq!(rt; names.len(), texts.len());
    for (name, text) in names.iter().zip(texts) {
        assert_eq!(rt; name.as_bytes(), text.as_bytes());
    }
}

/// The column and the number of a procedure's own variable; 0 and 0 for one of a resource.
fn own(x: &Occurrence) -> (u32, u32) {
    match x.var {
        Var::Own(n) => (x.place.column, n),
        Var::Shared(..) => (0, 0),
    }
}

/// The same of the variable that an expression is; 0 and 0 for nil and numbers.
fn own_in(e: &Expr) -> (u32, u32) {
    match e {
        Expr::Var(x) => own(x),
        Expr::Nil => (0, 0),
        Expr::Int(_) => (0, 0),
    }
}

/// The command is an assignment at that column, of that expression to that variable.
fn is_assignment<R: Abort>(rt: &R, c: &Command, column: u32, to: (u32, u32), from: (u32, u32)) {
    match c {
        Command::Assign(place, x, e) => {
            assert_eq!(rt; place.column, column);
            assert_eq!(rt; own(x), to);
            assert_eq!(rt; own_in(e), from);
        }
        _ => assert!(rt; false, "no assignment at {column}"),
    }
}

/// The procedure that calls itself, with copies of two of its values.
fn calls_itself<R: Abort>(rt: &R, f: &Proc) {
    are_named(rt, &f.names, &["x", "y", "z", "u", "t", "y'", "u'"]);
    assert_eq!(rt; (f.references, f.values, f.locals), (1, 3, 1));
    assert_eq!(rt; (f.place.line, f.place.column, f.end.column), (2, 1, 50));
    match f.body.as_slice() {
        [first, second, third, Command::Call(place, call)] => {
            is_assignment(rt, first, 15, (15, 5), (15, 1));
            is_assignment(rt, second, 15, (15, 6), (15, 3));
            is_assignment(rt, third, 26, (26, 6), (0, 0));
            assert_eq!(rt; (place.column, call.callee.0), (35, 0));
            match (call.references.as_slice(), call.values.as_slice()) {
                ([y], [z, t, u]) => {
                    assert_eq!(rt; own(y), (37, 5));
                    assert_eq!(rt;
                        [own_in(z), own_in(t), own_in(u)],
                        [(40, 2), (43, 4), (46, 6)]
                    );
                }
                _ => assert!(rt; false, "other counts"),
            }
        }
        _ => assert!(rt; false, "other commands"),
    }
}

/// What the level makes: the number of its first existential, and how many.
fn scope(level: &Level<Expr>) -> (u32, u32) {
    (level.made.first, level.made.count)
}

/// The procedure whose pre has a choice.
fn has_a_choice<R: Abort>(rt: &R, g: &Proc) {
    are_named(rt, &g.pre.names, &["_a", "_b", "_y", "_y"]);
    assert_eq!(rt; scope(&g.pre.level), (0, 1));
    match g.pre.level.conjuncts.as_slice() {
        [Conjunct::Holds(..), Conjunct::If(_, _, this, that)] => {
            assert_eq!(rt; scope(this), (1, 2));
            assert_eq!(rt; scope(that), (3, 1));
        }
        _ => assert!(rt; false, "other conjuncts"),
    }
}

/// Names are looked up among those that they are said to be.
fn names_are_found<R: Abort>(rt: &R, p: &Program) {
    assert_eq!(rt; p.find("f"), Some(ProcId(0)));
    assert_eq!(rt; p.find("g"), Some(ProcId(1)));
    assert_eq!(rt; p.find("q"), None);
    assert_eq!(rt; p.field("tl"), Some(FieldId(1)));
    assert_eq!(rt; p.field("hd"), None);
}

#[test]
fn names_are_numbered(rt: HostRuntime) -> Result<(), Fail> {
    match admit(rt.alloc(), FILE.as_bytes()) {
        Ok(arranged) => {
            names_are_found(&rt, &arranged.program);
            match arranged.program.procedures.as_slice() {
                [f, g] => {
                    calls_itself(&rt, f);
                    has_a_choice(&rt, g);
                }
                _ => assert!(&rt; false, "other procedures"),
            }
        }
        Err(_) => assert!(&rt; false, "refused"),
    }
    Ok(())
}
