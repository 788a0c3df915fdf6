//! What the first thing to do asks for.

ghost use Rattle.std.specs.Prelude.{◌≡◌, [], ◌++◌, codes, false, IfOk, List, Some};
ghost use Rattle.std.specs.Option.{option_map};
ghost use Rattle.sf_base.specs.Results.{Appends};
ghost use Rattle.sf_consume.specs.Misfit.{met_term, misfit_of};
ghost use Rattle.sf_core.specs.Program.ProgramView.{program_of};
ghost use Rattle.sf_core.specs.Program.View.{command_of, conjunct_of};
ghost use Rattle.sf_sym.specs.Goal.{Item as Thing, items_of, todo_of};
ghost use Rattle.sf_sym.specs.Checked.Items.{is_nothing};
ghost use Rattle.sf_sym.specs.Pending.{pending_of};
ghost use Rattle.sf_sym.specs.State.{term};
ghost use Rattle.sf_proof.specs.ProofText.{term_text};
ghost use Rattle.sf_report.specs.Pieces.{double_text, joined};
ghost use Rattle.sf_report.specs.Wanted.{address, address_text, at_conjunct, before_at, conjunct_text, double_misfit, first_before, first_cell, first_text, met_before, misfit_at, misfit_of_double, misfit_text, operand_text, scope_of, test_text, want_text, wanted_text};

use crate::names::{name_at, put_bytes, put_field};
use itoa::Buffer;
use sf_base::{FieldId, Name};
use sf_consume::{Met, Misfit, first_misfit, four};
use sf_core::{Command, Conjunct, Expr, Operand, Program, Test};
use sf_proof::{put, put_term};
use sf_sym::{Atom, Item, Numbered, Pending, State, Stuck, Term, field_term, peek_item, term_of};
use std::alloc::{AllocError, Global};

/// What existentials stand for, and their names.
#[derive(Clone, Copy)]
pub struct Bound<'a> {
    /// The term of each, by its number, where it has one.
    pub terms: &'a [Option<Term>],
    /// Their names, by number.
    pub names: &'a [Name],
}

/// Appends an operand. An `Err` means out of memory.
fn put_operand(text: &mut Vec<u8>, bound: Bound<'_>, x: Operand<Term>) -> Result<(), AllocError>
    ensures { Appends result text.old.items text.new.items
        (operand_text (scope_of bound.entry) x) }
{
    match x {
        Operand::Known(t) => put_term(text, t),
        Operand::Exists(n) => match term_of(bound.terms, &x) {
            Some(t) => put_term(text, t),
            None => put_bytes(text, name_at(bound.names, n)),
        },
    }
}

/// Appends a test. An `Err` means out of memory.
fn put_test(
    text: &mut Vec<u8>,
    bound: Bound<'_>,
    test: &Test<Operand<Term>>,
) -> Result<(), AllocError>
    ensures { Appends result text.old.items text.new.items
        (test_text (scope_of bound.entry) test.now) }
{
    match test {
        Test::True => put(text, "true"),
        Test::Equal(x, y) => {
            put_operand(text, bound, *x)?;
            put(text, " == ")?;
            put_operand(text, bound, *y)
        }
        Test::Differ(x, y) => {
            put_operand(text, bound, *x)?;
            put(text, " != ")?;
            put_operand(text, bound, *y)
        }
    }
}

/// Appends a wanted field of a cell. An `Err` means out of memory.
fn put_wanted(
    text: &mut Vec<u8>,
    p: &Program,
    bound: Bound<'_>,
    field: (FieldId, Operand<Term>),
) -> Result<(), AllocError>
    ensures { Appends result text.old.items text.new.items
        (wanted_text (program_of p.now) (scope_of bound.entry) field) }
{
    put_field(text, p, field.0)?;
    put(text, ":")?;
    put_operand(text, bound, field.1)
}

/// Appends the wanted fields of a cell. An `Err` means out of memory.
fn put_fields(
    text: &mut Vec<u8>,
    p: &Program,
    bound: Bound<'_>,
    fields: &[(FieldId, Operand<Term>)],
) -> Result<(), AllocError>
    ensures { Appends result text.old.items text.new.items (joined
        (wanted_text (program_of p.now) (scope_of bound.entry)) [] (codes ",") fields.now) }
{
    let mut before: &[u8] = b"";
    for field in fields {
        put_bytes(text, before)?;
        put_wanted(text, p, bound, *field)?;
        before = b",";
    }
    Ok(())
}

/// Appends a conjunct; of a choice its test. An `Err` means out of memory.
fn put_conjunct(
    text: &mut Vec<u8>,
    p: &Program,
    bound: Bound<'_>,
    c: &Conjunct<Term>,
) -> Result<(), AllocError>
    ensures { Appends result text.old.items text.new.items
        (conjunct_text (program_of p.now) (scope_of bound.entry) (conjunct_of c.now)) }
{
    match c {
        Conjunct::Holds(_, test) | Conjunct::If(_, test, _, _) => put_test(text, bound, test),
        Conjunct::Points(_, x, fields) => {
            put_operand(text, bound, *x)?;
            put(text, "|->")?;
            put_fields(text, p, bound, fields)
        }
        Conjunct::Segment(_, _, x, y) => {
            put(text, "ls(")?;
            put_operand(text, bound, *x)?;
            put(text, ",")?;
            put_operand(text, bound, *y)?;
            put(text, ")")
        }
        Conjunct::Doubly(_, _, _, x, b, l, y) => put_double(text, bound, *x, *b, *l, *y),
        Conjunct::Tree(_, _, _, x) => {
            put(text, "tree(")?;
            put_operand(text, bound, *x)?;
            put(text, ")")
        }
    }
}

/// Appends a wanted doubly linked segment: where it begins, what stands before it, its last cell,
/// where it ends. An `Err` means out of memory.
fn put_double(
    text: &mut Vec<u8>,
    bound: Bound<'_>,
    x: Operand<Term>,
    b: Operand<Term>,
    l: Operand<Term>,
    y: Operand<Term>,
) -> Result<(), AllocError>
    ensures { Appends result text.old.items text.new.items
        (double_text (operand_text (scope_of bound.entry) x) (operand_text (scope_of bound.entry) b)
        (operand_text (scope_of bound.entry) l) (operand_text (scope_of bound.entry) y)) }
{
    put(text, "dll(")?;
    put_operand(text, bound, x)?;
    put(text, ",")?;
    put_operand(text, bound, b)?;
    put(text, ",")?;
    put_operand(text, bound, l)?;
    put(text, ",")?;
    put_operand(text, bound, y)?;
    put(text, ")")
}

/// The fields of the first cell at the term, if there is one.
fn first_cell(atoms: &[Numbered], t: Term) -> Option<&[(FieldId, Term)]>
    ensures { option_map (λ x. x.now) result ≡ first_cell atoms.now t }
{
    for a in atoms {
        if let Some(fields) = a.atom.fields_at(t) {
            return Some(fields);
        }
    }
    None
}

/// What meets in the first field that doesn't fit the first cell there. `None` exactly where there
/// is no cell or all its fields fit; an `Err` means out of memory.
pub fn misfit_at(
    alloc: Global,
    s: &State,
    bindings: &[Option<Term>],
    x: &Operand<Term>,
    fields: &[(FieldId, Operand<Term>)],
) -> Result<Option<Misfit>, AllocError>
    ensures { IfOk result (λ m. option_map (misfit_of s.now.next_sym) m
        ≡ misfit_at s.now bindings.now x.now fields.now) }
{
    let Some(t) = term_of(bindings, x) else {
        return Ok(None);
    };
    let Some(cell) = first_cell(s.atoms(), t) else {
        return Ok(None);
    };
    first_misfit(alloc, s.next_sym(), cell, bindings, fields)
}

/// What stands before a doubly linked segment, if the atom is one that is at the term.
fn before_at(atom: &Atom, t: Term) -> Option<Term>
    ensures { result ≡ before_at atom.now t }
{
    match atom {
        Atom::Dll(v, p, _, _) if v.is(t) => Some(*p),
        Atom::Points(..) | Atom::Ls(..) | Atom::Tree(_) | Atom::Dll(..) => None,
    }
}

/// What stands before the first doubly linked segment at the term, if there is one.
fn first_before(atoms: &[Numbered], t: Term) -> Option<Term>
    ensures { result ≡ first_before atoms.now t }
{
    for a in atoms {
        if let Some(p) = before_at(&a.atom, t) {
            return Some(p);
        }
    }
    None
}

/// What stands before a wanted doubly linked segment, and what is to. `None` exactly where nothing
/// is at its root.
fn met_before(s: &State, back: FieldId, v: Term, p: Term) -> Option<Misfit>
    ensures { option_map (misfit_of s.now.next_sym) result ≡ met_before s.now back v p }
{
    let wanted = Met::Known(p);
    if let Some(fields) = first_cell(s.atoms(), v) {
        let there = match field_term(fields, back) {
            Some(q) => Some(Met::Known(q)),
            None => None,
        };
        return Some(Misfit { there, wanted });
    }
    let q = first_before(s.atoms(), v)?;
    Some(Misfit {
        there: Some(Met::Known(q)),
        wanted,
    })
}

/// Two terms that should be one for a doubly linked segment with these terms. `None` exactly where
/// nothing is at its root, and it doesn't end there.
fn misfit_of_double(s: &State, back: FieldId, v: Term, p: Term, l: Term, u: Term) -> Option<Misfit>
    ensures { option_map (misfit_of s.now.next_sym) result
        ≡ misfit_of_double s.now back (v, p, l, u) }
{
    if v.is(u) {
        return Some(Misfit {
            there: Some(Met::Known(p)),
            wanted: Met::Known(l),
        });
    }
    met_before(s, back, v, p)
}

/// Two terms that should be one for a wanted doubly linked segment. `None` exactly where one of its
/// operands has no term, or there are no such terms.
pub fn double_misfit(
    s: &State,
    bindings: &[Option<Term>],
    back: FieldId,
    x: Operand<Term>,
    b: Operand<Term>,
    l: Operand<Term>,
    y: Operand<Term>,
) -> Option<Misfit>
    ensures { option_map (misfit_of s.now.next_sym) result
        ≡ double_misfit s.now bindings.now back x b l y }
{
    let (v, p, m, u) = four(bindings, x, b, l, y)?;
    misfit_of_double(s, back, v, p, m, u)
}

/// Appends a term that was met, where the next symbol has that number. An `Err` means out of
/// memory.
fn put_met(text: &mut Vec<u8>, next_sym: u32, met: Met) -> Result<(), AllocError>
    ensures { Appends result text.old.items text.new.items (term_text (met_term next_sym met)) }
{
    match met {
        Met::Known(t) => put_term(text, t),
        Met::Fresh(n) => {
            put(text, "s")?;
            put(text, Buffer::new().format(u128::from(next_sym) + n as u128))
        }
    }
}

/// Appends what meets in a field that doesn't fit. An `Err` means out of memory.
fn put_misfit(text: &mut Vec<u8>, next_sym: u32, m: Misfit) -> Result<(), AllocError>
    ensures { Appends result text.old.items text.new.items
        (misfit_text (Some (misfit_of next_sym m)) []) }
{
    match m.there {
        Some(met) => put_met(text, next_sym, met)?,
        None => put(text, "?")?,
    }
    put(text, " == ")?;
    put_met(text, next_sym, m.wanted)
}

/// Appends what a wanted cell or doubly linked segment that doesn't fit wants. An `Err` means out of
/// memory.
fn put_unequal(
    text: &mut Vec<u8>,
    alloc: Global,
    p: &Program,
    s: &State,
    bound: Bound<'_>,
    c: &Conjunct<Term>,
) -> Result<(), AllocError>
    ensures { Appends result text.old.items text.new.items (at_conjunct (program_of p.now)
        Stuck.NotEqual s.now (scope_of bound.entry) (conjunct_of c.now)) }
{
    if let Conjunct::Points(_, x, fields) = c {
        if let Some(m) = misfit_at(alloc, s, bound.terms, x, fields)? {
            return put_misfit(text, s.next_sym(), m);
        }
    }
    if let Conjunct::Doubly(_, _, back, x, b, l, y) = c {
        if let Some(m) = double_misfit(s, bound.terms, *back, *x, *b, *l, *y) {
            return put_misfit(text, s.next_sym(), m);
        }
    }
    put_conjunct(text, p, bound, c)
}

/// Appends what a conjunct wants. An `Err` means out of memory.
fn put_at_conjunct(
    text: &mut Vec<u8>,
    alloc: Global,
    p: &Program,
    kind: Stuck,
    s: &State,
    bound: Bound<'_>,
    c: &Conjunct<Term>,
) -> Result<(), AllocError>
    ensures { Appends result text.old.items text.new.items
        (at_conjunct (program_of p.now) kind s.now (scope_of bound.entry) (conjunct_of c.now)) }
{
    match kind {
        Stuck::NotEqual => put_unequal(text, alloc, p, s, bound, c),
        _ => put_conjunct(text, p, bound, c),
    }
}

/// Appends what the first of these conjuncts wants. An `Err` means out of memory.
fn put_first(
    text: &mut Vec<u8>,
    alloc: Global,
    p: &Program,
    kind: Stuck,
    s: &State,
    want: &Pending,
    names: &[Name],
) -> Result<(), AllocError>
    ensures { Appends result text.old.items text.new.items
        (first_text (program_of p.now) kind s.now
        (record { bindings = (pending_of want.now).bindings; names = names.now })
        (pending_of want.now).conjuncts) }
{
    let bound = Bound {
        terms: want.bindings(),
        names,
    };
    match want.first() {
        Some(c) => put_at_conjunct(text, alloc, p, kind, s, bound, c),
        None => put(text, "emp"),
    }
}

/// The expression at whose value a command wants a cell.
pub fn address(c: &Command) -> Option<Expr>
    ensures { result ≡ address (command_of c.now) }
{
    match c {
        Command::LookUp(_, _, e, _) | Command::Mutate(_, e, _, _) | Command::Dispose(_, e) => {
            Some(*e)
        }
        _ => None,
    }
}

/// The term of an expression.
pub fn term(s: &State, e: Expr) -> Term
    ensures { result ≡ term s.now.vars e }
{
    match e {
        Expr::Var(x) => s.term_at(x.var),
        Expr::Nil => Term::Nil,
        Expr::Int(i) => Term::Int(i),
    }
}

/// Appends the cell that a command wants. An `Err` means out of memory.
fn put_address(text: &mut Vec<u8>, s: &State, c: &Command) -> Result<(), AllocError>
    ensures { Appends result text.old.items text.new.items
        (address_text s.now (address (command_of c.now))) }
{
    match address(c) {
        Some(e) => {
            put(text, "cell ")?;
            put_term(text, term(s, e))
        }
        None => put(text, "emp"),
    }
}

/// Appends what an item wants. An `Err` means out of memory.
fn put_item(
    text: &mut Vec<u8>,
    alloc: Global,
    p: &Program,
    kind: Stuck,
    s: &State,
    item: &Item,
) -> Result<(), AllocError>
    requires { is_nothing item.now ≡ false }
    ensures { (rest : List Thing) → Appends result text.old.items text.new.items
        (want_text (program_of p.now) kind s.now (items_of item.now ++ rest)) }
{
    match item {
        Item::Run(commands) => match commands.first() {
            Some(c) => put_address(text, s, c),
            None => put(text, "emp"),
        },
        Item::Take(_, want, names) => put_first(text, alloc, p, kind, s, want, names),
        _ => put(text, "emp"),
    }
}

/// Appends what the first thing to do wants. An `Err` means out of memory.
pub fn put_want(
    text: &mut Vec<u8>,
    alloc: Global,
    p: &Program,
    kind: Stuck,
    s: &State,
    todo: &[Item],
) -> Result<(), AllocError>
    ensures { Appends result text.old.items text.new.items
        (want_text (program_of p.now) kind s.now (todo_of todo.now)) }
{
    match peek_item(todo) {
        Some(item) => put_item(text, alloc, p, kind, s, item),
        None => put(text, "emp"),
    }
}
