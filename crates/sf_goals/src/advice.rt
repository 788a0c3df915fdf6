//! What often helps at a goal where a search is stuck.

use crate::around::{
    Loop, has_left_region, has_primes, has_region, has_silent_post, has_silent_pre, is_end,
    is_value, loop_around,
};
use crate::telling::front_place;
use sf_base::{Place, ProcId};
use sf_core::{Command, Expr, Program};
use sf_hints::put;
use sf_report::{address, term};
use sf_sym::{Atom, Goal, Item, Numbered, State, Stuck, Term, peek_item};
use std::alloc::{AllocError, Global};

/// Something that often helps.
#[derive(Clone, Copy, Debug, PartialEq, Eq)]
pub enum Advice {
    /// The loop around has no invariant.
    Invariant,
    /// The loop's invariant doesn't say enough, or too much.
    LoopSays,
    /// The precondition isn't written.
    Precondition,
    /// The postcondition isn't written.
    Postcondition,
    /// The pointer is nil in this case.
    TestFirst,
    /// The part that begins there may be empty.
    MayBeEmpty,
    /// Something before took the cell.
    TakenBefore,
    /// A region's cells stay with the resource.
    StaysInside,
    /// What is left over is to go or to be said.
    DisposeOrSay,
    /// No variable leads to what is left over.
    Lost,
    /// What a region doesn't give back is left to the procedure.
    RegionLeaves,
    /// A primed variable is the body's copy.
    Primes,
    /// A new cell has anything in its fields.
    SetFields,
    /// What is known of equal values.
    SayEqual,
    /// What says that two values differ.
    SayDifferent,
    /// A part goes to one place.
    OnePlace,
    /// A part has another form.
    OtherForm,
    /// A segment's end has to be outside of it.
    EndOutside,
}

/// The line of an advice.
fn advice_words(advice: Advice) -> &'static str {
    match advice {
        Advice::Invariant => {
            "the loop around it has no invariant, so its body knows no cell: `while (B) [I] C`"
        }
        Advice::LoopSays => {
            "an invariant is due before the loop and after its body: in between, that and the test are all that is known"
        }
        Advice::Precondition => {
            "the precondition isn't written, which is `emp`: the procedure begins without a cell"
        }
        Advice::Postcondition => {
            "the postcondition isn't written, which is `emp`: what the body leaves has to be in it"
        }
        Advice::TestFirst => "it is nil in this case: a test has to come before",
        Advice::MayBeEmpty => {
            "what begins there may be empty: a test that it isn't opens its first cell"
        }
        Advice::TakenBefore => {
            "an earlier call, loop, region or `dispose` took it, and only what its annotation says comes back; or the segment that is said there is empty"
        }
        Advice::StaysInside => {
            "at its brace a region gives the cells of its invariant back, and only their places are known outside: use them inside, or set the region's variables so that the invariant doesn't have them"
        }
        Advice::DisposeOrSay => {
            "dispose of what is left over, or say it in the postcondition or invariant that is due"
        }
        Advice::Lost => {
            "no variable leads to what is left over any more: dispose of it, or link it to what is kept, before the last variable that leads there is set"
        }
        Advice::RegionLeaves => {
            "a region brings the cells of its invariant in, and at its brace gives back those that the invariant has then: the others are left to the procedure"
        }
        Advice::Primes => {
            "x' is the body's copy of the value x: in the postcondition x is what the caller gave; a reference, before the `;`, gives it back"
        }
        Advice::SetFields =>
            "a new cell has anything in its fields: set each that the annotation names",
        Advice::SayEqual => {
            "what loops and calls took is known by their annotations alone: say there which values are the same"
        }
        Advice::SayDifferent => "a test before it, or a conjunct `x != y`, says that they differ",
        Advice::OnePlace => {
            "a part goes to one place: no cell is handed over twice, nor to two calls at once"
        }
        Advice::OtherForm => {
            "what is there may have another form: a cell is no segment, and a list of which the end isn't nil is `ls`"
        }
        Advice::EndOutside => {
            "two segments are one only where the second can't lead back into the first: to nil, or to a cell that is there"
        }
    }
}

/// The first command to do.
fn first_command<'a>(goal: &'a Goal) -> Option<&'a Command> {
    match peek_item(&goal.todo) {
        Some(Item::Run(commands)) => commands.first(),
        _ => None,
    }
}

/// The expression at whose value the first command to do wants a cell.
fn wanted_at(goal: &Goal) -> Option<Expr> {
    address(first_command(goal)?)
}

/// Whether a segment or a tree begins at the term.
fn may_begin(state: &State, t: Term) -> bool {
    for a in state.atoms() {
        match &a.atom {
            Atom::Points(_, _) => {}
            Atom::Ls(_, _) | Atom::Tree(_) | Atom::Dll(_, _, _, _) => {
                if a.atom.begins(t) {
                    return true;
                }
            }
        }
    }
    false
}

/// What helps where a cell isn't known at a place outside of what has a loop without an invariant,
/// and where no part is known to begin.
fn for_unknown(
    alloc: Global,
    p: &Program,
    f: ProcId,
    e: Option<Expr>,
    place: Place,
    around: Loop,
) -> Result<Advice, AllocError> {
    let is_bare = has_silent_pre(p, f) && around == Loop::None;
    if is_bare && is_value(p, f, e) {
        return Ok(Advice::Precondition);
    }
    if has_left_region(alloc, p, f, place)? {
        return Ok(Advice::StaysInside);
    }
    Ok(if is_bare {
        Advice::Precondition
    } else {
        Advice::TakenBefore
    })
}

/// What helps where a cell isn't known.
fn for_no_cell(
    alloc: Global,
    p: &Program,
    f: ProcId,
    goal: &Goal,
    around: Loop,
) -> Result<Advice, AllocError> {
    if around == Loop::Silent {
        return Ok(Advice::Invariant);
    }
    let e = wanted_at(goal);
    if let Some(e) = e {
        let t = term(&goal.state, e);
        if t.is(Term::Nil) {
            return Ok(Advice::TestFirst);
        }
        if may_begin(&goal.state, t) {
            return Ok(Advice::MayBeEmpty);
        }
    }
    for_unknown(alloc, p, f, e, front_place(goal), around)
}

/// Whether a part leads to a term.
fn leads_to(atom: &Atom, t: Term) -> bool {
    match atom {
        Atom::Points(_, fields) => fields.as_slice().iter().any(|(_, u)| u.is(t)),
        Atom::Ls(_, u) | Atom::Dll(_, _, _, u) => u.is(t),
        Atom::Tree(_) => false,
    }
}

/// Whether a variable, or another part of a state, handed over or not, leads to a part.
fn is_reached(state: &State, a: &Numbered) -> bool {
    let t = a.atom.root();
    let mut parts = state.atoms().iter().chain(state.taken());
    state.vars().iter().any(|(_, u)| u.is(t))
        || parts.any(|b| b.number != a.number && leads_to(&b.atom, t))
}

/// Whether nothing leads to one of the parts that are there.
fn has_lost(state: &State) -> bool {
    state.atoms().iter().any(|a| !is_reached(state, a))
}

/// What helps where parts are left over.
fn for_leak(p: &Program, f: ProcId, goal: &Goal) -> Advice {
    if has_lost(&goal.state) {
        Advice::Lost
    } else if is_end(p, f, front_place(goal)) && has_silent_post(p, f) {
        Advice::Postcondition
    } else {
        Advice::DisposeOrSay
    }
}

/// What helps first.
fn first_advice(
    alloc: Global,
    p: &Program,
    f: ProcId,
    goal: &Goal,
    kind: Stuck,
    around: Loop,
) -> Result<Advice, AllocError> {
    Ok(match kind {
        Stuck::NoCell => for_no_cell(alloc, p, f, goal, around)?,
        Stuck::Leak => for_leak(p, f, goal),
        Stuck::NotEqual => Advice::SayEqual,
        Stuck::NotDifferent => Advice::SayDifferent,
        Stuck::NoAtom => Advice::OnePlace,
        Stuck::EndNotAllocated => Advice::EndOutside,
    })
}

/// Whether the part is a segment.
fn is_segment(atom: &Atom) -> bool {
    match atom {
        Atom::Ls(_, _) | Atom::Dll(_, _, _, _) => true,
        Atom::Points(_, _) | Atom::Tree(_) => false,
    }
}

/// Whether two segments are known, handed over or not.
fn has_two_segments(state: &State) -> bool {
    let left = state.atoms().iter().filter(|a| is_segment(&a.atom));
    let gone = state.taken().iter().filter(|a| is_segment(&a.atom));
    left.count().saturating_add(gone.count()) > 1
}

/// What helps second where parts are left over.
fn second_for_leak(
    alloc: Global,
    p: &Program,
    f: ProcId,
    goal: &Goal,
) -> Result<Option<Advice>, AllocError> {
    if has_lost(&goal.state) && has_region(alloc, p, f)? {
        return Ok(Some(Advice::RegionLeaves));
    }
    Ok(if has_two_segments(&goal.state) {
        Some(Advice::EndOutside)
    } else {
        None
    })
}

/// What helps second.
fn second_advice(
    alloc: Global,
    p: &Program,
    f: ProcId,
    goal: &Goal,
    kind: Stuck,
) -> Result<Option<Advice>, AllocError> {
    match kind {
        Stuck::NotEqual => Ok(Some(Advice::SetFields)),
        Stuck::NoAtom => Ok(Some(Advice::OtherForm)),
        Stuck::Leak => second_for_leak(alloc, p, f, goal),
        Stuck::NoCell | Stuck::NotDifferent | Stuck::EndNotAllocated => Ok(None),
    }
}

/// What a loop has to do with it, where what helps first doesn't say it.
fn of_loop(around: Loop) -> Option<Advice> {
    match around {
        Loop::None | Loop::Silent => None,
        Loop::Said | Loop::Itself => Some(Advice::LoopSays),
        Loop::ItselfSilent => Some(Advice::Invariant),
    }
}

/// What often helps at a goal where a search is stuck for that reason. An `Err` says that memory ran
/// out.
pub fn advise(
    alloc: Global,
    p: &Program,
    f: ProcId,
    goal: &Goal,
    kind: Stuck,
) -> Result<Vec<&'static str>, AllocError> {
    let around = loop_around(alloc, p, f, front_place(goal))?;
    let mut found = Vec::new(alloc);
    let first = first_advice(alloc, p, f, goal, kind, around)?;
    found.push(advice_words(first))?;
    if let Some(advice) = second_advice(alloc, p, f, goal, kind)? {
        found.push(advice_words(advice))?;
    }
    if let Some(advice) = of_loop(around) {
        found.push(advice_words(advice))?;
    }
    if has_primes(p, f) && is_end(p, f, front_place(goal)) {
        found.push(advice_words(Advice::Primes))?;
    }
    Ok(found)
}

/// Appends what often helps, a line each. An `Err` says that memory ran out.
pub fn put_advice(text: &mut Vec<u8>, lines: &[&str]) -> Result<(), AllocError> {
    for line in lines {
        put(text, "  ")?;
        put(text, line)?;
        put(text, "\n")?;
    }
    Ok(())
}
