//! What a search asks of a state at each of its goals.

use sf_sym::{State, Term};

/// The answers of a state.
#[derive(Debug, Drop)]
pub struct Answers {
    /// Whether the state can't be.
    absurd: bool,
    /// An atom that is empty.
    droppable: Option<u32>,
    /// An atom that can only be empty.
    forced: Option<u32>,
    /// Whether two terms differ.
    differ: bool,
    /// Whether a term is the location of a cell.
    allocated: bool,
}

/// The answers, of two terms for the last questions.
fn answers_of(state: &State, t: Term, u: Term) -> Answers {
    Answers {
        absurd: state.is_absurd(),
        droppable: state.droppable(),
        forced: state.forced().map(|f| f.0),
        differ: state.differs(t, u),
        allocated: state.allocated(t, None),
    }
}

/// The last of so many answers, each of two symbols that stand next to each other.
pub fn asked(state: &State, times: u32) -> Answers {
    let mut last = answers_of(state, Term::Sym(0), Term::Sym(1));
    for i in 1..times {
        last = answers_of(state, Term::Sym(i), Term::Sym(i - 1));
    }
    last
}
