//! Expressions, calls and commands, numbered.

ghost use Rattle.std.specs.Prelude.{◌≡◌};
ghost use Rattle.sf_core.specs.Program.Places.{place_of};
ghost use Rattle.sf_core.specs.Program.View.{command_of};

use crate::assertion::{Assertion, Test};
use sf_base::{FieldId, Place, ProcId, ResId, Var};

/// A variable and its place in the text.
#[derive(Clone, Copy, Debug, PartialEq, Eq)]
pub struct Occurrence {
    /// Which variable it is.
    pub var: Var,
    /// Its place.
    pub place: Place,
}

/// An expression. Evaluating it reads the variable, if it is one, and nothing else.
#[derive(Clone, Copy, Debug, PartialEq, Eq)]
pub enum Expr {
    /// The variable's value.
    Var(Occurrence),
    /// `nil`, which is no location.
    Nil,
    /// That number.
    Int(i64),
}

/// One call: by itself, or as one of two parallel ones.
#[derive(Debug, Drop)]
pub struct Call {
    /// The procedure that is called.
    pub callee: ProcId,
    /// The place of its name.
    pub place: Place,
    /// The caller's variables that the callee's references name, in order.
    pub references: Vec<Occurrence>,
    /// The values of the callee's value parameters, in order.
    pub values: Vec<Expr>,
}

/// A command and the place of its first token. Braces alone are no command: the commands inside are
/// among those around them.
#[derive(Debug, Drop)]
pub enum Command {
    /// `x = E;`
    Assign(Place, Occurrence, Expr),
    /// `x = E->f;`
    LookUp(Place, Occurrence, Expr, FieldId),
    /// `E->f = F;`
    Mutate(Place, Expr, FieldId, Expr),
    /// `x = new();`
    New(Place, Occurrence),
    /// `dispose(E);`
    Dispose(Place, Expr),
    /// `if (B) C else D`
    If(Place, Test<Expr>, Vec<Command>, Vec<Command>),
    /// `while (B) [I] C`
    While(Place, Test<Expr>, Assertion, Vec<Command>),
    /// `f(x; E);`
    Call(Place, Call),
    /// `f(x; E) || g(y; F);`
    Fork(Place, Call, Call),
    /// `with r when (B) C`
    With(Place, ResId, Test<Expr>, Vec<Command>),
}

impl Command {
    /// The place of its first token.
    pub fn place(&self) -> Place
        ensures { result ≡ place_of (command_of self.now) }
    {
        match self {
            Command::Assign(place, _, _) => *place,
            Command::LookUp(place, _, _, _) => *place,
            Command::Mutate(place, _, _, _) => *place,
            Command::New(place, _) => *place,
            Command::Dispose(place, _) => *place,
            Command::If(place, _, _, _) => *place,
            Command::While(place, _, _, _) => *place,
            Command::Call(place, _) => *place,
            Command::Fork(place, _, _) => *place,
            Command::With(place, _, _, _) => *place,
        }
    }
}
