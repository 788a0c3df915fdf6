//! The values of terms.

ghost use Rattle.std.specs.Prelude.{◌≡◌, ◌↔◌, IfOk, IsTrue};
ghost use Rattle.sf_witness.specs.Located.{value_at};
ghost use Rattle.sf_witness.specs.WitnessState.{values};

use sf_base::{Value, Var};
use sf_sym::Term;
use std::alloc::{AllocError, Global};

/// The value of a term: a symbol is the location after its number.
pub fn value_at(t: Term) -> Value
    ensures { result ≡ value_at t }
{
    match t {
        Term::Nil => Value::Nil,
        Term::Int(i) => Value::Int(i),
        Term::Sym(n) => Value::Loc(u64::from(n) + 1),
    }
}

/// Whether the two are one value.
pub fn is_same(a: Value, b: Value) -> bool
    ensures { IsTrue result ↔ (a ≡ b) }
{
    a == b
}

/// The values of variables. An `Err` means out of memory.
pub fn values(alloc: Global, vars: &[(Var, Term)]) -> Result<Vec<(Var, Value)>, AllocError>
    ensures { IfOk result (λ vs. vs.items ≡ values vars.now) }
{
    let mut found = Vec::with_capacity(alloc, vars.len())?;
    for v in vars {
        found.push((v.0, value_at(v.1)))?;
    }
    Ok(found)
}
