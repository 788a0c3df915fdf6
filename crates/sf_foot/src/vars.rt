//! The values of variables.

ghost use Rattle.std.specs.Prelude.{◌≡◌, slice_index_or};
ghost use Rattle.sf_base.specs.declared.value.Value.TheVariants.{Nil as nil};
ghost use Rattle.sf_foot.specs.Variables.{value_of};

use sf_base::{Value, Var};

/// The values of variables, by their numbers: those of a procedure's own variables, and for each
/// resource those of its variables. A variable that isn't there counts as nil.
#[derive(Debug, Drop)]
pub struct Vars {
    /// The procedure's own variables.
    pub own: Vec<Value>,
    /// For each resource its variables.
    pub shared: Vec<Vec<Value>>,
}

impl Vars {
    /// The value of a variable, or nil where it isn't there.
    pub fn get(&self, x: Var) -> Value
        ensures { result ≡ value_of self.now x }
    {
        match x {
            Var::Own(i) => value_at(&self.own, i),
            Var::Shared(r, i) => match self.shared.get(r.0 as usize) {
                Some(values) => value_at(values, i),
                None => Value::Nil,
            },
        }
    }
}

/// The value at a place, or nil where there is none.
fn value_at(values: &[Value], i: u32) -> Value
    ensures { result ≡ slice_index_or values.now i nil }
{
    match values.get(i as usize) {
        Some(value) => *value,
        None => Value::Nil,
    }
}
