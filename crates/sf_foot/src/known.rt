//! The values of the existentials that are known while conjuncts are taken.

ghost use Rattle.std.specs.Prelude.{List, ◌≡◌, ◌==◌, ◌↔◌, ◌++◌, [], ◌∷◌, ℕ, IsTrue, true, false, cond, IfOk, OnOk, Some, None};
ghost use Rattle.std.specs.Ordering.{nat_cmp};
ghost use Rattle.std.specs.BTreeMap.{IsEmpty, get};
ghost use Rattle.sf_base.specs.declared.value.Value.{Value as V};
ghost use Rattle.sf_core.specs.Assertions.Determined.{is_existential, is_in_fields};
ghost use Rattle.sf_core.specs.Assertions.Sat.{HasFields, IsTrueOf, operand, value};
ghost use Rattle.sf_core.specs.Assertions.Scopes.{is_made_by};
ghost use Rattle.sf_heap.specs.Cells.{cell_of};
ghost use Rattle.sf_foot.specs.Checked.Known.{Agrees, IsWithin, Learns, Refutes, is_own, told, told_of};
ghost use Rattle.sf_foot.specs.Checked.Taking.{TestIsKnown};
ghost use Rattle.sf_foot.specs.Variables.{value_of};
ghost use Rattle.sf_foot.specs.declared.known.Layer.{Layer};

use crate::vars::Vars;
use sf_base::{FieldId, Value};
use sf_core::{Expr, Operand, Scope, Test};
use sf_heap::Cell;
use std::alloc::{AllocError, Global};
use std::collections::BTreeMap;
use std::mem::replace;

/// The existentials that one level makes, and the values of those among them that are known.
#[derive(Debug, Drop)]
pub(crate) struct Layer {
    pub(crate) made: Scope,
    pub(crate) values: BTreeMap<u32, Value>,
}

/// What is known inside a level: its own existentials, and those of the levels around it, the
/// outermost first. An existential that no level makes is nil.
#[derive(Debug, Drop)]
pub(crate) struct Known {
    pub(crate) outer: Vec<Layer>,
    pub(crate) inner: Layer,
    alloc: Global,
}

impl Known {
    /// Nothing is known of what the outermost level makes.
    pub(crate) fn new(alloc: Global, made: Scope) -> Known
        ensures told { (n : ℕ) → told result n ≡ cond (is_made_by made n) None (Some V.Nil) }
        ensures made { result.inner.made ≡ made }
    {
        Known {
            outer: Vec::new(alloc),
            inner: Layer {
                made,
                values: BTreeMap::new(alloc),
            },
            alloc,
        }
    }

    /// The value of an existential, where it is known.
    fn get(&self, n: u32) -> Option<Value>
        ensures { result ≡ told self.now n }
    {
        if is_made_by(self.inner.made, n) {
            return value_in(&self.inner, n);
        }
        let mut left = self.outer.as_slice();
        'layers: while let Some((layer, others)) = left.split_last() {
            if is_made_by(layer.made, n) {
                return value_in(layer, n);
            }
            left = others;
        }
        Some(Value::Nil)
    }

    /// The value of an operand, where it is known.
    pub(crate) fn value(&self, vars: &Vars, x: Operand<Expr>) -> Option<Value>
        ensures { result ≡ told_of (value (value_of vars.now)) self.now x }
    {
        match x {
            Operand::Known(e) => Some(evaluate(vars, e)),
            Operand::Exists(n) => self.get(n),
        }
    }

    /// Whether a test is true whose sides are known.
    pub(crate) fn is_true(&self, vars: &Vars, test: &Test<Operand<Expr>>) -> bool
        requires { TestIsKnown self.now test.now }
        ensures { (some : ℕ → V) → Agrees self.now some
            → IsTrue result ↔ IsTrueOf (operand (value (value_of vars.now)) some) test.now }
    {
        match test {
            Test::True => true,
            Test::Equal(x, y) => is_one(self.value(vars, *x), self.value(vars, *y)),
            Test::Differ(x, y) => !is_one(self.value(vars, *x), self.value(vars, *y)),
        }
    }

    /// The existential, which this level makes, has that value from now on.
    fn learn(&mut self, n: u32, v: Value) -> Result<(), AllocError>
        requires { is_own self.old n ≡ true }
        ensures told { OnOk result
            ((m : ℕ) → told self.new m ≡ cond (n == m) (Some v) (told self.old m)) }
        ensures outer { OnOk result (self.new.outer.items ≡ self.old.outer.items) }
        ensures made { OnOk result (self.new.inner.made ≡ self.old.inner.made) }
    {
        self.inner.values.insert(n, v)?;
        Ok(())
    }

    /// Whether an operand has that value. An existential that isn't known yet gets it.
    pub(crate) fn meet(
        &mut self,
        vars: &Vars,
        x: Operand<Expr>,
        v: Value,
    ) -> Result<bool, AllocError>
        requires { (n : ℕ) → is_existential n x ≡ true → IsWithin self.old n }
        ensures yes { IfOk result (λ b. IsTrue b → Learns
            (λ some. v ≡ operand (value (value_of vars.now)) some x)
            (λ n. is_existential n x) self.old self.new) }
        ensures no { IfOk result (λ b. b ≡ false → Refutes
            (λ some. v ≡ operand (value (value_of vars.now)) some x) self.old) }
    {
        if let Some(w) = self.value(vars, x) {
            return Ok(is_same(w, v));
        }
        if let Operand::Exists(n) = x {
            self.learn(n, v)?;
        }
        Ok(true)
    }

    /// Whether the fields of a cell have the wanted values. Existentials that aren't known yet get
    /// those that the cell has.
    pub(crate) fn meet_fields(
        &mut self,
        vars: &Vars,
        fields: &[(FieldId, Operand<Expr>)],
        cell: &Cell,
    ) -> Result<bool, AllocError>
        requires { (n : ℕ) → is_in_fields n fields.now ≡ true → IsWithin self.old n }
        ensures yes { IfOk result (λ b. IsTrue b → Learns
            (λ some. HasFields (operand (value (value_of vars.now)) some)
            fields.now (cell_of cell.now))
            (λ n. is_in_fields n fields.now) self.old self.new) }
        ensures no { IfOk result (λ b. b ≡ false → Refutes
            (λ some. HasFields (operand (value (value_of vars.now)) some)
            fields.now (cell_of cell.now)) self.old) }
    {
        for field in fields {
            if !self.meet(vars, field.1, cell.get(field.0))? {
                return Ok(false);
            }
        }
        Ok(true)
    }

    /// Goes into a level: nothing is known of what it makes.
    pub(crate) fn enter(&mut self, made: Scope) -> Result<(), AllocError>
        ensures told { OnOk result
            ((n : ℕ) → told self.new n ≡ cond (is_made_by made n) None (told self.old n)) }
        ensures outer { OnOk result
            (self.new.outer.items ≡ self.old.outer.items ++ self.old.inner ∷ []) }
        ensures made { OnOk result (self.new.inner.made ≡ made) }
    {
        let inner = Layer {
            made,
            values: BTreeMap::new(self.alloc),
        };
        let around = replace(&mut self.inner, inner);
        self.outer.push(around)?;
        Ok(())
    }

    /// Comes back out of a level: what is known is what was known before it.
    pub(crate) fn leave(&mut self)
        ensures { (before : List Layer) (around : Layer)
            → self.old.outer.items ≡ before ++ around ∷ [] → (self.new.outer.items ≡ before)
            × (self.new.inner ≡ around) }
    {
        if let Some(around) = self.outer.pop() {
            self.inner = around;
        }
    }
}

/// What a layer knows of an existential.
fn value_in(layer: &Layer, n: u32) -> Option<Value>
    ensures { result ≡ get nat_cmp layer.now.values n }
{
    match layer.values.get(&n) {
        Some(value) => Some(*value),
        None => None,
    }
}

/// Whether the scope makes the existential.
fn is_made_by(made: Scope, n: u32) -> bool
    ensures { result ≡ is_made_by made n }
{
    made.first <= n && n - made.first < made.count
}

/// The value of an expression.
fn evaluate(vars: &Vars, e: Expr) -> Value
    ensures { result ≡ value (value_of vars.now) e }
{
    match e {
        Expr::Var(x) => vars.get(x.var),
        Expr::Nil => Value::Nil,
        Expr::Int(i) => Value::Int(i),
    }
}

/// Whether both are known and one.
fn is_one(a: Option<Value>, b: Option<Value>) -> bool
    ensures { (v : V) (w : V) → a ≡ Some v → b ≡ Some w → IsTrue result ↔ (v ≡ w) }
{
    match (a, b) {
        (Some(v), Some(w)) => is_same(v, w),
        _ => false,
    }
}

/// Whether the two are one value.
pub(crate) fn is_same(a: Value, b: Value) -> bool
    ensures { IsTrue result ↔ (a ≡ b) }
{
    a == b
}
