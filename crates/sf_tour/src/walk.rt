//! What the conjuncts of an assertion take of a state's cells, one after the other, and what is in the
//! way of one.

use sf_base::{FieldId, Value};
use sf_core::{Conjunct, Expr, Operand, Test};
use sf_foot::Vars;
use sf_heap::Cell;
use std::alloc::{AllocError, Global};
use std::collections::BTreeMap;

/// What is in the way of a conjunct.
#[derive(Clone, Copy, Debug, PartialEq, Eq)]
pub(crate) enum Obstacle {
    /// There is no cell at this value.
    Absent(Value),
    /// An earlier conjunct has this cell already.
    Taken(u64),
    /// The links come to this cell a second time.
    Again(u64),
    /// The field of that cell has the first value, where the second is due.
    Field(u64, FieldId, Value, Value),
    /// The last cell is at the first value, where the second is due.
    Last(Value, Value),
    /// The test isn't true.
    Test,
}

/// Where a doubly linked segment begins, what is before it, where its last cell is, and where it ends.
#[derive(Clone, Copy)]
struct Ends {
    from: Value,
    before: Value,
    last: Value,
    to: Value,
}

/// What the conjuncts so far have taken and found.
#[derive(Drop)]
pub(crate) struct Walk<'a> {
    vars: &'a Vars,
    cells: &'a BTreeMap<u64, Cell>,
    /// The cells that are taken, each with how many were before.
    taken: BTreeMap<u64, usize>,
    /// The values of the existentials that are known.
    known: Vec<Option<Value>>,
}

impl<'a> Walk<'a> {
    /// A walk over these cells, of which nothing is taken, and no existential is known.
    pub(crate) fn new(alloc: Global, vars: &'a Vars, cells: &'a BTreeMap<u64, Cell>) -> Walk<'a> {
        Walk {
            vars,
            cells,
            taken: BTreeMap::new(alloc),
            known: Vec::new(alloc),
        }
    }

    /// Goes on to another assertion, which has so many existentials. An `Err` says that memory ran out.
    pub(crate) fn enter(&mut self, alloc: Global, existentials: usize) -> Result<(), AllocError> {
        self.known = Vec::from_elem(alloc, None, existentials)?;
        Ok(())
    }

    /// The value of an operand, if it is known.
    fn value(&self, operand: &Operand<Expr>) -> Option<Value> {
        match operand {
            Operand::Known(Expr::Var(x)) => Some(self.vars.get(x.var)),
            Operand::Known(Expr::Nil) => Some(Value::Nil),
            Operand::Known(Expr::Int(i)) => Some(Value::Int(*i)),
            Operand::Exists(n) => match self.known.get(*n as usize) {
                Some(value) => *value,
                None => None,
            },
        }
    }

    /// The value of an operand that is known by now.
    fn value_now(&self, operand: &Operand<Expr>) -> Value {
        self.value(operand).unwrap_or(Value::Nil)
    }

    /// Whether an operand may have that value: it has it, or gets it.
    fn meets(&mut self, operand: &Operand<Expr>, value: Value) -> bool {
        if let Some(known) = self.value(operand) {
            return known == value;
        }
        if let Operand::Exists(n) = operand {
            if let Some(place) = self.known.get_mut(*n as usize) {
                *place = Some(value);
            }
        }
        true
    }

    /// Takes the cell at a value, where the cells from that number on are this conjunct's. An `Err`
    /// says that memory ran out.
    fn take(&mut self, value: Value, own: usize) -> Result<Result<u64, Obstacle>, AllocError> {
        let Value::Loc(at) = value else {
            return Ok(Err(Obstacle::Absent(value)));
        };
        if self.cells.get(&at).is_none() {
            return Ok(Err(Obstacle::Absent(value)));
        }
        match self.taken.get(&at) {
            Some(number) if *number < own => Ok(Err(Obstacle::Taken(at))),
            Some(_) => Ok(Err(Obstacle::Again(at))),
            None => {
                let number = self.taken.len();
                self.taken.insert(at, number)?;
                Ok(Ok(at))
            }
        }
    }

    /// The value of a field of the cell at a location.
    fn field(&self, at: u64, f: FieldId) -> Value {
        match self.cells.get(&at) {
            Some(cell) => cell.get(f),
            None => Value::Nil,
        }
    }

    /// Whether a test is true, or may be.
    pub(crate) fn holds(&mut self, test: &Test<Operand<Expr>>) -> bool {
        match test {
            Test::True => true,
            Test::Equal(x, y) => match self.value(x) {
                Some(value) => self.meets(y, value),
                None => match self.value(y) {
                    Some(value) => self.meets(x, value),
                    None => true,
                },
            },
            Test::Differ(x, y) => match (self.value(x), self.value(y)) {
                (Some(a), Some(b)) => a != b,
                _ => true,
            },
        }
    }

    /// What is in the way of one cell with those fields. An `Err` says that memory ran out.
    fn cell(
        &mut self,
        root: &Operand<Expr>,
        fields: &[(FieldId, Operand<Expr>)],
    ) -> Result<Option<Obstacle>, AllocError> {
        let own = self.taken.len();
        let value = self.value_now(root);
        let at = match self.take(value, own)? {
            Ok(at) => at,
            Err(obstacle) => return Ok(Some(obstacle)),
        };
        for (f, operand) in fields {
            let there = self.field(at, *f);
            if !self.meets(operand, there) {
                let due = self.value_now(operand);
                return Ok(Some(Obstacle::Field(at, *f, there, due)));
            }
        }
        Ok(None)
    }

    /// What is in the way of a segment along a field, up to a value. An `Err` says that memory ran
    /// out.
    fn segment(
        &mut self,
        next: FieldId,
        from: Value,
        to: Value,
    ) -> Result<Option<Obstacle>, AllocError> {
        let own = self.taken.len();
        let mut value = from;
        for _ in 0..self.cells.len().saturating_add(1) {
            if value == to {
                return Ok(None);
            }
            match self.take(value, own)? {
                Ok(at) => value = self.field(at, next),
                Err(obstacle) => return Ok(Some(obstacle)),
            }
        }
        Ok(None)
    }

    /// Takes a cell of a doubly linked segment, which has to lead back to that value. An `Err` says
    /// that memory ran out.
    fn take_back(
        &mut self,
        value: Value,
        back: FieldId,
        before: Value,
        own: usize,
    ) -> Result<Result<u64, Obstacle>, AllocError> {
        let at = match self.take(value, own)? {
            Ok(at) => at,
            Err(obstacle) => return Ok(Err(obstacle)),
        };
        let there = self.field(at, back);
        if there != before {
            return Ok(Err(Obstacle::Field(at, back, there, before)));
        }
        Ok(Ok(at))
    }

    /// What is in the way of a doubly linked segment: of its cells, of what they lead back to, and of
    /// the last one. An `Err` says that memory ran out.
    fn double(
        &mut self,
        next: FieldId,
        back: FieldId,
        ends: Ends,
    ) -> Result<Option<Obstacle>, AllocError> {
        let own = self.taken.len();
        let mut value = ends.from;
        let mut before = ends.before;
        for _ in 0..self.cells.len().saturating_add(1) {
            if value == ends.to {
                break;
            }
            match self.take_back(value, back, before, own)? {
                Ok(at) => {
                    before = value;
                    value = self.field(at, next);
                }
                Err(obstacle) => return Ok(Some(obstacle)),
            }
        }
        if before != ends.last {
            return Ok(Some(Obstacle::Last(before, ends.last)));
        }
        Ok(None)
    }

    /// What is in the way of a tree. An `Err` says that memory ran out.
    fn tree(
        &mut self,
        alloc: Global,
        links: (FieldId, FieldId),
        root: Value,
    ) -> Result<Option<Obstacle>, AllocError> {
        let own = self.taken.len();
        let mut left = Vec::new(alloc);
        left.push(root)?;
        for _ in 0..self.cells.len().saturating_mul(2).saturating_add(1) {
            let Some(value) = left.pop() else {
                return Ok(None);
            };
            if value != Value::Nil {
                match self.take(value, own)? {
                    Ok(at) => {
                        left.push(self.field(at, links.1))?;
                        left.push(self.field(at, links.0))?;
                    }
                    Err(obstacle) => return Ok(Some(obstacle)),
                }
            }
        }
        Ok(None)
    }

    /// What is in the way of a conjunct that isn't a choice; of one that is, whether its test isn't
    /// true. An `Err` says that memory ran out.
    pub(crate) fn conjunct(
        &mut self,
        alloc: Global,
        conjunct: &Conjunct<Expr>,
    ) -> Result<Option<Obstacle>, AllocError> {
        match conjunct {
            Conjunct::Holds(_, test) | Conjunct::If(_, test, _, _) => {
                Ok(if self.holds(test) {
                    None
                } else {
                    Some(Obstacle::Test)
                })
            }
            Conjunct::Points(_, root, fields) => self.cell(root, fields),
            Conjunct::Segment(_, next, from, to) => {
                let from = self.value_now(from);
                let to = self.value_now(to);
                self.segment(*next, from, to)
            }
            Conjunct::Doubly(_, next, back, from, before, last, to) => {
                let ends = Ends {
                    from: self.value_now(from),
                    before: self.value_now(before),
                    last: self.value_now(last),
                    to: self.value_now(to),
                };
                self.double(*next, *back, ends)
            }
            Conjunct::Tree(_, left, right, root) => {
                let root = self.value_now(root);
                self.tree(alloc, (*left, *right), root)
            }
        }
    }
}
