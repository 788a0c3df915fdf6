//! Rows of atoms by terms.

ghost use Rattle.std.specs.Prelude.{◌≡◌, [], IfOk, OnErr, OnOk};
ghost use Rattle.sf_sym.specs.Checked.Keeping.{Enters, Leaves, MayEnter};
ghost use Rattle.sf_sym.specs.Checked.Rows.{IsOut, IsPut, is_marked, rows_at, same_row};
ghost use Rattle.sf_sym.specs.declared.outline.Row.{Row as RowOf};
ghost use Rattle.sf_sym.specs.declared.term.Term.{Term as TermOf};

use crate::outline::Row;
use crate::term::Term;
use indexmap::{IndexMap, IndexSet};
use std::alloc::{AllocError, Global};
use std::marker::Model;

/// Rows by terms, which take no memory before the first one. Contracts see the terms with their rows.
#[derive(Drop)]
pub(crate) struct Rows {
    alloc: Global,
    /// In a box: a state has two of these, is moved at each step, and most often has no rows.
    table: Option<Box<Table>>,
}

impl Model for Rows {
    ghost use Rattle.std.specs.Prelude.{List, [], unwrap_or};
    ghost use Rattle.std.specs.Option.{option_map};
    ghost use Rattle.sf_sym.specs.declared.outline.Row.{Row};
    ghost use Rattle.sf_sym.specs.declared.term.Term.{Term};

    ghost Value = { List (Term × List Row) };

    ghost view = { λ s. unwrap_or (option_map (λ b. b.value) s.table) [] };
}

impl Rows {
    /// No rows.
    pub(crate) fn new(alloc: Global) -> Rows
        ensures { result ≡ [] }
    {
        Rows { alloc, table: None }
    }

    /// The rows at a term.
    pub(crate) fn at(&self, t: Term) -> &[Row]
        ensures { result.now ≡ rows_at self.now t }
    {
        match &self.table {
            Some(table) => table.at(t),
            None => &[],
        }
    }

    /// One more row at the terms where its atom begins. An `Err` means out of memory, and then it may
    /// be at some of them.
    pub(crate) fn enter(&mut self, row: Row) -> Result<(), AllocError>
        ensures ok { OnOk result (Enters row self.old self.new) }
        ensures err { OnErr result (MayEnter row self.old self.new) }
    {
        let mut table = match self.table.take() {
            Some(table) => table,
            None => Box::new(self.alloc, Table::new(self.alloc))?,
        };
        let entered = table.enter(row);
        self.table = Some(table);
        entered
    }

    /// One row less at the terms where its atom begins.
    pub(crate) fn leave(&mut self, row: Row)
        ensures { Leaves row self.old self.new }
    {
        if let Some(mut table) = self.table.take() {
            table.leave(row);
            self.table = Some(table);
        }
    }
}

/// Rows by terms, as a map from a term to the set of the rows there.
#[derive(Drop)]
struct Table {
    by_term: IndexMap<Term, IndexSet<Row>>,
}

impl Model for Table {
    ghost use Rattle.std.specs.Prelude.{List, map};
    ghost use Rattle.sf_sym.specs.declared.outline.Row.{Row};
    ghost use Rattle.sf_sym.specs.declared.term.Term.{Term};

    ghost Value = { List (Term × List Row) };

    ghost view = { λ s. map (λ e. (e.0, e.1.keys)) s.by_term.entries };
}

impl Table {
    /// No rows.
    fn new(alloc: Global) -> Table
        ensures { result ≡ [] }
    {
        Table {
            by_term: IndexMap::new(alloc),
        }
    }

    /// The rows at a term.
    fn at(&self, t: Term) -> &[Row]
        ensures { result.now ≡ rows_at self.now t }
    {
        match self.by_term.get(&t) {
            Some(rows) => rows.as_slice(),
            None => &[],
        }
    }

    /// One more row at a term. An `Err` means out of memory, and then the same rows are at the same
    /// terms.
    fn add(&mut self, t: Term, row: Row) -> Result<(), AllocError>
        ensures ok { OnOk result (IsPut t row self.old self.new) }
        ensures err { OnErr result ((u : TermOf) → rows_at self.new u ≡ rows_at self.old u) }
    {
        match self.by_term.get_mut(&t) {
            Some(rows) => {
                rows.insert(row)?;
            }
            None => {
                let rows = one(*self.by_term.allocator(), row)?;
                self.by_term.insert(t, rows)?;
            }
        }
        Ok(())
    }

    /// The row is at the term no more.
    fn remove(&mut self, t: Term, row: Row)
        ensures { IsOut t row self.old self.new }
    {
        if let Some(rows) = self.by_term.get_mut(&t) {
            rows.swap_remove(&row);
            if rows.is_empty() {
                self.by_term.swap_remove(&t);
            }
        }
    }

    /// One more row at the terms where its atom begins. An `Err` means out of memory, and then it may
    /// be at some of them.
    fn enter(&mut self, row: Row) -> Result<(), AllocError>
        ensures ok { OnOk result (Enters row self.old self.new) }
        ensures err { OnErr result (MayEnter row self.old self.new) }
    {
        let first = row.outline.root();
        self.add(first, row)?;
        let Some(last) = row.outline.other_root(first) else {
            return Ok(());
        };
        self.add(last, row)?;
        Ok(())
    }

    /// One row less at the terms where its atom begins.
    fn leave(&mut self, row: Row)
        ensures { Leaves row self.old self.new }
    {
        let first = row.outline.root();
        self.remove(first, row);
        let Some(last) = row.outline.other_root(first) else {
            return;
        };
        self.remove(last, row);
    }
}

/// The set of one row. An `Err` means out of memory.
fn one(alloc: Global, row: Row) -> Result<IndexSet<Row>, AllocError>
    ensures { IfOk result (λ rows. (r : RowOf) → is_marked rows.keys r ≡ same_row r row) }
{
    let mut rows = IndexSet::new(alloc);
    rows.insert(row)?;
    Ok(rows)
}
