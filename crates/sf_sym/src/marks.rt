//! Atoms that are still to be tested.

ghost use Rattle.std.specs.Prelude.{◌≡◌, ◌||◌, ◌&&◌, [], not, IfOk, OnErr, OnOk};
ghost use Rattle.sf_sym.specs.Checked.Keeping.{AreMarksWith, HasMark, In, StillMarked};
ghost use Rattle.sf_sym.specs.Checked.Rows.{is_marked, same_row};
ghost use Rattle.sf_sym.specs.Checked.Stores.{AreSameMarks};
ghost use Rattle.sf_sym.specs.declared.outline.Row.{Row as RowOf};

use crate::outline::Row;
use indexmap::IndexSet;
use std::alloc::{AllocError, Global};
use std::marker::Model;

/// Rows of atoms, each once, which take no memory before the first one. Contracts see the list.
#[derive(Drop)]
pub(crate) struct Marks {
    alloc: Global,
    /// In a box, as a state is moved at each step and most often has no marks.
    rows: Option<Box<IndexSet<Row>>>,
}

impl Model for Marks {
    ghost use Rattle.std.specs.Prelude.{List, [], unwrap_or};
    ghost use Rattle.std.specs.Option.{option_map};
    ghost use Rattle.sf_sym.specs.declared.outline.Row.{Row};

    ghost Value = { List Row };

    ghost view = { λ s. unwrap_or (option_map (λ b. b.value.keys) s.rows) [] };
}

impl Marks {
    /// No marks.
    pub(crate) fn new(alloc: Global) -> Marks
        ensures { result ≡ [] }
    {
        Marks { alloc, rows: None }
    }

    /// What they are allocated by.
    pub(crate) fn allocator(&self) -> Global {
        self.alloc
    }

    /// The rows.
    pub(crate) fn as_slice(&self) -> &[Row]
        ensures { result.now ≡ self.now }
    {
        match &self.rows {
            Some(rows) => rows.as_slice(),
            None => &[],
        }
    }

    /// One more. An `Err` means out of memory, and then nothing changes.
    pub(crate) fn add(&mut self, row: Row) -> Result<(), AllocError>
        ensures ok { OnOk result ((r : RowOf) → is_marked self.new r
            ≡ (same_row r row || is_marked self.old r)) }
        ensures err { OnErr result (self.new ≡ self.old) }
    {
        let mut rows = match self.rows.take() {
            Some(rows) => rows,
            None => Box::new(self.alloc, IndexSet::new(self.alloc))?,
        };
        let added = put(&mut rows, row);
        self.rows = Some(rows);
        added
    }

    /// These too. An `Err` means out of memory, and then there are those that were, and some of
    /// these.
    pub(crate) fn add_all(&mut self, rows: &[Row]) -> Result<(), AllocError>
        ensures ok { OnOk result ((r : RowOf) → In r rows.now → HasMark self.new r) }
        ensures still { StillMarked self.old self.new }
        ensures only { AreMarksWith rows.now self.old self.new }
    {
        let mut left = rows;
        while let Some((row, rest)) = left.split_first() {
            self.add(*row)?;
            left = rest;
        }
        Ok(())
    }

    /// The same marks. An `Err` means out of memory.
    pub(crate) fn copy(&self) -> Result<Marks, AllocError>
        ensures { IfOk result (λ marks. AreSameMarks self.now marks) }
    {
        let rows = match &self.rows {
            Some(rows) => Some(copied(self.alloc, rows)?),
            None => None,
        };
        Ok(Marks {
            alloc: self.alloc,
            rows,
        })
    }

    /// The row needn't be tested any more.
    pub(crate) fn remove(&mut self, row: Row)
        ensures { (r : RowOf) → is_marked self.new r ≡ (not (same_row r row) && is_marked self.old r) }
    {
        if let Some(mut rows) = self.rows.take() {
            leave(&mut rows, row);
            self.rows = Some(rows);
        }
    }
}

/// One row more in a set. An `Err` means out of memory, and then nothing changes.
fn put(rows: &mut IndexSet<Row>, row: Row) -> Result<(), AllocError>
    ensures ok { OnOk result ((r : RowOf) → is_marked rows.new.keys r
        ≡ (same_row r row || is_marked rows.old.keys r)) }
    ensures err { OnErr result (rows.new.keys ≡ rows.old.keys) }
{
    rows.insert(row)?;
    Ok(())
}

/// One row less in a set.
fn leave(rows: &mut IndexSet<Row>, row: Row)
    ensures { (r : RowOf) → is_marked rows.new.keys r
        ≡ (not (same_row r row) && is_marked rows.old.keys r) }
{
    rows.swap_remove(&row);
}

/// The same set. An `Err` means out of memory.
fn copied(alloc: Global, rows: &IndexSet<Row>) -> Result<Box<IndexSet<Row>>, AllocError>
    ensures { IfOk result (λ made. AreSameMarks rows.now.keys made.value.keys) }
{
    Ok(Box::new(alloc, rows.clone()?)?)
}
