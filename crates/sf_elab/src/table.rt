//! Names and what they stand for.

ghost use Rattle.std.specs.Prelude.{◌≡◌, [], length, take, OnOk};
ghost use Rattle.sf_elab.specs.Names.Table.{find, declare};

use indexmap::IndexMap;
use std::alloc::{AllocError, Global};
use std::marker::Model;

/// Names and what each stands for. Contracts see the list of both, in the order in which they were
/// declared.
#[derive(Drop)]
pub struct Table<V> {
    entries: IndexMap<Vec<u8>, V>,
}

impl<V> Model for Table<V> {
    ghost use Rattle.std.specs.Prelude.{List, ℕ, map};

    ghost Value = { List (List ℕ × V) };

    ghost view = { λ t. map (λ e. (e.0.items, e.1)) t.entries.entries };
}

impl<V: Copy> Table<V> {
    /// No names.
    pub fn new(alloc: Global) -> Table<V>
        ensures { result ≡ [] }
    {
        Table {
            entries: IndexMap::new(alloc),
        }
    }

    /// What the name stands for.
    pub fn find(&self, name: &[u8]) -> Option<V>
        ensures { result ≡ find name.now self.now }
    {
        self.entries.get(name).copied()
    }

    /// Has the name stand for that, unless it stands for something.
    pub fn declare(&mut self, alloc: Global, name: &[u8], value: V) -> Result<(), AllocError>
        ensures { OnOk result (self.new ≡ declare name.now value self.old) }
    {
        if self.find(name).is_some() {
            return Ok(());
        }
        self.entries.insert(Vec::from_slice(alloc, name)?, value)?;
        Ok(())
    }

    /// How many names there are.
    pub fn len(&self) -> usize
        ensures { result ≡ length self.now }
    {
        self.entries.len()
    }

    /// Forgets the names but the first so many.
    pub fn truncate(&mut self, count: usize)
        ensures { self.new ≡ take count self.old }
    {
        self.entries.truncate(count);
    }
}
