//! The existentials of an assertion: which of them a level makes.

ghost use Rattle.std.specs.Prelude.{◌≡◌, map, OnOk};
ghost use Rattle.sf_elab.specs.Annotations.Existentials.{meet, meet_all, no_levels, opened};
ghost use Rattle.sf_elab.specs.Annotations.Flat.{flats, flat_of};

use crate::flat::{Flat, add_words};
use crate::table::Table;
use crate::texts::text;
use sf_ast::Word;
use sf_base::{Counted, Name};
use std::alloc::{AllocError, Global};

/// The existentials of one assertion, up to where it is read.
#[derive(Drop)]
pub struct Levels {
    /// Those in reach, with their numbers.
    pub reach: Table<u32>,
    /// The names of all, by number.
    pub names: Counted<Name>,
}

impl Levels {
    /// Before anything is read no existential is there.
    pub fn new(alloc: Global) -> Levels
        ensures { result ≡ no_levels }
    {
        Levels {
            reach: Table::new(alloc),
            names: Counted::new(alloc),
        }
    }

    /// Meets an existential: where none of its name is in reach, one is made, with the next number.
    fn meet(&mut self, alloc: Global, bytes: &[u8], word: Word) -> Result<(), AllocError>
        ensures { OnOk result (self.new ≡ meet bytes.now self.old word) }
    {
        let name = text(bytes, word);
        if self.reach.find(name).is_some() {
            return Ok(());
        }
        let number = self.names.len();
        self.reach.declare(alloc, name, number)?;
        self.names.push(Name::new(alloc, name)?)?;
        Ok(())
    }

    /// Meets those, one after the other.
    fn meet_all(&mut self, alloc: Global, bytes: &[u8], words: &[Word]) -> Result<(), AllocError>
        ensures { OnOk result (self.new ≡ meet_all bytes.now self.old words.now) }
    {
        for word in words {
            self.meet(alloc, bytes, *word)?;
        }
        Ok(())
    }

    /// Enters a level: all that it makes is in reach from its beginning.
    pub fn enter(&mut self, alloc: Global, bytes: &[u8], level: &[Flat]) -> Result<(), AllocError>
        ensures { OnOk result
            (self.new ≡ opened bytes.now self.old (flats (map flat_of level.now))) }
    {
        let mut words = Vec::new(alloc);
        add_words(level, &mut words)?;
        self.meet_all(alloc, bytes, &words)
    }
}
