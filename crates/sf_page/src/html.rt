//! The bytes of a page, to which only markup and escaped text can be added.

ghost use Rattle.std.specs.Prelude.{◌≡◌, [], ◌++◌, OnErr};
ghost use Rattle.sf_base.specs.Results.{Appends};
ghost use Rattle.sf_page.specs.Escaped.{escaped};
ghost use Rattle.sf_page.specs.Markup.{closing_text, opening_text};
ghost use Rattle.sf_page.specs.Written.{IsWritten};

use crate::bytes::{put_closing, put_escaped, put_opening};
use crate::markup::{Class, Element, Number};
use std::alloc::{AllocError, Global};
use std::marker::Model;

/// The bytes of the body of a page. They are pieces of a page, written one after the other. After an
/// `Err` there are none.
#[derive(Drop)]
pub struct Html {
    bytes: Vec<u8>,
}

impl Model for Html {
    ghost use Rattle.std.specs.Prelude.{List, ℕ};
    ghost use Rattle.sf_page.specs.Written.{IsWritten};

    ghost Value = { List ℕ };

    ghost view = { λ s. s.bytes.items };

    ghost invariant = { λ s. ∥ IsWritten s.bytes.items ∥₁ };
}

impl Html {
    /// A page with nothing in it.
    #[tactic(auto, using(crate::proofs::Pieces::written_nothing))]
    pub fn new(alloc: Global) -> Self
        ensures { result ≡ [] }
    {
        Html {
            bytes: Vec::new(alloc),
        }
    }

    /// Appends the tag that opens an element. An `Err` means out of memory.
    #[tactic(auto, using(crate::proofs::Pieces::written_nothing))]
    pub fn open(
        &mut self,
        element: Element,
        class: Class,
        numbers: &[Number],
    ) -> Result<(), AllocError>
        ensures ok { Appends result self.old self.new (opening_text element class numbers.now) }
        ensures err { OnErr result (self.new ≡ []) }
    {
        if let Err(fault) = put_opening(&mut self.bytes, element, class, numbers) {
            self.bytes.clear();
            return Err(fault);
        }
        Ok(())
    }

    /// Appends the tag that closes an element. An `Err` means out of memory.
    #[tactic(auto, using(crate::proofs::Pieces::written_nothing))]
    pub fn close(&mut self, element: Element) -> Result<(), AllocError>
        ensures ok { Appends result self.old self.new (closing_text element) }
        ensures err { OnErr result (self.new ≡ []) }
    {
        if let Err(fault) = put_closing(&mut self.bytes, element) {
            self.bytes.clear();
            return Err(fault);
        }
        Ok(())
    }

    /// Appends a text, escaped. An `Err` means out of memory.
    #[tactic(auto, using(crate::proofs::Pieces::written_nothing))]
    pub fn show(&mut self, text: &[u8]) -> Result<(), AllocError>
        ensures ok { Appends result self.old self.new (escaped text.now) }
        ensures err { OnErr result (self.new ≡ []) }
    {
        if let Err(fault) = put_escaped(&mut self.bytes, text) {
            self.bytes.clear();
            return Err(fault);
        }
        Ok(())
    }

    /// The bytes.
    pub fn into_bytes(self) -> Vec<u8>
        ensures bytes { result.items ≡ self }
        ensures written { ∥ IsWritten result.items ∥₁ }
    {
        self.bytes
    }
}
