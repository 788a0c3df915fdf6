//! The clocks of parts, as their owners see them.

ghost use Rattle.std.specs.Prelude.{◌≡◌};
ghost use Rattle.sf_part.specs.PartView.{part_of};

use crate::part::Part;

impl<'p> Part<'p> {
    /// Its clock, which each event of its task raises: where it is as it was, there was no event.
    pub fn clock(&self) -> u64
        ensures { result ≡ (part_of self.now).clock }
    {
        self.clock
    }
}
