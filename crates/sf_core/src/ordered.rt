//! Assertions that are in order, by their type.

ghost use Rattle.sf_core.specs.Assertions.InOrder.{IsInOrder};
ghost use Rattle.sf_core.specs.Checked.Assertions.InOrderIsProp.{IsInOrder-prop};
ghost use Rattle.sf_core.specs.Program.View.{assertion_of};

use crate::assertion::Assertion;

/// An assertion whose conjuncts are in an order in which each is ready once those before it are
/// taken, inside branches too. So it is determined.
#[derive(Debug, Drop)]
pub struct Ordered {
    /// The assertion, its conjuncts in that order.
    pub assertion: Assertion,
    ghost in_order: { IsInOrder (assertion_of assertion).level } by { IsInOrder-prop _ },
}
