ghost use Rattle.std.specs.Prelude.{[], ◌∷◌};
ghost use Rattle.sf_base.specs.Results.{Appends};

use sf_base::Place;
use std::alloc::AllocError;

/// Why an assertion has no order.
#[derive(Clone, Copy, Debug, PartialEq, Eq)]
pub enum OrderFault {
    /// Kind 40: the first conjunct that is never taken, in text order.
    Undetermined(Place),
    /// Memory ran out.
    OutOfMemory,
}

impl From<AllocError> for OrderFault {
    ghost use Rattle.std.specs.Prelude.{◌≡◌};
    ghost use Rattle.sf_precise.specs.declared.fault.OrderFault.TheVariants.{OutOfMemory};

    ghost from_gives = { λ _ e. e ≡ OutOfMemory };

    fn from(_error: AllocError) -> OrderFault {
        OrderFault::OutOfMemory
    }
}

/// Puts one more item at the end of the list. An `Err` means that memory ran out, and leaves
/// nothing of the item.
pub fn push<T: Drop>(items: &mut Vec<T>, item: T) -> Result<(), AllocError>
    ensures { Appends result items.old.items items.new.items (item ∷ []) }
{
    items.push(item)?;
    Ok(())
}
