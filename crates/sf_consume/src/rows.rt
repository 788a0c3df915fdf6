//! The rows of subtraction by their tags.

ghost use Rattle.std.specs.Prelude.{◌≡◌, ◌+◌, ◌<◌, ◌^◌, IfErr, None, OnErr, OnOk, Some};
ghost use Rattle.sf_consume.specs.Checked.Fits.{want_of};
ghost use Rattle.sf_consume.specs.Subtract.{new_symbols, subtracted};
ghost use Rattle.sf_consume.specs.declared.fault.ConsumeFault.TheVariants.{NotARule};
ghost use Rattle.sf_sym.specs.Pending.{pending_of};

use crate::cells::{cell, head, node};
use crate::fault::ConsumeFault;
use crate::parts::{exact, join};
use crate::pure::{apart, bind, empty, same};
use sf_sym::{Pending, State, Tag};
use std::alloc::{AllocError, Global};

/// The step of subtraction that the tag names, at the first wanted conjunct. `NotARule` exactly
/// where the tag isn't one of subtraction or the condition of its row doesn't hold. After an `Err`
/// nothing has changed.
pub fn subtract(
    alloc: Global,
    state: &mut State,
    want: &mut Pending,
    tag: &Tag,
) -> Result<(), ConsumeFault>
    requires fields { state.old.next_sym + new_symbols (pending_of want.old).conjuncts < 2 ^ 32 }
    requires links { state.old.next_sym + 2 < 2 ^ 32 }
    ensures done { OnOk result (subtracted tag.now (want_of state.old want.old)
        ≡ Some (want_of state.new want.new)) }
    ensures none { IfErr result (λ e. e ≡ NotARule
        → subtracted tag.now (want_of state.old want.old) ≡ None) }
    ensures kept { OnErr result (state.new ≡ state.old) }
    ensures kept_want { OnErr result (want.new ≡ want.old) }
{
    let done = match *tag {
        Tag::Bind => bind(state, want),
        Tag::Same => same(state, want),
        Tag::Apart => apart(state, want),
        Tag::Empty => empty(state, want),
        Tag::Cell(a) => cell(alloc, state, want, a)?,
        Tag::Exact(a) => exact(state, want, a)?,
        Tag::Head(a) => head(alloc, state, want, a)?,
        Tag::Join(a) => join(state, want, a)?,
        Tag::Node(a) => node(alloc, state, want, a)?,
        _ => None,
    };
    done.ok_or(ConsumeFault::NotARule)
}
