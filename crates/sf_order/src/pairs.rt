ghost use Rattle.std.specs.Prelude.{◌≡◌, ◌↔◌, IsTrue};
ghost use Rattle.sf_order.specs.Nests.{IsPair};
ghost use Rattle.sf_order.specs.Checked.Tests.{has_pair};

use sf_base::ResId;
use std::marker::Model;

/// Pairs of resources, of which the first may be held where the second is entered. Contracts see
/// the list. `nesting` makes that of a program, in file order.
#[derive(Debug, Drop)]
pub struct Pairs {
    items: Vec<(ResId, ResId)>,
}

impl Model for Pairs {
    ghost use Rattle.std.specs.Prelude.{List};
    ghost use Rattle.sf_base.specs.declared.ids.ResId.{ResId};

    ghost Value = { List (ResId × ResId) };

    ghost view = { λ p. p.items.items };
}

impl Pairs {
    /// Those pairs.
    pub fn new(items: Vec<(ResId, ResId)>) -> Pairs
        ensures { result ≡ items.items }
    {
        Pairs { items }
    }

    /// The pairs, one after the other.
    pub fn as_slice(&self) -> &[(ResId, ResId)]
        ensures { result.now ≡ self.now }
    {
        self.items.as_slice()
    }

    /// Whether the two are one of the pairs.
    pub(crate) fn has(&self, r: ResId, s: ResId) -> bool
        ensures { IsTrue result ↔ IsPair self.now r s }
    {
        has_pair(r, s, self.items.as_slice())
    }
}

/// Whether the two are one of those pairs.
fn has_pair(r: ResId, s: ResId, pairs: &[(ResId, ResId)]) -> bool
    ensures { result ≡ has_pair r s pairs.now }
{
    for (q, t) in pairs {
        if q.0 == r.0 && t.0 == s.0 {
            return true;
        }
    }
    false
}
