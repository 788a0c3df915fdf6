ghost use Rattle.std.specs.Prelude.{◌≡◌, ◌<◌, All, IfOk, MatchResult, length, replicate, set};
ghost use Rattle.sf_order.specs.Answers.{AreBelow};
ghost use Rattle.sf_order.specs.Rank.{IsFirstLevel, Rises, rank_in};

use crate::pairs::Pairs;
use sf_base::ResId;
use std::alloc::{AllocError, Global};
use std::marker::Model;

/// A rank for each resource, in file order. Contracts see the list.
#[derive(Debug, Drop)]
pub struct Ranks {
    items: Vec<u32>,
}

impl Model for Ranks {
    ghost use Rattle.std.specs.Prelude.{ℕ, List};

    ghost Value = { List ℕ };

    ghost view = { λ r. r.items.items };
}

impl Ranks {
    /// Those ranks.
    pub fn new(items: Vec<u32>) -> Ranks
        ensures { result ≡ items.items }
    {
        Ranks { items }
    }

    /// So many ranks, all of them that one. An `Err` means that memory ran out.
    pub(crate) fn all(alloc: Global, rank: u32, n: u32) -> Result<Ranks, AllocError>
        ensures { IfOk result (λ ranks. ranks ≡ replicate n rank) }
    {
        Ok(Ranks::new(vec![in alloc; rank; n as usize]?))
    }

    /// The ranks, one after the other.
    pub fn as_slice(&self) -> &[u32]
        ensures { result.now ≡ self.now }
    {
        self.items.as_slice()
    }

    /// The rank of a resource, which has one.
    pub fn of(&self, r: ResId) -> u32
        requires { r.0 < length self.now }
        ensures { result ≡ rank_in self.now r }
    {
        self.items[r.0 as usize]
    }

    /// Gives a resource, which has a rank, that one in its place.
    pub(crate) fn put(&mut self, r: ResId, rank: u32)
        requires { r.0 < length self.old }
        ensures { self.new ≡ set self.old r.0 rank }
    {
        self.items[r.0 as usize] = rank;
    }
}

/// Whether the first resource of each pair has a lower rank than the second. `Err` gives the first
/// pair of which that is not so, and comes exactly where there is one.
pub fn check_ranks(pairs: &Pairs, ranks: &Ranks) -> Result<(), (ResId, ResId)>
    requires { AreBelow (length ranks.now) pairs.now }
    ensures { MatchResult result (λ _. All (Rises ranks.now) pairs.now)
        (IsFirstLevel ranks.now pairs.now) }
{
    for (r, s) in pairs.as_slice() {
        if ranks.of(*r) >= ranks.of(*s) {
            return Err((*r, *s));
        }
    }
    Ok(())
}
