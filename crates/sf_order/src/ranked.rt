ghost use Rattle.std.specs.Prelude.{◌≡◌, ◌<◌, All, IfOk, MatchResult, length};
ghost use Rattle.sf_core.specs.Program.ProgramView.{program_of};
ghost use Rattle.sf_calls.specs.Sets.{AreSetsOf};
ghost use Rattle.sf_order.specs.Answers.{AreBelow, IsCause};
ghost use Rattle.sf_order.specs.Nests.{IsPair, Nests};
ghost use Rattle.sf_order.specs.Rank.{IsRanking};

use crate::cycles::{ResList, first_cycle};
use crate::nested::nesting;
use crate::pairs::Pairs;
use crate::ranks::{Ranks, check_ranks};
use sf_calls::Calls;
use sf_core::Program;
use std::alloc::{AllocError, Global};
use thiserror::Error;

/// Why resources have no ranks.
#[derive(Debug, Drop, Error)]
pub enum RankFault {
    /// There is a cycle. These are the resources of the first one, each once.
    #[error("a cycle of resources")]
    Cycle(ResList),
    /// Memory ran out.
    #[error("out of memory")]
    OutOfMemory,
}

impl From<AllocError> for RankFault {
    ghost use Rattle.std.specs.Prelude.{◌≡◌};
    ghost use Rattle.sf_order.specs.declared.ranked.RankFault.TheVariants.{OutOfMemory};

    ghost from_gives = { λ _ e. e ≡ OutOfMemory };

    fn from(_error: AllocError) -> RankFault {
        RankFault::OutOfMemory
    }
}

/// The ranks of a program's resources by what may be entered where each is held. `Err` gives the
/// first cycle, exactly where there is one, or says that memory ran out.
pub fn ranking(alloc: Global, p: &Program, c: &Calls) -> Result<Ranks, RankFault>
    requires { AreSetsOf (program_of p.now) c.now }
    ensures answer { MatchResult result
        (IsRanking (Nests (program_of p.now)) (length p.now.resources.items))
        (IsCause (Nests (program_of p.now))) }
    ensures low { IfOk result (All (λ rank. rank < length p.now.resources.items)) }
{
    let pairs = nesting(alloc, p, c)?;
    match rank(alloc, &pairs, p.resources.len() as u32) {
        Ok(ranks) => match check_ranks(&pairs, &ranks) {
            Ok(()) => Ok(ranks),
            Err(_) => unreachable!(),
        },
        Err(fault) => Err(fault),
    }
}

/// The ranks of the first `n` resources by those pairs, which are pairs of them. `Err` gives the
/// first cycle, exactly where there is one, or says that memory ran out.
pub fn rank(alloc: Global, pairs: &Pairs, n: u32) -> Result<Ranks, RankFault>
    requires { AreBelow n pairs.now }
    ensures answer { MatchResult result (IsRanking (IsPair pairs.now) n)
        (IsCause (IsPair pairs.now)) }
    ensures low { IfOk result (All (λ rank. rank < n)) }
{
    let mut ranks = Ranks::all(alloc, 0, n)?;
    while let Err((r, s)) = check_ranks(pairs, &ranks) {
        let next = ranks.of(r) + 1;
        if next == n {
            return Err(RankFault::Cycle(first_cycle(alloc, pairs, n)?));
        }
        ranks.put(s, next);
    }
    Ok(ranks)
}
