ghost use Rattle.std.specs.Prelude.{◌≡◌, ◌≤◌, ◌<◌, [], take, length, Ok, IfOk, OnErr, IsErrOf};
ghost use Rattle.sf_io.specs.FaultPlan.{one_more};
ghost use Rattle.sf_io.specs.Increased.{Increased};
ghost use Rattle.sf_io.specs.Sink.{untold, with_bytes};

use crate::sink::{Sink, SinkFault};
use std::marker::Model;

/// Standard output. It tells nothing of what was written. Contracts see its count of faults.
#[derive(Drop)]
pub struct StdSink<'a, R: Print> {
    rt: &'a R,
    faults: u64,
}

impl<'a, R: Print> Model for StdSink<'a, R> {
    ghost use Rattle.std.specs.Prelude.{ℕ};

    ghost Value = { ℕ };

    ghost view = { λ sink. sink.faults };
}

impl<'a, R: Print> StdSink<'a, R> {
    /// The output that the runtime prints to. No write has failed.
    pub fn new(rt: &'a R) -> StdSink<'a, R>
        ensures { result ≡ 0 }
    {
        StdSink { rt, faults: 0 }
    }
}

impl<'a, R: Print> Sink for StdSink<'a, R> {
    ghost use Rattle.sf_io.specs.Sink.{untold};

    ghost written = { λ _. untold };

    ghost faults = { λ count. count };

    /// Writes until all is taken, a write fails, or one takes nothing. What a piece's first writes
    /// took before a fault is answered; a fault that lasts is met again by the next call. The count
    /// goes up by one, or is at its end, exactly where the piece isn't taken whole.
    fn put(&mut self, piece: &[u8]) -> Result<usize, SinkFault>
        ensures bound { IfOk result (λ n. n ≤ length piece.now) }
        ensures progress { IfOk result (λ n. 0 < length piece.now → 0 < n) }
        ensures appended { IfOk result (λ n. untold ≡ with_bytes untold (take n piece.now)) }
        ensures empty { piece.now ≡ [] → result ≡ Ok 0 }
        ensures nothing { piece.now ≡ [] → self.new ≡ self.old }
        ensures refused { OnErr result (untold ≡ untold) }
        ensures failed { IsErrOf result SinkFault.Failed → Increased self.old self.new }
        ensures fault { IsErrOf result SinkFault.Failed → self.new ≡ one_more self.old }
        ensures short { IfOk result (λ n. n < length piece.now → self.new ≡ one_more self.old) }
        ensures whole { IfOk result (λ n. n ≡ length piece.now → self.new ≡ self.old) }
        ensures out_of_memory { IsErrOf result SinkFault.OutOfMemory → self.new ≡ self.old }
        ensures counts { self.old ≤ self.new }
    {
        let mut taken = 0;
        while taken < piece.len() {
            match self.rt.write_some(&piece[taken..]) {
                Ok(n) if n > 0 => taken += n,
                _ => {
                    self.faults = self.faults.saturating_add(1);
                    break;
                }
            }
        }
        if taken == 0 && !piece.is_empty() {
            return Err(SinkFault::Failed);
        }
        Ok(taken)
    }
}
