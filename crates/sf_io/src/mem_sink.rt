ghost use Rattle.std.specs.Prelude.{◌≡◌, ◌<◌, ◌≤◌, ◌⊎◌, ◌↔◌, [], ◌∷◌, ◌++◌, length, min, take, Ok, IsOk, IfOk, OnOk, OnErr, IsErrOf};
ghost use Rattle.sf_io.specs.FaultPlan.{one_more, after_call, IsDue};
ghost use Rattle.sf_io.specs.Increased.{Increased};

use crate::fault_plan::FaultPlan;
use crate::sink::{Sink, SinkFault};
use std::alloc::{AllocError, Global};
use std::marker::Model;

/// A sink in memory, which takes at most so many bytes in one call, and fails at the calls that it
/// is told to.
#[derive(Debug, Drop)]
pub struct MemSink {
    bytes: Vec<u8>,
    most: usize,
    plan: FaultPlan,
    faults: u64,
}

impl Model for MemSink {
    ghost use Rattle.sf_io.specs.MemSink.{Taken};

    ghost Value = { Taken };

    ghost view = { λ s.
        record { bytes = s.bytes.items; most = s.most; plan = s.plan; faults = s.faults } };
}

impl MemSink {
    /// A sink that has taken nothing, and takes at most `most` bytes in one call.
    pub fn new(alloc: Global, most: usize) -> MemSink
        ensures { result ≡ record
            { bytes = []; most = most; plan = record { made = 0; failing = [] }; faults = 0 } }
    {
        MemSink {
            bytes: Vec::new(alloc),
            most,
            plan: FaultPlan::new(alloc),
            faults: 0,
        }
    }

    /// From now on the call with that number fails. The puts of pieces that aren't empty are
    /// counted, from 1. An `Err` says that memory ran out, and
    /// nothing is changed.
    pub fn fail_at(&mut self, call: u64) -> Result<(), AllocError>
        ensures ok { OnOk result (self.new ≡ record self.old
            { plan = record self.old.plan { failing = self.old.plan.failing ++ call ∷ [] } }) }
        ensures err { OnErr result (self.new ≡ self.old) }
    {
        self.plan.fail_at(call)
    }

    /// The bytes that were put.
    pub fn bytes(&self) -> &[u8]
        ensures { result.now ≡ self.now.bytes }
    {
        self.bytes.as_slice()
    }

    // Counts a call, and takes what it takes of a piece that isn't empty.
    fn take(&mut self, piece: &[u8]) -> Result<usize, SinkFault>
        requires { 0 < length piece.now }
        ensures plan { self.new.plan ≡ after_call self.old.plan }
        ensures most { self.new.most ≡ self.old.most }
        ensures count { IfOk result (λ n. n ≡ min (length piece.now) self.old.most) }
        ensures bytes { IfOk result (λ n. self.new.bytes ≡ self.old.bytes ++ take n piece.now) }
        ensures refused { OnErr result (self.new.bytes ≡ self.old.bytes) }
        ensures failed { IsErrOf result SinkFault.Failed
            ↔ (IsDue self.old.plan ⊎ self.old.most ≡ 0) }
        ensures fault { IsErrOf result SinkFault.Failed
            → self.new.faults ≡ one_more self.old.faults }
        ensures no_fault { IsOk result ⊎ IsErrOf result SinkFault.OutOfMemory
            → self.new.faults ≡ self.old.faults }
        ensures never_fewer { self.old.faults ≤ self.new.faults }
    {
        if self.plan.next_fails() || self.most == 0 {
            self.faults = self.faults.saturating_add(1);
            return Err(SinkFault::Failed);
        }
        let taken = piece.len().min(self.most);
        match self.bytes.extend_from_slice(&piece[..taken]) {
            Ok(()) => Ok(taken),
            Err(AllocError) => Err(SinkFault::OutOfMemory),
        }
    }
}

impl Sink for MemSink {
    ghost use Rattle.std.specs.Prelude.{Some};

    ghost written = { λ sink. Some sink.bytes };

    ghost faults = { λ sink. sink.faults };

    /// Takes as much of the piece as one call takes. Of a piece that isn't empty `Failed` comes
    /// exactly where the call is to fail or nothing is taken at all, and each such call counts. The
    /// count of faults goes up by one exactly there, or is at its end.
    fn put(&mut self, piece: &[u8]) -> Result<usize, SinkFault>
        ensures bound { IfOk result (λ n. n ≤ length piece.now) }
        ensures progress { IfOk result (λ n. 0 < length piece.now → 0 < n) }
        ensures appended { IfOk result (λ n. self.new.bytes ≡ self.old.bytes ++ take n piece.now) }
        ensures empty { piece.now ≡ [] → result ≡ Ok 0 }
        ensures nothing { piece.now ≡ [] → self.new ≡ self.old }
        ensures refused { OnErr result (self.new.bytes ≡ self.old.bytes) }
        ensures failed { IsErrOf result SinkFault.Failed
            → Increased self.old.faults self.new.faults }
        ensures fault { IsErrOf result SinkFault.Failed
            → self.new.faults ≡ one_more self.old.faults }
        ensures no_fault { IsOk result → self.new.faults ≡ self.old.faults }
        ensures out_of_memory { IsErrOf result SinkFault.OutOfMemory
            → self.new.faults ≡ self.old.faults }
        ensures counts { self.old.faults ≤ self.new.faults }
        ensures most { self.new.most ≡ self.old.most }
        ensures taken { IfOk result (λ n. n ≡ min (length piece.now) self.old.most) }
        ensures due { 0 < length piece.now
            → IsErrOf result SinkFault.Failed ↔ (IsDue self.old.plan ⊎ self.old.most ≡ 0) }
        ensures counted { 0 < length piece.now → self.new.plan ≡ after_call self.old.plan }
    {
        if piece.is_empty() {
            return Ok(0);
        }
        self.take(piece)
    }
}
