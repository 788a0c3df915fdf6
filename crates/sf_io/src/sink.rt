ghost use Rattle.std.specs.Prelude.{◌≡◌, ◌<◌, ◌≤◌, ℕ, List, [], take, length, Option, Ok, IfOk, OnOk, OnErr, IsErrOf};
ghost use Rattle.sf_io.specs.Increased.{Increased};
ghost use Rattle.sf_io.specs.Sink.{with_bytes, WrotePrefix};

use thiserror::Error;

/// Why a sink took nothing.
#[derive(Clone, Copy, Debug, PartialEq, Eq, Error)]
pub enum SinkFault {
    /// Writing failed, or nothing of a piece was taken.
    #[error("the answer can't be written")]
    Failed,
    /// There is no memory for the piece.
    #[error("out of memory")]
    OutOfMemory,
}

/// What takes the bytes of an answer. A sink that tells the bytes that were written has them as
/// `written`; whether it tells them or not, its count of faults never falls.
pub trait Sink {
    // The bytes that were written, where the sink tells them.
    ghost written: { Self → Option (List ℕ) };

    // How many faults there were.
    ghost faults: { Self → ℕ };

    /// Takes the first bytes of the piece, at least one of a piece that has any, and answers how
    /// many. Nothing happens where the piece is empty. `Failed` comes only where the count
    /// increased. After an `Err` nothing was taken.
    fn put(&mut self, piece: &[u8]) -> Result<usize, SinkFault>
        ensures bound { IfOk result (λ n. n ≤ length piece.now) }
        ensures progress { IfOk result (λ n. 0 < length piece.now → 0 < n) }
        ensures appended { IfOk result
            (λ n. written self.new ≡ with_bytes (written self.old) (take n piece.now)) }
        ensures empty { piece.now ≡ [] → result ≡ Ok 0 }
        ensures nothing { piece.now ≡ [] → self.new ≡ self.old }
        ensures refused { OnErr result (written self.new ≡ written self.old) }
        ensures failed { IsErrOf result SinkFault.Failed
            → Increased (faults self.old) (faults self.new) }
        ensures out_of_memory { IsErrOf result SinkFault.OutOfMemory
            → faults self.new ≡ faults self.old }
        ensures counts { faults self.old ≤ faults self.new };
}

/// Puts the whole text, piece by piece. `Failed` comes only where the sink's count increased. After
/// an `Err` a prefix of the text was taken.
pub fn put_all<K: Sink>(sink: &mut K, text: &[u8]) -> Result<(), SinkFault>
    ensures whole { OnOk result
        (K.written sink.new ≡ with_bytes (K.written sink.old) text.now) }
    ensures prefix { OnErr result
        (WrotePrefix (K.written sink.old) (K.written sink.new) text.now) }
    ensures failed { IsErrOf result SinkFault.Failed
        → Increased (K.faults sink.old) (K.faults sink.new) }
    ensures counts { K.faults sink.old ≤ K.faults sink.new }
{
    let mut at = 0;
    while at < text.len() {
        at += sink.put(&text[at..])?;
    }
    Ok(())
}
