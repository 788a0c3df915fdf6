//! The top call.

ghost use Rattle.std.specs.Prelude.{◌≡◌, ◌≢◌, ◌≤◌, ◌⊎◌};
ghost use Rattle.sf_io.specs.Increased.{Increased};
ghost use Rattle.sf_io.specs.Sink.{with_bytes, WrotePrefix};
ghost use Rattle.sf_cli.specs.Answer.{Accepted, Answers, Ended, IsAnswering, IsSaid, Reaches, Unread, WroteNothingOrPrefix, WroteReplyPrefix};
ghost use Rattle.sf_cli.specs.SoundFile.{AsksForProof, IsAccepting, NamesSound};
ghost use Rattle.sf_words.specs.Words.{Text, order_of};
ghost use Rattle.sf_words.specs.WordsOf.{words_of};

use crate::command::respond;
use crate::laws::{
    accepted_files_are_sound, accepted_proofs_are_sound, accepted_runs_are_sound,
    finished_runs_have_ended, journals_reach_their_ends,
};
use crate::reply::Said;
use sf_io::{Gate, Shelf, Sink, SinkFault, put_all};
use std::alloc::Global;
use std::sync::Wait;
use std::thread::Threads;

/// The status where the sink can't be written to.
const WRITE_FAULT: u8 = 8;
/// The status where memory ran out.
pub const OUT_OF_MEMORY: u8 = 9;

/// Puts what is said, whole, and gives its status; or the status of what kept it from that.
fn tell<K: Sink>(sink: &mut K, said: &Said) -> u8
    requires { IsSaid said.now.status }
    ensures whole { IsSaid result → (result ≡ said.now.status)
        × (K.written sink.new ≡ with_bytes (K.written sink.old) said.now.text.items) }
    ensures prefix { (result ≡ 8) ⊎ (result ≡ 9)
        → WrotePrefix (K.written sink.old) (K.written sink.new) said.now.text.items }
    ensures failed { result ≡ 8 → Increased (K.faults sink.old) (K.faults sink.new) }
    ensures last { IsSaid result ⊎ ((result ≡ 8) ⊎ (result ≡ 9)) }
    ensures counts { K.faults sink.old ≤ K.faults sink.new }
{
    match put_all(sink, said.text.as_slice()) {
        Ok(()) => said.status,
        Err(SinkFault::Failed) => WRITE_FAULT,
        Err(SinkFault::OutOfMemory) => OUT_OF_MEMORY,
    }
}

/// Does all that the program does, and gives the status with which it ends.
///
/// The words are those after the program's name. Files come from the shelf, the answer goes to the
/// sink, whole or, at status 8 or 9, no further than some prefix of it. The statuses are 0 where
/// the program is proved, and a run of it has ended, 1 where a procedure fails, 2 where the words
/// are no command, 3 where the file is refused, 4 where the text of a proof is, 5 where a run has
/// no such start, 6 where a task of it has spent its units or tries, 7 where the shelf failed, 8
/// where the sink did, and 9 where memory ran out. Of `order` it is 0 where the resources have
/// ranks, and 12 where there is a cycle; of `replay` 0 where neither an absent cell nor a race is
/// found of the schedule, 10 where one is, and 11 where it is refused. Where no count of faults
/// increases, the answer is the one that is due, whole, or memory ran out.
///
/// Workers beside the first one are threads, and so are the tasks of a run beside the first one.
/// Whatever the number of workers, the threads and the gate, the answer is the same, but of a run
/// in which a parallel call can be reached: of that it is one that may come of its tasks. Where the
/// events of a run are told, they are those of one of its interleavings.
pub fn smallfoot<'a, R: Threads + Wait + Sync, S: Shelf, K: Sink, G: Gate>(
    rt: &R,
    alloc: Global,
    words: &'a [&'a str],
    shelf: &mut S,
    sink: &mut K,
    gate: &G,
) -> u8
    // What is accepted is sound: where the words ask for a proof, they name the program's file, and
    // its bytes are those of a program of which each configuration, whatever runs there are, is
    // good.
    ensures sound { AsksForProof (order_of (words_of words.now)) → IsAccepting result
        → NamesSound (S.files shelf.old) (words_of words.now) }
    // The answer that is due, whole, over files that the shelf's may be.
    ensures answers { IsAnswering result → (text : Text)
        × (K.written sink.new ≡ with_bytes (K.written sink.old) text)
        × Answers (S.files shelf.old) (words_of words.now) text result }
    // A file that the work came to couldn't be read: its count of faults increased.
    ensures unread { result ≡ 7 → (text : Text)
        × (K.written sink.new ≡ with_bytes (K.written sink.old) text)
        × Unread (S.files shelf.old) (S.faults shelf.old) (S.faults shelf.new)
        (order_of (words_of words.now)) text }
    // The sink's count of faults increased, and the bytes put are a prefix of what may be said.
    ensures unwritten { result ≡ 8 → Increased (K.faults sink.old) (K.faults sink.new) }
    ensures prefix { result ≡ 8 → WroteReplyPrefix
        (S.files shelf.old) (S.faults shelf.old) (S.faults shelf.new)
        (order_of (words_of words.now)) (K.written sink.old) (K.written sink.new) }
    // Memory ran out: the bytes put are none, or a prefix of what may be said.
    ensures out_of_memory { result ≡ 9 → WroteNothingOrPrefix
        (S.files shelf.old) (S.faults shelf.old) (S.faults shelf.new)
        (order_of (words_of words.now)) (K.written sink.old) (K.written sink.new) }
    ensures statuses { IsSaid result ⊎ ((result ≡ 8) ⊎ (result ≡ 9)) }
    // Over a shelf or a sink that never counts a fault there is none.
    ensures no_read_fault { ((name : Text) → S.faults shelf.new name ≡ 0) → result ≢ 7 }
    ensures no_write_fault { K.faults sink.new ≡ 0 → result ≢ 8 }
    // Where no count increases in this call, the answer is whole, or memory ran out.
    ensures complete { ((name : Text)
        → Increased (S.faults shelf.old name) (S.faults shelf.new name) → ⊥)
        → (Increased (K.faults sink.old) (K.faults sink.new) → ⊥)
        → IsAnswering result ⊎ (result ≡ 9) }
    // The same with the answer: what is put is that to these very bytes. Of a run a status is also
    // accepting where a start is refused, or a task's units or tries are spent.
    ensures accepted { AsksForProof (order_of (words_of words.now)) → IsAccepting result
        → (text : Text)
        × (K.written sink.new ≡ with_bytes (K.written sink.old) text)
        × Accepted (S.files shelf.old) (words_of words.now) text result }
    // A run that is finished has ended, whatever its tasks: what is put is the state that a
    // numbered list of events reaches from the start which was read. Where its events are told, the
    // list that is put after that reaches it too.
    ensures ended { result ≡ 0 → (text : Text)
        × (K.written sink.new ≡ with_bytes (K.written sink.old) text)
        × Ended (S.files shelf.old) (order_of (words_of words.now)) text }
    // No file changes, and no count falls. Where an answer is given none has increased: no proof's
    // where the program's file is refused, no state's where a procedure fails or the entry is
    // refused, and no schedule's where the state is refused too. A count increases only where the
    // work comes to that file.
    ensures counts { (any : Text) → S.faults shelf.old any ≤ S.faults shelf.new any }
    ensures quiet { IsAnswering result → (any : Text)
        → S.faults shelf.new any ≡ S.faults shelf.old any }
    ensures others { (other : Text)
        → (Reaches (S.files shelf.old) (order_of (words_of words.now)) other → ⊥)
        → S.faults shelf.new other ≡ S.faults shelf.old other }
    ensures sink_counts { K.faults sink.old ≤ K.faults sink.new }
    ensures files { S.files shelf.new ≡ S.files shelf.old }
{
    accepted_files_are_sound();
    accepted_proofs_are_sound();
    accepted_runs_are_sound();
    finished_runs_have_ended();
    journals_reach_their_ends();
    match respond(rt, alloc, words, shelf, gate) {
        Ok(said) => tell(sink, &said),
        Err(_) => OUT_OF_MEMORY,
    }
}
