//! The top call.

use crate::explaining::{View, explain};
use crate::order::{Order, USAGE, order_of};
use crate::paging::page;
use crate::reply::{Said, Unsaid, say, say_unread};
use crate::tracing::trace;
use sf_io::{Shelf, Sink, SinkFault, put_all};
use std::alloc::{AllocError, Global};

/// The status where the sink can't be written to.
const WRITE_FAULT: u8 = 8;
/// The status where memory ran out.
pub const OUT_OF_MEMORY: u8 = 9;

/// What is said to an order.
fn follow<S: Shelf>(alloc: Global, order: Order<'_>, shelf: &mut S) -> Result<Said, Unsaid> {
    match order {
        Order::Explain(file, proof) => explain(alloc, file, proof, View::Faults, shelf),
        Order::Goals(file, proof) => explain(alloc, file, proof, View::Goals, shelf),
        Order::Trace(file, words) => trace(alloc, file, words, shelf),
        Order::Page(file, words) => page(alloc, file, words, shelf),
    }
}

/// The words as texts that others own.
fn borrowed<'a>(alloc: Global, words: &'a [String]) -> Result<Vec<&'a str>, AllocError> {
    let mut texts = Vec::with_capacity(alloc, words.len())?;
    for word in words {
        texts.push(word.as_str())?;
    }
    Ok(texts)
}

/// What is said to the words. An `Err` says that memory ran out.
fn respond<S: Shelf>(alloc: Global, words: &[String], shelf: &mut S) -> Result<Said, AllocError> {
    let texts = borrowed(alloc, words)?;
    let Some(order) = order_of(&texts) else {
        return say(alloc, USAGE, 2);
    };
    match follow(alloc, order, shelf) {
        Ok(said) => Ok(said),
        Err(Unsaid::Unread(name)) => say_unread(alloc, name.as_slice()),
        Err(Unsaid::OutOfMemory) => Err(AllocError),
    }
}

/// Puts what is said, whole, and gives its status; or the status of what kept it from that.
fn tell<K: Sink>(sink: &mut K, said: &Said) -> u8 {
    match put_all(sink, said.text.as_slice()) {
        Ok(()) => said.status,
        Err(SinkFault::Failed) => WRITE_FAULT,
        Err(SinkFault::OutOfMemory) => OUT_OF_MEMORY,
    }
}

/// Does all that the program does, and gives the status with which it ends.
///
/// The words are those after the program's name. Files come from the shelf, and what is said goes to
/// the sink. The statuses are those of `smallfoot`: 0 where the program is proved, 1 where a
/// procedure fails, 2 where the words ask for nothing, 3 where the file is refused, 4 where the proof
/// is, 5 where a text is no start, 7 where a file can't be read, 8 where the sink fails, 9 where memory
/// ran out, 10 where a trace comes to an absent cell or a race, and 11 where its schedule is refused.
pub fn show<S: Shelf, K: Sink>(alloc: Global, words: &[String], shelf: &mut S, sink: &mut K) -> u8 {
    match respond(alloc, words, shelf) {
        Ok(said) => tell(sink, &said),
        Err(_) => OUT_OF_MEMORY,
    }
}
