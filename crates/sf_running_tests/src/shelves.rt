//! Shelves and sinks: what they hand out and take, where they fail, and that a caller who knows
//! nothing of them but their traits can rely on these.

ghost use Rattle.std.specs.Prelude.{◌≡◌, ◌≢◌, ◌⊎◌, ℕ, List, take, IfSome, IsSomeAnd};
ghost use Rattle.sf_io.specs.Increased.{Increased};
ghost use Rattle.sf_io.specs.Sink.{with_bytes, WrotePrefix};

use sf_io::{FetchFault, FileShelf, MemShelf, MemSink, Shelf, Sink, SinkFault, StdSink, put_all};
use std::alloc::{AllocError, Global};
use std::cell::{Cell, RefCell};
use std::fmt::Display;
use std::test::Fail;
use std::{fs, io, process};

/// Puts the first bytes of a file: 0. Where it can't be read, its name: 7. A write fault is 8, and
/// 9 that memory ran out.
fn copy<S: Shelf, K: Sink>(
    alloc: Global,
    shelf: &mut S,
    sink: &mut K,
    name: &str,
    most: usize,
) -> u8
    ensures done { result ≡ 0 → IfSome (S.files shelf.old) (λ all. IsSomeAnd (all name.now)
        (λ bytes. K.written sink.new ≡ with_bytes (K.written sink.old) (take most bytes))) }
    ensures read_fault { result ≡ 7
        → Increased (S.faults shelf.old name.now) (S.faults shelf.new name.now) }
    ensures read_fault_text { result ≡ 7
        → K.written sink.new ≡ with_bytes (K.written sink.old) name.now }
    ensures write_fault { result ≡ 8 → Increased (K.faults sink.old) (K.faults sink.new) }
    ensures prefix { result ≡ 8 → IfSome (S.files shelf.old) (λ all.
        WrotePrefix (K.written sink.old) (K.written sink.new) name.now ⊎ IsSomeAnd (all name.now)
        (λ bytes. WrotePrefix (K.written sink.old) (K.written sink.new) (take most bytes))) }
    ensures quiet_shelf { ((s : S) (n : List ℕ) → S.faults s n ≡ 0) → result ≢ 7 }
    ensures quiet_sink { ((k : K) → K.faults k ≡ 0) → result ≢ 8 }
{
    let mut bytes = Vec::new(alloc);
    let (put, done) = match shelf.fetch(name, most, &mut bytes) {
        Ok(()) => (put_all(sink, bytes.as_slice()), 0),
        Err(FetchFault::Failed) => (put_all(sink, name.as_bytes()), 7),
        Err(FetchFault::OutOfMemory) => return 9,
    };
    match put {
        Ok(()) => done,
        Err(SinkFault::Failed) => 8,
        Err(SinkFault::OutOfMemory) => 9,
    }
}

/// What a fetch answers, and what is then in a list that began with `> `.
fn fetched<S: Shelf>(
    alloc: Global,
    shelf: &mut S,
    name: &str,
    most: usize,
) -> Result<(Result<(), FetchFault>, Vec<u8>), AllocError> {
    let mut out = Vec::from_slice(alloc, b"> ")?;
    let answer = shelf.fetch(name, most, &mut out);
    Ok((answer, out))
}

#[test]
fn a_shelf_in_memory_hands_out_prefixes_and_fails_where_planned(
    rt: HostRuntime,
) -> Result<(), Fail> {
    let mut shelf = MemShelf::new(rt.alloc());
    shelf.add("a.sf", b"old")?;
    shelf.add("a.sf", b"f() { }")?;
    shelf.add("empty", b"")?;
    shelf.fail_at(5)?;
    let rows: [(&str, usize, Result<(), FetchFault>, &[u8]); 7] = [
        ("a.sf", 100, Ok(()), b"> f() { }"),
        ("a.sf", 3, Ok(()), b"> f()"),
        ("a.sf", 0, Ok(()), b"> "),
        ("empty", 9, Ok(()), b"> "),
        ("a.sf", 100, Err(FetchFault::Failed), b"> "),
        ("none.sf", 100, Err(FetchFault::Failed), b"> "),
        ("a.sf", 7, Ok(()), b"> f() { }"),
    ];
    for (name, most, wanted, bytes) in rows {
        let (answer, out) = fetched(rt.alloc(), &mut shelf, name, most)?;
        assert_eq!(rt; answer, wanted);
        assert_eq!(rt; out.as_slice(), bytes);
    }
    Ok(())
}

#[test]
fn a_real_file_is_read_and_a_missing_one_is_a_fault(rt: HostRuntime) -> Result<(), Fail> {
    let path = format!(in rt.alloc(); "/tmp/sf_io_{}", process::id(rt.process()))?;
    let text = Vec::<u8>::from_elem(rt.alloc(), b'x', 40_000)?;
    fs::write(&rt, path.as_str(), text.as_slice())?;
    let rows: [(&str, usize, Result<(), FetchFault>, usize); 5] = [
        (path.as_str(), 100_000, Ok(()), 40_002),
        (path.as_str(), 20_000, Ok(()), 20_002),
        (path.as_str(), 0, Ok(()), 2),
        ("/tmp", 10, Err(FetchFault::Failed), 2),
        ("/tmp/no/such/file", 10, Err(FetchFault::Failed), 2),
    ];
    let mut shelf = FileShelf::new(&rt, rt.alloc());
    for (name, most, wanted, length) in rows {
        let (answer, out) = fetched(rt.alloc(), &mut shelf, name, most)?;
        assert_eq!(rt; answer, wanted);
        assert_eq!(rt; out.len(), length);
        assert_eq!(rt;
            out.last(),
            if length == 2 {
                Some(&b' ')
            } else {
                Some(&b'x')
            }
        );
    }
    fs::remove_file(&rt, path.as_str())?;
    Ok(())
}

/// What putting that text into a sink in memory answers, and the bytes that the sink has then.
fn put_in_memory(
    alloc: Global,
    most: usize,
    failing: u64,
    text: &[u8],
) -> Result<(Result<(), SinkFault>, Vec<u8>), AllocError> {
    let mut sink = MemSink::new(alloc, most);
    sink.fail_at(failing)?;
    let answer = put_all(&mut sink, text);
    Ok((answer, Vec::from_slice(alloc, sink.bytes())?))
}

#[test]
fn a_sink_in_memory_takes_pieces_and_fails_where_planned(rt: HostRuntime) -> Result<(), Fail> {
    let rows: [(usize, u64, Result<(), SinkFault>, &[u8]); 6] = [
        (100, 0, Ok(()), b"accepted\nproof\n"),
        (1, 0, Ok(()), b"accepted\nproof\n"),
        (8, 2, Err(SinkFault::Failed), b"accepted"),
        (8, 1, Err(SinkFault::Failed), b""),
        (8, 3, Ok(()), b"accepted\nproof\n"),
        (0, 0, Err(SinkFault::Failed), b""),
    ];
    for (most, failing, wanted, bytes) in rows {
        let (answer, taken) = put_in_memory(rt.alloc(), most, failing, b"accepted\nproof\n")?;
        assert_eq!(rt; answer, wanted);
        assert_eq!(rt; taken.as_slice(), bytes);
    }
    Ok(())
}

/// The status of `copy` from a shelf with one file into a sink that takes four bytes at once and
/// fails at that call, and the bytes that the sink has then.
fn copied(alloc: Global, name: &str, failing: u64) -> Result<(u8, Vec<u8>), AllocError> {
    let mut shelf = MemShelf::new(alloc);
    shelf.add("a.sf", b"f() { }")?;
    let mut sink = MemSink::new(alloc, 4);
    sink.fail_at(failing)?;
    let status = copy(alloc, &mut shelf, &mut sink, name, 100);
    Ok((status, Vec::from_slice(alloc, sink.bytes())?))
}

#[test]
fn a_caller_of_any_shelf_and_sink_gets_each_status(rt: HostRuntime) -> Result<(), Fail> {
    let rows: [(&str, u64, u8, &[u8]); 3] = [
        ("a.sf", 0, 0, b"f() { }"),
        ("none.sf", 0, 7, b"none.sf"),
        ("a.sf", 2, 8, b"f() "),
    ];
    for (name, failing, wanted, bytes) in rows {
        let (status, taken) = copied(rt.alloc(), name, failing)?;
        assert_eq!(rt; status, wanted);
        assert_eq!(rt; taken.as_slice(), bytes);
    }
    Ok(())
}

/// A terminal that takes so many bytes in one write, takes nothing at one write, and fails at
/// another.
#[derive(Drop)]
struct Paper {
    bytes: RefCell<Vec<u8>>,
    most: usize,
    writes: Cell<u32>,
    nothing_at: u32,
    fails_at: u32,
}

impl Print for Paper {
    fn print<D: Display + Drop>(&self, _value: D) -> io::Result<()> {
        Err(io::Error::from(io::ErrorKind::Unsupported))
    }

    fn println<D: Display + Drop>(&self, _value: D) -> io::Result<()> {
        Err(io::Error::from(io::ErrorKind::Unsupported))
    }

    fn write_all(&self, _bytes: &[u8]) -> io::Result<()> {
        Err(io::Error::from(io::ErrorKind::Unsupported))
    }

    fn write_some(&self, bytes: &[u8]) -> io::Result<usize> {
        let write = self.writes.get().saturating_add(1);
        self.writes.set(write);
        if write == self.nothing_at {
            return Ok(0);
        }
        if write == self.fails_at {
            return Err(io::Error::from(io::ErrorKind::BrokenPipe));
        }
        let n = bytes.len().min(self.most);
        match self.bytes.try_borrow_mut() {
            Ok(mut held) => held.extend_from_slice(&bytes[..n])?,
            Err(_) => return Ok(0),
        }
        Ok(n)
    }
}

/// What putting that text into standard output answers, where that is such a terminal, and the
/// bytes that the terminal has then.
fn printed(
    alloc: Global,
    most: usize,
    nothing_at: u32,
    fails_at: u32,
    text: &[u8],
) -> (Result<(), SinkFault>, Vec<u8>) {
    let paper = Paper {
        bytes: RefCell::new(Vec::new(alloc)),
        most,
        writes: Cell::new(0),
        nothing_at,
        fails_at,
    };
    let mut sink = StdSink::new(&paper);
    let answer = put_all(&mut sink, text);
    drop(sink);
    (answer, paper.bytes.into_inner())
}

#[test]
fn standard_output_gets_each_byte_once(rt: HostRuntime) -> Result<(), Fail> {
    let rows: [(usize, u32, u32, Result<(), SinkFault>, &[u8]); 5] = [
        (100, 0, 0, Ok(()), b"accepted\nproof\n"),
        (5, 0, 0, Ok(()), b"accepted\nproof\n"),
        (5, 1, 0, Err(SinkFault::Failed), b""),
        (5, 0, 1, Err(SinkFault::Failed), b""),
        (5, 3, 4, Err(SinkFault::Failed), b"accepted\np"),
    ];
    for (most, nothing_at, fails_at, wanted, bytes) in rows {
        let (answer, held) = printed(rt.alloc(), most, nothing_at, fails_at, b"accepted\nproof\n");
        assert_eq!(rt; answer, wanted);
        assert_eq!(rt; held.as_slice(), bytes);
    }
    Ok(())
}
