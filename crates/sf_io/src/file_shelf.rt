ghost use Rattle.std.specs.Prelude.{◌≡◌, ◌≢◌, ◌≤◌, ◌⊎◌, ℕ, List, [], ◌∷◌, ◌++◌, take, IsOk, IsErrOf, IfSome, IsSomeAnd, OnOk, OnErr};
ghost use Rattle.sf_io.specs.Increased.{Increased};
ghost use Rattle.sf_io.specs.Shelf.{GrewAtMost, failures_of, untold};

use crate::failures::{record_failure, room_for};
use crate::shelf::{FetchFault, Shelf};
use sf_base::Name;
use std::alloc::Global;
use std::fs;
use std::io::Read;
use std::marker::Model;
use std::rt::Files;

// How many bytes are read at once.
const CHUNK: usize = 16_384;

/// The real files. It tells nothing of what they hold. Contracts see the names whose fetches
/// failed, once for each time.
#[derive(Drop)]
pub struct FileShelf<'a, R: Files> {
    rt: &'a R,
    alloc: Global,
    failed: Vec<Name>,
}

impl<'a, R: Files> Model for FileShelf<'a, R> {
    ghost use Rattle.std.specs.Prelude.{List, ℕ};

    ghost Value = { List (List ℕ) };

    ghost view = { λ shelf. shelf.failed.items };
}

impl<'a, R: Files> FileShelf<'a, R> {
    /// The files that the runtime reaches. No fetch has failed.
    pub fn new(rt: &'a R, alloc: Global) -> FileShelf<'a, R>
        ensures { result ≡ [] }
    {
        FileShelf {
            rt,
            alloc,
            failed: Vec::new(alloc),
        }
    }
}

impl<'a, R: Files> Shelf for FileShelf<'a, R> {
    ghost use Rattle.sf_io.specs.Shelf.{failures_of, untold};

    ghost files = { λ _. untold };

    ghost faults = { failures_of };

    /// Reads the file. The name is one more that failed exactly at `Failed`.
    fn fetch(&mut self, name: &str, most: usize, out: &mut Vec<u8>) -> Result<(), FetchFault>
        ensures told { OnOk result (IfSome untold (λ all. IsSomeAnd (all name.now)
            (λ bytes. out.new.items ≡ out.old.items ++ take most bytes))) }
        ensures appended { OnOk result (GrewAtMost most out.old.items out.new.items) }
        ensures refused { OnErr result (out.new.items ≡ out.old.items) }
        ensures failed { IsErrOf result FetchFault.Failed
            → Increased (failures_of self.old name.now) (failures_of self.new name.now) }
        ensures fault { IsErrOf result FetchFault.Failed → self.new ≡ self.old ++ name.now ∷ [] }
        ensures no_fault { IsOk result ⊎ IsErrOf result FetchFault.OutOfMemory
            → self.new ≡ self.old }
        ensures others { (other : List ℕ) → other ≢ name.now
            → failures_of self.new other ≡ failures_of self.old other }
        ensures counts { (any : List ℕ) → failures_of self.old any ≤ failures_of self.new any }
        ensures ok { OnOk result ((any : List ℕ)
            → failures_of self.new any ≡ failures_of self.old any) }
        ensures out_of_memory { IsErrOf result FetchFault.OutOfMemory
            → ((any : List ℕ) → failures_of self.new any ≡ failures_of self.old any) }
    {
        let copy = room_for(self.alloc, &mut self.failed, name)?;
        match read_file(self.rt, name, most, out) {
            Ok(()) => Ok(()),
            Err(FetchFault::OutOfMemory) => Err(FetchFault::OutOfMemory),
            Err(FetchFault::Failed) => record_failure(&mut self.failed, copy),
        }
    }
}

// Appends the first `most` bytes of a file, or all where there are fewer. `Failed` comes from
// an `Err` of the outside.
fn read_file<R: Files>(rt: &R, name: &str, most: usize, out: &mut Vec<u8>) -> Result<(), FetchFault>
    ensures ok { OnOk result (GrewAtMost most out.old.items out.new.items) }
    ensures err { OnErr result (out.new.items ≡ out.old.items) }
{
    let start = out.len();
    let read = match fs::open(rt, name) {
        Ok(mut file) => read_at_most(&mut file, most, out),
        Err(_) => Err(FetchFault::Failed),
    };
    if read.is_err() {
        out.truncate(start);
    }
    read
}

// Appends what the file gives, until it ends or `most` bytes were read. That is all that is due of
// a file which tells its bytes.
fn read_at_most<F: Read>(file: &mut F, most: usize, out: &mut Vec<u8>) -> Result<(), FetchFault>
    ensures grew { GrewAtMost most out.old.items out.new.items }
    ensures told { OnOk result (IfSome (F.remaining file.old)
        (λ bytes. out.new.items ≡ out.old.items ++ take most bytes)) }
{
    let mut chunk = [0u8; CHUNK];
    let mut left = most;
    while left > 0 {
        let wanted = left.min(CHUNK);
        let n = match file.read(&mut chunk[..wanted]) {
            Ok(n) => n,
            Err(_) => return Err(FetchFault::Failed),
        };
        if n == 0 {
            break;
        }
        out.extend_from_slice(&chunk[..n])?;
        left -= n;
    }
    Ok(())
}
