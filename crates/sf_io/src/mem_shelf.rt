ghost use Rattle.std.specs.Prelude.{◌≡◌, ◌≢◌, ◌≤◌, ℕ, List, [], ◌∷◌, ◌++◌, ◌⊎◌, None, Err, IsOk, IsErr, IsSomeAnd, IsErrOf, OnOk, OnErr, take};
ghost use Rattle.sf_io.specs.FaultPlan.{after_call, IsDue};
ghost use Rattle.sf_io.specs.Increased.{Increased};
ghost use Rattle.sf_io.specs.Shelf.{GrewAtMost};

use crate::failures::{record_failure, room_for};
use crate::fault_plan::FaultPlan;
use crate::shelf::{FetchFault, Shelf};
use sf_base::Name;
use std::alloc::{AllocError, Global};
use std::collections::BTreeMap;

/// What a fetch asked for.
#[derive(Debug, Drop)]
pub struct Request {
    /// The file's name.
    pub name: Name,
    /// The most bytes that were to be handed out.
    pub most: usize,
}

/// A shelf in memory, which fails at the calls that it is told to, and keeps what each fetch asked
/// for.
#[derive(Debug, Drop)]
pub struct MemShelf {
    files: BTreeMap<String, Vec<u8>>,
    plan: FaultPlan,
    failed: Vec<Name>,
    requests: Vec<Request>,
    alloc: Global,
}

impl MemShelf {
    ghost use Rattle.sf_io.specs.MemShelf.{files_of, failed_of, plan_of, requests_of, with_file, SameCalls};

    /// A shelf without files.
    pub fn new(alloc: Global) -> MemShelf
        ensures files { (name : List ℕ) → files_of result name ≡ None }
        ensures failed { failed_of result ≡ [] }
        ensures plan { plan_of result ≡ record { made = 0; failing = [] } }
        ensures requests { requests_of result ≡ [] }
    {
        MemShelf {
            files: BTreeMap::new(alloc),
            plan: FaultPlan::new(alloc),
            failed: Vec::new(alloc),
            requests: Vec::new(alloc),
            alloc,
        }
    }

    /// Puts those bytes under that name, in place of what was there. An `Err` says that memory ran
    /// out, and nothing is changed.
    pub fn add(&mut self, name: &str, bytes: &[u8]) -> Result<(), AllocError>
        ensures ok { OnOk result ((other : List ℕ)
            → files_of self.new other ≡ with_file (files_of self.old) name.now bytes.now other) }
        ensures err { OnErr result ((other : List ℕ)
            → files_of self.new other ≡ files_of self.old other) }
        ensures calls { SameCalls self.old self.new }
    {
        let name = String::from_str(self.alloc, name)?;
        let bytes = Vec::from_slice(self.alloc, bytes)?;
        self.files.insert(name, bytes)?;
        Ok(())
    }

    /// From now on the call with that number, counted from 1, fails. An `Err` says that memory ran
    /// out, and nothing is changed.
    pub fn fail_at(&mut self, call: u64) -> Result<(), AllocError>
        ensures files { files_of self.new ≡ files_of self.old }
        ensures failed { failed_of self.new ≡ failed_of self.old }
        ensures requests { requests_of self.new ≡ requests_of self.old }
        ensures ok { OnOk result (plan_of self.new ≡ record (plan_of self.old)
            { failing = (plan_of self.old).failing ++ call ∷ [] }) }
        ensures err { OnErr result (plan_of self.new ≡ plan_of self.old) }
    {
        self.plan.fail_at(call)
    }

    /// What each fetch asked for, in order; one for which memory ran out may not be there.
    pub fn requests(&self) -> &[Request]
        ensures { result.now ≡ requests_of self.now }
    {
        self.requests.as_slice()
    }

    // Counts a call where there is room for a fault, and hands out what that call does.
    fn give(&mut self, name: &str, most: usize, out: &mut Vec<u8>) -> Result<(), FetchFault>
        ensures files { files_of self.new ≡ files_of self.old }
        ensures requests { requests_of self.new ≡ requests_of self.old }
        ensures counted { IsOk result ⊎ IsErrOf result FetchFault.Failed
            → plan_of self.new ≡ after_call (plan_of self.old) }
        ensures due { IsDue (plan_of self.old) → IsErr result }
        ensures given { OnOk result (IsSomeAnd (files_of self.old name.now)
            (λ bytes. out.new.items ≡ out.old.items ++ take most bytes)) }
        ensures grew { OnOk result (GrewAtMost most out.old.items out.new.items) }
        ensures refused { OnErr result (out.new.items ≡ out.old.items) }
        ensures failed { IsErrOf result FetchFault.Failed
            → IsDue (plan_of self.old) ⊎ files_of self.old name.now ≡ None }
        ensures fault { IsErrOf result FetchFault.Failed
            → failed_of self.new ≡ failed_of self.old ++ name.now ∷ [] }
        ensures no_fault { IsOk result ⊎ IsErrOf result FetchFault.OutOfMemory
            → failed_of self.new ≡ failed_of self.old }
    {
        let copy = room_for(self.alloc, &mut self.failed, name)?;
        if self.plan.next_fails() {
            return record_failure(&mut self.failed, copy);
        }
        match self.files.get(name) {
            Some(bytes) => append_first(bytes.as_slice(), most, out),
            None => record_failure(&mut self.failed, copy),
        }
    }
}

impl Shelf for MemShelf {
    ghost use Rattle.std.specs.Prelude.{Some};
    ghost use Rattle.sf_io.specs.Shelf.{failures_of};
    ghost use Rattle.sf_io.specs.MemShelf.{files_of, failed_of, plan_of, requests_of};

    ghost files = { λ shelf. Some (files_of shelf) };

    ghost faults = { λ shelf. failures_of (failed_of shelf) };

    /// Hands out the bytes under the name. `Failed` comes where the call is to fail or there are
    /// none, and exactly then the name is one more that failed. Each call counts, and what it asks
    /// for is kept; but one for which memory runs out may not count, nor be kept.
    fn fetch(&mut self, name: &str, most: usize, out: &mut Vec<u8>) -> Result<(), FetchFault>
        ensures files_stay { files_of self.new ≡ files_of self.old }
        ensures told { OnOk result (IsSomeAnd (files_of self.old name.now)
            (λ bytes. out.new.items ≡ out.old.items ++ take most bytes)) }
        ensures appended { OnOk result (GrewAtMost most out.old.items out.new.items) }
        ensures refused { OnErr result (out.new.items ≡ out.old.items) }
        ensures failed { IsErrOf result FetchFault.Failed
            → Increased (failures_of (failed_of self.old) name.now)
            (failures_of (failed_of self.new) name.now) }
        ensures fault { IsErrOf result FetchFault.Failed
            → failed_of self.new ≡ failed_of self.old ++ name.now ∷ [] }
        ensures no_fault { IsOk result ⊎ IsErrOf result FetchFault.OutOfMemory
            → failed_of self.new ≡ failed_of self.old }
        ensures others { (other : List ℕ) → other ≢ name.now
            → failures_of (failed_of self.new) other ≡ failures_of (failed_of self.old) other }
        ensures counts { (any : List ℕ)
            → failures_of (failed_of self.old) any ≤ failures_of (failed_of self.new) any }
        ensures ok { OnOk result ((any : List ℕ)
            → failures_of (failed_of self.new) any ≡ failures_of (failed_of self.old) any) }
        ensures out_of_memory { IsErrOf result FetchFault.OutOfMemory → ((any : List ℕ)
            → failures_of (failed_of self.new) any ≡ failures_of (failed_of self.old) any) }
        ensures due { IsDue (plan_of self.old) → IsErr result }
        ensures cause { IsErrOf result FetchFault.Failed
            → IsDue (plan_of self.old) ⊎ files_of self.old name.now ≡ None }
        ensures counted { IsOk result ⊎ IsErrOf result FetchFault.Failed
            → plan_of self.new ≡ after_call (plan_of self.old) }
        ensures kept { IsOk result ⊎ IsErrOf result FetchFault.Failed
            → requests_of self.new
            ≡ requests_of self.old ++ record { name = name.now; most = most } ∷ [] }
    {
        self.requests.reserve(1)?;
        let name_asked = Name::new(self.alloc, name.as_bytes())?;
        self.requests.push_reserved(Request {
            name: name_asked,
            most,
        });
        self.give(name, most, out)
    }
}

// Appends the first `most` bytes, or all where there are fewer.
fn append_first(bytes: &[u8], most: usize, out: &mut Vec<u8>) -> Result<(), FetchFault>
    ensures ok { OnOk result (out.new.items ≡ out.old.items ++ take most bytes.now) }
    ensures appended { OnOk result (GrewAtMost most out.old.items out.new.items) }
    ensures err { OnErr result (out.new.items ≡ out.old.items) }
    ensures cause { OnErr result (result ≡ Err FetchFault.OutOfMemory) }
{
    let most = most.min(bytes.len());
    out.extend_from_slice(&bytes[..most])?;
    Ok(())
}
