ghost use Rattle.std.specs.Prelude.{◌≡◌, ◌≢◌, ◌+◌, ◌<◌, ◌≤◌, ℕ, List, [], ◌∷◌, ◌++◌, Err, IfOk, OnOk, OnErr, vec_len, vec_capacity};
ghost use Rattle.sf_io.specs.Shelf.{failures_of};

use crate::shelf::FetchFault;
use sf_base::Name;
use std::alloc::Global;

/// A copy of that name, and room for it in the list of failed names, which stays as it is. An `Err`
/// says that memory ran out.
pub(crate) fn room_for(
    alloc: Global,
    failed: &mut Vec<Name>,
    name: &str,
) -> Result<Name, FetchFault>
    ensures copy { IfOk result (λ copy. copy ≡ name.now) }
    ensures room { OnOk result (vec_len failed.new < vec_capacity failed.new) }
    ensures list { failed.new.items ≡ failed.old.items }
    ensures err { OnErr result (result ≡ Err FetchFault.OutOfMemory) }
{
    failed.reserve(1)?;
    Ok(Name::new(alloc, name.as_bytes())?)
}

/// Adds the name of a file whose fetch failed to the list, which has room for it, and answers so.
pub(crate) fn record_failure(failed: &mut Vec<Name>, name: Name) -> Result<(), FetchFault>
    requires { vec_len failed.old < vec_capacity failed.old }
    ensures answer { result ≡ Err FetchFault.Failed }
    ensures list { failed.new.items ≡ failed.old.items ++ name ∷ [] }
    ensures counted { failures_of failed.new.items name ≡ failures_of failed.old.items name + 1 }
    ensures others { (other : List ℕ) → other ≢ name
        → failures_of failed.new.items other ≡ failures_of failed.old.items other }
    ensures counts { (any : List ℕ)
        → failures_of failed.old.items any ≤ failures_of failed.new.items any }
{
    failed.push_reserved(name);
    Err(FetchFault::Failed)
}
