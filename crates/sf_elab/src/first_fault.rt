//! The first of the faults, and how it is answered.

ghost use Rattle.std.specs.Prelude.{◌≡◌, ◌∷◌, ◌++◌, [], List, IfOk};
ghost use Rattle.sf_base.specs.First.{IsFirstAmong, IsFirstOf};
ghost use Rattle.sf_elab.specs.Files.Faults.{link_name, place_of, kind_of, is_same_place, is_earlier, named_fault};

use crate::assertions::link_name;
use crate::fault::{Fault, NameFault};
use crate::texts::name;
use sf_base::{Name, Place};
use std::alloc::{AllocError, Global};

/// Where a fault is.
fn place_of(fault: Fault) -> Place
    ensures { result ≡ place_of fault }
{
    match fault {
        Fault::Unknown(word) => word.place,
        Fault::Twice(word) => word.place,
        Fault::Arity(word) => word.place,
        Fault::OwnedTwice(word) => word.place,
        Fault::Foreign(word) => word.place,
        Fault::Missing(place, _) => place,
        Fault::TooMany(place) => place,
        Fault::InitShape(place) => place,
        Fault::InitCalled(word) => word.place,
    }
}

/// The number of its kind.
fn kind_of(fault: Fault) -> u32
    ensures { result ≡ kind_of fault }
{
    match fault {
        Fault::Unknown(_) => 20,
        Fault::Twice(_) => 21,
        Fault::Arity(_) => 22,
        Fault::OwnedTwice(_) => 23,
        Fault::Foreign(_) => 24,
        Fault::Missing(_, _) => 25,
        Fault::TooMany(_) => 26,
        Fault::InitShape(_) => 28,
        Fault::InitCalled(_) => 29,
    }
}

/// Whether it is the same place.
fn is_same_place(p: Place, q: Place) -> bool
    ensures { result ≡ is_same_place p q }
{
    p.line == q.line && p.column == q.column
}

/// Whether a fault comes before another.
fn is_earlier(a: Fault, b: Fault) -> bool
    ensures { result ≡ is_earlier a b }
{
    place_of(a).is_before(place_of(b))
        || (is_same_place(place_of(a), place_of(b)) && kind_of(a) < kind_of(b))
}

/// The earlier of what is found so far and one more.
fn earlier(found: Option<Fault>, fault: Fault) -> Fault
    ensures { (before : List Fault) → IsFirstOf is_earlier before found
        → IsFirstAmong is_earlier (before ++ fault ∷ []) result }
{
    match found {
        None => fault,
        Some(first) => {
            if is_earlier(fault, first) {
                fault
            } else {
                first
            }
        }
    }
}

/// The first of those.
pub fn first_of(faults: &[Fault]) -> Option<Fault>
    ensures { IsFirstOf is_earlier faults.now result }
{
    let mut found = None;
    for fault in faults {
        found = Some(earlier(found, *fault));
    }
    found
}

/// The fault with its name, as it is answered.
pub fn named_fault(alloc: Global, bytes: &[u8], fault: Fault) -> Result<NameFault, AllocError>
    ensures { IfOk result (λ e. e ≡ named_fault bytes.now fault) }
{
    match fault {
        Fault::Unknown(word) => Ok(NameFault::UnknownName(word.place, name(alloc, bytes, word)?)),
        Fault::Twice(word) => Ok(NameFault::Twice(word.place, name(alloc, bytes, word)?)),
        Fault::Arity(word) => Ok(NameFault::Arity(word.place, name(alloc, bytes, word)?)),
        Fault::OwnedTwice(word) => Ok(NameFault::OwnedTwice(word.place, name(alloc, bytes, word)?)),
        Fault::Foreign(word) => Ok(NameFault::ForeignVariable(
            word.place,
            name(alloc, bytes, word)?,
        )),
        Fault::Missing(place, link) => Ok(NameFault::MissingField(
            place,
            Name::new(alloc, link_name(link))?,
        )),
        Fault::TooMany(place) => Ok(NameFault::TooMany(place)),
        Fault::InitShape(place) => Ok(NameFault::InitShape(
            place,
            Name::new(alloc, "init".as_bytes())?,
        )),
        Fault::InitCalled(word) => Ok(NameFault::InitCalled(word.place, name(alloc, bytes, word)?)),
    }
}
