ghost use Rattle.std.specs.Prelude.{◌≡◌, ◌≢◌, ℕ, All, IfOk, IfSome, None, Some, length};
ghost use Rattle.std.specs.List.{slice_get};
ghost use Rattle.sf_verify.specs.Board.{IsFound};

use crate::subject::Subject;
use sf_base::ProcId;
use sf_base::limits::FILE_TAGS;
use sf_search::SearchFault;
use sf_sym::Tag;
use std::alloc::{AllocError, Global};
use std::marker::{Model, PhantomData};

/// What the search of a procedure came to: the tags of its proof, or why there is none.
#[derive(Drop)]
pub(crate) struct Found<'a> {
    pub(crate) end: Result<Vec<Tag>, SearchFault<'a>>,
}

impl Found<'_> {
    /// How many tags it holds.
    fn tags(&self) -> usize {
        match &self.end {
            Ok(tags) => tags.len(),
            Err(_) => 0,
        }
    }
}

/// Where workers put what they find: a place for each procedure of a program, in file order. It
/// keeps that what stands in a place is what the search of that place's procedure comes to, in the
/// program that its type names. Contracts see the places.
#[derive(Drop)]
pub(crate) struct Board<'a, K: Subject> {
    places: Vec<Option<Found<'a>>>,
    tags: usize,
    failed: bool,
    of: PhantomData<K>,
}

impl<'a, K: Subject> Model for Board<'a, K> {
    ghost use Rattle.std.specs.Prelude.{List, Option};
    ghost use denote.Signature.{static_lft};
    ghost use Rattle.std.specs.Coded.{codes};
    ghost use Rattle.sf_verify.specs.Board.{AreFound};
    ghost use Rattle.sf_verify.specs.contracts.board.Found as found;
    ghost use Rattle.sf_verify.specs.declared.board.Found.{Found};

    ghost Value = { List (Option Found) };

    ghost coded = { Prim.hlevel (codes, (found.the_row static_lft).coded) };

    ghost view = { λ s. s.places.items };

    ghost invariant = { λ s. AreFound K.setting s.places.items };
}

impl<'a, K: Subject> Board<'a, K> {
    /// A board with that many places, all empty. An `Err` means out of memory.
    pub(crate) fn new(alloc: Global, count: usize) -> Result<Board<'a, K>, AllocError>
        ensures count { IfOk result (λ board. length board ≡ count) }
        ensures empty { IfOk result (λ board. All (λ place. place ≡ None) board) }
    {
        Ok(Board {
            places: empty_places(alloc, count)?,
            tags: 0,
            failed: false,
            of: PhantomData,
        })
    }

    /// Puts what was found of a procedure in its place, where that is empty. A place that is filled
    /// stays as it is.
    pub(crate) fn fill(&mut self, f: ProcId, found: Found<'a>)
        requires { IsFound K.setting f.0 found }
        ensures count { length self.new ≡ length self.old }
        ensures filled { slice_get self.old f.0 ≡ Some None
            → slice_get self.new f.0 ≡ Some (Some found.entry) }
        ensures kept { (k : ℕ) (other : _) → slice_get self.old k ≡ Some (Some other)
            → slice_get self.new k ≡ Some (Some other) }
        ensures others { (k : ℕ) → k ≢ f.0 → slice_get self.new k ≡ slice_get self.old k }
    {
        let place = f.0 as usize;
        if place >= self.places.len() || self.places[place].is_some() {
            return;
        }
        self.tags = self.tags.saturating_add(found.tags());
        self.failed = self.failed || found.end.is_err();
        self.places[place] = Some(found);
    }

    /// Whether no search that nobody has begun can matter: some procedure fails, so that the later
    /// ones don't; or what stands on the board has more tags than a file's proof may have.
    pub(crate) fn is_settled(&self) -> bool {
        self.failed || self.tags > FILE_TAGS
    }

    /// Takes what was found of a procedure from its place. `None` where that is empty.
    pub(crate) fn take(&mut self, f: ProcId) -> Option<Found<'a>>
        ensures found { IfSome result (λ found. IsFound K.setting f.0 found) }
        ensures there { IfSome result (λ found. slice_get self.old f.0 ≡ Some (Some found)) }
        ensures others { (k : ℕ) → k ≢ f.0 → slice_get self.new k ≡ slice_get self.old k }
    {
        let place = f.0 as usize;
        if place >= self.places.len() {
            return None;
        }
        self.places[place].take()
    }
}

/// That many empty places. An `Err` means out of memory.
fn empty_places<'a>(alloc: Global, count: usize) -> Result<Vec<Option<Found<'a>>>, AllocError>
    ensures count { IfOk result (λ places. length places.items ≡ count) }
    ensures empty { IfOk result (λ places. All (λ place. place ≡ None) places.items) }
{
    let mut places = Vec::with_capacity(alloc, count)?;
    for _ in 0..count {
        places.push(None)?;
    }
    Ok(places)
}
