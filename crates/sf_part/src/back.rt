//! What two other tasks share, taken in beside what is there.

ghost use Rattle.std.specs.Prelude.{◌≡◌, ◌∷◌, [], IfErr, IfOk, OnErr, OnOk};
ghost use Rattle.std.specs.FinMap as map;
ghost use Rattle.sf_base.specs.HeapStore.{Heap as H, Slot, Splits, Store as S};
ghost use Rattle.sf_core.specs.Machine.Whole.{IsUnion};
ghost use Rattle.sf_frame.specs.Checked.Effects.{IsSameCommon};
ghost use Rattle.sf_frame.specs.Commons.{common_of};
ghost use Rattle.sf_frame.specs.Stores.{store_of};
ghost use Rattle.sf_heap.specs.Cells.{heap_of};
ghost use Rattle.sf_part.specs.Checked.Joined.{TakesBack, TakesCells};

use sf_frame::{Shared, Store};
use sf_heap::Heap;
use std::alloc::{AllocError, Global};
use std::mem::replace;

/// Takes the cells and the slots of two others in beside what is there: their cells are gone from
/// there then. An `Err` says that memory ran out, and leaves all as it was.
pub(crate) fn take_back(
    shared: &mut Shared,
    left: &mut Shared,
    right: &mut Shared,
) -> Result<(), AllocError>
    requires cells { (all : H) × IsUnion all ((common_of shared.old).heap
        ∷ (common_of left.old).heap ∷ (common_of right.old).heap ∷ []) }
    requires slots { (all : S) × IsUnion all ((common_of shared.old).store
        ∷ (common_of left.old).store ∷ (common_of right.old).store ∷ []) }
    ensures ok { OnOk result (TakesBack shared.old left.old right.old shared.new) }
    ensures left_gone { OnOk result (left.new ≡ record left.old { heap = map.empty }) }
    ensures right_gone { OnOk result (right.new ≡ record right.old { heap = map.empty }) }
    ensures err { OnErr result (IsSameCommon (common_of shared.new) (common_of shared.old)) }
    ensures heap { OnErr result (shared.new.heap ≡ shared.old.heap) }
    ensures both { OnErr result ((left.new ≡ left.old) × (right.new ≡ right.old)) }
{
    copy_in(&mut shared.store, shared.alloc, &left.store, &right.store)?;
    match move_cells(
        &mut shared.heap,
        &mut left.heap,
        &mut right.heap,
        shared.alloc,
    ) {
        Ok(()) => Ok(()),
        Err(fault) => {
            shared.store.cut(&left.store);
            shared.store.cut(&right.store);
            Err(fault)
        }
    }
}

/// Takes copies of the slots of two other stores in. An `Err` says that memory ran out, and leaves
/// all as it was.
fn copy_in(store: &mut Store, alloc: Global, left: &Store, right: &Store) -> Result<(), AllocError>
    requires { (all : S) × IsUnion all
        (store_of store.old ∷ store_of left.now ∷ store_of right.now ∷ []) }
    ensures ok { OnOk result (IsUnion (store_of store.new)
        (store_of store.old ∷ store_of left.now ∷ store_of right.now ∷ [])) }
    ensures err { OnErr result
        ((slot : Slot) → store_of store.new slot ≡ store_of store.old slot) }
{
    let both = copy_both(alloc, left, right)?;
    if let Err(_) = store.join(both) {
        return Err(AllocError);
    }
    Ok(())
}

/// Copies of the slots of two stores, as one. An `Err` says that memory ran out.
fn copy_both(alloc: Global, left: &Store, right: &Store) -> Result<Store, AllocError>
    requires { (all : S) × Splits all (store_of left.now) (store_of right.now) }
    ensures { IfOk result
        (λ both. Splits (store_of both) (store_of left.now) (store_of right.now)) }
{
    let mut both = left.copy(alloc)?;
    let more = right.copy(alloc)?;
    match both.join(more) {
        Ok(()) => Ok(both),
        Err(_) => Err(AllocError),
    }
}

/// Moves the cells of two other heaps to a heap. An `Err` says that memory ran out, and leaves all
/// as it was.
fn move_cells(
    heap: &mut Heap,
    left: &mut Heap,
    right: &mut Heap,
    alloc: Global,
) -> Result<(), AllocError>
    requires { (all : H) × IsUnion all
        (heap_of heap.old ∷ heap_of left.old ∷ heap_of right.old ∷ []) }
    ensures ok { OnOk result (TakesCells heap.old left.old right.old heap.new) }
    ensures gone { OnOk result ((left.new ≡ map.empty) × (right.new ≡ map.empty)) }
    ensures err { OnErr result (heap.new ≡ heap.old) }
    ensures both { OnErr result ((left.new ≡ left.old) × (right.new ≡ right.old)) }
{
    let one = replace(left, Heap::new(alloc));
    let two = replace(right, Heap::new(alloc));
    match join_heaps(heap, one, two) {
        Ok(()) => Ok(()),
        Err((one, two)) => {
            *left = one;
            *right = two;
            Err(AllocError)
        }
    }
}

/// Takes the cells of two other heaps in. An `Err` says that memory ran out, hands both back, and
/// leaves the heap as it was.
fn join_heaps(heap: &mut Heap, left: Heap, right: Heap) -> Result<(), (Heap, Heap)>
    requires { (all : H) × IsUnion all (heap_of heap.old ∷ heap_of left ∷ heap_of right ∷ []) }
    ensures ok { OnOk result (TakesCells heap.old left right heap.new) }
    ensures err { OnErr result (heap.new ≡ heap.old) }
    ensures both_returned { IfErr result (λ back. (back.0 ≡ left) × (back.1 ≡ right)) }
{
    if left.len() <= right.len() {
        return join_smaller(heap, left, right);
    }
    match join_smaller(heap, right, left) {
        Ok(()) => Ok(()),
        Err((right, left)) => Err((left, right)),
    }
}

/// Takes the cells of a heap in, and of a larger one. Where that is refused at the second step, the
/// two are parted again at the locations of the smaller one.
fn join_smaller(heap: &mut Heap, small: Heap, mut large: Heap) -> Result<(), (Heap, Heap)>
    requires { (all : H) × IsUnion all (heap_of heap.old ∷ heap_of small ∷ heap_of large ∷ []) }
    ensures ok { OnOk result (TakesCells heap.old small large heap.new) }
    ensures err { OnErr result (heap.new ≡ heap.old) }
    ensures both_returned { IfErr result (λ back. (back.0 ≡ small) × (back.1 ≡ large)) }
{
    let Ok(at) = small.locations() else {
        return Err((small, large));
    };
    if let Err(small) = large.join(small) {
        return Err((small, large));
    }
    match heap.join(large) {
        Ok(()) => Ok(()),
        Err(mut both) => {
            let small = both.part_off(&at);
            Err((small, both))
        }
    }
}
