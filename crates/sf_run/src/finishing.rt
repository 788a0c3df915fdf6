//! What a run ends with: the values and cells of its entry's part and of the resources' contents,
//! taken together.

ghost use Rattle.std.specs.Prelude.{◌≡◌, ◌<◌, ◌∷◌, [], ℕ, get_or, length, map, IfOk};
ghost use Rattle.sf_base.specs.HeapStore.{Apart, Heap as Cells, Splits, shared};
ghost use Rattle.sf_core.specs.Machine.Config.{Config};
ghost use Rattle.sf_core.specs.Machine.Whole.{IsUnion, Whole};
ghost use Rattle.sf_core.specs.Program.ProgramView.{program_of};
ghost use Rattle.sf_foot.specs.Starting.{HasWidth};
ghost use Rattle.sf_frame.specs.Checked.Endings.{AreValues};
ghost use Rattle.sf_frame.specs.Checked.Resources.{counts_of};
ghost use Rattle.sf_heap.specs.Cells.{heap_of};
ghost use Rattle.sf_machine.specs.Ending.{Ends};
ghost use Rattle.sf_part.specs.Answers.{Answers};
ghost use Rattle.sf_part.specs.Contents.{IsContentIn, content_of};
ghost use Rattle.sf_part.specs.Parts.{entry_of};
ghost use Rattle.sf_part.specs.PartView.{IsPartOf, part_of};
ghost use Rattle.sf_region.specs.Waits.{contents_in};
ghost use Rattle.sf_run.specs.Checked.Gathered.{AreAll, AreRowsOf, heaps_of};

use sf_base::{ProcId, Value};
use sf_core::Program;
use sf_foot::{Finish, Vars};
use sf_frame::{shared_values, variable_count};
use sf_heap::Heap;
use sf_part::{Content, Local, Log, Part};
use std::alloc::{AllocError, Global};

/// What a run of procedure `f` ends with, whose entry's task has ended with that part, beside the
/// contents of all resources: the values of its references and values and of the resources'
/// variables, and all cells, which move; and the part's log. An `Err` says that memory ran out.
pub(crate) fn finish(
    alloc: Global,
    p: &Program,
    f: ProcId,
    part: Part<'_>,
    contents: Vec<Content>,
) -> Result<(Finish, Log), AllocError>
    requires of { IsPartOf (program_of p.now) part }
    requires procedure { f.0 < length p.now.procedures.items }
    requires entry { (part_of part).part.task ≡ [] }
    requires ended { Answers (program_of p.now) (part_of part) Local.Done }
    requires all { AreAll (program_of p.now) contents.items }
    requires whole { (c : Config)
        × Whole ((part_of part).part ∷ []) (contents_in contents.items) c }
    ensures ends { IfOk result (λ end. (c : Config)
        → Whole ((part_of part.entry).part ∷ []) (contents_in contents.items) c
        → Ends (program_of p.now) f c end.0.vars end.0.heap) }
    ensures log { IfOk result
        (λ end. map entry_of end.1.entries.items ≡ (part_of part.entry).log) }
{
    let (vars, heap, log) = part.into_end(p, f)?;
    let Vars { own, .. } = vars;
    let mut heap = heap;
    let shared = gather(alloc, p, &mut heap, contents)?;
    let vars = Vars { own, shared };
    Ok((Finish { vars, heap }, log))
}

/// Takes the cells of the contents in, and gives the values of each resource's variables. An `Err`
/// says that memory ran out.
fn gather(
    alloc: Global,
    p: &Program,
    heap: &mut Heap,
    contents: Vec<Content>,
) -> Result<Vec<Vec<Value>>, AllocError>
    requires all { AreAll (program_of p.now) contents.items }
    requires apart { (w : Cells) × IsUnion w (heap_of heap.old ∷ heaps_of contents.items) }
    requires wide { HasWidth (length (program_of p.now).fields) heap.old }
    ensures rows { IfOk result (λ rows. AreRowsOf (counts_of p.now.resources.items) contents.items
        rows.items) }
    ensures heap { IfOk result (λ _. (w : Cells)
        → IsUnion w (heap_of heap.old ∷ heaps_of contents.items) → heap_of heap.new ≡ w) }
    ensures wide { IfOk result (λ _. HasWidth (length (program_of p.now).fields) heap.new) }
{
    let mut rows = Vec::with_capacity(alloc, contents.len())?;
    let mut rest = contents.into_iter();
    while let Some(content) = rest.next() {
        let row = take_in(alloc, p, heap, content)?;
        rows.push(row)?;
    }
    Ok(rows)
}

/// Takes the cells of a content in, and gives the values of its resource's variables. An `Err` says
/// that memory ran out.
fn take_in(
    alloc: Global,
    p: &Program,
    heap: &mut Heap,
    content: Content,
) -> Result<Vec<Value>, AllocError>
    requires resource { (content_of content).content.resource.0 < length p.now.resources.items }
    requires of { IsContentIn (program_of p.now) content }
    requires apart { (location : ℕ) → Apart (heap_of heap.old location)
        ((content_of content).content.heap location) }
    requires wide { HasWidth (length (program_of p.now).fields) heap.old }
    ensures row { IfOk result (λ row. AreValues (content_of content).content.store
        (shared (content_of content).content.resource)
        (get_or (counts_of p.now.resources.items) (content_of content).content.resource.0 0)
        row.items) }
    ensures heap { IfOk result (λ _. Splits (heap_of heap.new) (heap_of heap.old)
        (content_of content).content.heap) }
    ensures wide { IfOk result (λ _. HasWidth (length (program_of p.now).fields) heap.new) }
{
    let r = content.resource();
    let (store, cells) = content.into_parts();
    let count = variable_count(p, r.0 as usize);
    let row = shared_values(alloc, &store, r, count)?;
    match heap.join(cells) {
        Ok(()) => Ok(row),
        Err(_) => Err(AllocError),
    }
}
