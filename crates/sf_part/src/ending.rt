//! What a run ends with: of the part of the entry's task, and of a content.

ghost use Rattle.std.specs.Prelude.{◌≡◌, ◌<◌, [], length, map, IfOk};
ghost use Rattle.sf_core.specs.Program.ProgramView.{program_of};
ghost use Rattle.sf_core.specs.Program.Syntax.{Program as P};
ghost use Rattle.sf_foot.specs.Starting.{HasWidth};
ghost use Rattle.sf_frame.specs.Stores.{store_of};
ghost use Rattle.sf_heap.specs.Cells.{heap_of};
ghost use Rattle.sf_part.specs.Answers.{Answers};
ghost use Rattle.sf_part.specs.Contents.{IsContentIn, content_of};
ghost use Rattle.sf_part.specs.Ends.{Ends};
ghost use Rattle.sf_part.specs.Parts.{entry_of};
ghost use Rattle.sf_part.specs.PartView.{IsPartOf, part_of};

use crate::content::Content;
use crate::local::Local;
use crate::log::Log;
use crate::part::Part;
use sf_base::ProcId;
use sf_core::Program;
use sf_foot::Vars;
use sf_frame::{Shared, Store, own_values, parameter_count};
use sf_heap::Heap;
use std::alloc::AllocError;

impl<'p> Part<'p> {
    /// What a run of procedure `f` ends with in the part of its entry's task, which has ended: the
    /// values of its references and values, and no others, the cells, which move, and the log. An
    /// `Err` says that memory ran out.
    pub fn into_end(self, p: &Program, f: ProcId) -> Result<(Vars, Heap, Log), AllocError>
        requires of { IsPartOf (program_of p.now) self }
        requires procedure { f.0 < length p.now.procedures.items }
        requires entry { (part_of self).part.task ≡ [] }
        requires ended { Answers (program_of p.now) (part_of self) Local.Done }
        ensures { IfOk result (λ end. Ends (program_of p.now) f (part_of self.entry)
            end.0 end.1 (map entry_of end.2.entries.items)) }
    {
        let alloc = self.shared.alloc;
        let own = own_values(alloc, &self.shared.store, parameter_count(p, f))?;
        let Part { shared, log, .. } = self;
        let Shared { heap, .. } = shared;
        let vars = Vars {
            own,
            shared: Vec::new(alloc),
        };
        Ok((vars, heap, Log { entries: log }))
    }
}

impl Content {
    /// The values of the resource's variables, and its cells. Both move, and no memory is wanted.
    pub fn into_parts(self) -> (Store, Heap)
        ensures variables { store_of result.0 ≡ (content_of self).content.store }
        ensures cells { heap_of result.1 ≡ (content_of self).content.heap }
        ensures wide { (p : P) → IsContentIn p self → HasWidth (length p.fields) result.1 }
    {
        let Content { store, heap, .. } = self;
        (store, heap)
    }
}
