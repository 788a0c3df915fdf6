//! The cell that words like those of a cell's line give.

ghost use Rattle.std.specs.Prelude.{◌≡◌, length, IfOk, IfSome};
ghost use Rattle.sf_core.specs.Program.ProgramView.{program_of};
ghost use Rattle.sf_lines.specs.Lines.{words};
ghost use Rattle.sf_state.specs.CellWords.{cell_from, cell_of};

use crate::fields::{Fields, fields_in};
use crate::given::{cell_with, set_again};
use sf_core::Program;
use sf_heap::Cell;
use std::alloc::{AllocError, Global};

/// The cell of which these fields are set, `None` where they aren't in order.
fn cell_of(alloc: Global, count: usize, fields: &Fields) -> Result<Option<Cell>, AllocError>
    ensures cell { IfOk result (λ cell. cell ≡ cell_of count fields.now) }
    ensures wide { IfOk result (λ cell. IfSome cell (λ values. length values ≡ count)) }
{
    let Fields::Are(settings) = fields else {
        return Ok(None);
    };
    if set_again(settings.as_slice()).is_some() {
        return Ok(None);
    }
    Ok(Some(cell_with(alloc, count, settings.as_slice())?))
}

/// The cell whose fields the words of a text give, each as `field=value`; the others are nil.
/// `None` exactly where a word isn't in order, names no field, or gives one again. A cell has a
/// value for each field of the program. An `Err` says that memory ran out.
pub fn cell_from_words(alloc: Global, p: &Program, text: &[u8]) -> Result<Option<Cell>, AllocError>
    ensures cell { IfOk result
        (λ cell. cell ≡ cell_from (program_of p.now).fields (words text.now)) }
    ensures wide { IfOk result
        (λ cell. IfSome cell (λ values. length values ≡ length p.now.fields.items)) }
{
    let fields = fields_in(alloc, p, text)?;
    cell_of(alloc, p.fields.len(), &fields)
}
