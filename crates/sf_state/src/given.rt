//! What the lines of a text have given so far.

ghost use Rattle.sf_base.specs.declared.limits.TheConstants.{STATE_BYTES};
ghost use Rattle.std.specs.Prelude.{◌≡◌, ◌<◌, ◌≤◌, ◌+◌, ◌∷◌, ◌++◌, [], cond, length, replicate, set, slice_get, Some, None, IsTrue, IfOk, OnOk, is_some, vec_len, ◌↔◌, List};
ghost use Rattle.std.specs.Ordering.{nat_cmp};
ghost use Rattle.std.specs.BTreeMap as map;
ghost use Rattle.sf_core.specs.Program.ProgramView.{program_of};
ghost use Rattle.sf_state.specs.declared.line.Entry.{Entry as E};
ghost use Rattle.sf_state.specs.declared.line.Entry.TheVariants as e;
ghost use Rattle.sf_lines.specs.Lines.{Text};
ghost use Rattle.sf_state.specs.Checked.Keeping.{AllTaken, IsPlaced, Keeps, Taken};
ghost use Rattle.sf_state.specs.Says.{entries_of, says};
ghost use Rattle.sf_state.specs.Refused.{cell_name, cell_values, name_at, is_set, set_again, values_after};

use crate::fault::StartFault;
use crate::fields::Setting;
use crate::line::Entry;
use crate::names::name_at;
use crate::saying::says;
use itoa::Buffer;
use sf_base::limits::STATE_CELLS;
use sf_base::{FieldId, Name, Value};
use sf_core::Program;
use sf_heap::Cell;
use sf_lines::next_line;
use std::alloc::{AllocError, Global};
use std::collections::BTreeMap;

/// What the lines have given: for each variable, in canonical order, its value if one is given, and
/// the cells at their locations.
#[derive(Debug, Drop)]
pub(crate) struct Given {
    pub(crate) values: Vec<Option<Value>>,
    pub(crate) cells: BTreeMap<u64, Cell>,
}

/// Whether one of these sets the field.
fn is_set(settings: &[Setting], field: FieldId) -> bool
    ensures { result ≡ is_set settings.now field }
{
    settings.iter().any(|s| s.field.0 == field.0)
}

/// The first field that is set again.
pub(crate) fn set_again(settings: &[Setting]) -> Option<FieldId>
    ensures { result ≡ set_again [] settings.now }
{
    for i in 0..settings.len() {
        if is_set(&settings[..i], settings[i].field) {
            return Some(settings[i].field);
        }
    }
    None
}

/// The cell of which these fields are set.
pub(crate) fn cell_with(
    alloc: Global,
    count: usize,
    settings: &[Setting],
) -> Result<Cell, AllocError>
    ensures { IfOk result (λ c. c ≡ cell_values count settings.now) }
{
    let mut cell = Cell::new(alloc, count)?;
    for setting in settings {
        if (setting.field.0 as usize) < count {
            cell.put(setting.field, setting.value);
        }
    }
    Ok(cell)
}

/// The name of the cell at a location.
fn cell_name(alloc: Global, location: u64) -> Result<Name, AllocError>
    ensures { IfOk result (λ name. name ≡ cell_name location) }
{
    let mut bytes = Vec::from_slice(alloc, b"@")?;
    bytes.extend_from_slice(Buffer::new().format(location).as_bytes())?;
    Name::new(alloc, &bytes)
}

impl Given {
    /// Nothing is given yet of so many variables.
    pub(crate) fn new(alloc: Global, count: usize) -> Result<Given, AllocError>
        ensures { IfOk result (λ given. (fields : List Text) (names : List Text)
            → length names ≡ count → Keeps fields names given []) }
    {
        Ok(Given {
            values: Vec::from_elem(alloc, None, count)?,
            cells: BTreeMap::new(alloc),
        })
    }

    /// Takes a variable with its value.
    fn take_variable(
        &mut self,
        alloc: Global,
        names: &[Name],
        number: usize,
        value: Value,
    ) -> Result<(), StartFault>
        requires placed { number < length names.now }
        requires sized { vec_len self.old.values ≡ length names.now }
        ensures { (fields : List Text) (es : List E) → Keeps fields names.now self.old es
            → Taken fields names.now result self.new es (e.Variable number value) }
    {
        if self.values[number].is_some() {
            let name = Name::new(alloc, name_at(names, number))?;
            return Err(StartFault::Twice(name));
        }
        self.values[number] = Some(value);
        Ok(())
    }

    /// Takes a cell with the fields that are set.
    fn take_cell(
        &mut self,
        alloc: Global,
        p: &Program,
        location: u64,
        settings: &[Setting],
    ) -> Result<(), StartFault>
        ensures { (names : List Text) (es : List E)
            → Keeps (program_of p.now).fields names self.old es
            → Taken (program_of p.now).fields names result self.new es
            (e.Cell location settings.now) }
    {
        if self.cells.contains_key(&location) {
            return Err(StartFault::Twice(cell_name(alloc, location)?));
        }
        match set_again(settings) {
            Some(field) => {
                let name = Name::new(alloc, name_at(&p.fields, field.0 as usize))?;
                return Err(StartFault::Twice(name));
            }
            None => {}
        }
        if self.cells.len() >= STATE_CELLS {
            return Err(StartFault::TooLong);
        }
        let cell = cell_with(alloc, p.fields.len(), settings)?;
        self.cells.insert(location, cell)?;
        Ok(())
    }

    /// Takes what a line says, the one of that number.
    pub(crate) fn take(
        &mut self,
        alloc: Global,
        p: &Program,
        names: &[Name],
        line: u32,
        entry: Entry,
    ) -> Result<(), StartFault>
        requires placed { IsPlaced (length names.now) entry }
        requires sized { vec_len self.old.values ≡ length names.now }
        ensures { (es : List E) → length es + 1 ≡ line
            → Keeps (program_of p.now).fields names.now self.old es
            → Taken (program_of p.now).fields names.now result self.new es entry }
    {
        match entry {
            Entry::Nothing => Ok(()),
            Entry::Bad => Err(StartFault::BadLine(line)),
            Entry::Unknown(name) => Err(StartFault::Unknown(name)),
            Entry::Variable(number, value) => self.take_variable(alloc, names, number, value),
            Entry::Cell(location, settings) => {
                self.take_cell(alloc, p, location, settings.as_slice())
            }
        }
    }

    /// Reads the line before which there are so many.
    fn read_line(
        &mut self,
        alloc: Global,
        p: &Program,
        names: &[Name],
        before: u32,
        line: &[u8],
    ) -> Result<(), StartFault>
        requires sized { vec_len self.old.values ≡ length names.now }
        requires small { before < 4294967295 }
        ensures { (es : List E) → length es ≡ before
            → Keeps (program_of p.now).fields names.now self.old es
            → Taken (program_of p.now).fields names.now result self.new es
            (says (program_of p.now).fields names.now before line.now) }
    {
        let entry = says(alloc, p, names, before, line)?;
        self.take(alloc, p, names, before + 1, entry)
    }
}

/// What the lines of a text within the limit give.
pub(crate) fn read_lines(
    alloc: Global,
    p: &Program,
    names: &[Name],
    text: &[u8],
) -> Result<Given, StartFault>
    requires { length text.now ≤ STATE_BYTES }
    ensures { AllTaken (program_of p.now).fields names.now result
        (entries_of (program_of p.now).fields names.now text.now) }
{
    let mut given = Given::new(alloc, names.len())?;
    let mut before: u32 = 0;
    let mut left = Some(text);
    while let Some(rest) = left {
        let (line, more) = next_line(rest);
        given.read_line(alloc, p, names, before, line)?;
        before += 1;
        left = more;
    }
    Ok(given)
}
