//! The variables and cells that a text gives.

ghost use Rattle.std.specs.Prelude.{◌≡◌, ◌≤◌, ◌<◌, ◌&&◌, ◌⊎◌, None, Some, drop, is_none, length, map, IfErr, IfOk, IfSome, OnOk, slice_get};
ghost use Rattle.std.specs.List.{list_all};
ghost use Rattle.sf_base.specs.declared.limits.TheConstants.{STATE_BYTES};
ghost use Rattle.sf_core.specs.Program.ProgramView.{program_of};
ghost use Rattle.sf_core.specs.Program.View.{procedure_of};
ghost use Rattle.sf_state.specs.Checked.Keeping.{Completes};
ghost use Rattle.sf_state.specs.Names.{Format, format_of, names_of};
ghost use Rattle.sf_state.specs.Stated.{IsStated, missing_from, or_nil};
ghost use Rattle.sf_state.specs.declared.fault.StartFault.TheVariants.{OutOfMemory};

use crate::fault::StartFault;
use crate::given::{Given, read_lines};
use crate::names::{name_at, names_of, parameters};
use sf_base::limits::STATE_BYTES;
use sf_base::{Name, ProcId, Value};
use sf_core::{Proc, Program};
use sf_heap::Cell;
use std::alloc::{AllocError, Global};
use std::collections::BTreeMap;

/// The variables and cells that a text gives.
#[derive(Debug, Drop)]
pub struct State {
    /// The values of the variables, in canonical order: the entry's references, its values, and the
    /// variables of each resource in file order.
    pub values: Vec<Value>,
    /// The cells at their locations.
    pub cells: BTreeMap<u64, Cell>,
    /// Whether it is fresh: the program has `init`, which sets up the resources, and no line gives
    /// a variable of one.
    pub fresh: bool,
}

/// Refuses these values of the variables with those names, where one of them is missing.
fn check_given(alloc: Global, names: &[Name], given: &[Option<Value>]) -> Result<(), StartFault>
    ensures ok { OnOk result (missing_from names.now 0 given.now ≡ None) }
    ensures err { IfErr result (λ f. (f ≡ OutOfMemory)
        ⊎ (missing_from names.now 0 given.now ≡ Some f)) }
{
    for i in 0..given.len() {
        if given[i].is_none() {
            let name = Name::new(alloc, name_at(names, i))?;
            return Err(StartFault::Missing(name));
        }
    }
    Ok(())
}

/// The values of these variables, nil where one isn't given.
fn values_or_nil(alloc: Global, given: &[Option<Value>]) -> Result<Vec<Value>, AllocError>
    ensures { IfOk result (λ values. values.items ≡ map or_nil given.now) }
{
    let mut values = Vec::with_capacity(alloc, given.len())?;
    for value in given {
        match value {
            Some(value) => values.push(*value)?,
            None => values.push(Value::Nil)?,
        }
    }
    Ok(values)
}

/// Whether the state is fresh: there is a procedure that sets up the resources, and none of their
/// variables is given, which come after so many others.
fn is_fresh(init: bool, own: usize, given: &[Option<Value>]) -> bool
    requires { own ≤ length given.now }
    ensures { result ≡ (init && list_all is_none (drop own given.now)) }
{
    if !init {
        return false;
    }
    none_given(&given[own..])
}

/// Whether none of these variables is given.
fn none_given(given: &[Option<Value>]) -> bool
    ensures { result ≡ list_all is_none given.now }
{
    for value in given {
        if value.is_some() {
            return false;
        }
    }
    true
}

/// The state in which the variables with these names are given so, of which so many are the
/// procedure's own; where there is `init`, the others may all be left out.
fn state_of(
    alloc: Global,
    names: &[Name],
    own: usize,
    init: bool,
    given: Given,
) -> Result<State, StartFault>
    requires { own ≤ length given.values.items }
    ensures { (m : Format) → m.names ≡ names.now → m.own ≡ own → m.init ≡ init
        → Completes m given result }
{
    let fresh = is_fresh(init, own, &given.values);
    let needed = if fresh { own } else { given.values.len() };
    check_given(alloc, names, &given.values[..needed])?;
    let values = values_or_nil(alloc, &given.values)?;
    Ok(State {
        values,
        cells: given.cells,
        fresh,
    })
}

/// The variables and cells that a text within the limit gives to procedure `g`, whose names these
/// are.
pub(crate) fn read_named(
    alloc: Global,
    p: &Program,
    g: &Proc,
    names: &[Name],
    text: &[u8],
) -> Result<State, StartFault>
    requires short { length text.now ≤ STATE_BYTES }
    requires names { names.now ≡ names_of (program_of p.now) (procedure_of g.now) }
    ensures { IsStated (format_of (program_of p.now) (procedure_of g.now)) text.now result }
{
    let given = read_lines(alloc, p, names, text)?;
    state_of(alloc, names, parameters(g).len(), p.init.is_some(), given)
}

/// The variables and cells that the text of a state of procedure `f` gives. Each line is empty, a
/// comment, a variable or a cell; the first may be `finished`.
///
/// `TooLong` comes exactly where the text has more than 67,108,864 bytes. Else the first line that
/// is refused is told, by the first of these that is so: it has none of the forms (`BadLine`), a
/// name in it stands for nothing (`Unknown`), it gives something again (`Twice`), or its cell is
/// one too many (`TooLong`). Else `Missing` names the first variable without a value that has to
/// have one: in a fresh state the procedure's own alone, while those of the resources are nil. Or
/// memory runs out.
pub fn read_state(alloc: Global, p: &Program, f: ProcId, text: &[u8]) -> Result<State, StartFault>
    requires { f.0 < length p.now.procedures.items }
    ensures { IfSome (slice_get (program_of p.now).procedures f.0)
        (λ g. IsStated (format_of (program_of p.now) g) text.now result) }
{
    if text.len() > STATE_BYTES {
        return Err(StartFault::TooLong);
    }
    let g = p.proc(f);
    let names = names_of(alloc, p, g)?;
    read_named(alloc, p, g, &names, text)
}
