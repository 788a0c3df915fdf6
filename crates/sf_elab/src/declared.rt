//! What the names of a file stand for.

use crate::table::Table;
use sf_base::{FieldId, ProcId, ResId, Var};

/// What calls see of a procedure.
#[derive(Clone, Copy, Debug, PartialEq, Eq)]
pub struct Header {
    /// Its number.
    pub id: ProcId,
    /// How many references it has.
    pub references: usize,
    /// How many values.
    pub values: usize,
}

/// What the names of a whole file stand for. Of two things of one name the first counts.
#[derive(Drop)]
pub struct Declared {
    /// The fields, or the usual ones where none is declared.
    pub fields: Table<FieldId>,
    /// The resources.
    pub resources: Table<ResId>,
    /// The variables of all resources.
    pub shared: Table<Var>,
    /// The procedures, as calls see them.
    pub procedures: Table<Header>,
}
