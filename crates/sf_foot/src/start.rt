//! What a run starts with, and what it ends with.

ghost use Rattle.std.specs.Prelude.{◌≡◌};
ghost use Rattle.sf_core.specs.Program.ProgramView.{program_of};
ghost use Rattle.sf_foot.specs.Checked.StartIsProp.{IsDisjointUnion-prop, IsFreshFrom-prop};
ghost use Rattle.sf_foot.specs.Starting.{IsDisjointUnion, IsFirstUnit, IsFreshFrom, StartsWith};

use crate::vars::Vars;
use sf_base::ProcId;
use sf_core::Program;
use sf_heap::{Heap, Locations};

/// The variables and cells with which a procedure starts. It is fresh where the program's procedure
/// `init` runs first, which sets the resources up. It keeps that the cells are the disjoint union of
/// the parts, and that no location from the first unit on is mentioned in it.
#[derive(Debug, Drop)]
pub struct Start {
    /// The values of the procedure's references and values, and of the variables of each resource.
    pub vars: Vars,
    /// The cells.
    pub heap: Heap,
    /// The footprint of the precondition, and then, unless it is fresh, that of each resource's
    /// invariant, in file order.
    pub parts: Vec<Locations>,
    /// The first unit: above each location that is mentioned, and at most 2^62.
    pub unit: u64,
    /// Whether `init` runs first: then the variables of the resources are nil.
    pub fresh: bool,
    pub ghost union: { IsDisjointUnion heap parts.items } by { IsDisjointUnion-prop heap parts.items },
    pub ghost above: { IsFreshFrom vars heap unit } by { IsFreshFrom-prop vars heap unit },
}

/// The variables and cells with which a procedure ends.
#[derive(Debug, Drop)]
pub struct Finish {
    /// The values of the procedure's references and values, and of the variables of each resource.
    pub vars: Vars,
    /// The cells.
    pub heap: Heap,
}

impl Start {
    /// The start of procedure `f` of program `p` with these variables and cells, fresh or not, whose
    /// parts are the footprint of its precondition and then, unless it is fresh, of each resource's
    /// invariant, in file order. The unit is one more than the greatest location that is mentioned,
    /// of a cell or as a value, and 1 where none is.
    pub fn new(
        p: &Program,
        f: ProcId,
        vars: Vars,
        heap: Heap,
        parts: Vec<Locations>,
        unit: u64,
        fresh: bool,
    ) -> Start
        requires starts { StartsWith (program_of p.now) f fresh vars heap parts.items }
        requires first_unit { IsFirstUnit vars heap unit }
        ensures vars { result.vars ≡ vars }
        ensures heap { result.heap ≡ heap }
        ensures parts { result.parts ≡ parts }
        ensures unit { result.unit ≡ unit }
        ensures fresh { result.fresh ≡ fresh }
    {
        Start {
            vars,
            heap,
            parts,
            unit,
            fresh,
        }
    }
}
