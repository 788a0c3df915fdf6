//! A whole file as numbered things: procedures, resources, and the program with all that it keeps.

ghost use Rattle.std.specs.Prelude.{◌≡◌, ◌<◌, ◌≤◌, length, map, slice_get, Some, IfSome};
ghost use Rattle.std.specs.Option.{option_map};
ghost use Rattle.sf_base.specs.declared.limits.TheConstants.{PROCEDURES};
ghost use Rattle.sf_core.specs.Program.Formed.{IsFormed};
ghost use Rattle.sf_core.specs.Checked.FormedIsProp.{AreLinks-prop, IsFormed-prop, IsInitAmong-prop};
ghost use Rattle.sf_core.specs.Program.Init.{IsInitAmong, is_init_at};
ghost use Rattle.sf_core.specs.Program.Links.{AreLinks, IsFieldNamed};
ghost use Rattle.sf_core.specs.Program.Named.{IsFirstNamed, name_at};
ghost use Rattle.sf_core.specs.Program.View.{procedure_of, program_with};

use crate::assertion::Assertion;
use crate::command::Command;
use crate::fields::{Links, field_named};
use sf_base::{FieldId, Name, Place, ProcId};

/// A procedure.
#[derive(Debug, Drop)]
pub struct Proc {
    /// Its name.
    pub name: Name,
    /// The place of its name.
    pub place: Place,
    /// The names of its own variables by number: references, values, declared locals, primed
    /// locals.
    pub names: Vec<Name>,
    /// How many of them are references.
    pub references: u32,
    /// How many are values.
    pub values: u32,
    /// How many are declared locals.
    pub locals: u32,
    /// What its callers have to bring.
    pub pre: Assertion,
    /// What they get back.
    pub post: Assertion,
    /// Its commands.
    pub body: Vec<Command>,
    /// The place of the body's closing brace.
    pub end: Place,
}

/// A resource with its variables, which have this invariant while nobody holds it.
#[derive(Debug, Drop)]
pub struct Resource {
    /// Its name.
    pub name: Name,
    /// The names of its variables by number.
    pub variables: Vec<Name>,
    /// What holds of its cells while nobody holds it.
    pub invariant: Assertion,
}

/// A whole file. Its numbers are those of things that are there, each call has its procedure's
/// counts, no body sets a value parameter, a pre and a post mention no local and an invariant only
/// variables of its resource, predicates have the fields that they follow, scopes number
/// existentials in text order, and limits are met. At most one procedure is named `init`; it has
/// no parameter and no conjunct in its pre and post, and no call names it.
#[derive(Debug, Drop)]
pub struct Program {
    /// The names of the fields by number.
    pub fields: Vec<Name>,
    /// The resources by number.
    pub resources: Vec<Resource>,
    /// The procedures by number.
    pub procedures: Vec<Proc>,
    /// The fields that segments and trees follow.
    pub links: Links,
    /// The procedure that sets the resources up, if there is one: the one named `init`.
    pub init: Option<ProcId>,
    ghost formed: { IsFormed
        (program_with fields.items resources.items procedures.items) } by { IsFormed-prop _ },
    ghost linked: { AreLinks fields.items links } by { AreLinks-prop _ _ },
    ghost set_up: { IsInitAmong (map (λ f. f.name) procedures.items) init } by { IsInitAmong-prop _ _ },
}

impl Proc {
    /// Which of these procedures sets the resources up: the first one named `init`. `None` exactly
    /// where there is none.
    pub fn init_among(procedures: &[Proc]) -> Option<ProcId>
        requires { length procedures.now ≤ PROCEDURES }
        ensures { IsInitAmong (map (λ f. f.name) procedures.now) result }
    {
        procedure_named(procedures, "init")
    }
}

impl Program {
    /// The number of the first procedure of that name. `None` exactly where there is none.
    pub fn find(&self, name: &str) -> Option<ProcId>
        ensures first { IsFirstNamed (map (λ f. f.name) self.now.procedures.items) name.now
            (option_map (λ f. f.0) result) }
        ensures within { IfSome result (λ f. f.0 < length self.now.procedures.items) }
    {
        procedure_named(&self.procedures, name)
    }

    /// Whether the procedure of that number sets the resources up.
    pub fn is_init(&self, f: ProcId) -> bool
        ensures { result ≡ is_init_at (map procedure_of self.now.procedures.items) f }
    {
        match self.init {
            Some(init) => init.0 == f.0,
            None => false,
        }
    }

    /// The procedure of that number.
    pub fn proc(&self, f: ProcId) -> &Proc
        requires { f.0 < length self.now.procedures.items }
        ensures here { slice_get self.now.procedures.items f.0 ≡ Some result.now }
        ensures meaning { slice_get (map procedure_of self.now.procedures.items) f.0
            ≡ Some (procedure_of result.now) }
    {
        &self.procedures[f.0 as usize]
    }

    /// The name of the procedure of that number, empty where there is none.
    pub fn name_of(&self, f: ProcId) -> &[u8]
        ensures { result.now ≡ name_at (map procedure_of self.now.procedures.items) f }
    {
        if (f.0 as usize) < self.procedures.len() {
            return self.proc(f).name.as_bytes();
        }
        &[]
    }

    /// The number of the field of that name. `None` exactly where there is none.
    pub fn field(&self, name: &str) -> Option<FieldId>
        ensures first { IsFieldNamed self.now.fields.items name.now result }
        ensures within { IfSome result (λ f. f.0 < length self.now.fields.items) }
    {
        field_named(&self.fields, name)
    }
}

/// The number of the first of these procedures of that name. `None` exactly where there is none.
fn procedure_named(procedures: &[Proc], name: &str) -> Option<ProcId>
    requires { length procedures.now ≤ PROCEDURES }
    ensures first { IsFirstNamed (map (λ f. f.name) procedures.now) name.now
        (option_map (λ f. f.0) result) }
    ensures within { IfSome result (λ f. f.0 < length procedures.now) }
{
    for (i, procedure) in procedures.iter().enumerate() {
        if procedure.name.as_bytes() == name.as_bytes() {
            return Some(ProcId(i as u32));
        }
    }
    None
}
