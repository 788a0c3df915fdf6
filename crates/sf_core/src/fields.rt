//! Fields by name, and the links: the fields that segments and trees follow.

ghost use Rattle.std.specs.Prelude.{◌<◌, ◌≤◌, length, IfSome};
ghost use Rattle.sf_base.specs.declared.limits.TheConstants.{FIELDS};
ghost use Rattle.sf_core.specs.Program.Links.{AreLinks, IsFieldNamed};

use sf_base::{FieldId, Name};

/// The fields that segments and trees follow, each where the file has it.
#[derive(Clone, Copy, Debug, PartialEq, Eq)]
pub struct Links {
    /// The field of a list segment.
    pub tl: Option<FieldId>,
    /// The field by which a doubly linked segment leads back.
    pub pv: Option<FieldId>,
    /// The left field of a tree.
    pub l: Option<FieldId>,
    /// The right field of a tree.
    pub r: Option<FieldId>,
}

impl Links {
    /// The links of a file with these fields.
    pub fn among(fields: &[Name]) -> Links
        requires { length fields.now ≤ FIELDS }
        ensures { AreLinks fields.now result }
    {
        Links {
            tl: field_named(fields, "tl"),
            pv: field_named(fields, "pv"),
            l: field_named(fields, "l"),
            r: field_named(fields, "r"),
        }
    }
}

/// The number of the first of these fields of that name. `None` exactly where there is none.
pub(crate) fn field_named(fields: &[Name], name: &str) -> Option<FieldId>
    requires { length fields.now ≤ FIELDS }
    ensures first { IsFieldNamed fields.now name.now result }
    ensures within { IfSome result (λ f. f.0 < length fields.now) }
{
    for (i, field) in fields.iter().enumerate() {
        if field.as_bytes() == name.as_bytes() {
            return Some(FieldId(i as u32));
        }
    }
    None
}
