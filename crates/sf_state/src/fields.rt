//! What the words of a cell's fields say.

ghost use Rattle.std.specs.Prelude.{◌≡◌, IfOk, OnOk, MatchOption, Some, None};
ghost use Rattle.sf_core.specs.Program.ProgramView.{program_of};
ghost use Rattle.sf_lines.specs.Lines.{words};
ghost use Rattle.sf_state.specs.Says.{both, field_said, fields_said, set_field, setting_of};

use crate::names::field_named;
use crate::values::value;
use sf_base::{FieldId, Name, Sequence, Value};
use sf_core::Program;
use sf_lex::is_name;
use sf_lines::{next_word, split_once};
use std::alloc::{AllocError, Global};

/// A field with its value.
#[derive(Clone, Copy, Debug, PartialEq, Eq)]
pub struct Setting {
    /// The field.
    pub field: FieldId,
    /// What it has.
    pub value: Value,
}

/// What words say of the fields of a cell.
#[derive(Debug, Drop)]
pub enum Fields {
    /// One of them isn't in order.
    Bad,
    /// All are in order, and this is the first name that is no field's.
    Unknown(Name),
    /// The fields have these values, in the order of the text.
    Are(Sequence<Setting>),
}

/// The name and the value that a word `field=value` has. `None` where it isn't one.
fn setting_in(word: &[u8]) -> Option<(&[u8], Value)>
    ensures { MatchOption result (setting_of word.now ≡ None)
        (λ s. setting_of word.now ≡ Some (s.0.now, s.1)) }
{
    let (name, text) = split_once(b'=', word)?;
    let value = value(text)?;
    if is_name(name) {
        Some((name, value))
    } else {
        None
    }
}

impl Fields {
    /// These, and a field with that name and value.
    fn set(
        &mut self,
        alloc: Global,
        p: &Program,
        name: &[u8],
        value: Value,
    ) -> Result<(), AllocError>
        ensures { OnOk result (self.new ≡ both self.old
            (field_said (program_of p.now).fields (Some (name.now, value)))) }
    {
        if let Fields::Are(settings) = self {
            match field_named(p, name) {
                Some(field) => settings.push(Setting { field, value })?,
                None => *self = Fields::Unknown(Name::new(alloc, name)?),
            }
        }
        Ok(())
    }

    /// These, and what a word says.
    fn add(&mut self, alloc: Global, p: &Program, word: &[u8]) -> Result<(), AllocError>
        ensures { OnOk result (self.new ≡ both self.old
            (field_said (program_of p.now).fields (setting_of word.now))) }
    {
        match setting_in(word) {
            Some((name, value)) => self.set(alloc, p, name, value),
            None => {
                *self = Fields::Bad;
                Ok(())
            }
        }
    }
}

/// What the words of a text say of the fields of a cell.
#[tactic(auto, using(crate::proofs::Together::fold))]
pub(crate) fn fields_in(alloc: Global, p: &Program, text: &[u8]) -> Result<Fields, AllocError>
    ensures { IfOk result
        (λ fields. fields ≡ fields_said (program_of p.now).fields (words text.now)) }
{
    let mut fields = Fields::Are(Sequence::new(alloc));
    let mut left = text;
    'words: while let Some((word, rest)) = next_word(left) {
        fields.add(alloc, p, word)?;
        left = rest;
    }
    Ok(fields)
}
