//! What the items of a file declare.

ghost use Rattle.std.specs.Prelude.{◌≡◌, ◌++◌, ◌+◌, [], length, map, IfOk, OnOk};
ghost use Rattle.sf_base.specs.Results.{Appends};
ghost use Rattle.sf_ast.specs.View.{item_of, names_of, parameters_of, procedure_of};
ghost use Rattle.sf_base.specs.declared.ids.Var.TheVariants.{Own};
ghost use Rattle.sf_base.specs.declared.limits.TheConstants.{FIELDS, OWN_VARIABLES, RESOURCE_VARIABLES};
ghost use Rattle.sf_elab.specs.declared.fault.Fault.TheVariants.{Twice};
ghost use Rattle.sf_elab.specs.Names.Declarations.{words_of, field_words, resources_in, procedures_in, references_of, values_of, numbered, numbered_faults, beyond, nth_field, field_table, field_names, usual_fields, usual_names, resource_table, resource_name_faults, shared_by, shared_table, shared_faults, all_shared_faults, owner_faults, header_of, procedure_table, procedure_name_faults, declared_by, declared_faults};
ghost use Rattle.sf_elab.specs.Files.Faults.{where_};
ghost use Rattle.sf_elab.specs.Names.Table.{declare, has};
ghost use Rattle.sf_elab.specs.Names.Texts.{text as word_text};

use crate::assertions::link_name;
use crate::commands::add_all;
use crate::declared::{Declared, Header};
use crate::env::report_if;
use crate::fault::{Fault, Link};
use crate::table::Table;
use crate::texts::{name, text};
use sf_ast::{Item, SurfaceNames, SurfaceParameters, SurfaceProcedure, Word};
use sf_base::limits::{FIELDS, OWN_VARIABLES, PROCEDURES, RESOURCE_VARIABLES, RESOURCES};
use sf_base::{Counted, FieldId, Name, Place, ProcId, ResId, Var};
use std::alloc::{AllocError, Global};

/// Appends the names.
pub fn add_names(names: &SurfaceNames, words: &mut Vec<Word>) -> Result<(), AllocError>
    ensures { Appends result words.old.items words.new.items (words_of (names_of names.now)) }
{
    words.push(names.first)?;
    add_all(&names.more, words)
}

/// Appends the names of all fields that the items declare.
fn add_field_words(items: &[Item], words: &mut Vec<Word>) -> Result<(), AllocError>
    ensures { Appends result words.old.items words.new.items (field_words (map item_of items.now)) }
{
    for item in items {
        if let Item::Fields(names) = item {
            add_names(names, words)?;
        }
    }
    Ok(())
}

/// The references of a procedure.
pub fn references_of(parameters: &SurfaceParameters) -> &[Word]
    ensures { result.now ≡ references_of (parameters_of parameters.now) }
{
    match parameters {
        SurfaceParameters::Values(_) => &[],
        SurfaceParameters::Both(references, _) => references.as_slice(),
    }
}

/// The value parameters of a procedure.
pub fn values_of(parameters: &SurfaceParameters) -> &[Word]
    ensures { result.now ≡ values_of (parameters_of parameters.now) }
{
    match parameters {
        SurfaceParameters::Values(values) => values.as_slice(),
        SurfaceParameters::Both(_, values) => values.as_slice(),
    }
}

/// Declares a name that stands for that, and notes where there is one already.
fn declare_name<V: Copy>(
    alloc: Global,
    bytes: &[u8],
    word: Word,
    value: V,
    table: &mut Table<V>,
    found: &mut Vec<Fault>,
) -> Result<(), AllocError>
    ensures table { OnOk result (table.new ≡ declare (word_text bytes.now word) value table.old) }
    ensures faults { Appends result found.old.items found.new.items
        (where_ (has (word_text bytes.now word) table.old) (Twice word)) }
{
    let name = text(bytes, word);
    report_if(table.find(name).is_some(), Fault::Twice(word), found)?;
    table.declare(alloc, name, value)
}

/// Notes what is beyond a limit: the one of that number, at that place.
fn annotation_beyond(
    limit: usize,
    number: u32,
    place: Place,
    found: &mut Vec<Fault>,
) -> Result<(), AllocError>
    ensures { Appends result found.old.items found.new.items (beyond limit number place) }
{
    report_if(number as usize >= limit, Fault::TooMany(place), found)
}

/// Declares own variables, numbered after those that are declared already.
pub fn declare_own(
    alloc: Global,
    bytes: &[u8],
    words: &[Word],
    declared: &mut Counted<Word>,
    own: &mut Table<Var>,
    found: &mut Vec<Fault>,
) -> Result<(), AllocError>
    ensures declared { Appends result declared.old declared.new words.now }
    ensures table { OnOk result
        (own.new ≡ numbered bytes.now Own (length declared.old) words.now own.old) }
    ensures faults { Appends result found.old.items found.new.items
        (numbered_faults bytes.now OWN_VARIABLES Own (length declared.old) words.now own.old) }
{
    for word in words {
        let number = declared.len();
        declare_name(alloc, bytes, *word, Var::Own(number), own, found)?;
        annotation_beyond(OWN_VARIABLES, number, word.place, found)?;
        declared.push(*word)?;
    }
    Ok(())
}

/// Declares fields, numbered from 0 on.
fn declare_fields(
    alloc: Global,
    bytes: &[u8],
    words: &[Word],
    fields: &mut Table<FieldId>,
    found: &mut Vec<Fault>,
) -> Result<(), AllocError>
    ensures table { OnOk result (fields.new ≡ numbered bytes.now nth_field 0 words.now fields.old) }
    ensures faults { Appends result found.old.items found.new.items
        (numbered_faults bytes.now FIELDS nth_field 0 words.now fields.old) }
{
    let mut declared = Counted::new(alloc);
    for word in words {
        let number = declared.len();
        declare_name(alloc, bytes, *word, FieldId(number), fields, found)?;
        annotation_beyond(FIELDS, number, word.place, found)?;
        declared.push(*word)?;
    }
    Ok(())
}

/// The fields that a file has where it declares none.
fn usual_fields(alloc: Global) -> Result<Table<FieldId>, AllocError>
    ensures { IfOk result (λ t. t ≡ usual_fields) }
{
    let mut fields = Table::new(alloc);
    fields.declare(alloc, b"hd", FieldId(0))?;
    fields.declare(alloc, link_name(Link::Next), FieldId(1))?;
    fields.declare(alloc, link_name(Link::Left), FieldId(2))?;
    fields.declare(alloc, link_name(Link::Right), FieldId(3))?;
    Ok(fields)
}

/// The fields of a file that declares those.
fn fields(
    alloc: Global,
    bytes: &[u8],
    words: &[Word],
    found: &mut Vec<Fault>,
) -> Result<Table<FieldId>, AllocError>
    ensures table { IfOk result (λ t. t ≡ field_table bytes.now words.now) }
    ensures faults { Appends result found.old.items found.new.items
        (numbered_faults bytes.now FIELDS nth_field 0 words.now []) }
{
    if words.is_empty() {
        return usual_fields(alloc);
    }
    let mut fields = Table::new(alloc);
    declare_fields(alloc, bytes, words, &mut fields, found)?;
    Ok(fields)
}

/// The fields that the items declare.
fn declared_fields(
    alloc: Global,
    bytes: &[u8],
    items: &[Item],
    found: &mut Vec<Fault>,
) -> Result<Table<FieldId>, AllocError>
    ensures table { IfOk result
        (λ t. t ≡ field_table bytes.now (field_words (map item_of items.now))) }
    ensures faults { Appends result found.old.items found.new.items
        (numbered_faults bytes.now FIELDS nth_field 0 (field_words (map item_of items.now)) []) }
{
    let mut words = Vec::new(alloc);
    add_field_words(items, &mut words)?;
    fields(alloc, bytes, &words, found)
}

/// The texts of words.
pub fn names(alloc: Global, bytes: &[u8], words: &[Word]) -> Result<Vec<Name>, AllocError>
    ensures { IfOk result (λ v. v.items ≡ map (word_text bytes.now) words.now) }
{
    let mut done = Counted::new(alloc);
    add_texts(alloc, bytes, words, &mut done)?;
    Ok(done.into_vec())
}

/// Appends the texts of words.
pub fn add_texts(
    alloc: Global,
    bytes: &[u8],
    words: &[Word],
    done: &mut Counted<Name>,
) -> Result<(), AllocError>
    ensures { Appends result done.old done.new (map (word_text bytes.now) words.now) }
{
    for word in words {
        done.push(name(alloc, bytes, *word)?)?;
    }
    Ok(())
}

/// The names of the fields that a file has where it declares none.
fn usual_names(alloc: Global) -> Result<Vec<Name>, AllocError>
    ensures { IfOk result (λ v. v.items ≡ usual_names) }
{
    let mut done = Vec::new(alloc);
    done.push(Name::new(alloc, b"hd")?)?;
    done.push(Name::new(alloc, link_name(Link::Next))?)?;
    done.push(Name::new(alloc, link_name(Link::Left))?)?;
    done.push(Name::new(alloc, link_name(Link::Right))?)?;
    Ok(done)
}

/// The names of the fields of a file that declares those.
fn field_names(alloc: Global, bytes: &[u8], words: &[Word]) -> Result<Vec<Name>, AllocError>
    ensures { IfOk result (λ v. v.items ≡ field_names bytes.now words.now) }
{
    if words.is_empty() {
        return usual_names(alloc);
    }
    names(alloc, bytes, words)
}

/// The names of the fields of a file.
pub fn field_names_of(alloc: Global, bytes: &[u8], items: &[Item]) -> Result<Vec<Name>, AllocError>
    ensures { IfOk result
        (λ v. v.items ≡ field_names bytes.now (field_words (map item_of items.now))) }
{
    let mut words = Vec::new(alloc);
    add_field_words(items, &mut words)?;
    field_names(alloc, bytes, &words)
}

/// Declares the resources among the items, numbered from 0 on.
fn declare_resources(
    alloc: Global,
    bytes: &[u8],
    items: &[Item],
    resources: &mut Table<ResId>,
    found: &mut Vec<Fault>,
) -> Result<(), AllocError>
    ensures table { OnOk result (resources.new
        ≡ resource_table bytes.now 0 (resources_in (map item_of items.now)) resources.old) }
    ensures faults { Appends result found.old.items found.new.items
        (resource_name_faults bytes.now 0 (resources_in (map item_of items.now)) resources.old) }
{
    let mut declared = Counted::new(alloc);
    for item in items {
        if let Item::Resource(resource) = item {
            let number = declared.len();
            declare_name(alloc, bytes, resource.name, ResId(number), resources, found)?;
            annotation_beyond(RESOURCES, number, resource.place, found)?;
            declared.push(resource.name)?;
        }
    }
    Ok(())
}

/// Notes what is wrong with a variable of a resource: the resource has it already, or another one
/// has.
fn annotation_owner(
    bytes: &[u8],
    word: Word,
    own: &Table<Var>,
    all: &Table<Var>,
    found: &mut Vec<Fault>,
) -> Result<(), AllocError>
    ensures { Appends result found.old.items found.new.items
        (owner_faults bytes.now own.now all.now word) }
{
    let name = text(bytes, word);
    if own.find(name).is_some() {
        found.push(Fault::Twice(word))?;
        return Ok(());
    }
    report_if(all.find(name).is_some(), Fault::OwnedTwice(word), found)
}

/// Declares a variable of a resource, among its own and among all, so many being declared.
fn declare_owned(
    alloc: Global,
    bytes: &[u8],
    word: Word,
    var: Var,
    count: u32,
    own: &mut Table<Var>,
    all: &mut Table<Var>,
    found: &mut Vec<Fault>,
) -> Result<(), AllocError>
    ensures own { OnOk result (own.new ≡ declare (word_text bytes.now word) var own.old) }
    ensures all { OnOk result (all.new ≡ declare (word_text bytes.now word) var all.old) }
    ensures faults { Appends result found.old.items found.new.items
        (owner_faults bytes.now own.old all.old word
        ++ beyond RESOURCE_VARIABLES count word.place) }
{
    annotation_owner(bytes, word, own, all, found)?;
    annotation_beyond(RESOURCE_VARIABLES, count, word.place, found)?;
    declare(alloc, bytes, word, var, own)?;
    declare(alloc, bytes, word, var, all)
}

/// Declares the variables of one resource, after those of others that are declared already.
pub fn declare_shared(
    alloc: Global,
    bytes: &[u8],
    k: u32,
    words: &[Word],
    declared: &mut Counted<Word>,
    all: &mut Table<Var>,
    found: &mut Vec<Fault>,
) -> Result<(), AllocError>
    ensures declared { Appends result declared.old declared.new words.now }
    ensures table { OnOk result (all.new ≡ numbered bytes.now (shared_by k) 0 words.now all.old) }
    ensures faults { Appends result found.old.items found.new.items
        (shared_faults bytes.now k (length declared.old) 0 words.now [] all.old) }
{
    let first = declared.len();
    let mut own = Table::new(alloc);
    for word in words {
        let count = declared.len();
        let var = Var::Shared(ResId(k), count - first);
        declare_owned(alloc, bytes, *word, var, count, &mut own, all, found)?;
        declared.push(*word)?;
    }
    Ok(())
}

/// Declares a name that stands for that.
pub fn declare<V: Copy>(
    alloc: Global,
    bytes: &[u8],
    word: Word,
    value: V,
    table: &mut Table<V>,
) -> Result<(), AllocError>
    ensures { OnOk result (table.new ≡ declare (word_text bytes.now word) value table.old) }
{
    table.declare(alloc, text(bytes, word), value)
}

/// Declares the variables of all resources among the items.
fn declare_variables(
    alloc: Global,
    bytes: &[u8],
    items: &[Item],
    all: &mut Table<Var>,
    found: &mut Vec<Fault>,
) -> Result<(), AllocError>
    ensures table { OnOk result
        (all.new ≡ shared_table bytes.now 0 (resources_in (map item_of items.now)) all.old) }
    ensures faults { Appends result found.old.items found.new.items
        (all_shared_faults bytes.now 0 0 (resources_in (map item_of items.now)) all.old) }
{
    let mut resources = Counted::new(alloc);
    let mut declared = Counted::new(alloc);
    for item in items {
        if let Item::Resource(resource) = item {
            let k = resources.len();
            let words = &resource.variables;
            declare_shared(alloc, bytes, k, words, &mut declared, all, found)?;
            resources.push(resource.name)?;
        }
    }
    Ok(())
}

/// What calls see of the procedure of that number.
fn header(number: u32, procedure: &SurfaceProcedure) -> Header
    ensures { result ≡ header_of number (procedure_of procedure.now) }
{
    Header {
        id: ProcId(number),
        references: references_of(&procedure.parameters).len(),
        values: values_of(&procedure.parameters).len(),
    }
}

/// Declares the procedures among the items, numbered from 0 on.
fn declare_procedures(
    alloc: Global,
    bytes: &[u8],
    items: &[Item],
    procedures: &mut Table<Header>,
    found: &mut Vec<Fault>,
) -> Result<(), AllocError>
    ensures table { OnOk result (procedures.new
        ≡ procedure_table bytes.now 0 (procedures_in (map item_of items.now)) procedures.old) }
    ensures faults { Appends result found.old.items found.new.items (procedure_name_faults
        bytes.now 0 (procedures_in (map item_of items.now)) procedures.old) }
{
    let mut declared = Counted::new(alloc);
    for item in items {
        if let Item::Procedure(procedure) = item {
            let number = declared.len();
            let header = header(number, procedure);
            declare_name(alloc, bytes, procedure.name, header, procedures, found)?;
            annotation_beyond(PROCEDURES, number, procedure.name.place, found)?;
            declared.push(procedure.name)?;
        }
    }
    Ok(())
}

/// Declares the resources with their variables, and the procedures, among the items.
fn declare_items(
    alloc: Global,
    bytes: &[u8],
    items: &[Item],
    all: &mut Declared,
    found: &mut Vec<Fault>,
) -> Result<(), AllocError>
    ensures fields { all.new.fields ≡ all.old.fields }
    ensures resources { OnOk result (all.new.resources
        ≡ resource_table bytes.now 0 (resources_in (map item_of items.now)) all.old.resources) }
    ensures shared { OnOk result (all.new.shared
        ≡ shared_table bytes.now 0 (resources_in (map item_of items.now)) all.old.shared) }
    ensures procedures { OnOk result (all.new.procedures
        ≡ procedure_table bytes.now 0 (procedures_in (map item_of items.now)) all.old.procedures) }
    ensures faults { Appends result found.old.items found.new.items
        (resource_name_faults bytes.now 0 (resources_in (map item_of items.now)) all.old.resources
        ++ all_shared_faults bytes.now 0 0 (resources_in (map item_of items.now)) all.old.shared
        ++ procedure_name_faults bytes.now 0 (procedures_in (map item_of items.now))
        all.old.procedures) }
{
    declare_resources(alloc, bytes, items, &mut all.resources, found)?;
    declare_variables(alloc, bytes, items, &mut all.shared, found)?;
    declare_procedures(alloc, bytes, items, &mut all.procedures, found)
}

/// All that a file declares.
pub fn declared(
    alloc: Global,
    bytes: &[u8],
    items: &[Item],
    found: &mut Vec<Fault>,
) -> Result<Declared, AllocError>
    ensures same { IfOk result (λ d. d ≡ declared_by bytes.now (map item_of items.now)) }
    ensures faults { Appends result found.old.items found.new.items
        (declared_faults bytes.now (map item_of items.now)) }
{
    let fields = declared_fields(alloc, bytes, items, found)?;
    let mut all = Declared {
        fields,
        resources: Table::new(alloc),
        shared: Table::new(alloc),
        procedures: Table::new(alloc),
    };
    declare_items(alloc, bytes, items, &mut all, found)?;
    Ok(all)
}
