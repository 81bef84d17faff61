//! Binds the tables of FROM.

ghost use Rattle.std.specs.Prelude.{◌≡◌};
ghost use Rattle.table_model.specs.Binding as spec;
ghost use Rattle.table_model.specs.Outcomes.{Gives};
ghost use Rattle.table_model.specs.References.{AreOneOrTwo};

use crate::query_binder::TableDef;
use sqlite_items::Items;
use std::alloc::{AllocError, Global};
use table_model::conditions::Reference;
use table_model::faults::QueryFault;
use table_model::queries::{Name, WrittenReference};
use table_model::references::References;
use table_model::texts::same_name;

/// Finds the place of a table by its name.
fn table_place(definitions: &[TableDef], name: &[u8]) -> Option<usize>
    ensures { result ≡ spec.table_place definitions.now name.now }
{
    definitions
        .iter()
        .position(|table| same_name(table.name.bytes(), name))
}

/// The name of a reference: its alias, or its table's name as the schema spells it if it has no alias.
fn reference_name<'n>(
    definitions: &'n [TableDef],
    place: usize,
    alias: &Option<Name<'n>>,
) -> &'n [u8]
    ensures { result.now ≡ spec.reference_name definitions.entry.now place alias.entry.now }
{
    match (alias, definitions.get(place)) {
        (Some(alias), _) => alias.text.bytes(),
        (None, Some(table)) => table.name.bytes(),
        (None, None) => &[],
    }
}

/// The byte at which the name of a reference, or a column, starts.
pub fn name_start(name: &Name<'_>, before: &Option<Name<'_>>) -> usize
    ensures { result ≡ spec.name_start name.now before.now }
{
    match before {
        Some(first) => first.at,
        None => name.at,
    }
}

/// Binds a reference of FROM.
fn bound_reference(
    alloc: Global,
    definitions: &[TableDef],
    written: &WrittenReference<'_>,
) -> Result<Reference, QueryFault>
    ensures { Gives QueryFault.OutOfMemory (λ r. r) result
        (spec.bound_reference definitions.now written.now) }
{
    let Some(table) = table_place(definitions, written.table.text.bytes()) else {
        return Err(QueryFault::UnknownTable(written.table.at));
    };
    let name = Items::from_slice(alloc, reference_name(definitions, table, &written.alias))?;
    Ok(Reference { table, name })
}

/// Binds the references of FROM, from left to right. The fault is `UnknownTable` at a table's name, or `SameName` at
/// the name of a reference that an earlier one has.
pub fn bound_references(
    alloc: Global,
    definitions: &[TableDef],
    written: &References<WrittenReference<'_>>,
) -> Result<References<Reference>, QueryFault>
    ensures answer { Gives QueryFault.OutOfMemory (λ r. r) result
        (spec.bound_references definitions.now written.now) }
    ensures few { AreOneOrTwo written.now }
{
    let (first, second) = written.parts();
    let reference = bound_reference(alloc, definitions, first)?;
    let Some(written) = second else {
        return Ok(References::one(alloc, reference)?);
    };
    let other = bound_reference(alloc, definitions, written)?;
    if same_name(reference.name.as_slice(), other.name.as_slice()) {
        let at = name_start(&written.table, &written.alias);
        return Err(QueryFault::SameName(at));
    }
    Ok(References::two(alloc, reference, other)?)
}
