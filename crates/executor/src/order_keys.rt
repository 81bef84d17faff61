//! Keys by which rows are sorted: what is read from a column of each row.

ghost use Rattle.std.specs.Prelude.{◌≡◌, ◌<◌, All, IfOk, string_bytes};
ghost use Rattle.executor.specs.EqualGroups.{orders_by};
ghost use Rattle.executor.specs.ValueOrder as spec;
ghost use Rattle.feature_table.specs.Cells.{shown};
ghost use Rattle.geometry_model.specs.CanonicalText.{canonical_text};
ghost use Rattle.spatial_sql.specs.Readings.{value_read};
ghost use Rattle.spatial_sql.specs.declared.readings.Reading.TheVariants as readings;

use crate::value_order::field_of;
use feature_table::{Field, Geometry, Table};
use rtree::EnvelopeIndex;
use spatial_sql::{ReadColumn, Reading, dimension_of, printed};
use sqlite_items as items;
use std::alloc::{AllocError, Global};

/// A key by which rows are sorted: what is read from a column of each row.
#[derive(Drop)]
pub enum OrderKey {
    /// The fields of the column.
    Fields(usize),
    /// The dimensions of the geometries in the column.
    Dimensions(usize),
    /// The canonical texts of the geometries in the column, which are kept: one for each row, None for a row without a geometry.
    Texts(usize, Vec<Option<String>>),
}

impl OrderKey {
    /// The column.
    pub(crate) fn column(&self) -> usize
        ensures { result ≡ spec.column_of self.now }
    {
        match self {
            OrderKey::Fields(column) => *column,
            OrderKey::Dimensions(column) => *column,
            OrderKey::Texts(column, _) => *column,
        }
    }

    /// What is read from the column.
    pub(crate) fn reading(&self) -> Reading
        ensures { result ≡ spec.reading_of self.now }
    {
        match self {
            OrderKey::Fields(_) => Reading::Field,
            OrderKey::Dimensions(_) => Reading::Dimension,
            OrderKey::Texts(_, _) => Reading::Text,
        }
    }

    /// Whether the key is what is read from this column.
    pub(crate) fn is_of(&self, read: ReadColumn) -> bool
        ensures { result ≡ orders_by read self.now }
    {
        let column = read.place.column;
        match self {
            OrderKey::Fields(own) => match read.reading {
                Reading::Field => *own == column,
                Reading::Text | Reading::Dimension => false,
            },
            OrderKey::Dimensions(own) => match read.reading {
                Reading::Dimension => *own == column,
                Reading::Field | Reading::Text => false,
            },
            OrderKey::Texts(own, _) => match read.reading {
                Reading::Text => *own == column,
                Reading::Field | Reading::Dimension => false,
            },
        }
    }

    /// The key's value for the row at a place, as a field.
    pub(crate) fn value<'a, I: EnvelopeIndex + Drop>(
        &'a self,
        table: &'a Table<I>,
        place: usize,
    ) -> Field<'a>
        ensures { shown result ≡ spec.key_value self.entry.now table.entry.now place }
    {
        match self {
            OrderKey::Fields(column) => field_of(table, *column, place),
            OrderKey::Dimensions(column) => dimension_of(field_of(table, *column, place)),
            OrderKey::Texts(_, texts) => kept_text(texts.as_slice(), place),
        }
    }
}

/// The text that is kept at a place; NULL if there is none.
fn kept_text(texts: &[Option<String>], place: usize) -> Field<'_>
    ensures { shown result ≡ spec.kept_text texts.entry.now place }
{
    match items::at(texts, place) {
        Some(Some(text)) => Field::Text(text.as_str()),
        Some(None) | None => Field::Null,
    }
}

/// Prints the canonical text of a geometry. It fails only when memory runs out.
pub(crate) fn made_text(alloc: Global, geometry: &Geometry) -> Result<String, AllocError>
    ensures { IfOk result (λ text. string_bytes text ≡ canonical_text geometry.now) }
{
    let sink = printed(alloc, geometry)?;
    match str::from_utf8(sink.bytes()) {
        Ok(text) => {
            let mut made = String::new(alloc);
            made.push_str(text)?;
            Ok(made)
        }
        // A canonical text is ASCII.
        Err(_) => Err(AllocError),
    }
}

/// Prints the canonical text of the geometry in a field; None if there is no geometry. It fails only when memory runs out.
fn text_of_field(alloc: Global, field: Field<'_>) -> Result<Option<String>, AllocError>
    ensures { IfOk result (λ text. spec.text_value text ≡ value_read readings.Text (shown field.entry)) }
{
    match field {
        Field::Geom(geometry) => Ok(Some(made_text(alloc, geometry)?)),
        Field::Null | Field::Int(_) | Field::Text(_) => Ok(None),
    }
}

/// Prints the canonical texts of the geometries in a column, one for each row. It fails only when memory runs out.
fn texts_of<I: EnvelopeIndex + Drop>(
    alloc: Global,
    table: &Table<I>,
    column: usize,
) -> Result<Vec<Option<String>>, AllocError>
    ensures { IfOk result (λ texts. spec.AreTexts column table.now texts.items) }
{
    let mut texts = Vec::new(alloc);
    for place in 0..table.rows() {
        texts.push(text_of_field(alloc, field_of(table, column, place))?)?;
    }
    Ok(texts)
}

/// Makes the key of what is read from a column. It fails only when memory runs out.
fn key_of<I: EnvelopeIndex + Drop>(
    alloc: Global,
    table: &Table<I>,
    read: ReadColumn,
) -> Result<OrderKey, AllocError>
    ensures { IfOk result (spec.IsKey table.now) }
{
    let column = read.place.column;
    match read.reading {
        Reading::Field => Ok(OrderKey::Fields(column)),
        Reading::Dimension => Ok(OrderKey::Dimensions(column)),
        Reading::Text => Ok(OrderKey::Texts(column, texts_of(alloc, table, column)?)),
    }
}

/// Makes the keys of what is read from some columns. It fails only when memory runs out.
pub(crate) fn keys_of<I: EnvelopeIndex + Drop>(
    alloc: Global,
    table: &Table<I>,
    columns: &[ReadColumn],
) -> Result<Vec<OrderKey>, AllocError>
    ensures { IfOk result (λ keys. All (spec.IsKey table.now) keys.items) }
{
    let mut keys = Vec::new(alloc);
    for read in columns {
        keys.push(key_of(alloc, table, *read)?)?;
    }
    Ok(keys)
}
