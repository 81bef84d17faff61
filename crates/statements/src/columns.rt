//! The columns of a statement's rows: their number, names and kinds, and the fields of the current row.

ghost use Rattle.std.specs.Prelude.{◌≡◌, ◌∷◌, [], IfOk, IfSome, Some, decimal, length, slice_get};
ghost use Rattle.std.specs.Fmt.{signed_decimal};
ghost use Rattle.std.specs.Option.{option_and_then, option_map};
ghost use Rattle.statements.specs.Columns as spec;
ghost use Rattle.statements.specs.Statements.{IsOver};
ghost use Rattle.statements.specs.StatementTexts.{header_of};
ghost use Rattle.table_model.specs.SpatialTables.{SpatialSchema};

use crate::column_kinds::column_kind;
use crate::row_fields::{field_in_pair, number_in_pair};
use crate::written_rows::part_of;
use crate::{ColumnKind, CurrentRow, Statement};
use feature_table::Database;
use itoa::Buffer;
use rtree::EnvelopeIndex;
use std::alloc::{AllocError, Global};
use table_model::queries::Explain;

/// The digits of a number of rows, as the only field.
fn count_field(alloc: Global, count: u64, column: usize) -> Result<Option<Vec<u8>>, AllocError>
    ensures { IfOk result (λ field. option_map (λ text. text.items) field
        ≡ slice_get (decimal count ∷ []) column) }
{
    if column > 0 {
        return Ok(None);
    }
    let mut digits = Buffer::new();
    let text = Vec::from_slice(alloc, digits.format(count).as_bytes())?;
    Ok(Some(text))
}

/// A line, as the only field.
fn line_field(alloc: Global, line: &[u8], column: usize) -> Result<Option<Vec<u8>>, AllocError>
    ensures { IfOk result (λ field. option_map (λ text. text.items) field
        ≡ slice_get (line.now ∷ []) column) }
{
    if column > 0 {
        return Ok(None);
    }
    let text = Vec::from_slice(alloc, line)?;
    Ok(Some(text))
}

/// A number of rows, as the only field, if it fits in 64 bits with a sign.
fn count_number(count: u64, column: usize) -> Option<i64>
    ensures { result ≡ option_and_then spec.count_number (slice_get (count ∷ []) column) }
{
    if column > 0 {
        return None;
    }
    i64::try_from(count).ok()
}

impl Statement {
    /// The number of columns of the rows: one under COUNT(*) and under EXPLAIN.
    pub fn column_count(&self) -> usize
        ensures { (definitions : SpatialSchema) → result ≡ length (header_of definitions self.now.bound) }
    {
        match self.bound.explain {
            Explain::No => {
                if self.bound.counts {
                    return 1;
                }
                self.bound.items.len()
            }
            Explain::Plan | Explain::Analyze => 1,
        }
    }

    /// The name of a column, as in the header; None after the last column. It fails only when memory runs out.
    pub fn column_name<I: EnvelopeIndex + Drop>(
        &self,
        alloc: Global,
        database: &Database<'_, I>,
        column: usize,
    ) -> Result<Option<Vec<u8>>, AllocError>
        ensures { IfOk result (λ name. option_map (λ text. text.items) name
            ≡ slice_get (header_of database.now.definitions self.now.bound) column) }
    {
        let names = self.header(alloc, database)?;
        match names.get(column) {
            Some(name) => Ok(Some(Vec::from_slice(alloc, name)?)),
            None => Ok(None),
        }
    }

    /// The kind of a column's fields: for a column of a table that of its type, for ST_AsText a text, for ST_Dimension,
    /// ST_IsEmpty and COUNT(*) a number, and for EXPLAIN a text; None after the last column (SQL, the select list).
    pub fn column_kind<I: EnvelopeIndex + Drop>(
        &self,
        database: &Database<'_, I>,
        column: usize,
    ) -> Option<ColumnKind>
        ensures { result ≡ spec.column_kind database.now.definitions self.now.bound column }
    {
        column_kind(database.definitions(), &self.bound, column)
    }

    /// The field of a column of the current row, without quotes; None if there is no row, and after the last column. NULL is the
    /// empty text, and no other field is: no text loads as empty. It fails only when memory runs out (SQL, the select list).
    pub fn field<I: EnvelopeIndex + Drop>(
        &self,
        alloc: Global,
        database: &Database<'_, I>,
        column: usize,
    ) -> Result<Option<Vec<u8>>, AllocError>
        requires { IsOver database.now self.now }
        ensures { IfOk result (λ field. option_map (λ text. text.items) field
            ≡ spec.field_of database.now self.now column) }
    {
        match self.row {
            CurrentRow::Absent => Ok(None),
            CurrentRow::Pair(pair) => field_in_pair(alloc, database, &self.bound, pair, column),
            CurrentRow::Count(count) => count_field(alloc, count, column),
            CurrentRow::Line(begin, end) => {
                line_field(alloc, part_of(self.text.bytes(), begin, end), column)
            }
        }
    }

    /// The number in a column of the current row. None if there is no row, after the last column, for NULL, and for a
    /// field that isn't a number of 64 bits with a sign. The digits of the number are the field (SQL, the select list).
    pub fn integer<I: EnvelopeIndex + Drop>(
        &self,
        database: &Database<'_, I>,
        column: usize,
    ) -> Option<i64>
        requires { IsOver database.now self.now }
        ensures number { result ≡ spec.number_of database.now self.now column }
        ensures field { IfSome result
            (λ number. spec.field_of database.now self.now column ≡ Some (signed_decimal number)) }
    {
        match self.row {
            CurrentRow::Absent | CurrentRow::Line(_, _) => None,
            CurrentRow::Pair(pair) => number_in_pair(database, &self.bound, pair, column),
            CurrentRow::Count(count) => count_number(count, column),
        }
    }
}
