//! Makes and writes the lines of tiles and stretches.

ghost use Rattle.std.specs.Prelude.{◌≡◌, ◌++◌, ◌∷◌, [], IfErr, OnOk, map};
ghost use Rattle.csv.specs.Records.{fields_of, partial_of};
ghost use Rattle.table_laws.specs.Cells.{mark};
ghost use Rattle.tiles.specs.Copies.{copied_fields};
ghost use Rattle.tiles.specs.Faults.{IsCopyFault};
ghost use Rattle.tiles.specs.PlainRecords.{IsMemory};
ghost use Rattle.tiles.specs.RecordLines.{field_in, line_of, mark_text, name_at, names_of};
ghost use Rattle.tiles.specs.Texts.{Grow, in_cell};

use crate::Marks;
use crate::faults::CopyFault;
use crate::parts::Part;
use crate::texts::CellTexts;
use csv::ByteRecord;
use feature_table::{ColumnDef, field_at};
use sqlite_items::{self as items};
use std::alloc::AllocError;
use streams::push_line;

/// The name of the column at a place; empty if there is none.
fn name_at(columns: &[ColumnDef], column: usize) -> &[u8]
    ensures { result.now ≡ name_at columns.now column }
{
    match items::at(columns, column) {
        Some(column) => column.name.bytes(),
        None => &[],
    }
}

/// Fills a record with the names of the columns at these places.
pub(crate) fn names(
    columns: &[ColumnDef],
    copied: &[usize],
    line: &mut ByteRecord,
) -> Result<(), AllocError>
    ensures fields { OnOk result (fields_of line.new ≡ names_of columns.now copied.now) }
    ensures ended { OnOk result (partial_of line.new ≡ []) }
{
    line.clear();
    for column in copied {
        line.push_field(name_at(columns, *column))?;
    }
    Ok(())
}

/// Fills a record with the names of the copied columns and of the marks.
pub(crate) fn marked_names(part: &Part<'_>, line: &mut ByteRecord) -> Result<(), AllocError>
    ensures { OnOk result (fields_of line.new
        ≡ names_of part.now.table.now.columns part.now.columns.now ++ map (λ mark. mark.now) part.now.marks) }
{
    names(part.table.columns.as_slice(), part.columns, line)?;
    for mark in &part.marks {
        line.push_field(mark.as_bytes())?;
    }
    Ok(())
}

/// The field of a record in a column; empty if there is none. `places` says where the columns are in the header.
pub(crate) fn field_in<'a>(places: &[usize], fields: &'a ByteRecord, column: usize) -> &'a [u8]
    ensures { result.now ≡ field_in places.now (fields_of fields.now) column }
{
    match items::at(places, column) {
        Some(place) => field_at(fields, *place),
        None => &[],
    }
}

/// Fills a record with the fields that another has in the columns at these places.
pub(crate) fn copied_fields(
    places: &[usize],
    fields: &ByteRecord,
    copied: &[usize],
    line: &mut ByteRecord,
) -> Result<(), AllocError>
    ensures fields { OnOk result
        (fields_of line.new ≡ copied_fields places.now copied.now (fields_of fields.now)) }
    ensures ended { OnOk result (partial_of line.new ≡ []) }
{
    line.clear();
    for column in copied {
        line.push_field(field_in(places, fields, *column))?;
    }
    Ok(())
}

/// The text of a mark.
fn mark_text(is_set: bool) -> &'static [u8]
    ensures { result.now ≡ mark_text (mark is_set) }
{
    if is_set { b"1" } else { b"0" }
}

/// Adds the marks to a record.
pub(crate) fn push_marks(marks: &Marks, line: &mut ByteRecord) -> Result<(), AllocError>
    requires { partial_of line.old ≡ [] }
    ensures { OnOk result (fields_of line.new
        ≡ fields_of line.old ++ mark_text (mark marks.now.west) ∷ mark_text (mark marks.now.south) ∷ []) }
{
    line.push_field(mark_text(marks.west))?;
    line.push_field(mark_text(marks.south))
}

/// Writes the line of a record to a cell.
pub(crate) fn put_record<T: CellTexts>(
    text: &mut Vec<u8>,
    cell: usize,
    line: &ByteRecord,
    texts: &mut T,
) -> Result<(), CopyFault>
    ensures texts { OnOk result
        (Grow (T.texts texts.old) (T.texts texts.new) (in_cell cell (line_of (fields_of line.now)))) }
    ensures same { OnOk result (T.failures texts.new ≡ T.failures texts.old) }
    ensures fault { IfErr result (IsCopyFault IsMemory (T.failures texts.old) (T.failures texts.new)) }
{
    text.clear();
    push_line(text, line)?;
    texts.put(cell, text.as_slice())?;
    Ok(())
}
