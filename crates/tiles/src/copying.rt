//! The second pass over a table that is split into tiles: each record is written to each of its cells.

ghost use Rattle.std.specs.Prelude.{◌≡◌, ◌≢◌, ◌⊎◌, ◌+◌, ◌++◌, ◌==◌, ◌<◌, ◌^◌, if◌then◌else◌, [], ℕ, IfErr, IfOk, List, OnOk, Option, count_by, length, map, nat_lt, replicate, slice_index, true, vec_len};
ghost use Rattle.std.specs.List.{All};
ghost use Rattle.csv.specs.Records.{fields_of, partial_of};
ghost use Rattle.table_model.specs.Loading.{Record};
ghost use Rattle.table_model.specs.declared.faults.LoadFault.TheVariants as load;
ghost use Rattle.tiles.specs.Copies.{AreAdded, AreAll, AreRecordsOfTable, AreWritten, copied_fields, geometry_in, is_copied_to, meets_cell, tiles, tiles_of};
ghost use Rattle.tiles.specs.Faults.{AreSpoilt, IsCopyFault, IsTableFault, IsUntiled, is_copy_of_reading};
ghost use Rattle.tiles.specs.PlainRecords.{AreAllOf, HasLeft, IsMemory, IsReadFault, IsReady, read_failed};
ghost use Rattle.tiles.specs.RecordLines.{SpellsNoGeometry, cell_row, envelope_row, field_in, line_of, marked_line, names_of};
ghost use Rattle.tiles.specs.Texts.{Grow, gets_of, in_cell};

use crate::envelopes::envelope_in;
use crate::faults::CopyFault;
use crate::parts::Part;
use crate::plain_records::PlainRecords;
use crate::reading::read_layout;
use crate::record_lines::{copied_fields, field_in, marked_names, push_marks, put_record};
use crate::texts::CellTexts;
use crate::{Cells, Marks};
use csv::ByteRecord;
use feature_table::Layout;
use rtree::Envelope;
use std::alloc::Global;
use std::io::Read;
use table_model::faults::LoadFault;

/// Writes the records of a table to the cells to which their geometry in a column copies them. Each cell's text begins
/// with the header. It returns the number of records of each cell. After an error nothing is known of the texts. The
/// fault is `Sink` only if a call of `put` failed, and else that of the header, `ReadFailed` or `OutOfMemory`.
pub fn write_tiles<R: Read + Drop, T: CellTexts>(
    alloc: Global,
    part: &Part<'_>,
    column: usize,
    cells: &Cells,
    records: &mut PlainRecords<R>,
    texts: &mut T,
) -> Result<Vec<usize>, CopyFault>
    requires { IsReady records.old }
    ensures tiles { (known : Option (List ℕ)) → AreAllOf R.remaining known records.old → IfOk result (λ counts. (read : List Record)
        × AreRecordsOfTable known part.now.table.now.columns read
        × AreWritten (T.texts texts.old) (T.texts texts.new)
        (names_of part.now.table.now.columns part.now.columns.now ++ map (λ mark. mark.now) part.now.marks)
        (tiles_of cells.now part.now.table.now.columns column part.now.columns.now read) counts.items) }
    ensures size { IfOk result (λ counts. vec_len counts ≡ length cells.now + 1) }
    ensures same { OnOk result (T.failures texts.new ≡ T.failures texts.old) }
    ensures fault { (known : Option (List ℕ)) → AreAllOf R.remaining known records.old
        → IfErr result (IsCopyFault (IsTableFault known part.now.table.now.columns)
        (T.failures texts.old) (T.failures texts.new)) }
    ensures read_failed { (known : Option (List ℕ)) → AreAllOf R.remaining known records.old
        → IfErr result (λ f. is_copy_of_reading f ≡ true
        → (read_failed records.new ≡ true) ⊎ AreSpoilt (IsUntiled part.now.table.now.columns column) known) }
{
    let layout = read_layout(alloc, part.table, records)?;
    let mut header = ByteRecord::new(alloc);
    marked_names(part, &mut header)?;
    let mut counts = put_headers(alloc, &header, cells.boxes().len() + 1, texts)?;
    copy_records(
        alloc,
        part.columns,
        column,
        cells,
        &layout,
        records,
        texts,
        &mut counts,
    )?;
    Ok(counts)
}

/// Writes the header to the first cells, and returns their counts of records, which are 0.
fn put_headers<T: CellTexts>(
    alloc: Global,
    header: &ByteRecord,
    cells: usize,
    texts: &mut T,
) -> Result<Vec<usize>, CopyFault>
    ensures texts { OnOk result (Grow (T.texts texts.old) (T.texts texts.new)
        (λ cell. if nat_lt cell cells then line_of (fields_of header.now) else [])) }
    ensures counts { IfOk result (λ counts. counts.items ≡ replicate cells 0) }
    ensures same { OnOk result (T.failures texts.new ≡ T.failures texts.old) }
    ensures fault { IfErr result (IsCopyFault IsMemory (T.failures texts.old) (T.failures texts.new)) }
{
    let mut text = Vec::new(alloc);
    let mut counts = Vec::new(alloc);
    for cell in 0..cells {
        put_record(&mut text, cell, header, texts)?;
        counts.push(0)?;
    }
    Ok(counts)
}

/// Writes each record that is left to its cells, and counts it in each.
fn copy_records<R: Read + Drop, T: CellTexts>(
    alloc: Global,
    columns: &[usize],
    column: usize,
    cells: &Cells,
    layout: &Layout,
    records: &mut PlainRecords<R>,
    texts: &mut T,
    counts: &mut Vec<usize>,
) -> Result<(), CopyFault>
    requires ready { IsReady records.old }
    requires counts { counts.old.items ≡ replicate (length cells.now + 1) 0 }
    ensures added { OnOk result ((read : List Record) × AreAll R.remaining records.old layout.now.width read
        × AreAdded (T.texts texts.old) (T.texts texts.new)
        (tiles cells.now layout.now.places.items column columns.now read) counts.new.items) }
    ensures same { OnOk result (T.failures texts.new ≡ T.failures texts.old) }
    ensures fault { IfErr result (IsCopyFault (IsReadFault records.new (HasLeft R.remaining records.old
        (λ fields. (length fields ≢ layout.now.width) ⊎ SpellsNoGeometry (field_in layout.now.places.items fields column))))
        (T.failures texts.old) (T.failures texts.new)) }
{
    let mut fields = ByteRecord::new(alloc);
    for _place in 0..u64::MAX {
        if !records.read_even(layout.width, &mut fields)? {
            return Ok(());
        }
        copy_record(
            alloc,
            columns,
            column,
            cells,
            layout.places.as_slice(),
            &fields,
            texts,
            counts,
        )?;
    }
    Err(CopyFault::Load(LoadFault::OutOfMemory))
}

/// Writes the row of a record to its cells, and counts it in each.
fn copy_record<T: CellTexts>(
    alloc: Global,
    columns: &[usize],
    column: usize,
    cells: &Cells,
    places: &[usize],
    fields: &ByteRecord,
    texts: &mut T,
    counts: &mut Vec<usize>,
) -> Result<(), CopyFault>
    requires counts { vec_len counts.old ≡ length cells.now + 1 }
    requires room { (cell : ℕ) → slice_index counts.old.items cell + 1 < 2 ^ 64 }
    ensures texts { OnOk result (Grow (T.texts texts.old) (T.texts texts.new)
        (cell_row cells.now (geometry_in places.now column (fields_of fields.now))
        (copied_fields places.now columns.now (fields_of fields.now)))) }
    ensures counts { vec_len counts.new ≡ vec_len counts.old }
    ensures counted { OnOk result ((cell : ℕ) → slice_index counts.new.items cell
        ≡ slice_index counts.old.items cell
        + (if is_copied_to cells.now (geometry_in places.now column (fields_of fields.now)) cell then 1 else 0)) }
    ensures same { OnOk result (T.failures texts.new ≡ T.failures texts.old) }
    ensures fault { IfErr result (IsCopyFault (λ f. IsMemory f ⊎ ((f ≡ load.ReadFailed)
        × SpellsNoGeometry (field_in places.now (fields_of fields.now) column)))
        (T.failures texts.old) (T.failures texts.new)) }
{
    match envelope_in(alloc, field_in(places, fields, column))? {
        Some(envelope) => copy_to_cells(
            alloc, columns, &envelope, cells, places, fields, texts, counts,
        ),
        None => Ok(()),
    }
}

/// Writes the row of a record whose geometry has this envelope to the cells that meet it, and counts it in each.
fn copy_to_cells<T: CellTexts>(
    alloc: Global,
    columns: &[usize],
    envelope: &Option<Envelope>,
    cells: &Cells,
    places: &[usize],
    fields: &ByteRecord,
    texts: &mut T,
    counts: &mut Vec<usize>,
) -> Result<(), CopyFault>
    requires counts { vec_len counts.old ≡ length cells.now + 1 }
    requires room { (cell : ℕ) → slice_index counts.old.items cell + 1 < 2 ^ 64 }
    ensures texts { OnOk result (Grow (T.texts texts.old) (T.texts texts.new)
        (envelope_row cells.now envelope.now (copied_fields places.now columns.now (fields_of fields.now)))) }
    ensures counts { vec_len counts.new ≡ vec_len counts.old }
    ensures counted { OnOk result ((cell : ℕ) → slice_index counts.new.items cell
        ≡ slice_index counts.old.items cell + (if meets_cell cells.now envelope.now cell then 1 else 0)) }
    ensures same { OnOk result (T.failures texts.new ≡ T.failures texts.old) }
    ensures fault { IfErr result (IsCopyFault IsMemory (T.failures texts.old) (T.failures texts.new)) }
{
    let mut met = Vec::new(alloc);
    cells.meeting(*envelope, &mut met)?;
    put_rows(
        alloc,
        columns,
        envelope,
        cells,
        places,
        fields,
        met.as_slice(),
        texts,
    )?;
    count_rows(met.as_slice(), counts);
    Ok(())
}

/// Writes the row of a record to the cells with these numbers.
fn put_rows<T: CellTexts>(
    alloc: Global,
    columns: &[usize],
    envelope: &Option<Envelope>,
    cells: &Cells,
    places: &[usize],
    fields: &ByteRecord,
    numbers: &[usize],
    texts: &mut T,
) -> Result<(), CopyFault>
    requires { All (λ number. number < length cells.now + 1) numbers.now }
    ensures texts { OnOk result (Grow (T.texts texts.old) (T.texts texts.new)
        (gets_of (marked_line cells.now envelope.now (copied_fields places.now columns.now (fields_of fields.now)))
        numbers.now)) }
    ensures same { OnOk result (T.failures texts.new ≡ T.failures texts.old) }
    ensures fault { IfErr result (IsCopyFault IsMemory (T.failures texts.old) (T.failures texts.new)) }
{
    let mut text = Vec::new(alloc);
    let mut line = ByteRecord::new(alloc);
    for number in numbers {
        copied_fields(places, fields, columns, &mut line)?;
        put_row(cells, envelope, *number, &mut text, &mut line, texts)?;
    }
    Ok(())
}

/// Writes the row of some fields to the cell with a number, with its marks there.
fn put_row<T: CellTexts>(
    cells: &Cells,
    envelope: &Option<Envelope>,
    number: usize,
    text: &mut Vec<u8>,
    line: &mut ByteRecord,
    texts: &mut T,
) -> Result<(), CopyFault>
    requires within { number < length cells.now + 1 }
    requires ended { partial_of line.old ≡ [] }
    ensures texts { OnOk result (Grow (T.texts texts.old) (T.texts texts.new)
        (in_cell number (marked_line cells.now envelope.now (fields_of line.old) number))) }
    ensures same { OnOk result (T.failures texts.new ≡ T.failures texts.old) }
    ensures fault { IfErr result (IsCopyFault IsMemory (T.failures texts.old) (T.failures texts.new)) }
{
    let marks = Marks::of(&cells.cell(number), envelope);
    push_marks(&marks, line)?;
    put_record(text, number, line, texts)
}

/// Counts one more row in each of the cells with these numbers.
fn count_rows(numbers: &[usize], counts: &mut Vec<usize>)
    requires within { All (λ number. number < vec_len counts.old) numbers.now }
    requires room { (cell : ℕ) → slice_index counts.old.items cell
        + count_by (λ number. number == cell) numbers.now < 2 ^ 64 }
    ensures counts { vec_len counts.new ≡ vec_len counts.old }
    ensures counted { (cell : ℕ) → slice_index counts.new.items cell
        ≡ slice_index counts.old.items cell + count_by (λ number. number == cell) numbers.now }
{
    for number in numbers {
        counts[*number] += 1;
    }
}
