//! The second pass over a table that is split into stretches: each record is written to its stretch.

ghost use Rattle.std.specs.Prelude.{◌≡◌, ◌≢◌, ◌⊎◌, ◌+◌, ◌++◌, ◌∷◌, ◌<◌, ◌≤◌, [], ℕ, IfErr, IfOk, List, OnOk, Option, length, map, true, vec_len};
ghost use Rattle.csv.specs.Records.{fields_of, partial_of};
ghost use Rattle.table_model.specs.Loading.{Record};
ghost use Rattle.tiles.specs.Copies.{AreAll, AreRecordsOfTable, AreWritten, copied_fields, size_of, stretches, stretches_of};
ghost use Rattle.tiles.specs.Faults.{AreSpoilt, IsCopyFault, IsTableFault, IsUneven, is_copy_of_reading};
ghost use Rattle.tiles.specs.PlainRecords.{AreAllOf, HasLeft, IsMemory, IsReadFault, IsReady, read_failed};
ghost use Rattle.tiles.specs.RecordLines.{line_of, names_of};
ghost use Rattle.tiles.specs.Texts.{Grow, in_cell};

use crate::faults::CopyFault;
use crate::parts::Part;
use crate::plain_records::PlainRecords;
use crate::reading::read_layout;
use crate::record_lines::{copied_fields, names, put_record};
use crate::texts::CellTexts;
use csv::ByteRecord;
use feature_table::Layout;
use std::alloc::Global;
use std::io::Read;
use table_model::faults::LoadFault;

/// Writes the records of a table in stretches of at most `most` records, or of one if `most` is 0, each a text of its own
/// with the header. It returns the number of records of each, at least one stretch. After an error nothing is known of the
/// texts. The fault is `Sink` only if a call of `put` failed, and else that of the header, `ReadFailed` or `OutOfMemory`.
pub fn write_stretches<R: Read + Drop, T: CellTexts>(
    alloc: Global,
    part: &Part<'_>,
    most: usize,
    records: &mut PlainRecords<R>,
    texts: &mut T,
) -> Result<Vec<usize>, CopyFault>
    requires { IsReady records.old }
    ensures stretches { (known : Option (List ℕ)) → AreAllOf R.remaining known records.old → IfOk result (λ counts. (read : List Record)
        × AreRecordsOfTable known part.now.table.now.columns read
        × AreWritten (T.texts texts.old) (T.texts texts.new)
        (names_of part.now.table.now.columns part.now.columns.now)
        (stretches_of (size_of most) part.now.table.now.columns part.now.columns.now read) counts.items) }
    ensures some { IfOk result (λ counts. 0 < vec_len counts) }
    ensures same { OnOk result (T.failures texts.new ≡ T.failures texts.old) }
    ensures fault { (known : Option (List ℕ)) → AreAllOf R.remaining known records.old
        → IfErr result (IsCopyFault (IsTableFault known part.now.table.now.columns)
        (T.failures texts.old) (T.failures texts.new)) }
    ensures read_failed { (known : Option (List ℕ)) → AreAllOf R.remaining known records.old
        → IfErr result (λ f. is_copy_of_reading f ≡ true
        → (read_failed records.new ≡ true) ⊎ AreSpoilt IsUneven known) }
{
    let layout = read_layout(alloc, part.table, records)?;
    let mut header = ByteRecord::new(alloc);
    names(part.table.columns.as_slice(), part.columns, &mut header)?;
    copy_stretches(
        alloc,
        part.columns,
        at_least_one(most),
        &header,
        &layout,
        records,
        texts,
    )
}

/// The greatest number of records of a stretch: `most`, but at least 1.
fn at_least_one(most: usize) -> usize
    ensures size { result ≡ size_of most }
    ensures some { 0 < result }
{
    if most == 0 { 1 } else { most }
}

/// Writes the records that are left in stretches of `size`, each with the header, and returns the number of records of each.
fn copy_stretches<R: Read + Drop, T: CellTexts>(
    alloc: Global,
    columns: &[usize],
    size: usize,
    header: &ByteRecord,
    layout: &Layout,
    records: &mut PlainRecords<R>,
    texts: &mut T,
) -> Result<Vec<usize>, CopyFault>
    requires ready { IsReady records.old }
    requires size { 0 < size }
    ensures written { IfOk result (λ counts. (read : List Record) × AreAll R.remaining records.old layout.now.width read
        × AreWritten (T.texts texts.old) (T.texts texts.new) (fields_of header.now)
        (map (map (copied_fields layout.now.places.items columns.now)) (stretches size read)) counts.items) }
    ensures same { OnOk result (T.failures texts.new ≡ T.failures texts.old) }
    ensures fault { IfErr result (IsCopyFault (IsReadFault records.new (HasLeft R.remaining records.old
        (λ fields. length fields ≢ layout.now.width)))
        (T.failures texts.old) (T.failures texts.new)) }
{
    let mut text = Vec::new(alloc);
    put_record(&mut text, 0, header, texts)?;
    let mut line = ByteRecord::new(alloc);
    let mut fields = ByteRecord::new(alloc);
    let mut counts = Vec::new(alloc);
    let mut rows = 0;
    for _place in 0..u64::MAX {
        if !records.read_even(layout.width, &mut fields)? {
            counts.push(rows)?;
            return Ok(counts);
        }
        rows = begin_if_full(size, rows, header, &mut text, &mut counts, texts)?;
        copied_fields(layout.places.as_slice(), &fields, columns, &mut line)?;
        put_record(&mut text, counts.len(), &line, texts)?;
        rows += 1;
    }
    Err(CopyFault::Load(LoadFault::OutOfMemory))
}

/// Begins a stretch if the last one is full, and returns the number of records of the last one then.
fn begin_if_full<T: CellTexts>(
    size: usize,
    rows: usize,
    header: &ByteRecord,
    text: &mut Vec<u8>,
    counts: &mut Vec<usize>,
    texts: &mut T,
) -> Result<usize, CopyFault>
    ensures goes_on { rows < size → IfOk result (λ left. (left ≡ rows) × (counts.new.items ≡ counts.old.items)
        × Grow (T.texts texts.old) (T.texts texts.new) (λ _. [])) }
    ensures begins { size ≤ rows → IfOk result (λ left. (left ≡ 0) × (counts.new.items ≡ counts.old.items ++ rows ∷ [])
        × Grow (T.texts texts.old) (T.texts texts.new) (in_cell (length counts.old.items + 1) (line_of (fields_of header.now)))) }
    ensures same { OnOk result (T.failures texts.new ≡ T.failures texts.old) }
    ensures fault { IfErr result (IsCopyFault IsMemory (T.failures texts.old) (T.failures texts.new)) }
{
    if rows < size {
        return Ok(rows);
    }
    counts.push(rows)?;
    put_record(text, counts.len(), header, texts)?;
    Ok(0)
}
