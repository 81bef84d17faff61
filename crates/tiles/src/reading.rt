//! Reads the header of a table again.

ghost use Rattle.std.specs.Prelude.{◌≡◌, ◌⊎◌, IfErr, IfOk, List, None, OnOk, true};
ghost use Rattle.csv.specs.Records.{fields_of};
ghost use Rattle.feature_table.specs.Layouts.{IsLayout};
ghost use Rattle.feature_table.specs.Outcomes.{is_of_reading};
ghost use Rattle.table_model.specs.Loading.{Record, header_fault};
ghost use Rattle.tiles.specs.Faults.{IsOfHeader};
ghost use Rattle.tiles.specs.PlainRecords.{GivesRest, HasNoneLeft, IsReady, TakesNext, read_failed};

use crate::plain_records::PlainRecords;
use csv::ByteRecord;
use feature_table::{Layout, TableDef, layout_of};
use std::alloc::Global;
use std::io::Read;
use table_model::faults::LoadFault;

/// Reads the header of a table, and finds its columns there. The fault is ReadFailed, OutOfMemory, or one of the header.
pub(crate) fn read_layout<R: Read + Drop>(
    alloc: Global,
    table: &TableDef,
    records: &mut PlainRecords<R>,
) -> Result<Layout, LoadFault>
    requires { IsReady records.old }
    ensures ready { OnOk result (IsReady records.new) }
    ensures header { IfOk result (λ layout. (header : Record) × IsLayout table.now.columns header layout
        × (header_fault table.now.columns header ≡ None)
        × ((rest : List Record) → GivesRest R.remaining records.old rest
        → TakesNext R.remaining records.new rest true header)) }
    ensures fault { IfErr result (IsOfHeader R.remaining records.old table.now.columns) }
    ensures read_failed { IfErr result (λ f. is_of_reading f ≡ true
        → (read_failed records.new ≡ true) ⊎ HasNoneLeft R.remaining records.old) }
{
    let mut header = ByteRecord::new(alloc);
    records.read_header(&mut header)?;
    layout_of(alloc, table.columns.as_slice(), &header)
}
