//! The header and the record that loading read last.

ghost use Rattle.std.specs.Prelude.{◌≡◌, []};
ghost use Rattle.csv.specs.Records.{fields_of};

use csv::ByteRecord;
use std::alloc::Global;

/// The header of a table and the record that was read last. A caller that loads a table lends them, and finds there the
/// record that has a fault. Loading reads into them anyway, so they cost nothing if there is no fault.
#[derive(Drop)]
pub struct LastRecords {
    /// The header.
    pub header: ByteRecord,
    /// The record that was read last, after the header.
    pub record: ByteRecord,
}

impl LastRecords {
    /// Makes both empty, as they are before a table is loaded.
    pub fn new(alloc: Global) -> LastRecords
        ensures header { fields_of result.header ≡ [] }
        ensures record { fields_of result.record ≡ [] }
    {
        LastRecords {
            header: ByteRecord::new(alloc),
            record: ByteRecord::new(alloc),
        }
    }
}
