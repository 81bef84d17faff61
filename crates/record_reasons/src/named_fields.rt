//! Finds fields of a record by their names in a header.

ghost use Rattle.std.specs.Prelude.{◌≡◌};
ghost use Rattle.csv.specs.Records.{fields_of};
ghost use Rattle.table_model.specs.Loading.{field_under};

use csv::ByteRecord;
use feature_table::field_at;
use table_model::texts::same_name;

/// The field of a record with this name in the header, in any ASCII case; the first field if the header doesn't have the name.
pub(crate) fn field_named<'r>(header: &ByteRecord, record: &'r ByteRecord, name: &[u8]) -> &'r [u8]
    ensures { result.now ≡ field_under (fields_of header.now) (fields_of record.entry.now) name.now }
{
    for place in 0..header.len() {
        if same_name(name, field_at(header, place)) {
            return field_at(record, place);
        }
    }
    field_at(record, 0)
}
