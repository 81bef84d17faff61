//! Splits tables. The grid is cut into cells, and there is one more cell for the empty geometries. A row is copied to each
//! cell that the envelope of its geometry meets, with two marks. A first pass checks a table as loading does, without the
//! limit on rows, and keeps no row. A second one writes each record to the texts of its cells, or to that of its stretch.
#![tactic(auto)]

mod cells;
mod checking;
mod copying;
mod cuts;
mod envelopes;
mod faults;
mod lines;
mod marks;
mod parts;
mod plain_records;
mod reading;
mod record_lines;
mod sampling;
mod stretching;
mod texts;
mod trees;
mod watching;
pub mod written_laws;

pub use cells::{Cells, MOST_BOXES};
pub use checking::{check_records, find_fault};
pub use copying::write_tiles;
pub use faults::CopyFault;
pub use marks::Marks;
pub use parts::Part;
pub use plain_records::PlainRecords;
pub use sampling::Sampler;
pub use stretching::write_stretches;
pub use texts::CellTexts;
pub use watching::{RowWatcher, Unwatched};
