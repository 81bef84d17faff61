//! Where bytes come from and go to: sinks over memory and writers, and the writer of records as `csv` lines; readers
//! with a limit on fields and records; system calls that are repeated after a signal; observers of progress, which
//! change nothing; and devices that fail on purpose, for tests.
#![tactic(auto)]

pub mod devices;
mod followed_readers;
mod interruptions;
mod lines;
mod memory;
pub mod put_fault;
mod readers;
mod record_writer;
mod rows;
mod sink;
mod standard;
mod tallies;

pub use followed_readers::{Followed, ReadObserver};
pub use interruptions::{PatientReader, write_again};
pub use lines::push_line;
pub use memory::MemorySink;
pub use put_fault::PutFault;
pub use readers::BoundedReader;
pub use record_writer::RecordWriter;
pub use rows::{RowCount, RowObserver, Unobserved};
pub use sink::{Sink, SinkFault, put_all, put_parts};
pub use standard::StdSink;
pub use tallies::{FIELD_BYTES, Place, RECORD_BYTES, RECORD_FIELDS, Tally};
