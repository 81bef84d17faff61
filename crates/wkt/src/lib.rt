//! Geometries and well-known text (06-103r4, 6.1 and 7.2): the type of geometries, `read`, which reads one from a text or returns
//! the first fault, and `print`, which writes its canonical text to a sink.
#![tactic(auto)]

mod coordinate_reader;
mod cursor;
mod geometry;
pub mod kept_laws;
mod line_strings;
mod list_reader;
mod plain_positions;
mod polygons;
mod position_reader;
mod printing;
mod reading;
pub mod wkt_fault;

pub use geometry::{Geometry, Larger, Shape};
pub use line_strings::LineString;
pub use polygons::Polygons;
pub use printing::print;
pub use reading::read;
pub use streams::{MemorySink, Sink, SinkFault, StdSink, devices, put_all, put_parts};
pub use wkt_fault::WktFault;
