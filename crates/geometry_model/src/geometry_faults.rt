//! Why bytes aren't the text of a valid geometry.

use crate::text_faults::TextFault;
use crate::validity_faults::ValidityFault;

/// The first fault of bytes that should be the text of a valid geometry: the text is read first, then the geometry is
/// tested (06-103r4, 7.2 and 6.1; the order: this project's choice).
#[derive(Clone, Copy, Debug, PartialEq, Eq)]
pub enum GeometryFault {
    /// W1 to W4: the bytes aren't well-known text that sfq accepts.
    Text(TextFault),
    /// V1 to V8: the geometry that they spell isn't valid.
    Invalid(ValidityFault),
}
