//! Why a text isn't a geometry.

/// The first fault of a well-known text, from left to right (06-103r4, 7.2; the cases: this project's choice). Places are
/// bytes from 0.
#[derive(Clone, Copy, Debug, PartialEq, Eq)]
pub enum TextFault {
    /// W1: what begins at this byte can't be there in the text of a geometry, or the text ends here too soon.
    Syntax(usize),
    /// W2: the number that begins at this byte isn't whole.
    OffGrid(usize),
    /// W3: the number that begins at this byte is past the limit of coordinates.
    OutOfRange(usize),
    /// W4: the text has too many positions, rings or elements.
    TooLong,
}
