//! Envelopes: the smallest rectangle along the axes that holds a geometry or some positions.

ghost use Rattle.std.specs.Prelude.{◌≡◌, ◌↔◌, ◌≤ℤ◌, ◌&&◌, ◌++◌, List, true};
ghost use Rattle.geometry_model.specs.Points.{Position};
ghost use Rattle.std.specs.Int.{int_min, int_max};
ghost use Rattle.geometry_model.specs.Geometries.{Geometry, is_empty};
ghost use Rattle.geometry_model.specs.Envelopes.{Envelope as Rectangle, envelope_at, with_position, envelope, envelope_of_positions, joined, overlap, meets};

use fraction::GridPoint;
use std::marker::Model;

/// The least and the greatest x and y of some positions (06-103r4, 6.1.2.2: Envelope).
#[derive(Clone, Copy, Debug)]
pub struct Envelope {
    least_x: i32,
    greatest_x: i32,
    least_y: i32,
    greatest_y: i32,
}

impl Model for Envelope {
    ghost Value = { Rectangle };

    ghost view = { λ e. record {
      least_x = e.least_x;
      greatest_x = e.greatest_x;
      least_y = e.least_y;
      greatest_y = e.greatest_y;
    } };

    ghost invariant = { λ e. (e.least_x ≤ℤ e.greatest_x) × (e.least_y ≤ℤ e.greatest_y) };

    ghost inverse = { λ e. record {
      least_x = e.least_x;
      greatest_x = e.greatest_x;
      least_y = e.least_y;
      greatest_y = e.greatest_y;
    } };
}

/// A value that is a valid geometry, and so has an envelope (06-103r4, 6.1.2.2: Envelope).
pub trait Enveloped {
    /// The geometry that a value is.
    ghost geometry: { Self → Geometry };

    /// Its envelope, absent exactly if it is empty (06-103r4, 6.1.2.2: Envelope). It takes no memory.
    fn envelope(&self) -> Option<Envelope>
        ensures value { result ≡ envelope (geometry self.now) }
        ensures absent { (result ≡ None) ↔ (is_empty (geometry self.now) ≡ true) };
}

impl Envelope {
    /// The envelope of a geometry, absent exactly if it is empty (06-103r4, 6.1.2.2: Envelope). It takes no
    /// memory.
    pub fn of<T: Enveloped>(shape: &T) -> Option<Envelope>
        ensures value { result ≡ envelope (T.geometry shape.now) }
        ensures absent { (result ≡ None) ↔ (is_empty (T.geometry shape.now) ≡ true) }
    {
        shape.envelope()
    }

    /// The envelope of some positions; absent if there are none (06-103r4, 6.1.2.2: Envelope).
    pub fn of_positions(positions: &[GridPoint]) -> Option<Envelope>
        ensures { result ≡ envelope_of_positions positions.now }
    {
        Envelope::with_positions(positions, None)
    }

    /// The envelope of some positions and of those that follow them, whose envelope is given (06-103r4, 6.1.2.2:
    /// Envelope).
    pub fn with_positions(positions: &[GridPoint], following: Option<Envelope>) -> Option<Envelope>
        ensures { (later : List Position) → following ≡ envelope_of_positions later
            → result ≡ envelope_of_positions (positions.now ++ later) }
    {
        let mut all = following;
        let mut left = positions.len();
        while left > 0 {
            left -= 1;
            all = Some(with_position(positions[left], all));
        }
        all
    }

    /// The least x (06-103r4, 6.1.2.2: Envelope).
    pub fn least_x(&self) -> i32
        ensures value { result ≡ self.now.least_x }
        ensures ordered { self.now.least_x ≤ℤ self.now.greatest_x }
    {
        self.least_x
    }

    /// The greatest x (06-103r4, 6.1.2.2: Envelope).
    pub fn greatest_x(&self) -> i32
        ensures { result ≡ self.now.greatest_x }
    {
        self.greatest_x
    }

    /// The least y (06-103r4, 6.1.2.2: Envelope).
    pub fn least_y(&self) -> i32
        ensures value { result ≡ self.now.least_y }
        ensures ordered { self.now.least_y ≤ℤ self.now.greatest_y }
    {
        self.least_y
    }

    /// The greatest y (06-103r4, 6.1.2.2: Envelope).
    pub fn greatest_y(&self) -> i32
        ensures { result ≡ self.now.greatest_y }
    {
        self.greatest_y
    }
}

/// The envelope with these bounds.
fn bounded(least_x: i32, greatest_x: i32, least_y: i32, greatest_y: i32) -> Envelope
    requires across { least_x ≤ℤ greatest_x }
    requires up { least_y ≤ℤ greatest_y }
    ensures { result
        ≡ record { least_x = least_x; greatest_x = greatest_x; least_y = least_y; greatest_y = greatest_y } }
{
    Envelope {
        least_x,
        greatest_x,
        least_y,
        greatest_y,
    }
}

/// The smallest envelope that holds both (06-103r4, 6.1.2.2: Envelope).
pub fn joined(one: Envelope, other: Envelope) -> Envelope
    ensures { result ≡ joined one other }
{
    bounded(
        lesser(one.least_x(), other.least_x()),
        greater(one.greatest_x(), other.greatest_x()),
        lesser(one.least_y(), other.least_y()),
        greater(one.greatest_y(), other.greatest_y()),
    )
}

/// Whether two rectangles share a point, sides included.
pub(crate) fn overlap(one: Envelope, other: Envelope) -> bool
    ensures { result ≡ overlap one other }
{
    let right = one.least_x() <= other.greatest_x();
    let left = other.least_x() <= one.greatest_x();
    let above = one.least_y() <= other.greatest_y();
    let below = other.least_y() <= one.greatest_y();
    both(both(both(right, left), above), below)
}

/// Whether two envelopes meet: both are absent, or both are present and share a point, sides included.
pub fn meets(one: Option<Envelope>, other: Option<Envelope>) -> bool
    ensures { result ≡ meets one other }
{
    match (one, other) {
        (None, None) => true,
        (Some(e), Some(f)) => overlap(e, f),
        _ => false,
    }
}

/// The envelope of one position.
fn envelope_at(a: GridPoint) -> Envelope
    ensures { result ≡ envelope_at a }
{
    Envelope {
        least_x: a.x(),
        greatest_x: a.x(),
        least_y: a.y(),
        greatest_y: a.y(),
    }
}

/// The envelope of a position and of those that follow it, whose envelope is given.
fn with_position(a: GridPoint, rest: Option<Envelope>) -> Envelope
    ensures { result ≡ with_position a rest }
{
    let one = envelope_at(a);
    match rest {
        None => one,
        Some(e) => joined(one, e),
    }
}

/// The lesser of two numbers.
fn lesser(a: i32, b: i32) -> i32
    ensures value { result ≡ int_min a b }
    ensures within { result ≤ℤ a }
{
    a.min(b)
}

/// The greater of two numbers.
fn greater(a: i32, b: i32) -> i32
    ensures value { result ≡ int_max a b }
    ensures within { a ≤ℤ result }
{
    a.max(b)
}

/// `a && b` as a call. It makes no branches, so `overlap` has one path to prove.
fn both(a: bool, b: bool) -> bool
    ensures { result ≡ (a && b) }
{
    a && b
}
