//! The spatial predicates of two geometries.

ghost use Rattle.std.specs.Prelude.{◌≡◌, ◌||◌, codes};
ghost use Rattle.geometry_model.specs.Patterns.{takes};
ghost use Rattle.geometry_model.specs.Predicates.{like, crosses, overlaps, holds};
ghost use Rattle.geometry_model.specs.declared.relations.PatternCharacter.TheVariants as characters;

use crate::MatrixCells;
use crate::matrix::Matrix;
use crate::pattern::matches_cells;
use geometry_model::{Dimension, Kind, Predicate};

/// Whether the predicate holds of two geometries of these kinds whose DE-9IM matrix this is (06-103r4, 6.1.15.3; the
/// patterns of each predicate: this project's choice). It takes no memory.
pub fn holds(predicate: Predicate, first: Kind, second: Kind, matrix: &Matrix) -> bool
    ensures { result ≡ holds predicate first second matrix.now }
{
    holds_by_cells(predicate, first, second, matrix.cells())
}

/// Whether the predicate holds of two geometries of these kinds whose matrix has these cells.
pub(crate) fn holds_by_cells(
    predicate: Predicate,
    first: Kind,
    second: Kind,
    cells: &MatrixCells,
) -> bool
    ensures { result ≡ holds predicate first second cells.now }
{
    match predicate {
        Predicate::Equals => equals(cells),
        Predicate::Disjoint => disjoint(cells),
        Predicate::Intersects => !disjoint(cells),
        Predicate::Touches => touches(cells),
        Predicate::Crosses => crosses(first, second, cells),
        Predicate::Within => within(cells),
        Predicate::Contains => within(&cells.transposed()),
        Predicate::Overlaps => overlaps(first, second, cells),
        Predicate::Relate(pattern) => matches_cells(&pattern, cells),
    }
}

/// Whether a cell matches F.
fn is_empty(cell: Dimension) -> bool
    ensures { result ≡ takes characters.False cell }
{
    cell == Dimension::Empty
}

/// Whether a cell matches T.
fn is_met(cell: Dimension) -> bool
    ensures { result ≡ takes characters.True cell }
{
    cell != Dimension::Empty
}

/// Whether Equals holds.
fn equals(cells: &MatrixCells) -> bool
    ensures { result ≡ like (codes "**F**FFF*") cells.now }
{
    is_empty(cells.interior_exterior)
        && is_empty(cells.boundary_exterior)
        && is_empty(cells.exterior_interior)
        && is_empty(cells.exterior_boundary)
}

/// Whether Disjoint holds.
fn disjoint(cells: &MatrixCells) -> bool
    ensures { result ≡ like (codes "FF*FF****") cells.now }
{
    is_empty(cells.interior_interior)
        && is_empty(cells.interior_boundary)
        && is_empty(cells.boundary_interior)
        && is_empty(cells.boundary_boundary)
}

/// Whether Touches holds.
fn touches(cells: &MatrixCells) -> bool
    ensures { result ≡ like (codes "FT*******") cells.now || like (codes "F**T*****") cells.now
        || like (codes "F***T****") cells.now }
{
    is_empty(cells.interior_interior)
        && (is_met(cells.interior_boundary)
            || is_met(cells.boundary_interior)
            || is_met(cells.boundary_boundary))
}

/// Whether Within holds.
fn within(cells: &MatrixCells) -> bool
    ensures { result ≡ like (codes "T*F**F***") cells.now }
{
    is_met(cells.interior_interior)
        && is_empty(cells.interior_exterior)
        && is_empty(cells.boundary_exterior)
}

/// Whether the interior of the first meets the interior and the exterior of the second.
fn is_in_and_out(cells: &MatrixCells) -> bool
    ensures { result ≡ like (codes "T*T******") cells.now }
{
    is_met(cells.interior_interior) && is_met(cells.interior_exterior)
}

/// Whether the interior of the second meets the interior and the exterior of the first.
fn is_met_in_and_out(cells: &MatrixCells) -> bool
    ensures { result ≡ like (codes "T*****T**") cells.now }
{
    is_met(cells.interior_interior) && is_met(cells.exterior_interior)
}

/// Whether the interiors meet only in points.
fn crosses_lines(cells: &MatrixCells) -> bool
    ensures { result ≡ like (codes "0********") cells.now }
{
    cells.interior_interior == Dimension::Zero
}

/// Whether the interiors meet, and each meets the exterior of the other.
fn overlaps_partly(cells: &MatrixCells) -> bool
    ensures { result ≡ like (codes "T*T***T**") cells.now }
{
    is_in_and_out(cells) && is_met(cells.exterior_interior)
}

/// Whether the interiors meet in a line, and each meets the exterior of the other.
fn overlaps_in_a_line(cells: &MatrixCells) -> bool
    ensures { result ≡ like (codes "1*T***T**") cells.now }
{
    cells.interior_interior == Dimension::One
        && is_met(cells.interior_exterior)
        && is_met(cells.exterior_interior)
}

/// Whether Crosses holds, by the kinds of the two geometries.
fn crosses(first: Kind, second: Kind, cells: &MatrixCells) -> bool
    ensures { result ≡ crosses first second cells.now }
{
    match (first, second) {
        (Kind::Point, Kind::Line | Kind::Area) | (Kind::Line, Kind::Area) => is_in_and_out(cells),
        (Kind::Line | Kind::Area, Kind::Point) | (Kind::Area, Kind::Line) => {
            is_met_in_and_out(cells)
        }
        (Kind::Line, Kind::Line) => crosses_lines(cells),
        (Kind::Point, Kind::Point) | (Kind::Area, Kind::Area) => false,
    }
}

/// Whether Overlaps holds, by the kinds of the two geometries.
fn overlaps(first: Kind, second: Kind, cells: &MatrixCells) -> bool
    ensures { result ≡ overlaps first second cells.now }
{
    match (first, second) {
        (Kind::Point, Kind::Point) | (Kind::Area, Kind::Area) => overlaps_partly(cells),
        (Kind::Line, Kind::Line) => overlaps_in_a_line(cells),
        _ => false,
    }
}
