//! The fields at places, and the geometries of arguments, at rows.

ghost use Rattle.std.specs.Prelude.{◌≡◌};
ghost use Rattle.std.specs.Option.{option_copied};
ghost use Rattle.feature_table.specs.Cells.{shown};
ghost use Rattle.table_model.specs.Arguments as spec;
ghost use Rattle.table_model.specs.Truths.{field_at};

use crate::Argument;
use feature_table::{Field, Row};
use table_model::conditions::{ColumnPlace, GeometryArgument};
use validity::Valid;

/// The field at a place; NULL if the rows don't have the place.
pub fn field_at<'a>(rows: &[Row<'a>], place: ColumnPlace) -> Field<'a>
    ensures { shown result ≡ field_at rows.now place }
{
    if let Some(row) = rows.get(place.reference) {
        if place.column < row.len() {
            return row.field(place.column);
        }
    }
    Field::Null
}

/// The geometry in a field; None for NULL (06-104r4, 7.2).
fn geometry_in(field: Field<'_>) -> Option<&Valid>
    ensures { option_copied result ≡ spec.geometry_in (shown field.entry) }
{
    match field {
        Field::Geom(geometry) => Some(geometry),
        Field::Null | Field::Int(_) | Field::Text(_) => None,
    }
}

/// The geometry of an argument at the rows; None if its column is NULL there (06-104r4, 7.2).
pub(crate) fn geometry_at<'a>(rows: &[Row<'a>], argument: &'a Argument) -> Option<&'a Valid>
    ensures { option_copied result ≡ spec.denoted rows.now argument.entry.now }
{
    match argument {
        GeometryArgument::Column(place) => geometry_in(field_at(rows, *place)),
        GeometryArgument::Literal(geometry) => Some(geometry.get()),
    }
}
