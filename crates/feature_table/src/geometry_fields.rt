//! Geometry columns: how a field is read as a geometry of its column's type.

ghost use Rattle.std.specs.Prelude.{◌≡◌, IfErr, false};
ghost use Rattle.feature_table.specs.GeometryFields.{reading};
ghost use Rattle.feature_table.specs.Outcomes.{is_of_reading};
ghost use Rattle.table_model.specs.GeometryColumns as spec;
ghost use Rattle.table_model.specs.Outcomes.{Gives};
ghost use Rattle.table_model.specs.declared.faults.LoadFault.TheVariants as fault;

use geometry_model::GeometryType;
use sql_text::ColumnShape;
use std::alloc::Global;
use table_model::faults::LoadFault;
use validity::{Valid, read_valid};

/// The geometry in a field (06-103r4, 6.1).
pub type Geometry = Valid;

/// Whether a column can contain geometries of a type.
fn takes_type(shape: ColumnShape, geometry_type: GeometryType) -> bool
    ensures { result ≡ spec.takes_type shape geometry_type }
{
    match shape {
        None => true,
        Some(wanted) => wanted == geometry_type,
    }
}

/// The geometry of a field in a column of this type; `number` is that of the record. Its text is read first, then its
/// validity is tested, then its type.
pub(crate) fn geometry_of(
    alloc: Global,
    number: usize,
    shape: ColumnShape,
    field: &[u8],
) -> Result<Geometry, LoadFault>
    ensures not_reading { IfErr result (λ f. is_of_reading f ≡ false) }
    ensures value { Gives fault.OutOfMemory (λ g. g) result (reading number shape field.now) }
{
    match read_valid(alloc, field)? {
        Ok(valid) => {
            if takes_type(shape, valid.geometry().geometry_type()) {
                Ok(valid)
            } else {
                Err(LoadFault::WrongType(number))
            }
        }
        Err(why) => Err(LoadFault::BadGeometry(number, why)),
    }
}
