//! Binds the arguments of functions and predicates of geometries.

ghost use Rattle.spatial_sql.specs.Scopes.{Binds, argument_in, place_in};
ghost use Rattle.std.specs.Prelude.{◌≡◌};
ghost use Rattle.geometry_model.specs.CheckedTexts.{geometry_in_text};
ghost use Rattle.table_model.specs.Binding as spec;
ghost use Rattle.table_model.specs.GeometryColumns as geometries;

use crate::columns::bound_column;
use crate::query_binder::Argument;
use crate::scope::Scope;
use crate::strings::unquoted;
use sql_text::Argument as WrittenArgument;
use sqlite_items::Boxed;
use std::alloc::Global;
use table_model::conditions::{ColumnPlace, GeometryArgument};
use table_model::faults::QueryFault;
use table_model::queries::{Name, WrittenColumn, WrittenGeometry};
use table_model::typing::{OperandType, Typed};
use validity::read_valid;

/// Returns the part if it is a geometry. The fault is `TypeMismatch` at the first byte of its predicate or call.
pub fn geometry_only<P: Drop>(at: usize, typed: Typed<P>) -> Result<P, QueryFault>
    ensures { result ≡ spec.geometry_only at typed }
{
    match typed.part_type {
        OperandType::Geometry => Ok(typed.part),
        OperandType::Integer | OperandType::Text | OperandType::Null => {
            Err(QueryFault::TypeMismatch(at))
        }
    }
}

/// Binds ST_GeomFromText of a string. The geometry is read and tested here, once. Its fault is `BadGeometry` at the
/// string, and the byte in the fault is counted in the string's value (06-104r4, 7.2).
fn literal(alloc: Global, string: &Name<'_>) -> Result<Typed<Argument>, QueryFault>
    ensures { Binds result
        (geometries.literal string.now.at (geometry_in_text (spec.unquoted string.now.text))) }
{
    let bytes = unquoted(alloc, string.text.bytes())?;
    match read_valid(alloc, bytes.as_slice())? {
        Ok(valid) => Ok(Typed {
            part: GeometryArgument::Literal(Boxed::new(alloc, valid)?),
            part_type: OperandType::Geometry,
        }),
        Err(fault) => Err(QueryFault::BadGeometry(string.at, fault)),
    }
}

/// Binds an argument in a condition: a column of any type, or ST_GeomFromText of a string (06-104r4, 7.2).
pub fn bound_argument(
    alloc: Global,
    scope: Scope<'_>,
    written: &WrittenArgument<'_>,
) -> Result<Typed<Argument>, QueryFault>
    ensures { Binds result (argument_in scope.entry written.now) }
{
    match written.get() {
        WrittenGeometry::Column(column) => {
            let found = bound_column(scope, column)?;
            Ok(Typed {
                part: GeometryArgument::Column(found.place),
                part_type: found.column_type,
            })
        }
        WrittenGeometry::FromText(string) => literal(alloc, string),
    }
}

/// Binds an argument in the select list: a column of any type (06-104r4, 7.2).
pub fn bound_place(
    scope: Scope<'_>,
    written: &WrittenColumn<'_>,
) -> Result<Typed<ColumnPlace>, QueryFault>
    ensures { result ≡ place_in scope.entry written.now }
{
    let found = bound_column(scope, written)?;
    Ok(Typed {
        part: found.place,
        part_type: found.column_type,
    })
}
