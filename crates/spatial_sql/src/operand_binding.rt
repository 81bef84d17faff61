//! Binds sides of comparisons, and says which types can be compared.

ghost use Rattle.spatial_sql.specs.Scopes.{Binds, operand_in};
ghost use Rattle.std.specs.Prelude.{◌≡◌};
ghost use Rattle.table_model.specs.Binding as spec;

use crate::argument_binding::{bound_argument, geometry_only};
use crate::columns::bound_column;
use crate::query_binder::Argument;
use crate::scope::Scope;
use crate::strings::unquoted;
use sql_text::Argument as WrittenArgument;
use std::alloc::Global;
use table_model::conditions::Operand;
use table_model::faults::QueryFault;
use table_model::queries::WrittenOperand;
use table_model::typing::{OperandType, Typed};

/// Binds a side of a comparison, and returns it with its type (SQL, comparison; of geometries: 06-103r4, 6.1.2.2).
pub fn bound_operand(
    alloc: Global,
    scope: Scope<'_>,
    written: &WrittenOperand<'_, WrittenArgument<'_>>,
) -> Result<Typed<Operand<Argument>>, QueryFault>
    ensures { Binds result (operand_in scope.entry written.now) }
{
    let (part, part_type) = match written {
        WrittenOperand::Column(column) => {
            let found = bound_column(scope, column)?;
            (Operand::Column(found.place), found.column_type)
        }
        WrittenOperand::Integer(n) => (Operand::Integer(*n), OperandType::Integer),
        WrittenOperand::Text(string) => {
            let bytes = unquoted(alloc, string.text.bytes())?;
            (Operand::Text(bytes), OperandType::Text)
        }
        WrittenOperand::Null => (Operand::Null, OperandType::Null),
        WrittenOperand::AsText(at, argument) => {
            let typed = bound_argument(alloc, scope, argument)?;
            (
                Operand::AsText(geometry_only(*at, typed)?),
                OperandType::Text,
            )
        }
        WrittenOperand::Dimension(at, argument) => {
            let typed = bound_argument(alloc, scope, argument)?;
            (
                Operand::Dimension(geometry_only(*at, typed)?),
                OperandType::Integer,
            )
        }
    };
    Ok(Typed { part, part_type })
}

/// Whether a side of this type can be compared with an INTEGER: INTEGER and NULL can.
fn fits_integer(a: OperandType) -> bool
    ensures { result ≡ spec.fits_integer a }
{
    matches!(a, OperandType::Integer | OperandType::Null)
}

/// Whether a side of this type can be compared with a TEXT: TEXT and NULL can.
fn fits_text(a: OperandType) -> bool
    ensures { result ≡ spec.fits_text a }
{
    matches!(a, OperandType::Text | OperandType::Null)
}

/// Whether two sides can be compared (SQL, comparison).
pub fn comparable(a: OperandType, b: OperandType) -> bool
    ensures { result ≡ spec.comparable a b }
{
    fits_integer(a) && fits_integer(b) || fits_text(a) && fits_text(b)
}
