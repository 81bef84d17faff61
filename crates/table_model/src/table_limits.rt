//! The limits of tables and texts: each constant in the code equals the number in its definition.

ghost use Rattle.std.specs.Prelude.{◌≡◌};
ghost use Rattle.table_model.specs.Definitions.{most_columns, most_tables};
ghost use Rattle.table_model.specs.Loading.{row_limit};
ghost use Rattle.table_model.specs.QueryReading.{most_levels};
ghost use Rattle.table_model.specs.Tokens.{most_bytes};

use crate::definitions::{COLUMN_LIMIT, ROW_LIMIT, TABLE_LIMIT};
use crate::queries::LEVEL_LIMIT;
use crate::tokens::TEXT_LIMIT;

/// The constants are the limits of the definitions. This is a law, and nothing runs.
pub fn constants_are_the_limits()
    ensures tables { TABLE_LIMIT ≡ most_tables }
    ensures columns { COLUMN_LIMIT ≡ most_columns }
    ensures rows { ROW_LIMIT ≡ row_limit }
    ensures bytes { TEXT_LIMIT ≡ most_bytes }
    ensures levels { LEVEL_LIMIT ≡ most_levels }
{}
