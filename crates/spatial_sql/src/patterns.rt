//! Reads patterns of ST_Relate.

ghost use Rattle.spatial_sql.specs.Scopes.{Binds};
ghost use Rattle.std.specs.Prelude.{◌≡◌};
ghost use Rattle.geometry_model.specs.Patterns.{pattern_of_text};
ghost use Rattle.table_model.specs.GeometryColumns as geometries;

use crate::strings::unquoted;
use de9im::PatternText;
use geometry_model::Pattern;
use std::alloc::Global;
use table_model::faults::QueryFault;
use table_model::queries::Name;

/// The pattern that bytes spell, if they spell one (06-103r4, 6.1.15.2).
fn pattern_in(bytes: &[u8]) -> Option<Pattern>
    ensures { result ≡ pattern_of_text bytes.now }
{
    match str::from_utf8(bytes) {
        Ok(text) => Pattern::read(text),
        Err(_) => None,
    }
}

/// Reads the pattern of ST_Relate (06-103r4, 6.1.15.2). The fault is `BadPattern` at a string that isn't a pattern.
pub fn bound_pattern(alloc: Global, string: &Name<'_>) -> Result<Pattern, QueryFault>
    ensures { Binds result (geometries.bound_pattern string.now) }
{
    let bytes = unquoted(alloc, string.text.bytes())?;
    pattern_in(bytes.as_slice()).ok_or(QueryFault::BadPattern(string.at))
}
