//! The limit of coordinates.

ghost use Rattle.std.specs.Prelude.{◌≡◌};
ghost use Rattle.geometry_model.specs.WellKnownText.{coordinate_limit};

/// The greatest size of a coordinate, either way.
pub const COORDINATE_LIMIT: u32 = 10_000_000;

/// The constant is the limit of the definitions. This is a law, and nothing runs.
pub fn constants_are_the_limits()
    ensures coordinates { COORDINATE_LIMIT ≡ coordinate_limit }
{}
