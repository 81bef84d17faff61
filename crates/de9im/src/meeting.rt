//! Predicates that hold only of geometries whose envelopes meet.

ghost use Rattle.std.specs.Prelude.{◌≡◌};
ghost use Rattle.geometry_model.specs.Predicates.{wants_point, wants_common_point, forces_meeting};
ghost use Rattle.geometry_model.specs.declared.relations.Predicate.{Predicate};

use geometry_model::{Pattern, PatternCharacter, Predicate};

/// A spatial predicate, by what is known about it without a matrix. Only [`Predicate`] implements it.
pub trait SpatialPredicate {
    /// The predicate that a value is.
    ghost predicate: { Self → Predicate };

    /// Whether the predicate can hold only of geometries whose envelopes meet: true of Equals, Intersects, Touches, Crosses,
    /// Within, Contains and Overlaps, and of a pattern with T, 0, 1 or 2 in a cell of interiors and boundaries only. It takes
    /// no memory.
    fn forces_meeting(&self) -> bool
        ensures { result ≡ forces_meeting (predicate self.now) };
}

impl SpatialPredicate for Predicate {
    ghost predicate = { λ p. p };

    fn forces_meeting(&self) -> bool {
        match self {
            Predicate::Disjoint => false,
            Predicate::Equals
            | Predicate::Intersects
            | Predicate::Touches
            | Predicate::Crosses
            | Predicate::Within
            | Predicate::Contains
            | Predicate::Overlaps => true,
            Predicate::Relate(pattern) => wants_common_point(pattern),
        }
    }
}

/// Whether the pattern matches only if the two geometries share a point.
fn wants_common_point(pattern: &Pattern) -> bool
    ensures { result ≡ wants_common_point pattern.now }
{
    wants_point(pattern.interior_interior)
        || wants_point(pattern.interior_boundary)
        || wants_point(pattern.boundary_interior)
        || wants_point(pattern.boundary_boundary)
}

/// Whether no empty cell matches the character.
fn wants_point(character: PatternCharacter) -> bool
    ensures { result ≡ wants_point character }
{
    !matches!(character, PatternCharacter::False | PatternCharacter::Any)
}
