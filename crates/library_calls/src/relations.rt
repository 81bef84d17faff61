//! The relations that are asked for by number.

ghost use Rattle.std.specs.Prelude.{◌≡◌, IfSome, Some, true, false, ℕ};
ghost use Rattle.geometry_model.specs.Dimensions.{Matrix};
ghost use Rattle.geometry_model.specs.declared.shapes.Kind.{Kind};
ghost use Rattle.library_calls.specs.Kept.{HasRelation};
ghost use Rattle.geometry_model.specs.Predicates as predicates;
ghost use Rattle.library_calls.specs.Relations.{all_hold, contains_properly, covered_by, covers, relation_holds, relation_of};

use de9im::{Matrix, MatrixPattern, PatternText, has_position_outside, holds as predicate_holds};
use geometry_model::{Kind, Pattern, Predicate};
use validity::Valid;

/// A relation of two geometries that has a number: the eight named predicates (06-103r4, 6.1.15.3), and three more that
/// engines have (their patterns: this project's choice).
#[derive(Clone, Copy, Debug, PartialEq, Eq)]
pub enum Relation {
    Equals,
    Disjoint,
    Intersects,
    Touches,
    Crosses,
    Within,
    Contains,
    Overlaps,
    /// No point of the second is in the exterior of the first, and they share a point.
    Covers,
    /// No point of the first is in the exterior of the second, and they share a point.
    CoveredBy,
    /// Every point of the second is in the interior of the first.
    ContainsProperly,
}

/// The relation of this number, counted from 0 in the order of [`Relation`]; None from 11 on.
pub fn relation_of(number: u32) -> Option<Relation>
    ensures { result ≡ relation_of number }
{
    match number {
        0 => Some(Relation::Equals),
        1 => Some(Relation::Disjoint),
        2 => Some(Relation::Intersects),
        3 => Some(Relation::Touches),
        4 => Some(Relation::Crosses),
        5 => Some(Relation::Within),
        6 => Some(Relation::Contains),
        7 => Some(Relation::Overlaps),
        8 => Some(Relation::Covers),
        9 => Some(Relation::CoveredBy),
        10 => Some(Relation::ContainsProperly),
        _ => None,
    }
}

/// The named predicate that a relation is; None for the three others. Those are decided later, by the matrix.
pub(crate) fn predicate_of(relation: Relation) -> Option<Predicate>
    ensures { IfSome result (λ p. (k l : Kind) (m : Matrix) → relation_holds relation k l m ≡ predicates.holds p k l m) }
{
    match relation {
        Relation::Equals => Some(Predicate::Equals),
        Relation::Disjoint => Some(Predicate::Disjoint),
        Relation::Intersects => Some(Predicate::Intersects),
        Relation::Touches => Some(Predicate::Touches),
        Relation::Crosses => Some(Predicate::Crosses),
        Relation::Within => Some(Predicate::Within),
        Relation::Contains => Some(Predicate::Contains),
        Relation::Overlaps => Some(Predicate::Overlaps),
        Relation::Covers | Relation::CoveredBy | Relation::ContainsProperly => None,
    }
}

/// Whether a position of one geometry in the other's exterior shows that one of these three relations doesn't hold. If it returns
/// false, the relation may not hold either, and the matrix decides later.
pub(crate) fn is_refuted(relation: Relation, first: &Valid, second: &Valid) -> bool
    ensures { result ≡ true → (number : ℕ) → relation_of number ≡ Some relation
        → HasRelation number first.now second.now false }
{
    let _first = first.geometry();
    let _second = second.geometry();
    match relation {
        Relation::Covers => has_position_outside(second, first),
        Relation::ContainsProperly => has_position_outside(second, first),
        Relation::CoveredBy => has_position_outside(first, second),
        _ => false,
    }
}

/// Whether the relation holds of two geometries of these kinds whose matrix this is (06-103r4, 6.1.15.3). It takes no memory.
pub fn holds(relation: Relation, first: Kind, second: Kind, matrix: &Matrix) -> bool
    ensures { result ≡ relation_holds relation first second matrix.now }
{
    match relation {
        Relation::Equals => predicate_holds(Predicate::Equals, first, second, matrix),
        Relation::Disjoint => predicate_holds(Predicate::Disjoint, first, second, matrix),
        Relation::Intersects => predicate_holds(Predicate::Intersects, first, second, matrix),
        Relation::Touches => predicate_holds(Predicate::Touches, first, second, matrix),
        Relation::Crosses => predicate_holds(Predicate::Crosses, first, second, matrix),
        Relation::Within => predicate_holds(Predicate::Within, first, second, matrix),
        Relation::Contains => predicate_holds(Predicate::Contains, first, second, matrix),
        Relation::Overlaps => predicate_holds(Predicate::Overlaps, first, second, matrix),
        Relation::Covers => covers(matrix),
        Relation::CoveredBy => covered_by(matrix),
        Relation::ContainsProperly => like("T**FF*FF*", matrix),
    }
}

/// Which of the eleven relations hold, by their numbers.
pub fn all_hold(first: Kind, second: Kind, matrix: &Matrix) -> [bool; 11]
    ensures { result ≡ all_hold first second matrix.now }
{
    [
        holds(Relation::Equals, first, second, matrix),
        holds(Relation::Disjoint, first, second, matrix),
        holds(Relation::Intersects, first, second, matrix),
        holds(Relation::Touches, first, second, matrix),
        holds(Relation::Crosses, first, second, matrix),
        holds(Relation::Within, first, second, matrix),
        holds(Relation::Contains, first, second, matrix),
        holds(Relation::Overlaps, first, second, matrix),
        holds(Relation::Covers, first, second, matrix),
        holds(Relation::CoveredBy, first, second, matrix),
        holds(Relation::ContainsProperly, first, second, matrix),
    ]
}

/// Whether the matrix matches the pattern of this text.
fn like(text: &str, matrix: &Matrix) -> bool
    ensures { result ≡ predicates.like text.now matrix.now }
{
    match Pattern::read(text) {
        Some(pattern) => pattern.matches(matrix),
        None => false,
    }
}

fn covers(matrix: &Matrix) -> bool
    ensures { result ≡ covers matrix.now }
{
    like("T*****FF*", matrix)
        || like("*T****FF*", matrix)
        || like("***T**FF*", matrix)
        || like("****T*FF*", matrix)
}

fn covered_by(matrix: &Matrix) -> bool
    ensures { result ≡ covered_by matrix.now }
{
    like("T*F**F***", matrix)
        || like("*TF**F***", matrix)
        || like("**FT*F***", matrix)
        || like("**F*TF***", matrix)
}
