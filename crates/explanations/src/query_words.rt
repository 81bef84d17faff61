//! The words of queries: which can come at a place, and the functions of the language with their roles.

use crate::expected::Expected;
use crate::parts::{is, is_one_of, place_in};

/// The words of the language that can come at a place, the nearest of which is proposed.
pub(crate) fn own_words(expected: Expected) -> &'static [&'static [u8]] {
    match expected {
        Expected::Statement => &[b"SELECT", b"EXPLAIN"],
        Expected::Explained => &[b"ANALYZE", b"SELECT"],
        Expected::AfterItem | Expected::AfterStar | Expected::AfterCount => &[b"FROM"],
        Expected::AfterFirst => &[b"WHERE", b"JOIN", b"LIMIT", b"INNER", b"CROSS"],
        Expected::AfterSecond | Expected::AfterCrossed => &[b"WHERE", b"LIMIT"],
        Expected::AfterOn => &[b"AND", b"WHERE", b"LIMIT"],
        Expected::AfterPredicate | Expected::AfterComparison => &[b"AND", b"LIMIT"],
        Expected::Grouped => &[b"AND"],
        Expected::Is | Expected::IsNot => &[b"NULL"],
        Expected::Join => &[b"JOIN"],
        _ => &[],
    }
}

/// The functions of the language.
pub(crate) const OWN_FUNCTIONS: [&[u8]; 14] = [
    b"ST_Equals",
    b"ST_Disjoint",
    b"ST_Intersects",
    b"ST_Touches",
    b"ST_Crosses",
    b"ST_Within",
    b"ST_Contains",
    b"ST_Overlaps",
    b"ST_Relate",
    b"ST_IsEmpty",
    b"ST_AsText",
    b"ST_Dimension",
    b"ST_GeomFromText",
    b"COUNT",
];

/// What a function of the language takes and gives.
#[derive(Clone, Copy, PartialEq, Eq)]
pub(crate) enum Role {
    /// A condition on two geometries, and one that takes a pattern too.
    Relation,
    Pattern,
    /// A condition on one geometry.
    Test,
    /// A number or a text from one geometry.
    Value,
    /// A geometry from a text.
    Geometry,
    /// The number of rows.
    Count,
}

impl Role {
    /// Whether the function takes two geometries.
    pub(crate) fn relates(self) -> bool {
        matches!(self, Role::Relation | Role::Pattern)
    }

    /// Whether the function is a condition.
    pub(crate) fn is_condition(self) -> bool {
        self.relates() || self == Role::Test
    }
}

/// The role of the function with this name, in any ASCII case, if the language has it. Functions without a word here are relations.
pub(crate) fn role_of(name: &[u8]) -> Option<Role> {
    place_in(&OWN_FUNCTIONS, name)?;
    Some(if is(name, "ST_Relate") {
        Role::Pattern
    } else if is(name, "ST_IsEmpty") {
        Role::Test
    } else if is_one_of(name, "ST_AsText ST_Dimension") {
        Role::Value
    } else if is(name, "ST_GeomFromText") {
        Role::Geometry
    } else if is(name, "COUNT") {
        Role::Count
    } else {
        Role::Relation
    })
}
