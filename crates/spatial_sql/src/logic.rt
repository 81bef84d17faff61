//! SQL's three-valued logic: NOT, AND and OR of true, false and unknown.

ghost use Rattle.std.specs.Prelude.{◌≡◌};
ghost use Rattle.table_model.specs.Truths as spec;
ghost use Rattle.spatial_sql.specs.Evaluation.{joined_by, of_none};

use table_model::values::Truth;

/// NOT of a truth; NOT of unknown is unknown (SQL's three-valued logic).
pub(crate) fn not(a: Truth) -> Truth
    ensures { result ≡ spec.not_of a }
{
    match a {
        Truth::True => Truth::False,
        Truth::False => Truth::True,
        Truth::Unknown => Truth::Unknown,
    }
}

/// How the parts of a condition are joined (SQL's three-valued logic).
#[derive(Clone, Copy)]
pub(crate) enum Junction {
    /// AND.
    All,
    /// OR.
    Any,
}

/// AND of two truths: false if one of them is, else unknown if one of them is, else true (SQL's three-valued logic).
fn and(a: Truth, b: Truth) -> Truth
    ensures { result ≡ spec.and_of a b }
{
    match (a, b) {
        (Truth::True, _) => b,
        (_, Truth::True) => a,
        (Truth::False, _) | (_, Truth::False) => Truth::False,
        (Truth::Unknown, Truth::Unknown) => Truth::Unknown,
    }
}

/// OR of two truths: true if one of them is, else unknown if one of them is, else false (SQL's three-valued logic).
fn or(a: Truth, b: Truth) -> Truth
    ensures { result ≡ spec.or_of a b }
{
    match (a, b) {
        (Truth::False, _) => b,
        (_, Truth::False) => a,
        (Truth::True, _) | (_, Truth::True) => Truth::True,
        (Truth::Unknown, Truth::Unknown) => Truth::Unknown,
    }
}

/// The truth of AND or OR without parts, from which joining starts (SQL's three-valued logic).
pub(crate) fn of_none(junction: Junction) -> Truth
    ensures { result ≡ of_none junction }
{
    match junction {
        Junction::All => Truth::True,
        Junction::Any => Truth::False,
    }
}

/// Two truths joined by AND or OR (SQL's three-valued logic).
pub(crate) fn joined(junction: Junction, a: Truth, b: Truth) -> Truth
    ensures { result ≡ joined_by junction a b }
{
    match junction {
        Junction::All => and(a, b),
        Junction::Any => or(a, b),
    }
}

/// The truth of a test, which is never unknown.
pub(crate) fn truth_of(test: bool) -> Truth
    ensures { result ≡ spec.truth_of test }
{
    if test { Truth::True } else { Truth::False }
}
