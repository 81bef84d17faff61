//! Laws of the least form of a point. Nothing here runs: each function has an empty body, and its contract is a law
//! of the definitions.

ghost use Rattle.geometry_model.specs.LeastFormLaws.{GcdIsGcd, LeastFormIsLeast, LeastFormIsUnique};

/// `gcd` of the definitions is the greatest common divisor.
pub fn gcd_is_greatest()
    ensures { GcdIsGcd }
{}

/// The least form of a point is a point in least form, and the same point.
pub fn least_form_is_least()
    ensures { LeastFormIsLeast }
{}

/// Two triples in least form that are the same point are equal.
pub fn least_form_is_unique()
    ensures { LeastFormIsUnique }
{}
