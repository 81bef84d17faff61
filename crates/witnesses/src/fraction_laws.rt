//! A law of the texts of fractions. Nothing here runs: the function has an empty body, and its contract is a law of the
//! definitions.

ghost use Rattle.witnesses.specs.FractionLaws.{WritesLeastForm};

/// A fraction is written in least form: as the two numbers, the second at least 1, that have the fraction's value and no
/// common divisor but 1.
pub fn fractions_are_least()
    ensures { WritesLeastForm }
{}
