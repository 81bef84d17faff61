//! The arithmetic and the common facts of proofs: laws of sums, products and orders of whole numbers, lemmas of rings, quotients
//! and signs, and facts about tests, options, lists, numbers and their order that several crates need and std doesn't have.
//! Nothing here runs: each function has an empty body, and its contract is a law.
#![tactic(auto)]

ghost use Rattle.basics.specs.Laws.{Distributes, Associates, ProductOfDifferences, LessIsTransitive, AtMostIsTransitive, ZeroProduct, SignIsKept};

/// Multiplication distributes over addition: `a (b + c) = a b + a c`.
pub fn product_distributes()
    ensures { Distributes }
{}

/// Multiplication is associative: `(a b) c = a (b c)`.
pub fn product_associates()
    ensures { Associates }
{}

/// The product of two differences, multiplied out.
pub fn product_of_differences()
    ensures { ProductOfDifferences }
{}

/// A product is 0 only if one of its factors is.
pub fn zero_product()
    ensures { ZeroProduct }
{}

/// 'Less than' is transitive for quotients with divisors of at least 1 that are compared by cross-multiplication.
pub fn less_is_transitive()
    ensures { LessIsTransitive }
{}

/// 'At most' is transitive for quotients with divisors of at least 1 that are compared by cross-multiplication.
pub fn at_most_is_transitive()
    ensures { AtMostIsTransitive }
{}

/// The product of a number and one of at least 1 has the sign of the first.
pub fn sign_is_kept()
    ensures { SignIsKept }
{}
