//! Laws of two closed rings that share no point.

ghost use Rattle.matrix_laws.specs.NestingLaws.{InnerIsWithinOuter, NothingIsOddOverBoth, NotEachIsInside};

/// If two closed rings share no point, what is inside the inner one is inside the outer one (06-103r4, 6.1.11.1).
pub fn inner_is_within_outer()
    ensures { InnerIsWithinOuter }
{}

/// If neither of two closed rings that share no point is inside the other, no point is inside both (06-103r4, 6.1.11.1).
pub fn nothing_is_odd_over_both()
    ensures { NothingIsOddOverBoth }
{}

/// Two closed rings that share no point aren't each inside the other (06-103r4, 6.1.11.1).
pub fn not_each_is_inside()
    ensures { NotEachIsInside }
{}
