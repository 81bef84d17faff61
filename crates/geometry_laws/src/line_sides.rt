//! Laws of the side of a line.

ghost use Rattle.geometry_laws.specs.SideLaws.{SideIsAntisymmetric, SideIsZeroOnTheLine};

/// Exchanging the two positions of a line changes the sign of a point's side.
pub fn side_is_antisymmetric()
    ensures { SideIsAntisymmetric }
{}

/// The side of a line through two different positions is 0 exactly at the points on the line.
pub fn side_is_zero_on_the_line()
    ensures { SideIsZeroOnTheLine }
{}
