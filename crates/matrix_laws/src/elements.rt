//! Laws of a MULTIPOLYGON and its elements.

ghost use Rattle.matrix_laws.specs.ElementLaws.{ElementsAreValid, InteriorIsOfAnElement, NeverInTwo, BoundaryIsOfElements};

/// Each element of a valid area is a valid polygon (06-103r4, 6.1.14).
pub fn elements_are_valid()
    ensures { ElementsAreValid }
{}

/// A point is in the interior of a valid MULTIPOLYGON exactly when it is in the interior of one of its elements (06-103r4,
/// 6.1.14).
pub fn interior_is_of_an_element()
    ensures { InteriorIsOfAnElement }
{}

/// A point is never in two elements of a valid MULTIPOLYGON (06-103r4, 6.1.14).
pub fn never_in_two()
    ensures { NeverInTwo }
{}

/// The boundary of a MULTIPOLYGON is the union of its elements' boundaries (06-103r4, 6.1.14).
pub fn boundary_is_of_elements()
    ensures { BoundaryIsOfElements }
{}
