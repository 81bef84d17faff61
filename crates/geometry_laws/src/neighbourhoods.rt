//! Laws of pieces and neighbourhoods: on which stretches and around which points labels are constant.

ghost use Rattle.geometry_laws.specs.PieceLaws.{LabelsAreConstant, SidesAreConstant, OffHasTriangle};

/// All points strictly within a piece of two geometries have one label.
pub fn labels_are_constant()
    ensures { LabelsAreConstant }
{}

/// All points strictly within a piece that isn't vertical have one label on the upper side and one on the lower.
pub fn sides_are_constant()
    ensures { SidesAreConstant }
{}

/// Around a point off both geometries there is a triangle of points that lie where it does.
pub fn off_has_triangle()
    ensures { OffHasTriangle }
{}
