//! Worked rows of points, locations, cut points, patterns, predicates and envelopes, computed.
#![tactic(auto, unfolding(crate::specs::TextReading::read_text, crate::specs::TextReading::whole, crate::specs::TextReading::tagged, crate::specs::TextReading::typed, crate::specs::TextReading::body, crate::specs::TextReading::parts, crate::specs::TextReading::polygon, crate::specs::TextReading::polygons, crate::specs::TextReading::line, crate::specs::TextReading::separated, crate::specs::TextReading::point, crate::specs::TextReading::position, crate::specs::TextReading::space, crate::specs::TextReading::coordinate, crate::specs::TextReading::numeral, crate::specs::TextReading::fraction, crate::specs::TextReading::sign,))]

ghost use Rattle.std.specs.Prelude.{◌≡◌, true, false, [], ◌∷◌, codes, pos, negsuc, Some, None};
ghost use Rattle.std.specs.declared.cmp.Ordering.TheVariants.{Less, Equal, Greater};
ghost use Rattle.geometry_model.specs.Points.{same_point, compare, mediant, least_form};
ghost use Rattle.geometry_model.specs.Patterns.{pattern_of_text};
ghost use Rattle.geometry_model.specs.Predicates.{forces_meeting};
ghost use Rattle.geometry_model.specs.GeometryExamples.{
  place,
  just_below,
  just_above,
  is_held,
  forces,
  cuts,
  pieces_of_both,
  bounds,
  bounds_meet,
  point,
  from_to,
  square,
  frame,
  diamond,
  square_in_a_hole,
};
ghost use Rattle.geometry_model.specs.declared.point_sets.Location.TheVariants.{Interior, Boundary, Exterior};
ghost use Rattle.geometry_model.specs.declared.relations.Predicate.TheVariants.{
  Equals,
  Disjoint,
  Intersects,
  Touches,
  Crosses,
  Within,
  Contains,
  Overlaps,
};

/// One point by several triples, its least form, the order of points, and a point between two.
pub fn rational_points()
    ensures multiples { same_point (point (pos 6) (pos 2) (pos 5)) (point (pos 12) (pos 4) (pos 10)) ≡ true }
    ensures different { same_point (point (pos 6) (pos 2) (pos 5)) (point (pos 12) (pos 5) (pos 10)) ≡ false }
    ensures least { least_form (point (pos 12) (negsuc 3) (pos 10)) ≡ point (pos 6) (negsuc 1) (pos 5) }
    ensures least_origin { least_form (point (pos 0) (pos 0) (pos 7)) ≡ point (pos 0) (pos 0) (pos 1) }
    ensures by_x { compare (point (negsuc 0) (pos 9) (pos 2)) (point (pos 0) (pos 0) (pos 1)) ≡ Less }
    ensures then_by_y { compare (point (pos 2) (pos 3) (pos 2)) (point (pos 1) (pos 1) (pos 1)) ≡ Greater }
    ensures equal { compare (point (pos 2) (pos 4) (pos 2)) (point (pos 1) (pos 2) (pos 1)) ≡ Equal }
    ensures between { mediant (point (pos 0) (pos 0) (pos 1)) (point (pos 6) (pos 2) (pos 5))
        ≡ point (pos 6) (pos 2) (pos 6) }
{}

/// Where points lie: ends of lines, corners of rings, holes (06-103r4, 6.1.15.2).
pub fn locations()
    ensures two_ends { place (codes "MULTILINESTRING((0 0,2 0),(2 0,4 0))") (point (pos 2) (pos 0) (pos 1))
        ≡ Some Interior }
    ensures three_ends { place (codes "MULTILINESTRING((0 0,2 0),(2 0,4 0),(2 0,2 2))")
        (point (pos 2) (pos 0) (pos 1)) ≡ Some Boundary }
    ensures closed_line { place (codes "LINESTRING(0 0,2 0,2 2,0 0)") (point (pos 0) (pos 0) (pos 1))
        ≡ Some Interior }
    ensures end_of_a_line { place (codes "LINESTRING(0 0,2 0,2 2)") (point (pos 2) (pos 2) (pos 1))
        ≡ Some Boundary }
    ensures off_a_line { place (codes "LINESTRING(0 0,3 1)") (point (pos 6) (pos 3) (pos 5)) ≡ Some Exterior }
    ensures below_a_corner { place diamond (point (pos 2) (pos 1) (pos 1)) ≡ Some Interior }
    ensures left_of_a_corner { place diamond (point (negsuc 0) (pos 2) (pos 1)) ≡ Some Exterior }
    ensures on_a_corner { place diamond (point (pos 4) (pos 2) (pos 1)) ≡ Some Boundary }
    ensures below_everything { place diamond (point (pos 2) (negsuc 0) (pos 1)) ≡ Some Exterior }
    ensures in_a_hole { place frame (point (pos 5) (pos 5) (pos 1)) ≡ Some Exterior }
    ensures on_the_ring_of_a_hole { place frame (point (pos 4) (pos 5) (pos 1)) ≡ Some Boundary }
    ensures beside_a_hole { place frame (point (pos 7) (pos 10) (pos 2)) ≡ Some Interior }
    ensures in_an_element_within_a_hole { place square_in_a_hole (point (pos 5) (pos 5) (pos 1))
        ≡ Some Interior }
    ensures between_an_element_and_the_hole { place square_in_a_hole (point (pos 3) (pos 3) (pos 1))
        ≡ Some Exterior }
    ensures on_the_ring_of_an_element { place square_in_a_hole (point (pos 4) (pos 5) (pos 1))
        ≡ Some Boundary }
{}

/// Below is towards lesser y: just below the lower edge of an area is its exterior, and just above that edge its interior.
pub fn sides_of_edges()
    ensures below_the_lower_edge { just_below square (point (pos 2) (pos 0) (pos 1)) ≡ Some Exterior }
    ensures above_the_lower_edge { just_above square (point (pos 2) (pos 0) (pos 1)) ≡ Some Interior }
    ensures below_the_upper_edge { just_below square (point (pos 2) (pos 4) (pos 1)) ≡ Some Interior }
    ensures above_the_upper_edge { just_above square (point (pos 2) (pos 4) (pos 1)) ≡ Some Exterior }
    ensures below_the_lower_edge_of_a_hole { just_below frame (point (pos 5) (pos 4) (pos 1))
        ≡ Some Interior }
    ensures above_the_lower_edge_of_a_hole { just_above frame (point (pos 5) (pos 4) (pos 1))
        ≡ Some Exterior }
    ensures below_a_slanting_edge { just_below diamond (point (pos 1) (pos 1) (pos 1)) ≡ Some Exterior }
    ensures above_a_slanting_edge { just_above diamond (point (pos 1) (pos 1) (pos 1)) ≡ Some Interior }
    ensures below_an_element_within_a_hole { just_below square_in_a_hole (point (pos 5) (pos 4) (pos 1))
        ≡ Some Exterior }
    ensures above_an_element_within_a_hole { just_above square_in_a_hole (point (pos 5) (pos 4) (pos 1))
        ≡ Some Interior }
    ensures below_a_line { just_below (codes "LINESTRING(0 0,4 0)") (point (pos 2) (pos 0) (pos 1))
        ≡ Some Exterior }
    ensures above_a_line { just_above (codes "LINESTRING(0 0,4 0)") (point (pos 2) (pos 0) (pos 1))
        ≡ Some Exterior }
{}

/// Cut points and pieces of two lines that cross, of two that share a stretch, and of a vertical one.
pub fn cut_points_and_pieces()
    ensures crossing { cuts (codes "LINESTRING(0 0,3 1)") (codes "LINESTRING(0 1,2 0)")
        ≡ Some (point (pos 0) (pos 0) (pos 1) ∷ point (pos 0) (pos 1) (pos 1) ∷ point (pos 6) (pos 2) (pos 5)
        ∷ point (pos 2) (pos 0) (pos 1) ∷ point (pos 3) (pos 1) (pos 1) ∷ []) }
    ensures four_pieces { pieces_of_both (codes "LINESTRING(0 0,3 1)") (codes "LINESTRING(0 1,2 0)")
        ≡ Some (from_to (point (pos 0) (pos 0) (pos 1)) (point (pos 6) (pos 2) (pos 5))
        ∷ from_to (point (pos 0) (pos 1) (pos 1)) (point (pos 6) (pos 2) (pos 5))
        ∷ from_to (point (pos 6) (pos 2) (pos 5)) (point (pos 2) (pos 0) (pos 1))
        ∷ from_to (point (pos 6) (pos 2) (pos 5)) (point (pos 3) (pos 1) (pos 1)) ∷ []) }
    ensures shared_stretch { pieces_of_both (codes "LINESTRING(0 0,4 0)") (codes "LINESTRING(6 0,2 0)")
        ≡ Some (from_to (point (pos 0) (pos 0) (pos 1)) (point (pos 2) (pos 0) (pos 1))
        ∷ from_to (point (pos 2) (pos 0) (pos 1)) (point (pos 4) (pos 0) (pos 1))
        ∷ from_to (point (pos 4) (pos 0) (pos 1)) (point (pos 6) (pos 0) (pos 1)) ∷ []) }
    ensures end_on_an_upright_line { pieces_of_both (codes "LINESTRING(0 0,2 0)")
        (codes "LINESTRING(2 -1,2 1)")
        ≡ Some (from_to (point (pos 0) (pos 0) (pos 1)) (point (pos 2) (pos 0) (pos 1))
        ∷ from_to (point (pos 2) (negsuc 0) (pos 1)) (point (pos 2) (pos 0) (pos 1))
        ∷ from_to (point (pos 2) (pos 0) (pos 1)) (point (pos 2) (pos 1) (pos 1)) ∷ []) }
    ensures at_the_limit { cuts (codes "LINESTRING(-10000000 -10000000,10000000 9999999)")
        (codes "LINESTRING(-10000000 10000000,9999999 -10000000)")
        ≡ Some (point (negsuc 9999999) (negsuc 9999999) (pos 1)
        ∷ point (negsuc 9999999) (pos 10000000) (pos 1)
        ∷ point (negsuc 9999999) (negsuc 399999989999999) (pos 799999960000001)
        ∷ point (pos 9999999) (negsuc 9999999) (pos 1) ∷ point (pos 10000000) (pos 9999999) (pos 1) ∷ []) }
{}

/// Texts of patterns: nine characters, letters in either case (06-103r4, 6.1.15.2).
pub fn pattern_texts()
    ensures too_short { pattern_of_text (codes "TTT") ≡ None }
    ensures too_long { pattern_of_text (codes "T*F**F****") ≡ None }
    ensures another_letter { pattern_of_text (codes "T*F**F**X") ≡ None }
    ensures small_letters { pattern_of_text (codes "t*f**f012") ≡ pattern_of_text (codes "T*F**F012") }
{}

/// Predicates of worked rows, by their label matrices (06-103r4, 6.1.15.3).
pub fn predicates_of_rows()
    ensures empty_geometries_are_equal { is_held Equals (codes "POINT EMPTY") (codes "LINESTRING EMPTY")
        ≡ Some true }
    ensures empty_areas_are_equal { is_held Equals (codes "MULTIPOLYGON EMPTY") (codes "POLYGON EMPTY")
        ≡ Some true }
    ensures one_element_is_a_polygon { is_held Equals (codes "MULTIPOLYGON(((0 0,4 0,4 4,0 4,0 0)))") square
        ≡ Some true }
    ensures two_elements_are_equal { is_held Equals (codes "LINESTRING(0 0,2 0)")
        (codes "MULTILINESTRING((0 0,1 0),(1 0,2 0))") ≡ Some true }
    ensures corner_touches { is_held Touches (codes "LINESTRING(-2 2,2 -2)") square ≡ Some true }
    ensures corner_does_not_cross { is_held Crosses (codes "LINESTRING(-2 2,2 -2)") square ≡ Some false }
    ensures squares_touch { is_held Touches square (codes "POLYGON((4 0,8 0,8 4,4 4,4 0))") ≡ Some true }
    ensures lines_cross { is_held Crosses (codes "LINESTRING(0 0,3 1)") (codes "LINESTRING(0 1,2 0)")
        ≡ Some true }
    ensures hole_is_disjoint { is_held Disjoint (codes "POINT(5 5)") frame ≡ Some true }
    ensures hole_does_not_intersect { is_held Intersects (codes "POINT(5 5)") frame ≡ Some false }
    ensures point_is_within { is_held Within (codes "POINT(1 1)") square ≡ Some true }
    ensures square_contains { is_held Contains square (codes "POINT(1 1)") ≡ Some true }
    ensures edge_is_not_within { is_held Within (codes "LINESTRING(0 0,4 0)") square ≡ Some false }
    ensures squares_overlap { is_held Overlaps square (codes "POLYGON((2 2,6 2,6 6,2 6,2 2))") ≡ Some true }
    ensures points_do_not_touch { is_held Touches (codes "POINT(1 1)") (codes "POINT(1 1)") ≡ Some false }
{}

/// Predicates and patterns that hold only if geometries share a point, so that their envelopes meet.
pub fn meeting_is_forced()
    ensures disjoint { forces_meeting Disjoint ≡ false }
    ensures equals { forces_meeting Equals ≡ true }
    ensures overlaps { forces_meeting Overlaps ≡ true }
    ensures any_common_point { forces (codes "T********") ≡ Some true }
    ensures boundaries_in_a_point { forces (codes "****0****") ≡ Some true }
    ensures exteriors_alone { forces (codes "FF2FF1212") ≡ Some false }
{}

/// Envelopes, and whether two meet: their sides count, and two absent ones meet (06-103r4, 6.1.2.2).
pub fn envelopes()
    ensures of_a_line { bounds (codes "LINESTRING(3 -1,0 5,7 2)")
        ≡ Some (Some record { least_x = pos 0; greatest_x = pos 7; least_y = negsuc 0; greatest_y = pos 5 }) }
    ensures of_an_empty_geometry { bounds (codes "POLYGON EMPTY") ≡ Some None }
    ensures two_absent { bounds_meet (codes "POINT EMPTY") (codes "POLYGON EMPTY") ≡ Some true }
    ensures one_absent { bounds_meet (codes "POINT EMPTY") square ≡ Some false }
    ensures at_a_corner { bounds_meet square (codes "POINT(4 4)") ≡ Some true }
    ensures within_a_hole { bounds_meet frame (codes "POINT(5 5)") ≡ Some true }
    ensures apart { bounds_meet square (codes "POINT(5 4)") ≡ Some false }
{}
