//! Worked faults of geometries, computed from their texts.
#![tactic(auto, unfolding(crate::specs::TextReading::read_text, crate::specs::TextReading::whole, crate::specs::TextReading::tagged, crate::specs::TextReading::typed, crate::specs::TextReading::body, crate::specs::TextReading::parts, crate::specs::TextReading::polygon, crate::specs::TextReading::polygons, crate::specs::TextReading::line, crate::specs::TextReading::separated, crate::specs::TextReading::point, crate::specs::TextReading::position, crate::specs::TextReading::space, crate::specs::TextReading::coordinate, crate::specs::TextReading::numeral, crate::specs::TextReading::fraction, crate::specs::TextReading::sign,))]

ghost use Rattle.std.specs.Prelude.{◌≡◌, codes, Some, None, List, [], ◌∷◌};
ghost use Rattle.geometry_model.specs.ValidityExamples.{fault_of};
ghost use Rattle.geometry_model.specs.declared.validity_faults.ValidityFault.TheVariants.{
  TooFewPoints,
  RingNotClosed,
  RingNotSimple,
  RingsMeet,
  HoleOutside,
  HolesNested,
  ElementsMeet,
  ElementInside,
};
ghost use Rattle.geometry_model.specs.FirstFaults.{validity_fault};
ghost use Rattle.geometry_model.specs.Geometries as spec;

/// Geometries without fault: points are always valid, and empty geometries, and lines that cross themselves
/// (06-103r4, 6.1.7 and 6.1.11.1).
pub fn valid_geometries()
    ensures points { fault_of (codes "MULTIPOINT(1 1,1 1)") ≡ Some None }
    ensures crossed_line { fault_of (codes "LINESTRING(0 0,2 2,2 0,0 2)") ≡ Some None }
    ensures closed_lines { fault_of (codes "MULTILINESTRING((0 0,1 0),(0 0,1 0,0 0))") ≡ Some None }
    ensures empty_line { fault_of (codes "LINESTRING EMPTY") ≡ Some None }
    ensures square { fault_of (codes "POLYGON((0 0,4 0,4 4,0 4,0 0))") ≡ Some None }
    ensures triangle_turned_round { fault_of (codes "POLYGON((0 0,0 4,4 0,0 0))") ≡ Some None }
    ensures straight_at_the_closing_position { fault_of (codes "POLYGON((2 0,4 0,2 3,0 0,2 0))") ≡ Some None }
    ensures hole { fault_of (codes "POLYGON((0 0,10 0,10 10,0 10,0 0),(4 4,6 4,6 6,4 6,4 4))") ≡ Some None }
    ensures empty_polygon { fault_of (codes "POLYGON EMPTY") ≡ Some None }
{}

/// Too few positions, and rings that aren't closed (06-103r4, 6.1.7 and 6.1.11.1).
pub fn short_and_open_parts()
    ensures short_line { fault_of (codes "LINESTRING(3 3,3 3)") ≡ Some (Some (TooFewPoints 0)) }
    ensures short_element { fault_of (codes "MULTILINESTRING((0 0,1 0),(2 2,2 2,2 2))")
        ≡ Some (Some (TooFewPoints 1)) }
    ensures short_ring { fault_of (codes "POLYGON((0 0,1 0,0 0))") ≡ Some (Some (TooFewPoints 0)) }
    ensures repeat_dropped { fault_of (codes "POLYGON((0 0,0 0,1 0,0 0))") ≡ Some (Some (TooFewPoints 0)) }
    ensures open_ring { fault_of (codes "POLYGON((0 0,4 0,4 4,0 4))") ≡ Some (Some (RingNotClosed 0)) }
    ensures short_before_open { fault_of (codes "POLYGON((0 0,4 0,4 4,0 4),(1 1,2 1,1 1))")
        ≡ Some (Some (TooFewPoints 1)) }
{}

/// Rings that meet or cover themselves (06-103r4, 6.1.7).
pub fn rings_not_simple()
    ensures level { fault_of (codes "POLYGON((0 0,1 1,2 2,0 0))") ≡ Some (Some (RingNotSimple 0)) }
    ensures crossed { fault_of (codes "POLYGON((0 0,4 4,4 0,0 4,0 0))") ≡ Some (Some (RingNotSimple 0)) }
    ensures neighbours_overlap { fault_of (codes "POLYGON((0 0,4 0,2 0,2 3,0 0))")
        ≡ Some (Some (RingNotSimple 0)) }
    ensures last_runs_back { fault_of (codes "POLYGON((2 0,4 0,2 3,6 0,2 0))")
        ≡ Some (Some (RingNotSimple 0)) }
    ensures position_met_again { fault_of (codes "POLYGON((0 0,2 2,4 0,4 4,2 2,0 4,0 0))")
        ≡ Some (Some (RingNotSimple 0)) }
    ensures hole_crossed { fault_of (codes "POLYGON((0 0,9 0,9 9,0 9,0 0),(1 1,3 3,3 1,1 3,1 1))")
        ≡ Some (Some (RingNotSimple 1)) }
{}

/// Rings that share a point, a position of both or not, and holes outside or in other holes (06-103r4, 6.1.11.1).
pub fn rings_in_the_wrong_place()
    ensures position_on_an_edge { fault_of (codes "POLYGON((0 0,4 0,4 4,0 4,0 0),(0 2,1 1,1 3,0 2))")
        ≡ Some (Some (RingsMeet 0 1)) }
    ensures crossing_edges { fault_of (codes "POLYGON((0 0,4 0,4 4,0 4,0 0),(1 1,5 2,1 3,1 1))")
        ≡ Some (Some (RingsMeet 0 1)) }
    ensures common_position { fault_of
        (codes "POLYGON((0 0,9 0,9 9,0 9,0 0),(1 1,4 1,4 4,1 1),(4 4,7 4,7 7,4 4))")
        ≡ Some (Some (RingsMeet 1 2)) }
    ensures hole_outside { fault_of (codes "POLYGON((0 0,4 0,4 4,0 4,0 0),(20 20,21 20,21 21,20 20))")
        ≡ Some (Some (HoleOutside 1)) }
    ensures second_in_the_first { fault_of
        (codes "POLYGON((0 0,9 0,9 9,0 9,0 0),(1 1,8 1,8 8,1 8,1 1),(2 2,3 2,3 3,2 3,2 2))")
        ≡ Some (Some (HolesNested 1 2)) }
    ensures first_in_the_second { fault_of
        (codes "POLYGON((0 0,9 0,9 9,0 9,0 0),(2 2,3 2,3 3,2 3,2 2),(1 1,8 1,8 8,1 8,1 1))")
        ≡ Some (Some (HolesNested 1 2)) }
{}

/// Some polygons without fault: side by side, one in a hole of another, with a hole of its own or not, and none at all
/// (06-103r4, 6.1.14).
pub fn valid_multi_polygons()
    ensures none { fault_of (codes "MULTIPOLYGON EMPTY") ≡ Some None }
    ensures side_by_side { fault_of (codes "MULTIPOLYGON(((0 0,4 0,4 4,0 4,0 0)),((6 0,8 0,8 4,6 4,6 0)))")
        ≡ Some None }
    ensures in_a_hole { fault_of
        (codes "MULTIPOLYGON(((0 0,10 0,10 10,0 10,0 0),(2 2,8 2,8 8,2 8,2 2)),((4 4,6 4,6 6,4 6,4 4)))")
        ≡ Some None }
    ensures holes_of_two { fault_of
        (codes "MULTIPOLYGON(((0 0,10 0,10 10,0 10,0 0),(1 1,9 1,9 9,1 9,1 1)),((2 2,8 2,8 8,2 8,2 2),(3 3,7 3,7 7,3 7,3 3)))")
        ≡ Some None }
{}

/// Faults of one polygon of several: rings are numbered through the whole text, and rings of two polygons aren't
/// compared as rings of one (06-103r4, 6.1.11.1 and 6.1.14).
pub fn faults_of_one_element()
    ensures short_ring { fault_of
        (codes "MULTIPOLYGON(((0 0,9 0,9 9,0 0),(5 1,6 1,6 2,5 1)),((20 0,21 0,20 0)))")
        ≡ Some (Some (TooFewPoints 2)) }
    ensures open_ring { fault_of (codes "MULTIPOLYGON(((0 0,4 0,4 4,0 0)),((20 0,24 0,24 4,20 4)))")
        ≡ Some (Some (RingNotClosed 1)) }
    ensures ring_not_simple { fault_of
        (codes "MULTIPOLYGON(((0 0,4 0,4 4,0 0)),((20 0,24 4,24 0,20 4,20 0)))")
        ≡ Some (Some (RingNotSimple 1)) }
    ensures rings_meet { fault_of
        (codes "MULTIPOLYGON(((20 0,29 0,29 9,20 0),(25 1,26 1,26 2,25 1)),((0 0,4 0,4 4,0 4,0 0),(0 2,1 1,1 3,0 2)))")
        ≡ Some (Some (RingsMeet 2 3)) }
    ensures hole_in_another_element { fault_of
        (codes "MULTIPOLYGON(((20 0,24 0,24 4,20 0)),((0 0,4 0,4 4,0 4,0 0),(22 1,23 1,23 2,22 1)))")
        ≡ Some (Some (HoleOutside 2)) }
    ensures holes_nested { fault_of
        (codes "MULTIPOLYGON(((20 0,24 0,24 4,20 0)),((0 0,9 0,9 9,0 9,0 0),(1 1,8 1,8 8,1 8,1 1),(2 2,3 2,3 3,2 3,2 2)))")
        ≡ Some (Some (HolesNested 2 3)) }
    ensures not_simple_before_meeting { fault_of
        (codes "MULTIPOLYGON(((0 0,4 0,4 4,0 4,0 0),(0 2,1 1,1 3,0 2)),((20 0,24 4,24 0,20 4,20 0)))")
        ≡ Some (Some (RingNotSimple 2)) }
    ensures first_element_first { fault_of
        (codes "MULTIPOLYGON(((0 0,4 0,4 4,0 4,0 0),(0 2,1 1,1 3,0 2)),((20 0,24 0,24 4,20 4,20 0),(20 2,21 1,21 3,20 2)))")
        ≡ Some (Some (RingsMeet 0 1)) }
    ensures meeting_before_outside { fault_of
        (codes "MULTIPOLYGON(((0 0,4 0,4 4,0 4,0 0),(8 8,9 8,9 9,8 8)),((20 0,24 0,24 4,20 4,20 0),(20 2,21 1,21 3,20 2)))")
        ≡ Some (Some (RingsMeet 2 3)) }
{}

/// Polygons that share a point, a position of both or not, and polygons inside others (06-103r4, 6.1.14).
pub fn elements_in_the_wrong_place()
    ensures common_position { fault_of (codes "MULTIPOLYGON(((0 0,4 0,4 4,0 4,0 0)),((4 4,5 4,5 5,4 4)))")
        ≡ Some (Some (ElementsMeet 0 1)) }
    ensures crossing_edges { fault_of (codes "MULTIPOLYGON(((0 0,4 0,4 4,0 4,0 0)),((1 1,5 2,1 3,1 1)))")
        ≡ Some (Some (ElementsMeet 0 1)) }
    ensures equal { fault_of (codes "MULTIPOLYGON(((0 0,4 0,4 4,0 0)),((0 0,4 0,4 4,0 0)))")
        ≡ Some (Some (ElementsMeet 0 1)) }
    ensures fills_a_hole { fault_of
        (codes "MULTIPOLYGON(((0 0,10 0,10 10,0 10,0 0),(2 2,8 2,8 8,2 8,2 2)),((2 2,8 2,8 8,2 8,2 2)))")
        ≡ Some (Some (ElementsMeet 0 1)) }
    ensures first_inside_the_second { fault_of
        (codes "MULTIPOLYGON(((1 1,2 1,2 2,1 1)),((0 0,9 0,9 9,0 9,0 0)))")
        ≡ Some (Some (ElementInside 0 1)) }
    ensures second_inside_the_first { fault_of
        (codes "MULTIPOLYGON(((0 0,9 0,9 9,0 9,0 0)),((1 1,2 1,2 2,1 1)))")
        ≡ Some (Some (ElementInside 1 0)) }
    ensures least_of_both { fault_of
        (codes "MULTIPOLYGON(((3 3,4 3,4 4,3 3)),((2 2,7 2,7 7,2 7,2 2)),((0 0,9 0,9 9,0 9,0 0)))")
        ≡ Some (Some (ElementInside 0 1)) }
    ensures nested_before_meeting { fault_of
        (codes "MULTIPOLYGON(((30 0,34 0,34 4,30 0)),((34 4,35 4,35 5,34 4)),((0 0,9 0,9 9,0 9,0 0),(1 1,8 1,8 8,1 8,1 1),(2 2,3 2,3 3,2 3,2 2)))")
        ≡ Some (Some (HolesNested 3 4)) }
    ensures meeting_before_inside { fault_of
        (codes "MULTIPOLYGON(((0 0,9 0,9 9,0 9,0 0)),((1 1,4 1,4 4,1 1)),((4 4,5 4,5 5,4 4)))")
        ≡ Some (Some (ElementsMeet 1 2)) }
{}

/// Geometries that no text spells: an element of lines without positions is too short, a polygon without rings has no
/// fault of its own (06-103r4, 6.1.9 and 6.1.14).
pub fn empty_elements()
    ensures line { validity_fault (spec.MultiLineString ([] ∷ [])) ≡ Some (TooFewPoints 0) }
    ensures polygon { validity_fault (spec.MultiPolygon ([] ∷ [] ∷ [])) ≡ None }
    ensures ring { validity_fault (spec.MultiPolygon ([] ∷ ([] ∷ []) ∷ [])) ≡ Some (TooFewPoints 0) }
{}
