//! Worked rows of the label matrix, computed from the texts of two geometries.
#![tactic(auto, unfolding(crate::specs::TextReading::read_text, crate::specs::TextReading::whole, crate::specs::TextReading::tagged, crate::specs::TextReading::typed, crate::specs::TextReading::body, crate::specs::TextReading::parts, crate::specs::TextReading::polygon, crate::specs::TextReading::polygons, crate::specs::TextReading::line, crate::specs::TextReading::separated, crate::specs::TextReading::point, crate::specs::TextReading::position, crate::specs::TextReading::space, crate::specs::TextReading::coordinate, crate::specs::TextReading::numeral, crate::specs::TextReading::fraction, crate::specs::TextReading::sign,))]

ghost use Rattle.std.specs.Prelude.{◌≡◌, codes, Some};
ghost use Rattle.geometry_model.specs.GeometryExamples.{relate, square, frame, two_squares, square_in_a_hole};

/// A point with points, lines and areas (06-103r4, 6.1.15.2).
pub fn matrices_of_points()
    ensures one_of_two { relate (codes "POINT(1 2)") (codes "MULTIPOINT((1 2),(3 4))")
        ≡ Some (codes "0FFFFF0F2") }
    ensures apart { relate (codes "POINT(1 2)") (codes "multipoint ( 3 4 )") ≡ Some (codes "FF0FFF0F2") }
    ensures listed_twice { relate (codes "MULTIPOINT(1 1,1 1)") (codes "POINT(+1.00 01)")
        ≡ Some (codes "0FFFFFFF2") }
    ensures in_an_area { relate (codes "POINT(1 1)") square ≡ Some (codes "0FFFFF212") }
    ensures in_a_hole { relate (codes "POINT(5 5)") frame ≡ Some (codes "FF0FFF212") }
    ensures in_a_corner_of_a_diamond { relate (codes "POINT(2 1)") (codes "POLYGON((0 2,2 0,4 2,2 4,0 2))")
        ≡ Some (codes "0FFFFF212") }
    ensures level_with_two_corners { relate (codes "POINT(2 2)") (codes "POLYGON((0 2,2 0,4 2,2 4,0 2))")
        ≡ Some (codes "0FFFFF212") }
    ensures at_the_limit { relate (codes "POINT(-10000000 10000000)")
        (codes "LINESTRING(-10000000 -10000000,-10000000 10000000)") ≡ Some (codes "F0FFFF102") }
{}

/// The ends of lines: an odd number of ends at a point makes it boundary (06-103r4, 6.1.8.1 and 6.1.15.2).
pub fn matrices_of_line_ends()
    ensures closed_line { relate (codes "POINT(0 0)") (codes "LINESTRING(0 0,2 0,2 2,0 0)")
        ≡ Some (codes "0FFFFF1F2") }
    ensures two_ends { relate (codes "POINT(2 0)") (codes "MULTILINESTRING((0 0,2 0),(2 0,4 0))")
        ≡ Some (codes "0FFFFF102") }
    ensures three_ends { relate (codes "POINT(2 0)") (codes "MULTILINESTRING((0 0,2 0),(2 0,4 0),(2 0,2 2))")
        ≡ Some (codes "F0FFFF102") }
    ensures end_within_another_element { relate (codes "POINT(2 0)")
        (codes "MULTILINESTRING((0 0,4 0),(2 0,2 2))") ≡ Some (codes "F0FFFF102") }
    ensures crosses_itself { relate (codes "POINT(1 1)") (codes "LINESTRING(0 0,2 2,2 0,0 2)")
        ≡ Some (codes "0FFFFF102") }
{}

/// Lines with lines: crossings at rational points, one line in two elements (06-103r4, 6.1.15.2).
pub fn matrices_of_lines()
    ensures crossing_at_fifths { relate (codes "LINESTRING(0 0,3 1)") (codes "LINESTRING(0 1,2 0)")
        ≡ Some (codes "0F1FF0102") }
    ensures crossing_of_long_lines { relate (codes "LINESTRING(-100000 -100000,100000 99999)")
        (codes "LINESTRING(-100000 -99999,100000 99998)") ≡ Some (codes "0F1FF0102") }
    ensures crossing_at_the_limit { relate (codes "LINESTRING(-10000000 -10000000,10000000 9999999)")
        (codes "LINESTRING(-10000000 -9999999,10000000 9999998)") ≡ Some (codes "0F1FF0102") }
    ensures equal_in_two_elements { relate (codes "LINESTRING(0 0,2 0)")
        (codes "MULTILINESTRING((0 0,1 0),(1 0,2 0))") ≡ Some (codes "1FFF0FFF2") }
    ensures shared_stretch { relate (codes "LINESTRING(0 0,4 0)") (codes "LINESTRING(6 0,2 0)")
        ≡ Some (codes "1010F0102") }
{}

/// Lines with areas: through corners, along edges, across, horizontal and vertical (06-103r4, 6.1.15.2).
pub fn matrices_of_lines_and_areas()
    ensures through_a_corner { relate (codes "LINESTRING(-2 2,2 -2)") square ≡ Some (codes "F01FF0212") }
    ensures along_a_level_edge { relate (codes "LINESTRING(0 0,4 0)") square ≡ Some (codes "F1FF0F212") }
    ensures along_an_upright_edge { relate (codes "LINESTRING(4 1,4 3)") square ≡ Some (codes "F1FF0F212") }
    ensures upright_across { relate (codes "LINESTRING(2 -1,2 5)") square ≡ Some (codes "101FF0212") }
    ensures across_a_hole { relate (codes "LINESTRING(-1 5,11 5)") frame ≡ Some (codes "101FF0212") }
    ensures across_a_hole_turned_round { relate frame (codes "LINESTRING(-1 5,11 5)")
        ≡ Some (codes "1F20F1102") }
{}

/// Areas with areas: shared edges, overlap, one in the other's hole, a reversed ring (06-103r4, 6.1.15.2).
pub fn matrices_of_areas()
    ensures shared_upright_edge { relate square (codes "POLYGON((4 0,8 0,8 4,4 4,4 0))")
        ≡ Some (codes "FF2F11212") }
    ensures shared_level_edge { relate square (codes "POLYGON((0 4,4 4,4 8,0 8,0 4))")
        ≡ Some (codes "FF2F11212") }
    ensures reversed_ring { relate square (codes "POLYGON((4 4,4 0,0 0,0 4,4 4))")
        ≡ Some (codes "2FFF1FFF2") }
    ensures overlapping { relate square (codes "POLYGON((2 2,6 2,6 6,2 6,2 2))") ≡ Some (codes "212101212") }
    ensures fills_the_hole { relate (codes "POLYGON((4 4,6 4,6 6,4 6,4 4))") frame
        ≡ Some (codes "FF2F1F212") }
{}

/// A MULTIPOLYGON of two squares next to each other, with a line through both, with a point between them, and with one of
/// them (06-103r4, 6.1.14 and 6.1.15.2).
pub fn matrices_of_two_squares()
    ensures line_through_both { relate (codes "LINESTRING(2 2,7 2)") two_squares ≡ Some (codes "1010FF212") }
    ensures line_through_both_turned_round { relate two_squares (codes "LINESTRING(2 2,7 2)")
        ≡ Some (codes "1020F11F2") }
    ensures between_them { relate (codes "POINT(5 2)") two_squares ≡ Some (codes "FF0FFF212") }
    ensures between_them_turned_round { relate two_squares (codes "POINT(5 2)") ≡ Some (codes "FF2FF10F2") }
    ensures one_of_them { relate square two_squares ≡ Some (codes "2FFF1F212") }
    ensures one_of_them_turned_round { relate two_squares square ≡ Some (codes "2F2F11FF2") }
{}

/// A MULTIPOLYGON of a square in the hole of another, with a point in the inner square, and with one between it and the hole
/// (06-103r4, 6.1.14 and 6.1.15.2).
pub fn matrices_of_a_square_in_a_hole()
    ensures in_the_inner_square { relate (codes "POINT(5 5)") square_in_a_hole ≡ Some (codes "0FFFFF212") }
    ensures in_the_inner_square_turned_round { relate square_in_a_hole (codes "POINT(5 5)")
        ≡ Some (codes "0F2FF1FF2") }
    ensures between_the_rings { relate (codes "POINT(3 3)") square_in_a_hole ≡ Some (codes "FF0FFF212") }
    ensures between_the_rings_turned_round { relate square_in_a_hole (codes "POINT(3 3)")
        ≡ Some (codes "FF2FF10F2") }
    ensures the_inner_square { relate (codes "POLYGON((4 4,6 4,6 6,4 6,4 4))") square_in_a_hole
        ≡ Some (codes "2FFF1F212") }
    ensures the_inner_square_turned_round { relate square_in_a_hole (codes "POLYGON((4 4,6 4,6 6,4 6,4 4))")
        ≡ Some (codes "2F2F11FF2") }
{}

/// Empty geometries: no interior and no boundary, and the whole plane as exterior (06-103r4, 6.1.15.2).
pub fn matrices_of_empty_geometries()
    ensures two_empty_types { relate (codes "POINT EMPTY") (codes "LINESTRING EMPTY")
        ≡ Some (codes "FFFFFFFF2") }
    ensures two_empty_point_types { relate (codes "POINT EMPTY") (codes "MULTIPOINT EMPTY")
        ≡ Some (codes "FFFFFFFF2") }
    ensures with_an_area { relate (codes "POINT EMPTY") square ≡ Some (codes "FFFFFF212") }
    ensures two_empty_areas { relate (codes "MULTIPOLYGON EMPTY") (codes "POLYGON EMPTY")
        ≡ Some (codes "FFFFFFFF2") }
    ensures two_empty_areas_turned_round { relate (codes "POLYGON EMPTY") (codes "MULTIPOLYGON EMPTY")
        ≡ Some (codes "FFFFFFFF2") }
    ensures of_an_area { relate square (codes "POLYGON EMPTY") ≡ Some (codes "FF2FF1FF2") }
{}
