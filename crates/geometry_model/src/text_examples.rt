//! Texts of geometries, computed: which geometry each spells, or its first fault, and canonical texts.
#![tactic(auto, unfolding(crate::specs::TextReading::read_text, crate::specs::TextReading::whole, crate::specs::TextReading::tagged, crate::specs::TextReading::typed, crate::specs::TextReading::body, crate::specs::TextReading::parts, crate::specs::TextReading::polygon, crate::specs::TextReading::polygons, crate::specs::TextReading::line, crate::specs::TextReading::separated, crate::specs::TextReading::point, crate::specs::TextReading::position, crate::specs::TextReading::space, crate::specs::TextReading::coordinate, crate::specs::TextReading::numeral, crate::specs::TextReading::fraction, crate::specs::TextReading::sign,))]

ghost use Rattle.std.specs.Prelude.{◌≡◌, [], ◌∷◌, ◌++◌, codes, pos, negsuc, Some, None, Ok, Err};
ghost use Rattle.geometry_model.specs.Geometries.{
  Point,
  MultiPoint,
  LineString,
  MultiLineString,
  Polygon,
  MultiPolygon,
};
ghost use Rattle.geometry_model.specs.CanonicalText.{canonical_text};
ghost use Rattle.geometry_model.specs.TextReading.{read_text, separated, parts, polygons, body, position};
ghost use Rattle.geometry_model.specs.TextExamples.{at, square, corner, input};
ghost use Rattle.geometry_model.specs.declared.text_faults.TextFault.TheVariants.{
  Syntax,
  OffGrid,
  OutOfRange,
  TooLong,
};

/// Texts of points: signs, leading zeros, points without digits on one side, white space, any case (06-103r4, 7.2).
pub fn texts_of_points()
    ensures plain { read_text (codes "POINT(1 2)") ≡ Ok (Point (Some (at (pos 1) (pos 2)))) }
    ensures zeros { read_text (codes "POINT(1.0 2)") ≡ Ok (Point (Some (at (pos 1) (pos 2)))) }
    ensures points { read_text (codes "POINT(1. .0)") ≡ Ok (Point (Some (at (pos 1) (pos 0)))) }
    ensures signs { read_text (codes "POINT(+1.00 01)") ≡ Ok (Point (Some (at (pos 1) (pos 1)))) }
    ensures minus { read_text (codes "POINT(-0 -2)") ≡ Ok (Point (Some (at (pos 0) (negsuc 1)))) }
    ensures limit { read_text (codes "POINT(-10000000 10000000)")
        ≡ Ok (Point (Some (at (negsuc 9999999) (pos 10000000)))) }
    ensures white { read_text (codes "multipoint ( 1 2 , 3 4.0 )")
        ≡ Ok (MultiPoint (at (pos 1) (pos 2) ∷ at (pos 3) (pos 4) ∷ [])) }
    ensures parentheses { read_text (codes "MultiPoint((1 2), 3 4)")
        ≡ Ok (MultiPoint (at (pos 1) (pos 2) ∷ at (pos 3) (pos 4) ∷ [])) }
    ensures empty { read_text (codes " Point\tEmpty\n") ≡ Ok (Point None) }
{}

/// Consecutive equal positions become one in lines and rings, and stay in a MULTIPOINT.
pub fn repeated_positions()
    ensures points { read_text (codes "MULTIPOINT(1 1,1 1)")
        ≡ Ok (MultiPoint (at (pos 1) (pos 1) ∷ at (pos 1) (pos 1) ∷ [])) }
    ensures line { read_text (codes "LINESTRING(0 0,0 0,1 0)")
        ≡ Ok (LineString (at (pos 0) (pos 0) ∷ at (pos 1) (pos 0) ∷ [])) }
    ensures whole_line { read_text (codes "LINESTRING(3 3,3 3)") ≡ Ok (LineString (at (pos 3) (pos 3) ∷ [])) }
    ensures ring { read_text (codes "POLYGON((0 0,0 0,1 0,0 0))")
        ≡ Ok (Polygon ((at (pos 0) (pos 0) ∷ at (pos 1) (pos 0) ∷ at (pos 0) (pos 0) ∷ []) ∷ [])) }
    ensures elements { read_text (codes "MULTILINESTRING((0 0,0 0),(0 0,1 0,0 0))")
        ≡ Ok (MultiLineString ((at (pos 0) (pos 0) ∷ [])
        ∷ (at (pos 0) (pos 0) ∷ at (pos 1) (pos 0) ∷ at (pos 0) (pos 0) ∷ []) ∷ [])) }
{}

/// Texts of several polygons: a hole in the first, repeats in any ring, white space, none at all (06-103r4, 7.2).
pub fn texts_of_polygons()
    ensures hole { read_text
        (codes "MULTIPOLYGON(((0 0,4 0,4 4,0 4,0 0),(1 1,2 1,1 2,1 1)),((9 9,10 9,9 10,9 9)))")
        ≡ Ok (MultiPolygon ((square ∷ corner 1 ∷ []) ∷ (corner 9 ∷ []) ∷ [])) }
    ensures repeats { read_text (codes "MULTIPOLYGON(((9 9,9 9,10 9,9 10,9 10,9 9)),((3 3,3 3)))")
        ≡ Ok (MultiPolygon ((corner 9 ∷ []) ∷ ((at (pos 3) (pos 3) ∷ []) ∷ []) ∷ [])) }
    ensures white { read_text (codes " multipolygon ( ( ( 9 9 , 10 9 , 9 10.0 , 9 9 ) ) , ((3 3)) ) ")
        ≡ Ok (MultiPolygon ((corner 9 ∷ []) ∷ ((at (pos 3) (pos 3) ∷ []) ∷ []) ∷ [])) }
    ensures empty { read_text (codes "MultiPolygon EMPTY") ≡ Ok (MultiPolygon []) }
{}

/// The first fault of a text, and its byte.
pub fn first_faults()
    ensures nothing { read_text [] ≡ Err (Syntax 0) }
    ensures half_a_word { read_text (codes "POLYGO") ≡ Err (Syntax 0) }
    ensures unknown_type { read_text (codes "CURVE EMPTY") ≡ Err (Syntax 0) }
    ensures unfinished { read_text (codes "POINT(1 2") ≡ Err (Syntax 9) }
    ensures exponent { read_text (codes "POINT(1e0 2)") ≡ Err (Syntax 7) }
    ensures lone_sign { read_text (codes "POINT(-") ≡ Err (Syntax 6) }
    ensures lone_point { read_text (codes "POINT(1 .)") ≡ Err (Syntax 8) }
    ensures joined_numbers { read_text (codes "POINT(1-2)") ≡ Err (Syntax 7) }
    ensures joined_fractions { read_text (codes "POINT(1.0.5 2)") ≡ Err (Syntax 9) }
    ensures empty_element { read_text (codes "MULTIPOINT(EMPTY)") ≡ Err (Syntax 11) }
    ensures more_behind { read_text (codes "POINT EMPTY x") ≡ Err (Syntax 12) }
    ensures beyond_ascii { read_text (80 ∷ 195 ∷ 150 ∷ []) ≡ Err (Syntax 0) }
    ensures off_grid { read_text (codes "POINT(1.5 2)") ≡ Err (OffGrid 6) }
    ensures off_grid_first { read_text (codes "POINT(10000001.5 0)") ≡ Err (OffGrid 6) }
    ensures out_of_range { read_text (codes "POINT(10000001 0)") ≡ Err (OutOfRange 6) }
    ensures left_to_right { read_text (codes "LINESTRING(0 -10000001,1.5 2") ≡ Err (OutOfRange 13) }
{}

/// The first fault of a text of several polygons, and its byte.
pub fn first_faults_of_polygons()
    ensures bad_number { read_text (codes "MULTIPOLYGON(((0 0,x 1)))") ≡ Err (Syntax 19) }
    ensures off_grid { read_text (codes "MULTIPOLYGON(((0 0)),((0 0,1.5 2)))") ≡ Err (OffGrid 27) }
    ensures out_of_range { read_text (codes "MULTIPOLYGON(((0 0)),((0 0),(0 -10000001)))")
        ≡ Err (OutOfRange 31) }
    ensures rings_alone { read_text (codes "MULTIPOLYGON((0 0,1 0))") ≡ Err (Syntax 14) }
    ensures unfinished { read_text (codes "MULTIPOLYGON(((0 0,1 0))") ≡ Err (Syntax 24) }
    ensures empty_element { read_text (codes "MULTIPOLYGON(EMPTY)") ≡ Err (Syntax 13) }
    ensures no_ring { read_text (codes "MULTIPOLYGON(())") ≡ Err (Syntax 14) }
    ensures no_position { read_text (codes "MULTIPOLYGON((()))") ≡ Err (Syntax 15) }
    ensures comma_last { read_text (codes "MULTIPOLYGON(((0 0)),)") ≡ Err (Syntax 21) }
    ensures joined_words { read_text (codes "MULTIPOLYGONEMPTY") ≡ Err (Syntax 0) }
{}

/// The counts of positions and parts, at limits of two: the fault comes at the first number of the position, and
/// at the parenthesis of the part, before any other fault there.
pub fn counted_parts()
    ensures position { separated position 2 (input (codes "1 1,2 2,3.5 3")) ≡ Err TooLong }
    ensures no_number { separated position 2 (input (codes "1 1,2 2,)")) ≡ Err (Syntax 8) }
    ensures part { parts 2 9 (input (codes "(1 1),(2 2),(")) ≡ Err TooLong }
    ensures position_of_a_part { parts 2 2 (input (codes "(1 1,2 2),(3 3)")) ≡ Err TooLong }
{}

/// The counts of the rings and positions of all polygons, at limits of two rings or three positions: each polygon
/// passes on what is left of both.
pub fn counted_polygons()
    ensures as_many { body (polygons 2 2 9) (input (codes "(((1 1)),((2 2)))"))
        ≡ Ok (
          ((at (pos 1) (pos 1) ∷ []) ∷ []) ∷ ((at (pos 2) (pos 2) ∷ []) ∷ []) ∷ [],
          record { left = []; at = 17 },
        ) }
    ensures third_polygon { body (polygons 2 2 9) (input (codes "(((1 1)),((2 2)),((3 3)))")) ≡ Err TooLong }
    ensures ring_behind_two { body (polygons 2 2 9) (input (codes "(((1 1),(2 2)),((3.5 3)))"))
        ≡ Err TooLong }
    ensures ring_in_the_second { body (polygons 2 2 9) (input (codes "(((1 1)),((2 2),(")) ≡ Err TooLong }
    ensures no_ring { body (polygons 2 2 9) (input (codes "(((1 1)),((2 2)),())")) ≡ Err (Syntax 18) }
    ensures position_of_the_second { body (polygons 9 9 3) (input (codes "(((1 1,2 2)),((3 3,4 4)))"))
        ≡ Err TooLong }
{}

/// Canonical texts (06-103r4, 7.2).
pub fn canonical_texts()
    ensures point { canonical_text (Point (Some (at (negsuc 0) (pos 20)))) ≡ codes "POINT(-1 20)" }
    ensures points { canonical_text (MultiPoint (at (pos 1) (pos 2) ∷ at (pos 3) (pos 4) ∷ []))
        ≡ codes "MULTIPOINT((1 2),(3 4))" }
    ensures line { canonical_text (LineString (at (pos 0) (pos 0) ∷ at (pos 1) (pos 0) ∷ []))
        ≡ codes "LINESTRING(0 0,1 0)" }
    ensures lines { canonical_text
        (MultiLineString
        ((at (pos 0) (pos 0) ∷ at (pos 2) (pos 0) ∷ []) ∷ (at (pos 2) (pos 0) ∷ at (pos 4) (pos 0) ∷ [])
        ∷ []))
        ≡ codes "MULTILINESTRING((0 0,2 0),(2 0,4 0))" }
    ensures polygon { canonical_text (Polygon (square ∷ [])) ≡ codes "POLYGON((0 0,4 0,4 4,0 4,0 0))" }
    ensures polygons { canonical_text (MultiPolygon ((square ∷ corner 1 ∷ []) ∷ (corner 9 ∷ []) ∷ []))
        ≡ codes "MULTIPOLYGON(((0 0,4 0,4 4,0 4,0 0),(1 1,2 1,1 2,1 1)),((9 9,10 9,9 10,9 9)))" }
    ensures no_polygons { canonical_text (MultiPolygon []) ≡ codes "MULTIPOLYGON EMPTY" }
    ensures no_point { canonical_text (Point None) ≡ codes "POINT EMPTY" }
    ensures no_points { canonical_text (MultiPoint []) ≡ codes "MULTIPOINT EMPTY" }
    ensures no_line { canonical_text (LineString []) ≡ codes "LINESTRING EMPTY" }
    ensures no_lines { canonical_text (MultiLineString []) ≡ codes "MULTILINESTRING EMPTY" }
    ensures no_polygon { canonical_text (Polygon []) ≡ codes "POLYGON EMPTY" }
{}
