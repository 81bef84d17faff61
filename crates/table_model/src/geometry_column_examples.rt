//! Worked examples of tables and queries with geometries, proved by computing: what records load as, and where a
//! query's names and types are refused.
#![tactic(auto, unfolding(geometry_model::specs::CheckedTexts::geometry_in_text, geometry_model::specs::TextReading::read_text, geometry_model::specs::TextReading::whole, geometry_model::specs::TextReading::tagged, geometry_model::specs::TextReading::typed, geometry_model::specs::TextReading::body, geometry_model::specs::TextReading::parts, geometry_model::specs::TextReading::line, geometry_model::specs::TextReading::separated, geometry_model::specs::TextReading::point, geometry_model::specs::TextReading::position, geometry_model::specs::TextReading::space, geometry_model::specs::TextReading::coordinate, geometry_model::specs::TextReading::numeral, geometry_model::specs::TextReading::fraction, geometry_model::specs::TextReading::sign, crate::specs::Texts::same_name, crate::specs::Loading::load, crate::specs::Loading::by_key, crate::specs::Loading::double_key, crate::specs::Loading::header_fault, crate::specs::Loading::checked_row, crate::specs::Loading::row_of, crate::specs::Loading::rows_of, crate::specs::Loading::value_of, crate::specs::Loading::integer_of,))]

ghost use Rattle.std.specs.Prelude.{◌≡◌, [], ◌∷◌, codes, pos, Some, None, Ok, Err};
ghost use Rattle.geometry_model.specs.Geometries.{MultiPoint, Polygon};
ghost use Rattle.geometry_model.specs.TextExamples.{at};
ghost use Rattle.geometry_model.specs.declared.geometry_faults.GeometryFault.TheVariants.{Text, Invalid};
ghost use Rattle.geometry_model.specs.declared.shapes.GeometryType.TheVariants.{LineString};
ghost use Rattle.geometry_model.specs.declared.text_faults.TextFault.TheVariants.{Syntax, TooLong};
ghost use Rattle.geometry_model.specs.declared.validity_faults.ValidityFault.TheVariants.{TooFewPoints, RingsMeet, RingNotSimple};
ghost use Rattle.geometry_model.specs.declared.relations.Predicate.TheVariants.{Within};
ghost use Rattle.table_model.specs.FaultLines.{load_text, query_text};
ghost use Rattle.table_model.specs.GeometryColumnExamples.{
  loaded,
  fields,
  with_point,
  without_point,
  name,
  bare,
  of,
  table,
  aliased,
  geometry_column,
  from_text,
  operand_column,
  bound,
  bound_where,
  shaped,
  said,
};
ghost use Rattle.table_model.specs.declared.conditions.Comparison.TheVariants.{Equal};
ghost use Rattle.table_model.specs.declared.faults.LoadFault.TheVariants as load;
ghost use Rattle.table_model.specs.declared.faults.QueryFault.TheVariants as query;
ghost use Rattle.table_model.specs.declared.queries.Selection.TheVariants as selections;
ghost use Rattle.table_model.specs.declared.queries.WrittenCond.TheVariants as conds;
ghost use Rattle.table_model.specs.declared.queries.WrittenItem.TheVariants as items;
ghost use Rattle.table_model.specs.declared.queries.WrittenOperand.TheVariants as operands;
ghost use Rattle.table_model.specs.declared.queries.WrittenPredicate.TheVariants as predicates;
ghost use Rattle.table_model.specs.declared.values.Value.TheVariants as values;

/// Records with geometries. An empty field is null. The first fault of a field is that of its text, then that of its
/// geometry, then that of its type.
pub fn loaded_geometries()
    ensures by_key { loaded None
        (fields (codes "3") (codes "9") (codes "POINT(9 9)")
        ∷ fields (codes "1") (codes "2") (codes "POINT(1 1)") ∷ fields (codes "2") (codes "7") [] ∷ [])
        ≡ Ok (with_point 1 2 (pos 1) (pos 1) ∷ without_point 2 7 ∷ with_point 3 9 (pos 9) (pos 9) ∷ []) }
    ensures bad_text { loaded None
        (fields (codes "3") (codes "9") (codes "POINT(9 9)") ∷ fields (codes "1") [] (codes "POINT(1 2") ∷ [])
        ≡ Err (load.BadGeometry 2 (Text (Syntax 9))) }
    ensures not_valid { loaded None (fields (codes "3") [] (codes "LINESTRING(0 0)") ∷ [])
        ≡ Err (load.BadGeometry 1 (Invalid (TooFewPoints 0))) }
    ensures wrong_type { loaded (Some LineString) (fields (codes "3") [] (codes "POINT(9 9)") ∷ [])
        ≡ Err (load.WrongType 1) }
    ensures validity_first { loaded (Some LineString)
        (fields (codes "3") [] (codes "POLYGON((0 0,1 0,0 0))") ∷ [])
        ≡ Err (load.BadGeometry 1 (Invalid (TooFewPoints 0))) }
{}

/// Names that nothing has, or that two things have.
pub fn refused_names()
    ensures no_table { bound selections.All (table (codes "t") 14 ∷ table (codes "v") 17 ∷ []) None
        ≡ Err (query.UnknownTable 17) }
    ensures one_name { bound (selections.Items (items.Column (bare (codes "id") 7) ∷ []))
        (table (codes "t") 15 ∷ table (codes "t") 18 ∷ []) None ≡ Err (query.SameName 18) }
    ensures one_alias { bound selections.All (table (codes "t") 14
        ∷ aliased (name (codes "u") 17) (name (codes "T") 19) ∷ []) None ≡ Err (query.SameName 19) }
    ensures no_column { bound (selections.Items (items.Column (bare (codes "nope") 7) ∷ []))
        (table (codes "t") 17 ∷ []) None ≡ Err (query.UnknownColumn 7) }
    ensures table_behind_alias { bound
        (selections.Items (items.Column (of (name (codes "t") 7) (name (codes "id") 9)) ∷ []))
        (aliased (name (codes "t") 17) (name (codes "a") 19) ∷ []) None
        ≡ Err (query.UnknownColumn 7) }
    ensures two_columns { bound (selections.Items (items.Column (bare (codes "id") 7) ∷ []))
        (table (codes "t") 15 ∷ table (codes "u") 18 ∷ []) None ≡ Err (query.AmbiguousColumn 7) }
{}

/// Types that don't match: the arguments of a predicate are bound before their types are compared.
pub fn refused_types()
    ensures comparison { bound_where
        (conds.Compare 23 Equal (operand_column (codes "pop") 23) (operands.Text (name (codes "x") 29)))
        ≡ Err (query.TypeMismatch 23) }
    ensures null_with_geometry { bound_where
        (conds.Compare 23 Equal operands.Null (operand_column (codes "geom") 30))
        ≡ Err (query.TypeMismatch 23) }
    ensures argument { bound_where (conds.IsEmpty 23 (geometry_column (codes "pop") 34))
        ≡ Err (query.TypeMismatch 23) }
    ensures call { bound_where
        (conds.Compare 23 Equal (operands.AsText 23 (geometry_column (codes "pop") 33))
        (operand_column (codes "nope") 40)) ≡ Err (query.TypeMismatch 23) }
    ensures item { bound (selections.Items (items.AsText 7 (bare (codes "pop") 17) ∷ []))
        (table (codes "t") 27 ∷ []) None ≡ Err (query.TypeMismatch 7) }
    ensures later_argument { bound_where
        (conds.Relates 23 (predicates.Named Within) (geometry_column (codes "pop") 33)
        (geometry_column (codes "nope") 38)) ≡ Err (query.UnknownColumn 38) }
{}

/// Strings that aren't valid geometries or patterns. The byte of such a fault is counted in the string's value, and the
/// fault comes before those of types.
pub fn refused_strings()
    ensures bad_text { bound_where (conds.IsEmpty 23 (from_text (codes "POINT(1 2") 50))
        ≡ Err (query.BadGeometry 50 (Text (Syntax 9))) }
    ensures quotes { bound_where (conds.IsEmpty 23 (from_text (codes "POINT''(1 2") 50))
        ≡ Err (query.BadGeometry 50 (Text (Syntax 5))) }
    ensures not_valid { bound_where (conds.IsEmpty 23 (from_text (codes "LINESTRING(3 3,3 3)") 50))
        ≡ Err (query.BadGeometry 50 (Invalid (TooFewPoints 0))) }
    ensures geometry_before_type { bound_where
        (conds.Relates 23 (predicates.Named Within) (geometry_column (codes "pop") 33) (from_text [] 54))
        ≡ Err (query.BadGeometry 54 (Text (Syntax 0))) }
    ensures pattern_before_type { bound_where
        (conds.Relates 23 (predicates.Relate (name (codes "FF*FF***") 45)) (geometry_column (codes "pop") 33)
        (geometry_column (codes "geom") 38)) ≡ Err (query.BadPattern 45) }
    ensures letter_of_pattern { bound_where
        (conds.Relates 23 (predicates.Relate (name (codes "FF*FF***x") 46))
        (geometry_column (codes "geom") 33) (geometry_column (codes "geom") 39)) ≡ Err (query.BadPattern 46) }
{}

/// The texts of the faults of geometries, in a table and in a query.
pub fn geometry_fault_texts()
    ensures text { load_text (codes "t") (load.BadGeometry 2 (Text (Syntax 9)))
        ≡ codes "t L6 record 2 W1 at 9" }
    ensures rings { load_text (codes "t") (load.BadGeometry 2 (Invalid (RingsMeet 0 1)))
        ≡ codes "t L6 record 2 V4 0 1" }
    ensures too_long { load_text (codes "t") (load.BadGeometry 2 (Text TooLong)) ≡ codes "t L6 record 2 W4" }
    ensures wrong_type { load_text (codes "t") (load.WrongType 2) ≡ codes "t L7 record 2" }
    ensures string { query_text (query.BadGeometry 40 (Text (Syntax 9))) ≡ codes "Q8 at 40 W1 at 9" }
    ensures ring { query_text (query.BadGeometry 40 (Invalid (RingNotSimple 0))) ≡ codes "Q8 at 40 V3 0" }
    ensures pattern { query_text (query.BadPattern 40) ≡ codes "Q9 at 40" }
{}

/// Functions in the select list: the canonical text, the dimension of the type, and whether the geometry is empty; null gives null.
pub fn functions_of_geometries()
    ensures { said (
        shaped 1 (values.Geometry (MultiPoint (at (pos 1) (pos 2) ∷ at (pos 3) (pos 4) ∷ [])))
        ∷ shaped 2 values.Null
        ∷ shaped 3 (values.Geometry (Polygon []))
        ∷ [])
        ≡ (codes "ST_AsText(geom)" ∷ codes "ST_Dimension(geom)" ∷ codes "ST_IsEmpty(geom)" ∷ [])
        ∷ (codes "MULTIPOINT((1 2),(3 4))" ∷ codes "0" ∷ codes "0" ∷ [])
        ∷ ([] ∷ [] ∷ [] ∷ [])
        ∷ (codes "POLYGON EMPTY" ∷ codes "2" ∷ codes "1" ∷ [])
        ∷ [] }
{}
