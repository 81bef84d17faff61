//! Worked examples of schemas with geometry columns, proved by computing: the tables that a text is read as, or its first fault.
#![tactic(auto, unfolding(crate::specs::Texts::same_name, crate::specs::Tokens::same_kind, crate::specs::Tokens::word_kind, crate::specs::Tokens::symbol, crate::specs::Tokens::front, crate::specs::Tokens::tokens, crate::specs::Parsers::kind, crate::specs::Parsers::place, crate::specs::Parsers::spelling, crate::specs::Parsers::next, crate::specs::Parsers::sees, crate::specs::Parsers::after, crate::specs::Parsers::expect, crate::specs::SchemaReading::expect_word, crate::specs::SchemaReading::new_name, crate::specs::SchemaReading::type_named, crate::specs::SchemaReading::column_type, crate::specs::SchemaReading::null_mark, crate::specs::SchemaReading::key_mark, crate::specs::SchemaReading::marks, crate::specs::SchemaReading::column, crate::specs::SchemaReading::columns_from, crate::specs::SchemaReading::table_name, crate::specs::SchemaReading::table, crate::specs::SchemaReading::goes_on, crate::specs::SchemaReading::tables_from, crate::specs::SchemaReading::schema, crate::specs::SchemaReading::schema_of))]

ghost use Rattle.std.specs.Prelude.{◌≡◌, [], ◌∷◌, codes, None, Some, Ok, Err};
ghost use Rattle.geometry_model.specs.declared.shapes.GeometryType.TheVariants.{Point, Polygon};
ghost use Rattle.table_model.specs.SchemaExamples.{keyed, shown};
ghost use Rattle.table_model.specs.declared.faults.SchemaFault.TheVariants as fault;

/// A column of each geometry type, a column of points, and two tables of which the second has a column of polygons.
pub fn schemas_with_geometries()
    ensures any { shown (codes "CREATE TABLE e (id INT PRIMARY KEY, geom GEOMETRY)")
        ≡ Ok (keyed (codes "e") None ∷ []) }
    ensures of_points { shown (codes "create table big (id INTEGER PRIMARY KEY, geom Point);")
        ≡ Ok (keyed (codes "big") (Some Point) ∷ []) }
    ensures two { shown
        (codes "CREATE TABLE e(id BIGINT PRIMARY KEY,geom POINT); CREATE TABLE sq(id INT PRIMARY KEY,geom POLYGON)")
        ≡ Ok (keyed (codes "e") (Some Point) ∷ keyed (codes "sq") (Some Polygon) ∷ []) }
{}

/// The first fault of a schema: an unknown type, a name used twice, no key, two keys.
pub fn faults_of_schemas()
    ensures no_type { shown (codes "CREATE TABLE t (id INT PRIMARY KEY, geom CIRCLE)")
        ≡ Err (fault.Syntax 41) }
    ensures double_name { shown (codes "CREATE TABLE t (id INT, ID INT)") ≡ Err (fault.DoubleName 24) }
    ensures no_key { shown (codes "CREATE TABLE t (id INT)") ≡ Err (fault.NoKey 22) }
    ensures two_keys { shown (codes "CREATE TABLE t (a INT PRIMARY KEY, b INT PRIMARY KEY)")
        ≡ Err (fault.TwoKeys 41) }
{}
