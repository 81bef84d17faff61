//! Worked examples of texts of queries, proved by computing: the tree as which each is read, or its first fault.
#![tactic(auto, unfolding(crate::specs::Texts::same_name, crate::specs::Tokens::same_kind, crate::specs::Tokens::word_kind, crate::specs::Tokens::symbol, crate::specs::Tokens::front, crate::specs::Tokens::tokens, crate::specs::Parsers::kind, crate::specs::Parsers::place, crate::specs::Parsers::spelling, crate::specs::Parsers::next, crate::specs::Parsers::sees, crate::specs::Parsers::after, crate::specs::Parsers::expect, crate::specs::Parsers::parts_from, crate::specs::QueryReading::name, crate::specs::QueryReading::column, crate::specs::QueryReading::calls, crate::specs::QueryReading::string, crate::specs::QueryReading::geometry, crate::specs::QueryReading::integer, crate::specs::QueryReading::operand, crate::specs::QueryReading::compared, crate::specs::QueryReading::null_test, crate::specs::QueryReading::comparison, crate::specs::QueryReading::truth_value, crate::specs::QueryReading::truth_test, crate::specs::QueryReading::relates, crate::specs::QueryReading::relates_by, crate::specs::QueryReading::predicate, crate::specs::QueryReading::negation, crate::specs::QueryReading::item, crate::specs::QueryReading::selection, crate::specs::QueryReading::alias, crate::specs::QueryReading::reference, crate::specs::QueryReading::crossed, crate::specs::QueryReading::joined_on, crate::specs::QueryReading::where_condition, crate::specs::QueryReading::limit_number, crate::specs::QueryReading::says, crate::specs::QueryReading::query, crate::specs::QueryReading::query_of))]

ghost use Rattle.std.specs.Prelude.{◌≡◌, ◌++◌, [], ◌∷◌, codes, pos, Some, None, Err};
ghost use Rattle.std.specs.List.{repeat};
ghost use Rattle.geometry_model.specs.declared.relations.Predicate.TheVariants.{Intersects, Within};
ghost use Rattle.table_model.specs.GeometryColumnExamples.{
  name,
  bare,
  of,
  table,
  aliased,
  geometry_column,
  from_text,
  operand_column,
};
ghost use Rattle.table_model.specs.QueryExamples.{read, read_where, joined, all_where, under};
ghost use Rattle.table_model.specs.declared.conditions.Comparison.TheVariants.{Equal, NotEqual, Less, Greater};
ghost use Rattle.table_model.specs.declared.faults.QueryFault.TheVariants.{Lex, Syntax, TooDeep, NumberTooBig};
ghost use Rattle.table_model.specs.declared.queries.Explain.TheVariants as explains;
ghost use Rattle.table_model.specs.declared.queries.Selection.TheVariants as selections;
ghost use Rattle.table_model.specs.declared.queries.WrittenCond.TheVariants as conds;
ghost use Rattle.table_model.specs.declared.queries.WrittenGeometry.TheVariants as geometries;
ghost use Rattle.table_model.specs.declared.queries.WrittenItem.TheVariants as items;
ghost use Rattle.table_model.specs.declared.queries.WrittenOperand.TheVariants as operands;
ghost use Rattle.table_model.specs.declared.queries.WrittenPredicate.TheVariants as predicates;

/// EXPLAIN of a query whose condition has a literal, EXPLAIN ANALYZE, and the two words used as names.
pub fn plans_are_asked_for()
    ensures explain { read
        (codes "EXPLAIN SELECT id FROM big WHERE ST_Intersects(geom, ST_GeomFromText('POLYGON((0 0,4 0,4 4,0 4,0 0))'))")
        ≡ joined explains.Plan (selections.Items (items.Column (bare (codes "id") 15) ∷ []))
        (table (codes "big") 23 ∷ []) None
        (Some (conds.Relates 33 (predicates.Named Intersects) (geometry_column (codes "geom") 47)
        (from_text (codes "POLYGON((0 0,4 0,4 4,0 4,0 0))") 69))) }
    ensures analyze { read (codes "explain analyze SELECT * FROM t;")
        ≡ joined explains.Analyze selections.All (table (codes "t") 30 ∷ []) None None }
    ensures names { read (codes "SELECT * FROM explain analyze")
        ≡ joined explains.No selections.All (aliased (name (codes "explain") 14) (name (codes "analyze") 22) ∷ [])
        None None }
{}

/// A second table, in each of the forms in which it can be written.
pub fn tables_are_joined()
    ensures inner { read
        (codes "SELECT b.id, s.id FROM big b JOIN sq s ON ST_Intersects(b.geom, s.geom) WHERE b.id <> 2")
        ≡ joined explains.No
        (selections.Items (items.Column (of (name (codes "b") 7) (name (codes "id") 9))
        ∷ items.Column (of (name (codes "s") 13) (name (codes "id") 15)) ∷ []))
        (aliased (name (codes "big") 23) (name (codes "b") 27)
        ∷ aliased (name (codes "sq") 34) (name (codes "s") 37) ∷ [])
        (Some (conds.Relates 42 (predicates.Named Intersects)
        (geometries.Column (of (name (codes "b") 56) (name (codes "geom") 58)))
        (geometries.Column (of (name (codes "s") 64) (name (codes "geom") 66)))))
        (Some (conds.Compare 78 NotEqual (operands.Column (of (name (codes "b") 78) (name (codes "id") 80)))
        (operands.Integer (pos 2)))) }
    ensures inner_word { read (codes "SELECT * FROM t INNER JOIN u AS v ON id = 1")
        ≡ joined explains.No selections.All (table (codes "t") 14
        ∷ aliased (name (codes "u") 27) (name (codes "v") 32) ∷ [])
        (Some (conds.Compare 37 Equal (operand_column (codes "id") 37) (operands.Integer (pos 1)))) None }
    ensures cross { read (codes "SELECT * FROM sq a CROSS JOIN sq b")
        ≡ joined explains.No selections.All (aliased (name (codes "sq") 14) (name (codes "a") 17)
        ∷ aliased (name (codes "sq") 30) (name (codes "b") 33) ∷ []) None None }
    ensures comma { read (codes "SELECT * FROM t, u")
        ≡ joined explains.No selections.All (table (codes "t") 14 ∷ table (codes "u") 17 ∷ []) None None }
{}

/// Functions in the select list.
pub fn items_are_functions()
    ensures { read (codes "SELECT ST_AsText(geom), ST_Dimension(geom), ST_IsEmpty(geom) FROM e")
        ≡ joined explains.No
        (selections.Items (items.AsText 7 (bare (codes "geom") 17)
        ∷ items.Dimension 24 (bare (codes "geom") 37) ∷ items.IsEmpty 44 (bare (codes "geom") 55) ∷ []))
        (table (codes "e") 66 ∷ []) None None }
{}

/// Functions in conditions: predicates, alone or compared with 1 or 0 in any spelling, and operands of comparisons.
pub fn conditions_are_functions()
    ensures relate { read_where (codes "ST_Relate(geom, geom, 'T*F**F***') = 0")
        ≡ all_where (conds.Not (conds.Relates 22 (predicates.Relate (name (codes "T*F**F***") 44))
        (geometry_column (codes "geom") 32) (geometry_column (codes "geom") 38))) }
    ensures negated { read_where (codes "not st_within (geom, geom)")
        ≡ all_where (conds.Not (conds.Relates 26 (predicates.Named Within) (geometry_column (codes "geom") 37)
        (geometry_column (codes "geom") 43))) }
    ensures one { read_where (codes "ST_IsEmpty(geom) = 01")
        ≡ all_where (conds.IsEmpty 22 (geometry_column (codes "geom") 33)) }
    ensures zero { read_where (codes "ST_IsEmpty(geom) = 00")
        ≡ all_where (conds.Not (conds.IsEmpty 22 (geometry_column (codes "geom") 33))) }
    ensures operands { read_where
        (codes "ST_AsText(geom) = 'x' AND 0 < ST_Dimension(ST_GeomFromText('POINT EMPTY'))")
        ≡ all_where (conds.And (conds.Compare 22 Equal
        (operands.AsText 22 (geometry_column (codes "geom") 32)) (operands.Text (name (codes "x") 40))
        ∷ conds.Compare 48 Less (operands.Integer (pos 0))
        (operands.Dimension 52 (from_text (codes "POINT EMPTY") 81)) ∷ [])) }
{}

/// A predicate can be compared only by `=` and only with 1 or 0, and those numbers have no sign.
pub fn truth_values_are_one_and_zero()
    ensures minus { read_where (codes "ST_IsEmpty(geom) = -1") ≡ Err (Syntax 41) }
    ensures plus { read_where (codes "ST_IsEmpty(geom) = +0") ≡ Err (Syntax 41) }
    ensures two { read_where (codes "ST_IsEmpty(geom) = 2") ≡ Err (Syntax 41) }
    ensures past_64_bits { read_where (codes "ST_IsEmpty(geom) = 9223372036854775808") ≡ Err (Syntax 41) }
    ensures is_null { read_where (codes "ST_IsEmpty(geom) IS NULL") ≡ Err (Syntax 39) }
    ensures not_equal { read_where (codes "ST_IsEmpty(geom) <> 1") ≡ Err (Syntax 39) }
{}

/// A function where the grammar allows none, or only another.
pub fn functions_are_refused()
    ensures unknown { read_where (codes "ST_Buffer(geom)") ≡ Err (Syntax 22) }
    ensures predicate_as_operand { read_where (codes "1 = ST_IsEmpty(geom)") ≡ Err (Syntax 26) }
    ensures operand_alone { read_where (codes "ST_AsText(geom)") ≡ Err (Syntax 37) }
    ensures literal_alone { read_where (codes "ST_GeomFromText('POINT(1 1)')") ≡ Err (Syntax 22) }
    ensures third_argument { read_where (codes "ST_Within(geom, geom, 'T')") ≡ Err (Syntax 42) }
    ensures item { read (codes "SELECT ST_Within(geom, geom) FROM t") ≡ Err (Syntax 7) }
    ensures literal_item { read (codes "SELECT ST_AsText(ST_GeomFromText('POINT(1 1)')) FROM t")
        ≡ Err (Syntax 17) }
    ensures table { read (codes "SELECT * FROM f(t)") ≡ Err (Syntax 14) }
    ensures explain { read (codes "EXPLAIN (SELECT * FROM t)") ≡ Err (Syntax 0) }
{}

/// Faults of the other parts of a query, and of levels and numbers in queries with functions.
pub fn queries_are_refused()
    ensures explain_twice { read (codes "EXPLAIN EXPLAIN SELECT * FROM t") ≡ Err (Syntax 8) }
    ensures join_without_on { read (codes "SELECT * FROM t JOIN u") ≡ Err (Syntax 22) }
    ensures cross_with_on { read (codes "SELECT * FROM t CROSS JOIN u ON a = b") ≡ Err (Syntax 29) }
    ensures third_table { read (codes "SELECT * FROM t, u, v") ≡ Err (Syntax 18) }
    ensures open_string { read_where (codes "ST_Relate(geom, geom, 'T") ≡ Err (Lex 44) }
    ensures number { read_where (codes "ST_Dimension(geom) = 9223372036854775808") ≡ Err (NumberTooBig 43) }
{}

/// The parentheses of a function don't count as a level. The 65th level is refused.
pub fn functions_open_no_level()
    ensures deepest { read_where (repeat 64 (codes "(") ++ codes "ST_IsEmpty(geom)" ++ repeat 64 (codes ")"))
        ≡ all_where (conds.IsEmpty 86 (geometry_column (codes "geom") 97)) }
    ensures deeper { read_where (repeat 65 (codes "(") ++ codes "ST_IsEmpty(geom)" ++ repeat 65 (codes ")"))
        ≡ Err (TooDeep 86) }
{}

/// COUNT(*) in any ASCII case, and COUNT as a name.
pub fn rows_are_counted()
    ensures alone { read (codes "SELECT COUNT(*) FROM big")
        ≡ under selections.Count (table (codes "big") 21) None None }
    ensures spaced { read (codes "select count ( * ) from big;")
        ≡ under selections.Count (table (codes "big") 24) None None }
    ensures limited { read (codes "SELECT COUNT(*) FROM t WHERE id = 1 LIMIT 0;")
        ≡ under selections.Count (table (codes "t") 21)
        (Some (conds.Compare 29 Equal (operand_column (codes "id") 29) (operands.Integer (pos 1)))) (Some 0) }
    ensures explained { read (codes "EXPLAIN SELECT COUNT(*) FROM t")
        ≡ joined explains.Plan selections.Count (table (codes "t") 29 ∷ []) None None }
    ensures name { read (codes "SELECT count FROM t")
        ≡ under (selections.Items (items.Column (bare (codes "count") 7) ∷ [])) (table (codes "t") 18) None
        None }
    ensures table { read (codes "SELECT * FROM count")
        ≡ under selections.All (table (codes "count") 14) None None }
{}

/// LIMIT, with WHERE and without, up to the greatest number of 64 bits with a sign.
pub fn rows_are_limited()
    ensures alone { read (codes "SELECT id FROM big LIMIT 2")
        ≡ under (selections.Items (items.Column (bare (codes "id") 7) ∷ [])) (table (codes "big") 15) None
        (Some 2) }
    ensures ended { read (codes "SELECT id FROM big LIMIT 2;")
        ≡ under (selections.Items (items.Column (bare (codes "id") 7) ∷ [])) (table (codes "big") 15) None
        (Some 2) }
    ensures none { read (codes "select * from t limit 0")
        ≡ under selections.All (table (codes "t") 14) None (Some 0) }
    ensures filtered { read (codes "SELECT * FROM t WHERE id > 1 LIMIT 0010;")
        ≡ under selections.All (table (codes "t") 14)
        (Some (conds.Compare 22 Greater (operand_column (codes "id") 22) (operands.Integer (pos 1))))
        (Some 10) }
    ensures aliased { read (codes "SELECT * FROM t a LIMIT 1")
        ≡ under selections.All (aliased (name (codes "t") 14) (name (codes "a") 16)) None (Some 1) }
    ensures greatest { read (codes "SELECT * FROM t LIMIT 9223372036854775807")
        ≡ under selections.All (table (codes "t") 14) None (Some 9223372036854775807) }
{}

/// LIMIT's integer has no sign and fits in 64 bits with a sign. LIMIT comes once, at the end, and can't be a name.
pub fn limits_are_refused()
    ensures minus { read (codes "SELECT id FROM big LIMIT -1") ≡ Err (Syntax 25) }
    ensures plus { read (codes "SELECT id FROM big LIMIT +1") ≡ Err (Syntax 25) }
    ensures absent { read (codes "SELECT id FROM big LIMIT") ≡ Err (Syntax 24) }
    ensures word { read (codes "SELECT id FROM big LIMIT all") ≡ Err (Syntax 25) }
    ensures past_64_bits { read (codes "SELECT id FROM big LIMIT 9223372036854775808")
        ≡ Err (NumberTooBig 25) }
    ensures filtered_past_64_bits { read (codes "SELECT * FROM t WHERE id = 1 LIMIT 9223372036854775808")
        ≡ Err (NumberTooBig 35) }
    ensures fraction { read (codes "SELECT id FROM big LIMIT 2.5") ≡ Err (Syntax 26) }
    ensures twice { read (codes "SELECT id FROM big LIMIT 2 LIMIT 2") ≡ Err (Syntax 27) }
    ensures before_where { read (codes "SELECT id FROM big LIMIT 2 WHERE id = 1") ≡ Err (Syntax 27) }
    ensures name { read (codes "SELECT * FROM limit") ≡ Err (Syntax 14) }
{}

/// COUNT(*) is refused with other items, and outside the select list.
pub fn counts_are_refused()
    ensures before_item { read (codes "SELECT COUNT(*), id FROM t") ≡ Err (Syntax 15) }
    ensures behind_item { read (codes "SELECT id, COUNT(*) FROM t") ≡ Err (Syntax 11) }
    ensures behind_star { read (codes "SELECT *, COUNT(*) FROM t") ≡ Err (Syntax 8) }
    ensures of_column { read (codes "SELECT COUNT(id) FROM t") ≡ Err (Syntax 13) }
    ensures of_nothing { read (codes "SELECT COUNT() FROM t") ≡ Err (Syntax 13) }
    ensures named { read (codes "SELECT COUNT(*) AS n FROM t") ≡ Err (Syntax 16) }
    ensures operand { read_where (codes "COUNT(*) = 1") ≡ Err (Syntax 22) }
    ensures name { read (codes "SELECT count FROM t WHERE") ≡ Err (Syntax 25) }
{}
