//! Worked examples of plans, proved by computing: costs, and texts of EXPLAIN and EXPLAIN ANALYZE.

ghost use Rattle.std.specs.Prelude.{◌≡◌, [], ◌∷◌, codes, Some};
ghost use Rattle.geometry_model.specs.Geometries.{MultiPoint};
ghost use Rattle.geometry_model.specs.declared.relations.Predicate.TheVariants.{
  Equals,
  Disjoint,
  Intersects,
  Touches,
  Within,
};
ghost use Rattle.table_model.specs.PlanExamples.{
  point_rows,
  squares,
  square,
  empties,
  of,
  query,
  key_is,
  with_literal,
  of_both,
  with_itself,
  exchanged,
  near,
  joined,
  near_and_joined,
  costs,
  explained,
  analyzed,
};
ghost use Rattle.table_model.specs.declared.conditions.Comparison.TheVariants.{NotEqual, Less, Greater};
ghost use Rattle.table_model.specs.declared.conditions.Cond.TheVariants.{Or, Not};

/// A hundred points, and a conjunct that drives a probe: the probe costs less than the scan.
pub fn probe_of_points()
    ensures costs { costs (point_rows 1 100 ∷ [])
        (query (of 0 (codes "big") ∷ []) (with_literal Intersects (square 0 0) ∷ [])) ≡ 100 ∷ 14 ∷ [] }
    ensures text { analyzed (point_rows 1 100 ∷ [])
        (query (of 0 (codes "big") ∷ []) (with_literal Intersects (square 0 0) ∷ []))
        ≡ Some (codes "cost 14\nouter big probe 1\nfilter 1\nwork 4\n") }
{}

/// A predicate drives no probe if it is under OR or NOT, if it can hold of geometries that are apart, or if both of its
/// columns are of one reference.
pub fn scans_of_points()
    ensures under_or { analyzed (point_rows 1 100 ∷ [])
        (query (of 0 (codes "big") ∷ [])
        (Or (key_is Greater 0 99 ∷ with_literal Intersects (square 0 0) ∷ []) ∷ []))
        ≡ Some (codes "cost 100\nouter big scan\nfilter 1\nwork 100\n") }
    ensures disjoint { analyzed (point_rows 1 100 ∷ [])
        (query (of 0 (codes "big") ∷ []) (with_literal Disjoint (square 0 0) ∷ []))
        ≡ Some (codes "cost 100\nouter big scan\nfilter 1\nwork 100\n") }
    ensures under_not { costs (point_rows 1 100 ∷ [])
        (query (of 0 (codes "big") ∷ []) (Not (with_literal Intersects (square 0 0)) ∷ [])) ≡ 100 ∷ [] }
    ensures under_two_nots { costs (point_rows 1 100 ∷ [])
        (query (of 0 (codes "big") ∷ []) (Not (Not (with_literal Intersects (square 0 0))) ∷ [])) ≡ 100 ∷ [] }
    ensures with_itself { costs (point_rows 1 100 ∷ [])
        (query (of 0 (codes "big") ∷ []) (with_itself Intersects ∷ [])) ≡ 100 ∷ [] }
{}

/// Filters are evaluated up to the first that isn't true. Each predicate of a condition counts by itself.
pub fn work_of_filters()
    ensures false_first { analyzed (point_rows 1 100 ∷ [])
        (query (of 0 (codes "big") ∷ []) (key_is Less 0 0 ∷ Not (with_literal Within (square 0 0)) ∷ []))
        ≡ Some (codes "cost 100\nouter big scan\nfilter 1 2\nwork 0\n") }
    ensures one_true { analyzed (point_rows 1 100 ∷ [])
        (query (of 0 (codes "big") ∷ [])
        (with_literal Touches (square 0 0) ∷ with_literal Within (square 0 0) ∷ []))
        ≡ Some (codes "cost 14\nouter big probe 1\nfilter 1 2\nwork 5\n") }
    ensures two_in_one { analyzed (point_rows 1 100 ∷ [])
        (query (of 0 (codes "big") ∷ [])
        (Or (with_literal Touches (square 0 0) ∷ with_literal Within (square 0 0) ∷ []) ∷ []))
        ≡ Some (codes "cost 100\nouter big scan\nfilter 1\nwork 200\n") }
{}

/// A table of two squares, joined with itself: of two plans with equal costs the first is chosen, and a query without
/// conjuncts has no filter.
pub fn squares_with_squares()
    ensures costs { costs (squares ∷ [])
        (query (of 0 (codes "a") ∷ of 0 (codes "b") ∷ []) (of_both Touches ∷ [])) ≡ 6 ∷ 10 ∷ 6 ∷ 10 ∷ [] }
    ensures text { analyzed (squares ∷ [])
        (query (of 0 (codes "a") ∷ of 0 (codes "b") ∷ []) (of_both Touches ∷ []))
        ≡ Some (codes "cost 6\nouter a scan\ninner b scan\nfilter 1\nwork 4\n") }
    ensures cross_join { analyzed (squares ∷ []) (query (of 0 (codes "a") ∷ of 0 (codes "b") ∷ []) [])
        ≡ Some (codes "cost 6\nouter a scan\ninner b scan\nfilter none\nwork 0\n") }
{}

/// A hundred points and two squares: the second reference is the outer one, its squares drive a probe of the points,
/// and the comparison is evaluated before the predicate.
pub fn points_with_squares()
    ensures costs { costs (point_rows 1 100 ∷ squares ∷ [])
        (query (of 0 (codes "b") ∷ of 1 (codes "s") ∷ []) (of_both Intersects ∷ key_is NotEqual 0 2 ∷ []))
        ≡ 300 ∷ 500 ∷ 202 ∷ 30 ∷ [] }
    ensures text { analyzed (point_rows 1 100 ∷ squares ∷ [])
        (query (of 0 (codes "b") ∷ of 1 (codes "s") ∷ []) (of_both Intersects ∷ key_is NotEqual 0 2 ∷ []))
        ≡ Some (codes "cost 30\nouter s scan\ninner b probe 1\nfilter 2 1\nwork 8\n") }
{}

/// A probe with an empty geometry returns the rows with empty geometries and the row with null. The null row needs no
/// computing.
pub fn probe_of_empty_geometries()
    ensures costs { costs (empties ∷ [])
        (query (of 0 (codes "e") ∷ []) (with_literal Equals (MultiPoint []) ∷ [])) ≡ 5 ∷ 4 ∷ [] }
    ensures text { analyzed (empties ∷ [])
        (query (of 0 (codes "e") ∷ []) (with_literal Equals (MultiPoint []) ∷ []))
        ≡ Some (codes "cost 4\nouter e probe 1\nfilter 1\nwork 3\n") }
{}

/// Small tables are scanned: a probe costs at least 4, and of two equal costs the scan's comes first.
pub fn scans_of_small_tables()
    ensures two_rows { explained (squares ∷ [])
        (query (of 0 (codes "sq") ∷ []) (with_literal Within (square 0 0) ∷ []))
        ≡ Some (codes "cost 2\nouter sq scan\nfilter 1\n") }
    ensures four_rows { costs (point_rows 1 4 ∷ [])
        (query (of 0 (codes "t") ∷ []) (with_literal Intersects (square 0 0) ∷ [])) ≡ 4 ∷ 4 ∷ [] }
    ensures of_four_rows { explained (point_rows 1 4 ∷ [])
        (query (of 0 (codes "t") ∷ []) (with_literal Intersects (square 0 0) ∷ []))
        ≡ Some (codes "cost 4\nouter t scan\nfilter 1\n") }
{}

/// An outer reference that can be probed: each case of the cost and of the expected rows is in one of the costs, and of
/// two plans that cost the same the earlier one is chosen.
pub fn probes_of_outer_references()
    ensures costs { costs (point_rows 1 100 ∷ squares ∷ []) near_and_joined
        ≡ 300 ∷ 500 ∷ 36 ∷ 58 ∷ 202 ∷ 30 ∷ 30 ∷ [] }
    ensures text { analyzed (point_rows 1 100 ∷ squares ∷ []) near_and_joined
        ≡ Some (codes "cost 30\nouter s scan\ninner b probe 1\nfilter 1 2\nwork 16\n") }
    ensures rounded_costs { costs (point_rows 1 19 ∷ squares ∷ []) near_and_joined
        ≡ 57 ∷ 95 ∷ 9 ∷ 13 ∷ 40 ∷ 12 ∷ 12 ∷ [] }
    ensures rounded { analyzed (point_rows 1 19 ∷ squares ∷ []) near_and_joined
        ≡ Some (codes "cost 9\nouter b probe 1\ninner s scan\nfilter 1 2\nwork 16\n") }
{}

/// Squares whose keys are exchanged, and all pairs of two squares.
pub fn plans_of_pairs()
    ensures exchanged { analyzed (point_rows 1 100 ∷ exchanged ∷ []) joined
        ≡ Some (codes "cost 30\nouter s scan\ninner b probe 1\nfilter 2 1\nwork 8\n") }
    ensures cross_join { explained (squares ∷ []) (query (of 0 (codes "a") ∷ of 0 (codes "b") ∷ []) [])
        ≡ Some (codes "cost 6\nouter a scan\ninner b scan\nfilter none\n") }
    ensures without_analyze { explained (point_rows 1 100 ∷ []) near
        ≡ Some (codes "cost 14\nouter big probe 1\nfilter 1\n") }
{}
