//! Worked examples of LIMIT and COUNT(*), proved by computing: texts of EXPLAIN and EXPLAIN ANALYZE with their work, and records.

ghost use Rattle.std.specs.Prelude.{◌≡◌, [], ◌∷◌, codes, Some};
ghost use Rattle.table_model.specs.PlanExamples.{
  squares,
  exchanged,
  big,
  far_or_near,
  near,
  joined,
  touching,
  of,
  query,
  point_rows,
  limit_to,
  counting,
  listing,
  definition,
  explained,
  analyzed,
  returned,
  worked_to,
};

/// Under LIMIT, the work is that of the candidates up to the one that gives the last row of the answer.
pub fn first_rows()
    ensures text { analyzed big (limit_to 2 far_or_near)
        ≡ Some (codes "cost 100\nouter big scan\nfilter 1\nlimit 2\nwork 2\n") }
    ensures records { returned (definition (codes "big") ∷ []) big (listing (0 ∷ []) (limit_to 2 far_or_near))
        ≡ (codes "id" ∷ []) ∷ (codes "1" ∷ []) ∷ (codes "2" ∷ []) ∷ [] }
    ensures fourth { analyzed big (limit_to 4 far_or_near)
        ≡ Some (codes "cost 100\nouter big scan\nfilter 1\nlimit 4\nwork 4\n") }
    ensures fifth_is_last { analyzed big (limit_to 5 far_or_near)
        ≡ Some (codes "cost 100\nouter big scan\nfilter 1\nlimit 5\nwork 100\n") }
    ensures after_one { worked_to big far_or_near 1 ≡ Some 1 }
{}

/// COUNT(*) counts all rows, and its work is that of all candidates, also under LIMIT.
pub fn counted_rows()
    ensures text { analyzed big (counting near)
        ≡ Some (codes "cost 14\nouter big probe 1\nfilter 1\ncount\nwork 4\n") }
    ensures records { returned (definition (codes "big") ∷ []) big (counting near)
        ≡ (codes "COUNT(*)" ∷ []) ∷ (codes "4" ∷ []) ∷ [] }
    ensures limited_text { analyzed big (limit_to 1 (counting near))
        ≡ Some (codes "cost 14\nouter big probe 1\nfilter 1\ncount\nlimit 1\nwork 4\n") }
    ensures limited_records { returned (definition (codes "big") ∷ []) big (limit_to 1 (counting near))
        ≡ (codes "COUNT(*)" ∷ []) ∷ (codes "4" ∷ []) ∷ [] }
{}

/// Under LIMIT 0, only the header is returned. With COUNT(*) all candidates count as work, without it none does.
pub fn no_rows()
    ensures records { returned (definition (codes "big") ∷ []) big
        (listing (0 ∷ []) (limit_to 0 (query (of 0 (codes "big") ∷ []) []))) ≡ (codes "id" ∷ []) ∷ [] }
    ensures counted { returned (definition (codes "big") ∷ []) big
        (limit_to 0 (counting (query (of 0 (codes "big") ∷ []) []))) ≡ (codes "COUNT(*)" ∷ []) ∷ [] }
    ensures all_counted { returned (definition (codes "big") ∷ []) big
        (counting (query (of 0 (codes "big") ∷ []) [])) ≡ (codes "COUNT(*)" ∷ []) ∷ (codes "100" ∷ []) ∷ [] }
    ensures text { analyzed big (limit_to 0 near)
        ≡ Some (codes "cost 14\nouter big probe 1\nfilter 1\nlimit 0\nwork 0\n") }
    ensures counted_text { analyzed big (limit_to 0 (counting near))
        ≡ Some (codes "cost 14\nouter big probe 1\nfilter 1\ncount\nlimit 0\nwork 4\n") }
    ensures without_analyze { explained big (limit_to 0 (counting near))
        ≡ Some (codes "cost 14\nouter big probe 1\nfilter 1\ncount\nlimit 0\n") }
    ensures of_pairs { analyzed (point_rows 1 100 ∷ exchanged ∷ []) (limit_to 0 joined)
        ≡ Some (codes "cost 30\nouter s scan\ninner b probe 1\nfilter 2 1\nlimit 0\nwork 0\n") }
{}

/// If the second reference is the outer one, all candidates count. If the first is, those up to the last row of the answer count.
pub fn pairs_under_limit()
    ensures text { analyzed (point_rows 1 100 ∷ exchanged ∷ []) (limit_to 1 joined)
        ≡ Some (codes "cost 30\nouter s scan\ninner b probe 1\nfilter 2 1\nlimit 1\nwork 8\n") }
    ensures records { returned (definition (codes "big") ∷ definition (codes "sq") ∷ [])
        (point_rows 1 100 ∷ exchanged ∷ []) (listing (0 ∷ 1 ∷ []) (limit_to 1 joined))
        ≡ (codes "b.id" ∷ codes "s.id" ∷ []) ∷ (codes "1" ∷ codes "2" ∷ []) ∷ [] }
    ensures first_outer { analyzed (squares ∷ []) (limit_to 1 touching)
        ≡ Some (codes "cost 6\nouter a scan\ninner b scan\nfilter 1\nlimit 1\nwork 2\n") }
{}
