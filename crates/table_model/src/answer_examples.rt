//! Worked examples of answers, proved by computing: the records that queries over the tables of `plan_examples` return.

ghost use Rattle.std.specs.Prelude.{◌≡◌, [], ◌∷◌, codes};
ghost use Rattle.table_model.specs.PlanExamples.{
  squares,
  empties,
  big,
  far_or_near,
  near,
  touching,
  equal_to_empty,
  listing,
  definition,
  returned,
};

/// Queries for the points near a square, without and with a point that is far away.
pub fn points_near_a_square()
    ensures near { returned (definition (codes "big") ∷ []) big (listing (0 ∷ []) near)
        ≡ (codes "id" ∷ []) ∷ (codes "1" ∷ []) ∷ (codes "2" ∷ []) ∷ (codes "3" ∷ []) ∷ (codes "4" ∷ []) ∷ [] }
    ensures far_or_near { returned (definition (codes "big") ∷ []) big (listing (0 ∷ []) far_or_near)
        ≡ (codes "id" ∷ []) ∷ (codes "1" ∷ []) ∷ (codes "2" ∷ []) ∷ (codes "3" ∷ []) ∷ (codes "4" ∷ [])
        ∷ (codes "100" ∷ []) ∷ [] }
{}

/// Empty geometries of any type are equal. A null equals no geometry.
pub fn equal_empty_geometries()
    ensures { returned (definition (codes "e") ∷ []) (empties ∷ []) (listing (0 ∷ []) equal_to_empty)
        ≡ (codes "id" ∷ []) ∷ (codes "1" ∷ []) ∷ (codes "2" ∷ []) ∷ (codes "5" ∷ []) ∷ [] }
{}

/// Two squares that touch give two pairs when their table is joined with itself.
pub fn touching_squares()
    ensures { returned (definition (codes "sq") ∷ []) (squares ∷ []) (listing (0 ∷ 1 ∷ []) touching)
        ≡ (codes "a.id" ∷ codes "b.id" ∷ []) ∷ (codes "1" ∷ codes "2" ∷ [])
        ∷ (codes "2" ∷ codes "1" ∷ []) ∷ [] }
{}
