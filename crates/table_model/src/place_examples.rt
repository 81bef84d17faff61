//! Worked examples of choices of places, of conditions that compute a matrix, and of ST_AsText in conditions.

ghost use Rattle.std.specs.Prelude.{◌≡◌, [], ◌∷◌, codes, true, false, pos};
ghost use Rattle.geometry_model.specs.Labels.{labelled_matrix};
ghost use Rattle.geometry_model.specs.declared.relations.Predicate.TheVariants.{Intersects};
ghost use Rattle.table_model.specs.Arguments.{denoted};
ghost use Rattle.table_model.specs.Places.{meant};
ghost use Rattle.table_model.specs.PlanExamples.{
  row,
  square,
  of,
  query,
  limit_to,
  geometry,
  key_is,
  with_literal,
  with_itself,
  of_second,
  first_point,
};
ghost use Rattle.table_model.specs.Truths.{truth};
ghost use Rattle.table_model.specs.Work.{computes, has_as_text};
ghost use Rattle.table_model.specs.declared.conditions.Comparison.TheVariants.{Equal, Greater};
ghost use Rattle.table_model.specs.declared.conditions.Cond.TheVariants.{Or, Not, Compare, IsNull, IsEmpty};
ghost use Rattle.table_model.specs.declared.conditions.Operand.TheVariants.{Text, AsText, Dimension, Integer};
ghost use Rattle.table_model.specs.declared.values.Value.TheVariants.{Null};

/// Two rows with equal fields are two choices of places.
pub fn equal_rows()
    ensures both { meant (truth labelled_matrix denoted) ((first_point ∷ first_point ∷ []) ∷ [])
        (query (of 0 (codes "t") ∷ []) []) ≡ (0 ∷ []) ∷ (1 ∷ []) ∷ [] }
    ensures first { meant (truth labelled_matrix denoted) ((first_point ∷ first_point ∷ []) ∷ [])
        (limit_to 1 (query (of 0 (codes "t") ∷ []) [])) ≡ (0 ∷ []) ∷ [] }
    ensures pairs { meant (truth labelled_matrix denoted) ((first_point ∷ first_point ∷ []) ∷ [])
        (query (of 0 (codes "a") ∷ of 0 (codes "b") ∷ []) [])
        ≡ (0 ∷ 0 ∷ []) ∷ (0 ∷ 1 ∷ []) ∷ (1 ∷ 0 ∷ []) ∷ (1 ∷ 1 ∷ []) ∷ [] }
{}

/// A condition computes if one of its DE-9IM predicates has no null argument, however deep it is nested.
pub fn conditions_that_compute()
    ensures at_a_point { computes denoted (first_point ∷ []) (with_literal Intersects (square 0 0)) ≡ true }
    ensures at_null { computes denoted (row 1 Null ∷ []) (with_literal Intersects (square 0 0)) ≡ false }
    ensures beside_null { computes denoted (row 1 Null ∷ first_point ∷ [])
        (Or (with_itself Intersects ∷ Not (of_second Intersects) ∷ [])) ≡ true }
    ensures of_keys { computes denoted (first_point ∷ [])
        (Or (key_is Greater 0 9 ∷ IsEmpty (geometry 0) ∷ [])) ≡ false }
{}

/// Conditions that contain ST_AsText, on either side of a comparison or before IS NULL, however deep it is nested.
pub fn conditions_with_as_text()
    ensures left { has_as_text
        (Not (Or (key_is Greater 0 9 ∷ Compare Equal (AsText (geometry 0)) (Text (codes "POINT(1 1)")) ∷ [])))
        ≡ true }
    ensures right { has_as_text (Compare Equal (Text (codes "POINT(1 1)")) (AsText (geometry 0))) ≡ true }
    ensures is_null { has_as_text (IsNull (AsText (geometry 0))) ≡ true }
    ensures other_functions { has_as_text
        (Or (Compare Equal (Dimension (geometry 0)) (Integer (pos 1)) ∷ IsEmpty (geometry 0)
        ∷ with_literal Intersects (square 0 0) ∷ [])) ≡ false }
{}
