//! A worked example of two tables joined by ON, proved by computing: the bound query, its conjuncts, and the records of
//! its answer.

ghost use Rattle.std.specs.Prelude.{◌≡◌, [], ◌∷◌, codes, Ok, map};
ghost use Rattle.table_model.specs.Binding.{binding, statement};
ghost use Rattle.table_model.specs.GeometryColumns.{geometry_binding};
ghost use Rattle.table_model.specs.JoinExamples.{
  points_and_squares,
  written_join,
  join,
  left_first,
  right_first,
  joined_with,
  pair,
};
ghost use Rattle.table_model.specs.Statements.{by_conjuncts};

/// The conditions of ON and of WHERE are kept apart, and are the two conjuncts in this order.
pub fn binding_of_a_join()
    ensures whole { statement geometry_binding points_and_squares written_join ≡ Ok join }
    ensures conjuncts { binding geometry_binding points_and_squares written_join ≡ Ok (by_conjuncts join) }
{}

/// The answer is the pairs for which ON and WHERE are true, by the first table's key, then the second's, also if the
/// keys of the squares are exchanged.
pub fn answers_of_a_join()
    ensures left_first { joined_with left_first
        ≡ pair (codes "b.id") (codes "s.id")
        ∷ pair (codes "1") (codes "1")
        ∷ pair (codes "3") (codes "1")
        ∷ pair (codes "4") (codes "1")
        ∷ pair (codes "4") (codes "2")
        ∷ pair (codes "5") (codes "2")
        ∷ pair (codes "6") (codes "2")
        ∷ pair (codes "7") (codes "2")
        ∷ pair (codes "8") (codes "2")
        ∷ [] }
    ensures right_first { joined_with right_first
        ≡ pair (codes "b.id") (codes "s.id")
        ∷ pair (codes "1") (codes "2")
        ∷ pair (codes "3") (codes "2")
        ∷ pair (codes "4") (codes "1")
        ∷ pair (codes "4") (codes "2")
        ∷ pair (codes "5") (codes "1")
        ∷ pair (codes "6") (codes "1")
        ∷ pair (codes "7") (codes "1")
        ∷ pair (codes "8") (codes "1")
        ∷ [] }
{}
