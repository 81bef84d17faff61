//! The worked example of a query over a table of numbers and texts, proved by computing: the table's rows, the bound
//! queries, what they mean, and the records of their answers.

ghost use Rattle.std.specs.Prelude.{◌≡◌, [], ◌∷◌, codes, Ok};
ghost use Rattle.table_model.specs.FirstRunExamples.{
  town_records,
  town_rows,
  first_town,
  second_town,
  third_town,
  fourth_town,
  bound_names,
  many_but_b,
  first_query,
  second_query,
  third_query,
  meant,
  returned,
};
ghost use Rattle.table_model.specs.BindingExamples.{town_table};
ghost use Rattle.table_model.specs.GeometryColumns.{read_geometry};
ghost use Rattle.table_model.specs.Loading.{load};

/// The records load as these rows.
pub fn rows_of_the_first_run()
    ensures { load read_geometry town_table town_records ≡ Ok town_rows }
{}

/// The condition of the first query has two conjuncts.
pub fn binding_of_the_first_run()
    ensures { bound_names many_but_b ≡ Ok first_query }
{}

/// The rows that the queries mean. A null isn't greater than a number, and NOT of that comparison isn't true either.
pub fn meaning_of_the_first_run()
    ensures first { meant first_query ≡ (first_town ∷ []) ∷ [] }
    ensures second { meant second_query
        ≡ (first_town ∷ []) ∷ (second_town ∷ []) ∷ (third_town ∷ []) ∷ (fourth_town ∷ []) ∷ [] }
    ensures third { meant third_query ≡ (fourth_town ∷ []) ∷ [] }
{}

/// The records of the answers.
pub fn answers_of_the_first_run()
    ensures first { returned first_query
        ≡ (codes "id" ∷ codes "name" ∷ []) ∷ (codes "1" ∷ codes "a" ∷ []) ∷ [] }
    ensures third { returned third_query ≡ (codes "id" ∷ []) ∷ (codes "4" ∷ []) ∷ [] }
{}
