//! A worked example of answers, proved by computing: the bytes that are written for two queries.

ghost use Rattle.std.specs.Prelude.{◌≡◌, codes};
ghost use Rattle.table_model.specs.FirstRunExamples.{first_query, third_query};
ghost use Rattle.engine.specs.FirstRun.{town_text};

/// The text of the answers of two queries over one table: the header, then a record for each row.
pub fn answer_of_the_first_run()
    ensures first { town_text first_query ≡ codes "id,name\n1,a\n" }
    ensures third { town_text third_query ≡ codes "id\n4\n" }
{}
