//! Laws of rows by places, whatever a geometry and its arguments are. Nothing here runs: each function has an empty
//! body, and its contract is a law of the definitions.

ghost use Rattle.table_model.specs.PlaceLaws.{
  ChoicesGiveProduct,
  SelectedGivesPassing,
  MeantGivesLimited,
  UpToPassingIsFront,
};

/// The rows at all choices of places are the product of the tables (SQL, FROM).
pub fn choices_give_product<G>()
    ensures { ChoicesGiveProduct G }
{}

/// The rows at the choices of places that ON and WHERE select are those at which every conjunct is true
/// (SQL, WHERE).
pub fn selected_gives_passing<G, A, C>()
    ensures { SelectedGivesPassing G A C }
{}

/// The rows at the places of a meaning are those that LIMIT keeps (SQL, LIMIT).
pub fn meant_gives_limited<G, A, C>()
    ensures { MeantGivesLimited G A C }
{}

/// The elements up to the n-th that passes a test are the shortest beginning of the list that has the first n elements that pass.
pub fn up_to_passing_is_front<X>()
    ensures { UpToPassingIsFront X }
{}
