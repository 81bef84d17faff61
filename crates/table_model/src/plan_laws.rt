//! Laws of the chosen plan, of filters and of candidates. Nothing here runs: each function has an empty body, and its
//! contract is a law of the definitions.

ghost use Rattle.table_model.specs.PlanLaws.{
  ChosenIsLawful,
  ChosenCostsLeast,
  ChosenIsFirst,
  FirstIsChosen,
  SomePlanIsChosen,
  FiltersAreConjuncts,
  ScansGiveChoices,
  ScanGivesPlaces,
};

/// The chosen plan is lawful.
pub fn chosen_is_lawful()
    ensures { ChosenIsLawful }
{}

/// No lawful plan costs less than the chosen one.
pub fn chosen_costs_least()
    ensures { ChosenCostsLeast }
{}

/// Every lawful plan before the chosen one costs more.
pub fn chosen_is_first()
    ensures { ChosenIsFirst }
{}

/// The first lawful plan of least cost is the chosen one.
pub fn first_is_chosen()
    ensures { FirstIsChosen }
{}

/// If there are one or two references, a plan is chosen.
pub fn some_plan_is_chosen()
    ensures { SomePlanIsChosen }
{}

/// The filters are all conjuncts, each once.
pub fn filters_are_conjuncts()
    ensures { FiltersAreConjuncts }
{}

/// Two scans give all choices of places, in their order.
pub fn scans_give_choices()
    ensures { ScansGiveChoices }
{}

/// A scan gives all places of its table.
pub fn scan_gives_places()
    ensures { ScanGivesPlaces }
{}
