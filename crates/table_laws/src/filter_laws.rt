//! The law that the filters of a plan pass exactly what ON and WHERE select.

ghost use Rattle.table_laws.specs.PassingLaws.{FiltersAreAsked};

/// The filters of a lawful plan, evaluated in its order up to the first that isn't true, are all true exactly if ON and
/// WHERE are.
pub fn filters_are_asked()
    ensures { FiltersAreAsked }
{}
