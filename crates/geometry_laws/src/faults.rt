//! Laws of the faults of geometries: the tests in whole numbers agree with the faults, and the first one is found.

ghost use Rattle.geometry_laws.specs.FaultLaws.{
  FaultIsDecided,
  FirstFaultApplies,
  FirstFaultIsFirst,
  NoEarlierFaultApplies,
  NoneIsFoundWhereValid,
};

/// If each ring is closed, each test in whole numbers agrees with its fault, a fact about rational points.
pub fn fault_is_decided()
    ensures { FaultIsDecided }
{}

/// The first fault that is found applies.
pub fn first_fault_applies()
    ensures { FirstFaultApplies }
{}

/// The fault that is found is the first that applies: none before it in the order of tests does.
pub fn first_fault_is_first()
    ensures { FirstFaultIsFirst }
{}

/// Wherever the order of tests is split at the fault that is found, none before it applies.
pub fn no_earlier_fault_applies()
    ensures { NoEarlierFaultApplies }
{}

/// No fault is found exactly if the geometry is valid.
pub fn none_is_found_where_valid()
    ensures { NoneIsFoundWhereValid }
{}
