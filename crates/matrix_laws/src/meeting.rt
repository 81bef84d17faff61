//! Predicates that force meeting: they hold only if envelopes meet, so a search by envelopes loses no pair.

ghost use Rattle.matrix_laws.specs.MeetingLaws.{PredicateForcesMeeting, LabelsForceMeeting};

/// If a predicate that forces meeting holds of two valid geometries by their DE-9IM matrix, their envelopes meet
/// (06-103r4, 6.1.2.2 and 6.1.15.3).
pub fn predicate_forces_meeting()
    ensures { PredicateForcesMeeting }
{}

/// If a predicate that forces meeting holds of two valid geometries by their label matrix, their envelopes meet
/// (06-103r4, 6.1.2.2 and 6.1.15.3).
pub fn labels_force_meeting()
    ensures { LabelsForceMeeting }
{}
