//! Laws of three-valued truth.

ghost use Rattle.std.specs.Prelude.{◌≡◌, [], ◌∷◌};
ghost use Rattle.table_model.specs.TruthLaws.{ConjunctsAreJoined, NestedAndsAreOne};
ghost use Rattle.table_model.specs.Truths.{not_of, and_of, or_of, all_of, any_of};
ghost use Rattle.table_model.specs.declared.values.Truth.TheVariants.{True, False, Unknown};

/// The rows of the truth tables that have an unknown part, and the values of AND and OR without parts.
pub fn unknown_parts()
    ensures not { not_of Unknown ≡ Unknown }
    ensures and_true { and_of True Unknown ≡ Unknown }
    ensures and_false { and_of False Unknown ≡ False }
    ensures and_unknown { and_of Unknown Unknown ≡ Unknown }
    ensures and_true_after { and_of Unknown True ≡ Unknown }
    ensures and_false_after { and_of Unknown False ≡ False }
    ensures or_true { or_of True Unknown ≡ True }
    ensures or_false { or_of False Unknown ≡ Unknown }
    ensures or_unknown { or_of Unknown Unknown ≡ Unknown }
    ensures or_true_after { or_of Unknown True ≡ True }
    ensures or_false_after { or_of Unknown False ≡ Unknown }
    ensures all_false { all_of (Unknown ∷ True ∷ False ∷ []) ≡ False }
    ensures all_unknown { all_of (True ∷ Unknown ∷ True ∷ []) ≡ Unknown }
    ensures any_true { any_of (Unknown ∷ False ∷ True ∷ []) ≡ True }
    ensures any_unknown { any_of (False ∷ Unknown ∷ False ∷ []) ≡ Unknown }
{}

/// Several conditions are all true at exactly the rows at which their AND is true (SQL's three-valued logic).
pub fn conjuncts_are_joined()
    ensures { ConjunctsAreJoined }
{}

/// An AND inside an AND may be replaced by its parts, so conjuncts may be in one flat list (SQL's three-valued logic).
pub fn nested_ands_are_one()
    ensures { NestedAndsAreOne }
{}
