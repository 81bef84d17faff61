//! Worked examples of binding.

ghost use Rattle.std.specs.Prelude.{◌≡◌, [], ◌∷◌, codes, Err, Ok};
ghost use Rattle.table_model.specs.Binding.{bound_column, unquoted};
ghost use Rattle.table_model.specs.BindingExamples.{towns, called, bare, qualified, compared_with_x};
ghost use Rattle.table_model.specs.declared.faults.QueryFault.TheVariants as fault;
ghost use Rattle.table_model.specs.declared.typing.OperandType.TheVariants as types;

/// How names of columns are bound: a column that doesn't exist, the table's name although it has an alias, a column of
/// two references, and a name in another case.
#[tactic(auto, unfolding(crate::specs::Texts::same_name))]
pub fn names_of_columns()
    ensures unknown { bound_column towns (called (codes "t") ∷ []) (bare (codes "nope"))
        ≡ Err (fault.UnknownColumn 7) }
    ensures hidden { bound_column towns (called (codes "x") ∷ []) (qualified (codes "t") (codes "id"))
        ≡ Err (fault.UnknownColumn 7) }
    ensures ambiguous { bound_column towns (called (codes "a") ∷ called (codes "b") ∷ []) (bare (codes "pop"))
        ≡ Err (fault.AmbiguousColumn 7) }
    ensures found { bound_column towns (called (codes "a") ∷ called (codes "b") ∷ [])
        (qualified (codes "B") (codes "POP"))
        ≡ Ok (record { place = record { reference = 1; column = 1 }; column_type = types.Integer }) }
{}

/// A number and a text can't be compared. Two quotes in a row in a string are one quote.
#[tactic(auto, unfolding(crate::specs::Texts::same_name))]
pub fn comparisons_and_strings()
    ensures mismatch { compared_with_x (codes "pop") ≡ Err (fault.TypeMismatch 23) }
    ensures unknown { compared_with_x (codes "size") ≡ Err (fault.UnknownColumn 7) }
    ensures quote { unquoted (codes "it''s") ≡ codes "it's" }
{}
