//! Laws of the constants of bound queries. Nothing here runs: each function has an empty body, and its contract is a
//! law of the definitions.

ghost use Rattle.statements.specs.ConstantLaws.{
  OneConstantIsReplaced,
  ReplacedStaysBound,
  SameConstantChangesNothing,
};

/// Replacing a constant by itself leaves the query as it was.
pub fn same_constant_changes_nothing()
    ensures { SameConstantChangesNothing }
{}

/// A value that may replace a constant replaces that constant, and no other.
pub fn one_constant_is_replaced()
    ensures { OneConstantIsReplaced }
{}

/// A bound query stays bound when a constant is replaced by a value that may replace it.
pub fn replaced_stays_bound()
    ensures { ReplacedStaysBound }
{}
