//! The laws of marks, which are fields at the end of a row: the conditions of a query don't depend on them.

ghost use Rattle.table_laws.specs.MarkLaws.{FieldsBehindAreUnseen, FieldsBehindAreUnwritten, OwnerConjunctKeeps};

/// A condition that fits the columns of its references has the same truth at rows with more fields at their ends.
pub fn fields_behind_are_unseen()
    ensures { FieldsBehindAreUnseen }
{}

/// The owner conjunct is true if the marks of a pair say that the cell keeps it, and else false.
pub fn owner_conjunct_keeps()
    ensures { OwnerConjunctKeeps }
{}

/// A record of an answer is the same at rows with more fields at their ends (SQL, the select list).
pub fn fields_behind_are_unwritten()
    ensures { FieldsBehindAreUnwritten }
{}
