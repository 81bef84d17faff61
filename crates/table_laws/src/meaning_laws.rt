//! The law that the rows of every lawful plan are the meaning of the query.

ghost use Rattle.table_laws.specs.MeaningLaws.{MeantIsMeaning, PlansGiveMeaning, DatabaseHasValid, BoundHasValid};

/// The rows at the places of `meant` are the meaning of the query as it is written, whatever a geometry is (SQL, the
/// query).
pub fn meant_is_meaning<G, A, C>()
    ensures { MeantIsMeaning G A C }
{}

/// For every lawful plan, the candidates that pass its filters, sorted and under LIMIT, give the meaning of the query
/// (SQL, the query; 06-103r4, 6.1.15.3).
pub fn plans_give_meaning()
    ensures { PlansGiveMeaning }
{}

/// The geometries of a database are valid (06-104r4, 7.2).
pub fn database_has_valid()
    ensures { DatabaseHasValid }
{}

/// The literals of a bound query are valid (06-104r4, 7.2).
pub fn bound_has_valid()
    ensures { BoundHasValid }
{}
