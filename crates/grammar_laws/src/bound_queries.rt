//! Laws of bound queries. Nothing here runs: each function has an empty body, and its contract is a law of the
//! definitions.

ghost use Rattle.grammar_laws.specs.BoundLaws.{GeometryQueriesAreBound};

/// A bound query with geometries names only tables and columns of the definitions, and its types match.
pub fn geometry_queries_are_bound()
    ensures { GeometryQueriesAreBound }
{}
