//! Bound queries: names are replaced by places, and texts of geometries by geometries.

use crate::queries::Explain;
use crate::references::References;
use geometry_model::Predicate;
use sqlite_items::{Boxed, Items};

/// The operator of a comparison (SQL, comparison).
#[derive(Clone, Copy, PartialEq, Eq)]
pub enum Comparison {
    Equal,
    NotEqual,
    Less,
    LessOrEqual,
    Greater,
    GreaterOrEqual,
}

/// Where a column is: the place of its reference in the query, and its own place in the table, both from 0.
#[derive(Clone, Copy, PartialEq, Eq)]
pub struct ColumnPlace {
    /// The place of the reference in the query.
    pub reference: usize,
    /// The place of the column in the reference's table.
    pub column: usize,
}

/// A geometry argument, generic in what a geometry is (06-104r4, 7.2).
#[derive(Drop)]
pub enum GeometryArgument<G> {
    Column(ColumnPlace),
    Literal(G),
}

/// A side of a comparison, generic in what a geometry argument is (SQL, comparison; of geometries: 06-103r4, 6.1.2.2).
#[derive(Drop)]
pub enum Operand<A> {
    Column(ColumnPlace),
    Integer(i64),
    /// The bytes of a string, in which a doubled quote is one quote.
    Text(Items<u8>),
    Null,
    AsText(A),
    Dimension(A),
}

/// A condition, generic in what a geometry argument is. `= 0` after a predicate has become a NOT, and `= 1` is left out
/// (SQL, the search condition; of geometries: 06-103r4, 6.1.15).
#[derive(Drop)]
pub enum Cond<A> {
    Or(Items<Cond<A>>),
    And(Items<Cond<A>>),
    Not(Boxed<Cond<A>>),
    Compare(Comparison, Operand<A>, Operand<A>),
    IsNull(Operand<A>),
    IsEmpty(A),
    Relates(Predicate, A, A),
}

/// An item of the select list, generic in what the argument of a function is
/// (SQL, the select list; of geometries: 06-103r4, 6.1.2.2).
#[derive(Drop)]
pub enum Item<C> {
    Column(ColumnPlace),
    AsText(C),
    Dimension(C),
    IsEmpty(C),
}

/// A table reference: the table's place in the schema, and the name that is written before its columns in an answer
/// over two tables (SQL, FROM).
#[derive(Drop)]
pub struct Reference {
    /// The place of the table in the schema, from 0.
    pub table: usize,
    /// The alias, or the table's name as the schema spells it if there is no alias.
    pub name: Items<u8>,
}

/// A bound query: one or two references; its items, none under COUNT(*); its conjuncts, those of ON before those of
/// WHERE; and its limit, if it has one (SQL, the query).
#[derive(Drop)]
pub struct Bound<A, C> {
    /// Whether the query begins with EXPLAIN or EXPLAIN ANALYZE.
    pub explain: Explain,
    /// The references of FROM, one or two.
    pub references: References<Reference>,
    /// What SELECT lists, in order; none under COUNT(*).
    pub items: Items<Item<C>>,
    /// The conjuncts of ON, then those of WHERE. A row is selected if all of them are true.
    pub conjuncts: Items<Cond<A>>,
    /// Whether the query selects COUNT(*): then the answer is the number of rows.
    pub counts: bool,
    /// LIMIT: the answer has at most this many rows.
    pub limit: Option<u64>,
}
