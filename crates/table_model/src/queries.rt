//! Queries as they are written, without their parentheses. Names and strings are parts of the query's text.

use crate::conditions::Comparison;
use crate::references::References;
use crate::texts::Slice;
use geometry_model::Predicate;
use sqlite_items::{Boxed, Items};

/// The greatest depth to which NOT and parentheses may nest in a condition.
pub const LEVEL_LIMIT: usize = 64;

/// A name or a string, and the byte from 0 at which its token starts in the query's text.
#[derive(Drop)]
pub struct Name<'a> {
    pub text: Slice<'a>,
    pub at: usize,
}

/// A column as it is written, with the name of its reference if one is written (SQL, column names).
#[derive(Drop)]
pub struct WrittenColumn<'a> {
    pub reference: Option<Name<'a>>,
    pub name: Name<'a>,
}

/// A geometry argument as it is written (06-104r4, 7.2).
#[derive(Drop)]
pub enum WrittenGeometry<'a> {
    Column(WrittenColumn<'a>),
    /// ST_GeomFromText of a string.
    FromText(Name<'a>),
}

/// A side of a comparison as it is written, generic in what a geometry argument is
/// (SQL, comparison; of geometries: 06-103r4, 6.1.2.2).
#[derive(Drop)]
pub enum WrittenOperand<'a, A> {
    Column(WrittenColumn<'a>),
    Integer(i64),
    Text(Name<'a>),
    Null,
    /// ST_AsText. The number is the byte at which that word starts.
    AsText(usize, A),
    /// ST_Dimension. The number is the byte at which that word starts.
    Dimension(usize, A),
}

/// The DE-9IM predicate that is written. ST_Relate has its pattern as a string (06-103r4, 6.1.15).
#[derive(Drop)]
pub enum WrittenPredicate<'a> {
    Named(Predicate),
    Relate(Name<'a>),
}

/// A condition as it is written, generic in what a geometry argument is. The number of a predicate is the byte
/// at which it starts (SQL, the search condition).
#[derive(Drop)]
pub enum WrittenCond<'a, A> {
    Or(Items<WrittenCond<'a, A>>),
    And(Items<WrittenCond<'a, A>>),
    Not(Boxed<WrittenCond<'a, A>>),
    Compare(usize, Comparison, WrittenOperand<'a, A>, WrittenOperand<'a, A>),
    IsNull(WrittenOperand<'a, A>),
    IsEmpty(usize, A),
    Relates(usize, WrittenPredicate<'a>, A, A),
}

/// An item of the select list as it is written, generic in what the argument of a function is (SQL, the select list).
#[derive(Drop)]
pub enum WrittenItem<'a, C> {
    Column(WrittenColumn<'a>),
    /// ST_AsText, ST_Dimension and ST_IsEmpty. The number is the byte at which that word starts.
    AsText(usize, C),
    Dimension(usize, C),
    IsEmpty(usize, C),
}

/// What SELECT lists (SQL, the select list).
#[derive(Drop)]
pub enum Selection<'a, C> {
    /// `*`
    All,
    Items(Items<WrittenItem<'a, C>>),
    /// `COUNT(*)`, the number of rows. It is the only item.
    Count,
}

/// A table reference as it is written (SQL, FROM).
#[derive(Drop)]
pub struct WrittenReference<'a> {
    pub table: Name<'a>,
    pub alias: Option<Name<'a>>,
}

/// Whether a query is to be run, or its plan to be printed.
#[derive(Clone, Copy, PartialEq, Eq)]
pub enum Explain {
    /// Neither word: the query is run, and its answer is printed.
    No,
    /// EXPLAIN: the plan.
    Plan,
    /// EXPLAIN ANALYZE: the plan, and the work of running it.
    Analyze,
}

/// A SELECT as it is written, generic in what a geometry argument is in a condition (`A`) and what the argument
/// of a function is in the select list (`C`) (SQL, the query).
#[derive(Drop)]
pub struct Query<'a, A, C> {
    pub explain: Explain,
    pub selection: Selection<'a, C>,
    /// The table references of FROM, one or two.
    pub references: References<WrittenReference<'a>>,
    /// The condition of ON.
    pub on: Option<WrittenCond<'a, A>>,
    /// The condition of WHERE.
    pub condition: Option<WrittenCond<'a, A>>,
    /// The number of LIMIT.
    pub limit: Option<u64>,
}
