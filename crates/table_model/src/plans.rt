//! Plans of queries: the order in which the rows of the tables are found, the way in which they are found, and the cost.

use sqlite_items::Items;

/// How the rows of a table reference are found.
#[derive(Clone, Copy, Debug, PartialEq, Eq)]
pub enum AccessMethod {
    /// All rows.
    Scan,
    /// The rows at which the envelopes of the two arguments of a conjunct meet. The number is the conjunct's place, from 0.
    Probe(usize),
}

/// How the rows of one of the query's references are found.
#[derive(Clone, Copy, Debug, PartialEq, Eq)]
pub struct Access {
    /// The place of the reference in the query, from 0.
    pub reference: usize,
    /// How its rows are found.
    pub method: AccessMethod,
}

/// A plan of a query.
#[derive(Drop)]
pub struct Plan {
    /// One access for each reference, the outer one first.
    pub accesses: Items<Access>,
    /// The places of all conjuncts, from 0, in the order in which they are evaluated.
    pub filters: Items<usize>,
    /// The cost of the plan, counted in rows.
    pub cost: u64,
}
