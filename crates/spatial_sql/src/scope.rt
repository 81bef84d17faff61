//! Where the names of a query are looked up.

use crate::query_binder::TableDef;
use table_model::conditions::Reference;

/// The tables of a schema, and a query's references to some of them.
#[derive(Clone, Copy)]
pub struct Scope<'s> {
    /// The tables of the schema.
    pub definitions: &'s [TableDef],
    /// The bound references of FROM, in order.
    pub references: &'s [Reference],
}
