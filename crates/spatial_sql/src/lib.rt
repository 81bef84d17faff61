//! The meaning of a query over a database, in the style of OGC 06-104r4 (Simple Features, part 2). `bind` turns its
//! names into places and its texts into geometries. `value` is the truth of a condition at rows, in SQL's three-valued
//! logic. Filters say which rows pass all conjuncts, and which rows certainly don't.
#![tactic(auto)]

mod argument_binding;
mod binding;
mod columns;
mod comparison_values;
mod condition_binding;
mod condition_values;
mod conjuncts;
mod denotations;
mod free_conditions;
mod idle_rows;
mod item_binding;
mod logic;
mod operand_binding;
mod passing_rows;
mod patterns;
mod query_binder;
mod query_binding;
mod readings;
mod reference_binding;
mod relation_values;
mod scope;
mod sides;
mod sought_values;
mod strings;

pub use binding::bind;
pub use condition_values::value;
pub use de9im::Work;
pub use denotations::field_at;
pub use free_conditions::lack_predicates;
pub use idle_rows::{asks_alone, gives_none};
pub use passing_rows::passes;
pub use query_binder::{Argument, Bound, ColumnShape, Cond, TableDef};
pub use query_binding::bind_to_tables;
pub use readings::{ReadColumn, ReadValue, Reading, dimension_of};
pub use sides::{dimension, printed};
pub use sought_values::{equal_column, sought_value};
pub use sql_text::{Query, QueryFault, SchemaFault, read_query, read_schema};
pub use table_model::values::Truth;
