//! The plan of a bound query: the first of least cost among all lawful ways and orders to find the rows of its tables, and
//! the order in which its conjuncts are evaluated. It depends only on the conjuncts and on the tables' numbers of rows.
#![tactic(auto)]

mod choosing;
mod chosen_plans;
mod costs;
mod driving;
mod filter_order;
mod lawful_accesses;
mod least;

pub use choosing::choose_by_counts;
pub use chosen_plans::choose;
pub use table_model::plans::{Access, AccessMethod, Plan};
