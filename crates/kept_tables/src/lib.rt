//! A database that is kept between queries. It owns its schema, and each table is loaded separately, when it is needed.
//! Laws say that a query depends only on the tables that it names.
#![tactic(auto)]

mod kept_databases;
pub mod kept_laws;
mod unloaded_references;

pub use kept_databases::KeptDatabase;
pub use unloaded_references::unloaded_reference;
