//! Tests of the crates that run queries, which need code: loaded tables, rows of plans and conditions at rows,
//! statements and their constants, and whole commands with observers, failing devices and failing searches.
#![tactic(auto)]

#[cfg(test)]
mod condition_tests;
#[cfg(test)]
mod constant_tests;
#[cfg(test)]
mod device_tests;
#[cfg(test)]
mod file_tests;
#[cfg(test)]
mod front_tests;
#[cfg(test)]
mod kept_table_tests;
#[cfg(test)]
mod observer_tests;
#[cfg(test)]
mod row_tests;
#[cfg(test)]
mod starved_index_tests;
#[cfg(test)]
mod statement_row_tests;
#[cfg(test)]
mod statement_tests;
#[cfg(test)]
mod step_tests;
#[cfg(test)]
mod table_tests;
#[cfg(test)]
mod tables;
#[cfg(test)]
mod tree_tests;
#[cfg(test)]
mod unsearchable_index_tests;
#[cfg(test)]
mod word_tests;
