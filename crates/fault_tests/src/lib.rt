//! Tests in which allocations, reads and writes fail, each in turn, and allocations are counted. Allocations fail and
//! are counted if the tests run with the library of tests/faults; without it these tests see none.
#![tactic(auto)]

#[cfg(test)]
mod cases;
#[cfg(test)]
mod growth_tests;
#[cfg(test)]
mod growths;
#[cfg(test)]
mod matrix_growth_tests;
#[cfg(test)]
mod read_tests;
#[cfg(test)]
mod relate_tests;
#[cfg(test)]
mod schema_tests;
#[cfg(test)]
mod stream_tests;
#[cfg(test)]
mod write_tests;
