//! Tests of the libraries below the runs of queries that need code: counts of work, laws, explanations, pages of
//! faults, witnesses and tiles, and values that no command prints. The rows of `scripts` test what a command prints.
#![tactic(auto)]

#[cfg(test)]
mod batch_line_tests;
#[cfg(test)]
mod binary_tests;
#[cfg(test)]
mod bound_query_tests;
#[cfg(test)]
mod box_tests;
#[cfg(test)]
mod cell_tests;
#[cfg(test)]
mod deciding_tests;
#[cfg(test)]
mod draws;
#[cfg(test)]
mod edge_tests;
#[cfg(test)]
mod envelope_tests;
#[cfg(test)]
mod explanation_tests;
#[cfg(test)]
mod gap_tests;
#[cfg(test)]
mod index_tests;
#[cfg(test)]
mod language_tests;
#[cfg(test)]
mod law_tests;
#[cfg(test)]
mod loading_tests;
#[cfg(test)]
mod location_tests;
#[cfg(test)]
mod matrix_tests;
#[cfg(test)]
mod merging_tests;
#[cfg(test)]
mod noding_tests;
#[cfg(test)]
mod order_tests;
#[cfg(test)]
mod pair_tests;
#[cfg(test)]
mod part_tests;
#[cfg(test)]
mod point_tests;
#[cfg(test)]
mod printing_tests;
#[cfg(test)]
mod record_tests;
#[cfg(test)]
mod rows;
#[cfg(test)]
mod segment_tests;
#[cfg(test)]
mod shapes;
#[cfg(test)]
mod sink_tests;
#[cfg(test)]
mod table_explanation_tests;
#[cfg(test)]
mod tile_cell_tests;
#[cfg(test)]
mod tile_copy_tests;
#[cfg(test)]
mod tile_table_tests;
#[cfg(test)]
mod tile_text_tests;
#[cfg(test)]
mod tile_texts;
#[cfg(test)]
mod validity_tests;
