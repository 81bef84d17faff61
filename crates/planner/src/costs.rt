//! The costs of plans, counted in rows.

ghost use Rattle.std.specs.Prelude.{◌≡◌, ◌<◌, ◌^◌, slice_index_or};
ghost use Rattle.planner.specs.Nestings.{accesses_in};
ghost use Rattle.table_model.specs.Plans as spec;

use crate::lawful_accesses::Nesting;
use table_model::plans::{Access, AccessMethod};

/// The number of rows of a reference.
fn row_count(rows: &[u32], reference: usize) -> u64
    ensures count { result ≡ slice_index_or rows.now reference 0 }
    ensures fits { result < 2 ^ 32 }
{
    match rows.get(reference) {
        Some(count) => *count as u64,
        None => 0,
    }
}

/// The cost of an access: for a scan the number of rows of its table, for a probe a tenth of that and a constant.
fn access_cost(rows: &[u32], access: Access) -> u64
    ensures cost { result ≡ spec.access_cost (slice_index_or rows.now access.reference 0) access.method }
    ensures fits { result < 2 ^ 32 }
{
    let count = row_count(rows, access.reference);
    match access.method {
        AccessMethod::Scan => count,
        AccessMethod::Probe(_) => 4 + count / 10,
    }
}

/// The number of rows that an access is expected to find.
fn expected_rows(rows: &[u32], access: Access) -> u64
    ensures expected { result
        ≡ spec.expected_rows (slice_index_or rows.now access.reference 0) access.method }
    ensures fits { result < 2 ^ 32 }
{
    let count = row_count(rows, access.reference);
    match access.method {
        AccessMethod::Scan => count,
        AccessMethod::Probe(_) => 1 + count / 10,
    }
}

/// The cost of a nesting of accesses: the inner access runs once for each row that is expected of the outer one.
pub(crate) fn cost(rows: &[u32], nesting: Nesting) -> u64
    ensures { result ≡ spec.cost rows.now (accesses_in nesting) }
{
    let outer = access_cost(rows, nesting.outer);
    match nesting.inner {
        Some(inner) => outer + expected_rows(rows, nesting.outer) * access_cost(rows, inner),
        None => outer,
    }
}
