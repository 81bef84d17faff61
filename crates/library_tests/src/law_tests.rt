//! The laws of loaded tables, used with plain types.

use table_laws::loading_laws::{required_are_filled, rows_are_permuted, rows_ascend, rows_fit};

#[test]
fn laws_hold_at_plain_types() {
    rows_ascend::<u8, i64>();
    rows_are_permuted::<u8, i64>();
    rows_fit::<u8, i64>();
    required_are_filled::<u8, i64>();
}
