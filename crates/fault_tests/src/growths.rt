//! Controls the library built from tests/faults/faults.c. Asked for sizes that no heap has, it makes a later allocation
//! fail, and says how many there were. Without the library, none fails or is counted.

use std::alloc::Global;

/// A sweep of more allocations than this counts as endless, and no more are counted.
pub(crate) const MOST: usize = 20_000;

/// The size for a failure. Asked for k bytes more, the library refuses them, and makes the k-th allocation from then on fail.
const REFUSING: usize = 1 << 62;

/// The size for the count. Asked for c bytes more, the library allocates them if there were at least c allocations.
const ASKING: usize = 1 << 61;

/// Whether this many bytes are allocated.
fn is_given(alloc: Global, size: usize) -> bool {
    Vec::<u8>::with_capacity(alloc, size).is_ok()
}

/// Makes the allocation with this number fail, counted from 1 and from now on (0: none). The count starts again.
pub(crate) fn refuse(alloc: Global, number: usize) {
    let _ = is_given(alloc, REFUSING.saturating_add(number));
}

/// Whether allocations can fail and are counted.
pub(crate) fn are_counted(alloc: Global) -> bool {
    is_given(alloc, ASKING)
}

/// Whether there were at least this many allocations since the last call of `refuse`.
pub(crate) fn were_at_least(alloc: Global, count: usize) -> bool {
    is_given(alloc, ASKING.saturating_add(count))
}

/// The number of allocations since the last call of `refuse`.
pub(crate) fn counted(alloc: Global) -> usize {
    for count in 0..MOST {
        if !were_at_least(alloc, count.saturating_add(1)) {
            return count;
        }
    }
    MOST
}
