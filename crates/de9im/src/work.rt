//! The count of the pairs of geometries that were decided.

use std::marker::Model;

/// How many pairs of geometries were decided: `decide` adds one for a predicate, `relate` one for a matrix. The count doesn't grow
/// past the greatest u64.
#[derive(Debug, Drop)]
pub struct Work {
    count: u64,
}

impl Model for Work {
    ghost use Rattle.std.specs.Prelude.{ℕ};

    ghost Value = { ℕ };

    ghost view = { λ w. w.count };
}

impl Work {
    ghost use Rattle.std.specs.Prelude.{◌≡◌};
    ghost use Rattle.basics.specs.Counts.{one_more};

    /// The count of no pairs.
    pub fn new() -> Work
        ensures { result ≡ 0 }
    {
        Work { count: 0 }
    }

    /// The number of pairs.
    pub fn count(&self) -> u64
        ensures { result ≡ self.now }
    {
        self.count
    }

    /// Counts one more pair.
    pub(crate) fn add_one(&mut self)
        ensures { self.new ≡ one_more self.old }
    {
        self.count = self.count.saturating_add(1);
    }
}

impl Default for Work {
    ghost use Rattle.std.specs.Prelude.{◌≡◌};

    ghost is_default = { λ w. w ≡ 0 };

    fn default() -> Work {
        Work::new()
    }
}
