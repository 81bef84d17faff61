//! Observers of the search for rows.

ghost use Rattle.std.specs.Prelude.{◌≡◌, ℕ};
ghost use Rattle.std.specs.Fn.{iterate};

/// An observer of the progress of a query's search for rows. Candidates that are decided together are reported
/// together, which leaves the observer as reports of each of them would.
pub trait RowObserver {
    /// The observer after one candidate, if this many rows are still to come after the candidate's row.
    ghost after_candidate: { ℕ → Self → Self };

    /// The observer after one row of the query.
    ghost after_row: { Self → Self };

    /// Reports that this many candidates are looked at, all of one row of the outer table, or of the only one. After
    /// that row, `left` rows are still to come.
    fn looked(&mut self, candidates: usize, left: usize)
        ensures together { self.new ≡ iterate (after_candidate left) candidates self.old };

    /// Reports that this many candidates pass all conditions, so that they are rows of the query.
    fn found(&mut self, rows: usize)
        ensures together { self.new ≡ iterate after_row rows self.old };
}

/// An observer that does nothing.
#[derive(Clone, Copy, Debug, Default)]
pub struct Unobserved;

impl RowObserver for Unobserved {
    ghost after_candidate = { λ left observer. observer };

    ghost after_row = { λ observer. observer };

    fn looked(&mut self, candidates: usize, left: usize) {
        let _ = (candidates, left);
    }

    fn found(&mut self, rows: usize) {
        let _ = rows;
    }
}

/// An observer that counts, up to the greatest number in 64 bits.
#[derive(Clone, Copy, Debug, Default)]
pub struct RowCount {
    /// The number of candidates that were looked at.
    pub candidates: u64,
    /// The number of rows of the outer table, or of the only one, that were still to come after that of the first candidate.
    pub first_left: usize,
    /// The number of these rows that were still to come after that of the last candidate.
    pub last_left: usize,
    /// The number of rows of the query that were found.
    pub rows: u64,
}

impl RowCount {
    ghost use Rattle.std.specs.Prelude.{◌==◌, if◌then◌else◌};

    /// The number of rows that are still to come after that of the first candidate: this number, if no candidate came before.
    fn first_or(&self, left: usize) -> usize
        ensures { result ≡ (if self.now.candidates == 0 then left else self.now.first_left) }
    {
        if self.candidates == 0 {
            left
        } else {
            self.first_left
        }
    }
}

impl RowObserver for RowCount {
    ghost use Rattle.streams.specs.RowCounts.{after_candidate, after_row};

    ghost after_candidate = { after_candidate };

    ghost after_row = { after_row };

    fn looked(&mut self, candidates: usize, left: usize) {
        if candidates == 0 {
            return;
        }
        self.first_left = self.first_or(left);
        self.candidates = self.candidates.saturating_add(candidates as u64);
        self.last_left = left;
    }

    fn found(&mut self, rows: usize) {
        self.rows = self.rows.saturating_add(rows as u64);
    }
}
