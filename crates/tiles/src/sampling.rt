//! A sample of the least corners of the geometries in a column.

ghost use Rattle.std.specs.Prelude.{◌≡◌, ◌⊎◌, ◌<◌, ◌≤◌, ◌*◌, ◌^◌, ◌∷◌, ◌++◌, [], List, OnOk, length};
ghost use Rattle.geometry_model.specs.Points.{Position};
ghost use Rattle.fraction.specs.Ranges.{IsOnGrid};
ghost use Rattle.std.specs.List.{All};
ghost use Rattle.tiles.specs.Samples.{IsFirstOfEach, IsSampleOf, Samples, corner_in_row};

use crate::watching::RowWatcher;
use feature_table::Geometry;
use fraction::GridPoint;
use rtree::Envelope;
use sqlite_items::{self as items};
use std::alloc::{AllocError, Global};
use table_model::values::Value;

/// The greatest number of corners that are kept.
const SAMPLE_LIMIT: usize = 16_384;

/// The number of times that a stride of one can be doubled.
const MOST_DOUBLINGS: u32 = 63;

/// Keeps the least corners of the envelopes in a column, evenly over the rows: the first of every `stride` rows with an envelope.
#[derive(Drop)]
pub struct Sampler {
    column: usize,
    // One of this many rows is kept.
    stride: usize,
    // The number of rows with an envelope that are skipped before the next one that is kept.
    since: usize,
    corners: Vec<GridPoint>,
}

impl Sampler {
    /// Makes a sampler of this column that has seen nothing.
    pub fn new(alloc: Global, column: usize) -> Sampler
        ensures column { result.column ≡ column }
        ensures sample { IsSampleOf [] result }
    {
        Sampler {
            column,
            stride: 1,
            since: 0,
            corners: Vec::new(alloc),
        }
    }

    /// One of this many rows with an envelope is kept: a power of two.
    pub fn stride(&self) -> usize
        ensures { result ≡ self.now.stride }
    {
        self.stride
    }

    /// Removes corners until one of at least `stride` rows is kept, or of 2^63. It is for a sampler that has seen all of its rows.
    pub fn thin_to(&mut self, stride: usize)
        ensures column { self.new.column ≡ self.old.column }
        ensures since { self.new.since ≡ self.old.since }
        ensures sample { (all : List Position) → Samples all self.old → Samples all self.new }
        ensures reach { 1 ≤ self.old.stride → (stride ≤ self.new.stride) ⊎ (2 ^ 63 ≤ self.new.stride) }
        ensures least { (self.new.stride ≡ self.old.stride) ⊎ (self.new.stride < 2 * stride) }
    {
        for turn in 0..MOST_DOUBLINGS {
            if self.stride >= stride {
                return;
            }
            self.thin();
        }
    }

    /// Lends the corners that were kept.
    pub fn corners(&self) -> &[GridPoint]
        ensures { result.now ≡ self.now.corners.items }
    {
        self.corners.as_slice()
    }

    /// Keeps a corner, or skips it.
    fn take(&mut self, corner: GridPoint) -> Result<(), AllocError>
        ensures column { self.new.column ≡ self.old.column }
        ensures sample { (all : List Position) → IsSampleOf all self.old → OnOk result (IsSampleOf (all ++ corner ∷ []) self.new) }
    {
        if self.since > 0 {
            self.since -= 1;
            return Ok(());
        }
        if self.corners.len() >= SAMPLE_LIMIT {
            self.thin();
        }
        self.corners.push(corner)?;
        self.since = self.stride.saturating_sub(1);
        Ok(())
    }

    /// Removes every second corner, unless the stride can't be doubled.
    fn thin(&mut self)
        ensures column { self.new.column ≡ self.old.column }
        ensures since { self.new.since ≡ self.old.since }
        ensures doubled { (2 ^ 63 ≤ self.old.stride) ⊎ (self.new.stride ≡ 2 * self.old.stride) }
        ensures halved { (2 ^ 63 ≤ self.old.stride) ⊎ IsFirstOfEach 2 self.old.corners.items self.new.corners.items }
        ensures same { 2 ^ 63 ≤ self.old.stride → self.new ≡ self.old }
    {
        let Some(stride) = self.stride.checked_mul(2) else {
            return;
        };
        let kept = self.corners.len().div_ceil(2);
        for place in 0..kept {
            self.corners[place] = self.corners[2 * place];
        }
        self.corners.truncate(kept);
        self.stride = stride;
    }
}

impl RowWatcher for Sampler {
    fn saw(&mut self, row: &[Value<Geometry>]) -> Result<(), AllocError>
        ensures column { self.new.column ≡ self.old.column }
        ensures sample { (all : List Position) → All IsOnGrid (corner_in_row self.old.column row.now) → IsSampleOf all self.old
            → OnOk result (IsSampleOf (all ++ corner_in_row self.old.column row.now) self.new) }
    {
        let Some(Value::Geometry(geometry)) = items::at(row, self.column) else {
            return Ok(());
        };
        let Some(envelope) = Envelope::of(geometry) else {
            return Ok(());
        };
        match GridPoint::new(envelope.least_x(), envelope.least_y()) {
            Some(corner) => self.take(corner),
            None => Ok(()),
        }
    }
}
