//! A cursor over bytes. Contracts see it as the `State` of the readers in `specs/BinaryReading.antt`, and its methods as steps.

ghost use Rattle.std.specs.Prelude.{◌≡◌, ◌≤◌, ◌+◌, ◌*◌, ◌==◌, length, IfOk, OnOk, Ok, true, false};
ghost use Rattle.geometry_model.specs.WellKnownText.{position_limit, part_limit};
ghost use Rattle.wkb.specs.BinaryReading as spec;
ghost use Rattle.wkb.specs.ReadingSteps.{ReadsAs, HasRoom, Adds};

use crate::binary_fault::Refusal;
use crate::rounding::{Rounding, Tally};
use std::marker::Model;

/// The most positions of a geometry.
pub const POSITION_LIMIT: usize = 10_000;

/// The most rings or lines of a geometry, and its most polygons.
pub const PART_LIMIT: usize = 1_000;

/// The bytes that are left to be read, the place of the first of them, and what was counted so far.
#[derive(Drop)]
pub struct Cursor<'a> {
    left: &'a [u8],
    at: usize,
    kept: usize,
    parts: usize,
    polygons: usize,
    tally: Tally,
}

impl<'a> Model for Cursor<'a> {
    ghost use Rattle.std.specs.Prelude.{◌+◌, ◌<◌, ◌≤◌, ◌*◌, ◌^◌, length};
    ghost use Rattle.geometry_model.specs.WellKnownText.{position_limit, part_limit};
    ghost use Rattle.wkb.specs.BinaryReading.{State};

    ghost Value = { State };

    ghost view = { λ c. record { left = c.left.now; at = c.at; kept = c.kept; parts = c.parts; polygons = c.polygons; tally = c.tally } };

    ghost invariant = { λ c. (c.at + length c.left.now < 2 ^ 64) × (c.kept ≤ position_limit) × (c.parts ≤ part_limit) × (c.polygons ≤ part_limit)
        × (c.tally.positions * 16 ≤ c.at) × (c.tally.moved ≤ c.tally.positions) };
}

impl<'a> Cursor<'a> {
    /// A cursor before the first byte.
    pub fn new(text: &'a [u8]) -> Cursor<'a>
        ensures { result ≡ spec.start text.now }
    {
        let tally = Tally {
            positions: 0,
            moved: 0,
            greatest: 0,
        };
        Cursor {
            left: text,
            at: 0,
            kept: 0,
            parts: 0,
            polygons: 0,
            tally,
        }
    }

    /// The place, in bytes from 0, of the byte that is read next.
    pub fn place(&self) -> usize
        ensures { result ≡ self.now.at }
    {
        self.at
    }

    /// What rounding did so far.
    pub fn rounding(&self) -> Rounding
        ensures { result ≡ spec.rounding_of self.now }
    {
        Rounding {
            positions: self.tally.positions,
            moved: self.tally.moved,
            merged: self.tally.positions.saturating_sub(self.kept),
            greatest: self.tally.greatest,
        }
    }

    /// How many positions were read so far.
    pub fn positions(&self) -> usize
        ensures { result ≡ self.now.tally.positions }
    {
        self.tally.positions
    }

    /// Whether nothing is left.
    pub fn is_at_end(&self) -> bool
        ensures end { result ≡ (length self.now.left == 0) }
        ensures counted { (self.now.kept ≤ position_limit) × (self.now.parts ≤ part_limit) }
    {
        self.left.is_empty()
    }

    /// The place after the last byte.
    fn end(&self) -> usize
        ensures { result ≡ self.now.at + length self.now.left }
    {
        self.at + self.left.len()
    }

    /// Reads a byte; `Syntax` at the end if there is none.
    pub fn byte(&mut self) -> Result<u8, Refusal>
        ensures read { ReadsAs (λ b. b) (spec.byte self.old) result self.new }
        ensures added { OnOk result (Adds self.old 0 0 self.new) }
    {
        if let [first, rest @ ..] = self.left {
            self.left = rest;
            self.at += 1;
            return Ok(*first);
        }
        Err(Refusal::Syntax(self.at))
    }

    /// Reads four bytes as a number; `Syntax` at the end if there are fewer.
    #[tactic(auto, unfolding(crate::specs::BinaryReading::word))]
    pub fn word(&mut self, is_little: bool) -> Result<u32, Refusal>
        ensures read { ReadsAs (λ n. n) (spec.word is_little self.old) result self.new }
        ensures added { OnOk result (Adds self.old 0 0 self.new) }
    {
        match self.left.split_first_chunk::<4>() {
            None => Err(Refusal::Syntax(self.end())),
            Some((bytes, rest)) => {
                let bytes = *bytes;
                self.left = rest;
                self.at += 4;
                Ok(if is_little {
                    u32::from_le_bytes(bytes)
                } else {
                    u32::from_be_bytes(bytes)
                })
            }
        }
    }

    /// Reads eight bytes as the bits of a double; `Syntax` at the end if there are fewer.
    #[tactic(auto, unfolding(crate::specs::BinaryReading::double))]
    pub fn double(&mut self, is_little: bool) -> Result<u64, Refusal>
        ensures read { ReadsAs (λ n. n) (spec.double is_little self.old) result self.new }
        ensures counted { self.old.tally.positions * 16 ≤ self.old.at }
        ensures further { OnOk result ((self.new.at ≡ self.old.at + 8) × (self.new.tally ≡ self.old.tally)) }
        ensures added { OnOk result (Adds self.old 0 0 self.new) }
    {
        match self.left.split_first_chunk::<8>() {
            None => Err(Refusal::Syntax(self.end())),
            Some((bytes, rest)) => {
                let bytes = *bytes;
                self.left = rest;
                self.at += 8;
                Ok(if is_little {
                    u64::from_le_bytes(bytes)
                } else {
                    u64::from_be_bytes(bytes)
                })
            }
        }
    }

    /// Counts a position that is moved by this number of ticks.
    pub fn count(&mut self, by: u128)
        requires { HasRoom self.old }
        ensures read { spec.count by self.old ≡ Ok (true, self.new) }
        ensures added { Adds self.old 0 0 self.new }
    {
        self.tally.positions += 1;
        if by != 0 {
            self.tally.moved += 1;
        }
        self.tally.greatest = self.tally.greatest.max(by);
    }

    /// For how many of `count` positions to reserve memory: no more than the bytes left can hold and than may still be kept.
    pub fn likely(&self, count: u32) -> usize {
        (count as usize)
            .min(self.left.len() / 16)
            .min(POSITION_LIMIT)
    }

    /// Counts a position that is kept; `TooLong` past the limit.
    pub fn keep(&mut self) -> Result<(), Refusal>
        ensures read { ReadsAs (λ _. true) (spec.keep self.old) result self.new }
        ensures added { OnOk result (Adds self.old 1 0 self.new) }
        ensures within { OnOk result (self.new.kept ≤ position_limit) }
    {
        if self.kept == POSITION_LIMIT {
            return Err(Refusal::TooLong);
        }
        self.kept += 1;
        Ok(())
    }

    /// Counts a ring or a line of a MULTILINESTRING; `TooLong` past the limit.
    pub fn take_part(&mut self) -> Result<(), Refusal>
        ensures read { ReadsAs (λ _. true) (spec.take_part self.old) result self.new }
        ensures added { OnOk result (Adds self.old 0 1 self.new) }
    {
        if self.parts == PART_LIMIT {
            return Err(Refusal::TooLong);
        }
        self.parts += 1;
        Ok(())
    }

    /// Counts a polygon of a MULTIPOLYGON; `TooLong` past the limit.
    pub fn take_polygon(&mut self) -> Result<(), Refusal>
        ensures read { ReadsAs (λ _. true) (spec.take_polygon self.old) result self.new }
        ensures added { OnOk result (Adds self.old 0 0 self.new) }
    {
        if self.polygons == PART_LIMIT {
            return Err(Refusal::TooLong);
        }
        self.polygons += 1;
        Ok(())
    }
}
