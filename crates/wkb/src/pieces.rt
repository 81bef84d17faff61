//! What well-known binary has: its doubles, and how many positions, lines and rings there are.

ghost use Rattle.std.specs.Prelude.{◌≡◌, OnOk};
ghost use Rattle.wkb.specs.BinaryPieces as spec;

use crate::pairs::Pair;
use std::alloc::{AllocError, Global};
use std::marker::Model;

/// What well-known binary has. The one element of a geometry whose type is no MULTI type counts as an element too. A point has one
/// line of one position. An empty point or line has no line.
#[derive(Debug, Drop)]
pub struct Pieces {
    /// The positions, as they are.
    positions: Vec<Pair>,
    /// How many positions each line or ring has.
    lines: Vec<usize>,
    /// How many lines or rings each element has.
    elements: Vec<usize>,
}

impl Model for Pieces {
    ghost use Rattle.wkb.specs.BinaryPieces as spec;

    ghost Value = { spec.Pieces };

    ghost view = { λ p. record { positions = p.positions.items; lines = p.lines.items; elements = p.elements.items } };
}

impl Pieces {
    /// Nothing.
    pub fn new(alloc: Global) -> Pieces
        ensures { result ≡ spec.nothing }
    {
        Pieces {
            positions: Vec::new(alloc),
            lines: Vec::new(alloc),
            elements: Vec::new(alloc),
        }
    }

    /// Adds a position.
    pub fn put_position(&mut self, position: Pair) -> Result<(), AllocError>
        ensures { OnOk result (self.new ≡ spec.with_position position self.old) }
    {
        self.positions.push(position)?;
        Ok(())
    }

    /// Adds a line or ring with this number of positions.
    pub fn put_line(&mut self, count: u32) -> Result<(), AllocError>
        ensures { OnOk result (self.new ≡ spec.with_line count self.old) }
    {
        self.lines.push(count as usize)?;
        Ok(())
    }

    /// Adds an element with this number of lines or rings.
    pub fn put_element(&mut self, count: u32) -> Result<(), AllocError>
        ensures { OnOk result (self.new ≡ spec.with_element count self.old) }
    {
        self.elements.push(count as usize)?;
        Ok(())
    }

    /// The positions, as they are.
    pub fn positions(&self) -> &[Pair]
        ensures { result.now ≡ self.now.positions }
    {
        self.positions.as_slice()
    }

    /// How many positions each line or ring has.
    pub fn lines(&self) -> &[usize]
        ensures { result.now ≡ self.now.lines }
    {
        self.lines.as_slice()
    }

    /// How many lines or rings each element has.
    pub fn elements(&self) -> &[usize]
        ensures { result.now ≡ self.now.elements }
    {
        self.elements.as_slice()
    }
}
