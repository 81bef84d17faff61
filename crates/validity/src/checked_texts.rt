//! Valid geometries from text.

ghost use Rattle.std.specs.Prelude.{◌≡◌, IfOk};
ghost use Rattle.geometry_model.specs.CheckedTexts.{geometry_in_text};

use crate::valid_geometry::{Valid, check};
use geometry_model::GeometryFault;
use std::alloc::{AllocError, Global};

/// The valid geometry that bytes spell, or its first fault: of the text, then of the geometry (06-103r4, 7.2 and
/// 6.1; the order: this project's choice). It fails only when memory runs out.
pub fn read_valid(alloc: Global, text: &[u8]) -> Result<Result<Valid, GeometryFault>, AllocError>
    ensures { IfOk result (λ answer. answer ≡ geometry_in_text text.now) }
{
    let geometry = match wkt::read(alloc, text) {
        Ok(geometry) => geometry,
        Err(fault) => {
            return match fault.text_fault() {
                Some(fault) => Ok(Err(GeometryFault::Text(fault))),
                None => Err(AllocError),
            };
        }
    };
    match check(alloc, geometry) {
        Ok(valid) => Ok(Ok(valid)),
        Err(fault) => match fault.validity_fault() {
            Some(fault) => Ok(Err(GeometryFault::Invalid(fault))),
            None => Err(AllocError),
        },
    }
}
