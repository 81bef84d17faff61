//! Whether a geometry in well-known text is valid, and where it isn't.

ghost use Rattle.std.specs.Prelude.{◌≡◌, Err, IfErr, IfOk, IfSome};
ghost use Rattle.wkt.specs.TextFaults.{text_fault};
ghost use Rattle.geometry_model.specs.TextReading.{read_text};
ghost use Rattle.witnesses.specs.Verdicts.{IsFirstFaultIn, IsVerdictOf};

use crate::{Place, place_of};
use geometry_model::ValidityFault;
use std::alloc::Global;
use validity::check;
use wkt::{WktFault, read};

/// Whether a geometry is valid, and where it isn't (06-103r4, 6.1.7, 6.1.11.1 and 6.1.14).
#[derive(Clone, Copy, Debug)]
pub enum Verdict {
    /// No fault applies to it.
    Valid,
    /// It isn't valid.
    Faulty {
        /// Its first fault; the order is this project's.
        fault: ValidityFault,
        /// Where it has that fault, and what is wrong there; which of many places: this project's choice.
        place: Place,
    },
}

/// Whether the geometry that a text spells is valid, and if not, its first fault and a place of it. Err is the first fault of a
/// text that spells no geometry. `OutOfMemory` may come in place of any result (06-103r4, 7.2, 6.1.7, 6.1.11.1 and 6.1.14; the
/// order of faults and which place: this project's choice).
pub fn verdict_of(alloc: Global, text: &[u8]) -> Result<Verdict, WktFault>
    ensures verdict { IfOk result (IsVerdictOf text.now) }
    ensures fault { IfErr result (λ e. IfSome (text_fault e) (λ fault. read_text text.now ≡ Err fault)) }
{
    let geometry = read(alloc, text)?;
    match check(alloc, geometry) {
        Ok(_) => Ok(Verdict::Valid),
        Err(fault) => match fault.validity_fault() {
            Some(fault) => faulty(alloc, text, fault),
            None => Err(WktFault::OutOfMemory),
        },
    }
}

/// The first fault of the geometry that a text spells, with a place of it. The text is read again, because the check
/// consumes the geometry.
fn faulty(alloc: Global, text: &[u8], fault: ValidityFault) -> Result<Verdict, WktFault>
    requires { IsFirstFaultIn text.now fault }
    ensures verdict { IfOk result (IsVerdictOf text.now) }
    ensures fault { IfErr result (λ e. IfSome (text_fault e) (λ fault. read_text text.now ≡ Err fault)) }
{
    let geometry = read(alloc, text)?;
    match place_of(&geometry, fault) {
        Some(place) => Ok(Verdict::Faulty { fault, place }),
        None => unreachable!("the geometry has the fault"),
    }
}
