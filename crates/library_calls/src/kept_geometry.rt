//! A valid geometry that a caller in C keeps, and where a call writes one.

ghost use Rattle.std.specs.Prelude.{◌≡◌, Option, Some};
ghost use Rattle.std.specs.Coded.{coded_option};
ghost use Rattle.geometry_model.specs.Geometries.{Geometry};
ghost use Rattle.validity.specs.contracts.valid_geometry.Valid.{the_row as valid_row};
ghost use Rattle.library_calls.specs.Keeping.{held_owns, slot_owns};

use crate::parts::Parts;
use std::alloc::Global;
use std::marker::Model;
use validity::Valid;

/// A valid geometry behind one pointer. C holds that pointer. It passes the geometry to one call at a time, which
/// returns it, and at the end to the call that frees it. Contracts see which geometry it is.
#[repr(C)]
pub struct KeptGeometry {
    at: *mut u8,
    alloc: Global,
    pub ghost geometry: { Geometry } by { valid_row.coded },
}

impl Model for KeptGeometry {
    ghost also_owns = { λ k. held_owns valid_row k.alloc k.at k.geometry };
}

impl KeptGeometry {
    /// Keeps the geometry in a box.
    pub fn of(whole: Box<Valid>) -> KeptGeometry
        ensures { result.geometry ≡ whole.value }
    {
        KeptGeometry::of_parts(Parts::of(whole))
    }

    /// The box with the geometry.
    pub fn into_box(self) -> Box<Valid>
        ensures { result.value ≡ self.geometry }
    {
        self.into_parts().into_box()
    }

    fn of_parts(parts: Parts<Valid, Global>) -> KeptGeometry
        ensures { result.geometry ≡ parts.value }
    {
        let Parts { at, alloc } = parts;
        KeptGeometry {
            at: at as *mut u8,
            alloc,
        }
    }

    fn into_parts(self) -> Parts<Valid, Global>
        ensures { result.value ≡ self.geometry }
    {
        let KeptGeometry { at, alloc } = self;
        Parts {
            at: at as *mut Valid,
            alloc,
        }
    }
}

impl Drop for KeptGeometry {
    fn drop(self) {
        drop(self.into_box());
    }
}

unsafe impl Send for KeptGeometry {}

/// A kept geometry, or none. It has the form of a [`KeptGeometry`]: C takes the pointer out of it if a call has written one
/// there. A slot that is overwritten forgets what it had, so C passes only empty ones.
#[derive(Drop)]
#[repr(C)]
pub struct Slot {
    at: *mut u8,
    alloc: Global,
    pub ghost geometry: { Option Geometry } by { coded_option valid_row.coded },
}

impl Model for Slot {
    ghost also_owns = { λ s. slot_owns valid_row s.alloc s.at s.geometry };
}

impl Slot {
    /// A slot with this geometry.
    pub fn of(kept: KeptGeometry) -> Slot
        ensures { result.geometry ≡ Some kept.geometry }
    {
        Slot::of_parts(kept.into_parts())
    }

    fn of_parts(parts: Parts<Valid, Global>) -> Slot
        ensures { result.geometry ≡ Some parts.value }
    {
        let Parts { at, alloc } = parts;
        Slot {
            at: at as *mut u8,
            alloc,
        }
    }
}
