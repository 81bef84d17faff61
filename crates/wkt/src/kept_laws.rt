//! The law that every geometry that a text spells is a value of the type `Geometry`: what the type ensures excludes none
//! of them.

ghost use Rattle.wkt.specs.KeptGeometries.{SpelledIsKept};

/// Each geometry that a text spells is a value of the type `Geometry` (06-103r4, 7.2).
pub fn spelled_is_kept()
    ensures { SpelledIsKept }
{}
