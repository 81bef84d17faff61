//! The law that inside and outside of rings don't change along a stretch that misses them.

ghost use Rattle.geometry_laws.specs.RingLaws.{ParityIsKept};

/// Two points joined by a straight stretch that misses all edges of closed rings are both inside the rings or both outside. The
/// stretch may be vertical (06-103r4, 6.1.11.1).
pub fn parity_is_kept()
    ensures { ParityIsKept }
{}
