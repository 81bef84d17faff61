//! The law of envelopes that meet.

ghost use Rattle.library_calls.specs.Indexes.{OverlapIsShared};

/// Two envelopes overlap exactly if a position is in both, sides included (06-103r4, 6.1.2.2: Envelope).
pub fn overlap_is_shared()
    ensures { OverlapIsShared }
{}
