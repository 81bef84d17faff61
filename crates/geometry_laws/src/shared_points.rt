//! Laws of the points that two edges share.

ghost use Rattle.geometry_laws.specs.SharedPointLaws.{SharedPointIsDecided, OtherPointIsDecided};

/// Two edges share a point exactly if an end of one is on the other, or if they cross.
pub fn shared_point_is_decided()
    ensures { SharedPointIsDecided }
{}

/// Two edges with a common end share another point exactly if an end other than the common one is on both.
pub fn other_point_is_decided()
    ensures { OtherPointIsDecided }
{}
