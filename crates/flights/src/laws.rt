//! What follows from steps that aren't refused.

ghost use Rattle.flights.specs.Promises.{WhatIsToldStays};

/// Once fast recovery began, and until a timeout, a segment that is sent again has no position that the peer's blocks
/// reported (RFC 2018, 5 and 8).
pub fn what_is_told_stays()
    ensures { WhatIsToldStays }
{}
