//! Laws about positions and their numbers.

ghost use Rattle.seqno.specs.Near.{FindsReading};
ghost use Rattle.seqno.specs.Numbers.{ReadsBack, NearbyDiffer};

/// The number of a position reads back as that position near it, and as no other.
pub fn numbers_read_back()
    ensures { ReadsBack }
{}

/// Two positions less than 2^31 apart that have the same number are equal.
pub fn nearby_positions_differ()
    ensures { NearbyDiffer }
{}

/// A number below 2^32 reads as the position computed from how far it is ahead.
pub fn numbers_are_found_near()
    ensures { FindsReading }
{}
