//! What follows from the definitions, for callers that prove more: each law is the contract of a call that does
//! nothing.

ghost use Rattle.streams.specs.Forgetting.{ForgettingMakings, ForgettingStreams};
ghost use Rattle.streams.specs.Pieces.{SegmentsEndOnce};
ghost use Rattle.streams.specs.InOrder.{StartsArePrefixes, StreamsInOrder};

/// No operation of an endpoint on its streams reads discarded bytes.
pub fn forgetting_streams()
    ensures { ForgettingStreams }
{}

/// No query of transmissions reads discarded ones.
pub fn forgetting_transmissions()
    ensures { ForgettingMakings }
{}

/// If segments carry what their sender sends, reads return it in order, and the end once all of it arrived.
pub fn streams_in_order()
    ensures { StreamsInOrder }
{}

/// If a list of bytes begins with others, those are a prefix of it.
pub fn starts_are_prefixes()
    ensures { StartsArePrefixes }
{}

/// If each segment has a number of its own, no two outstanding positions are the last one of one segment.
pub fn segments_end_once()
    ensures { SegmentsEndOnce }
{}
