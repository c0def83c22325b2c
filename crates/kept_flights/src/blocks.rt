//! What a run whose steps aren't refused says of the blocks of selective acknowledgments.

ghost use Rattle.std.specs.Prelude.{◌≡◌, List, false, true};
ghost use Rattle.case_forms.specs.Versions.{is_half, says_sender};
ghost use Rattle.case_forms.specs.declared.steps.Witness.{Witness};
ghost use Rattle.case_forms.specs.declared.trace.Header.{Header};
ghost use Rattle.case_forms.specs.declared.trace.Trace.{Trace};
ghost use Rattle.spec_network.specs.Hosts.{Stamped};
ghost use Rattle.spec_network.specs.HostSteps.{Lawful, start};
ghost use Rattle.spec_tcp.specs.Machine.{tcp, tcp_shape};
ghost use Rattle.spec_cases.specs.Cases.{Dutiful, first_known};
ghost use Rattle.checker.specs.Explains.{Explains};
ghost use Rattle.checker.specs.Seen.{stamped};
ghost use Rattle.kept_flights.specs.Holding.{BlocksAreTrue};
ghost use Rattle.kept_flights.specs.Peers.{ReportsAreTaken};

/// In version 6, an endpoint sends a block only if the SYN that it took permitted blocks, and then a true one: it
/// reports some positions of the peer's stream, and each of them is below RCV.NXT, or was kept by an earlier `T` step
/// of the endpoint (RFC 2018, 2 to 4). This is true at each level and with each slack, of each case that gets a yes.
pub fn blocks_are_true()
    ensures yes { (t : Trace) (w : Witness) → Explains t w → says_sender t.header.version ≡ true
        → BlocksAreTrue t.header (stamped t.header t.lines w.steps) }

    // So is it of each run of the model of which data in flight and duties refuse no step.
    ensures runs { (h : Header) (xs : List (Stamped tcp_shape)) → says_sender h.version ≡ true
        → Lawful (tcp h) (start (tcp h)) xs → Dutiful h (first_known h) xs → BlocksAreTrue h xs }
{}

/// In version 6, if both hosts are recorded, each position that a block reports to an endpoint was received by its peer
/// before: it is below the peer's RCV.NXT, or an earlier `T` step of the peer kept it (RFC 2018, 3). The segment has to
/// acknowledge less than 2^31 positions below the end of all that the endpoint sent, since a number of an older one may
/// read as a later position. This is true at each level and with each slack, of each case that gets a yes.
pub fn reports_are_taken()
    ensures yes { (t : Trace) (w : Witness) → Explains t w → says_sender t.header.version ≡ true
        → is_half t.header.version ≡ false → ReportsAreTaken t.header (stamped t.header t.lines w.steps) }

    // So is it of each run of the model of which data in flight and duties refuse no step.
    ensures runs { (h : Header) (xs : List (Stamped tcp_shape)) → says_sender h.version ≡ true
        → is_half h.version ≡ false → Lawful (tcp h) (start (tcp h)) xs → Dutiful h (first_known h) xs
        → ReportsAreTaken h xs }
{}
