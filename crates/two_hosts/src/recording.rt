//! The whole recording.

ghost use Rattle.std.specs.Prelude.{◌≡◌, false, IfOk};
ghost use Rattle.case_forms.specs.Versions.{is_half, says_sender};
ghost use Rattle.case_forms.specs.declared.calls.Host.TheVariants.{Zero, One};
ghost use Rattle.witness.specs.Printable.{TellShifts};
ghost use Rattle.checker.specs.Explains.{Explains};
ghost use Rattle.two_hosts.specs.Ends.{has_ended};
ghost use Rattle.two_hosts.specs.Plans.{AreBooks, header_of};

use crate::ends::has_ended;
use crate::fault::RecordFault;
use crate::plan::{
    CLIENT_ISS, CLIENT_THREAD, Plan, SERVER_ISS, SERVER_THREAD, config_of, header_of,
};
use crate::threads::{Place, TURNS, Way, run_threads};
use crate::wire::{Talk, Wire};
use case_forms::{Header, Host, Version};
use recorder::{Cause, HostBook, Receipt, Recorded, Recorder, Seat, Site, WireFate, merge};
use std::alloc::Global;
use std::marker::Brand;
use std::sync::Wait;
use std::sync::ledger::Blank;
use std::thread::Threads;

/// What was recorded.
#[derive(Drop)]
pub struct Recording {
    pub recorded: Recorded,
    /// Whether the trace shows that host 1 received the bytes of all rounds, and that both applications ended as
    /// planned.
    pub ended: bool,
    /// The receipts of host 0's thread, and after them those of host 1's.
    pub receipts: Vec<Receipt>,
}

/// What both hosts recorded, before it is merged.
#[derive(Drop)]
pub struct Books {
    pub zero: HostBook,
    pub one: HostBook,
    /// Whether all rounds ended, and both applications ended as planned.
    pub ended: bool,
    /// The receipts of host 0's thread, and after them those of host 1's.
    pub receipts: Vec<Receipt>,
}

// The book of a recorder that gave one seat.
fn finish<L: Site, R: Wait>(
    rt: &R,
    alloc: Global,
    recorder: Recorder<L>,
    seat: Seat<L>,
) -> Result<HostBook, RecordFault>
    requires { L.parts ≡ 65535 }
    ensures site { IfOk result (λ b. (b.core.recorded.me ≡ L.host) × (b.core.recorded.header ≡ L.header)) }
{
    let mut seats = Vec::new(alloc);
    seats.reserve(1)?;
    seats.push_reserved(seat);
    match recorder.finish(rt, seats) {
        Ok(book) => Ok(book),
        Err(unfinished) => match unfinished.cause {
            Cause::SeatMissing => Err(RecordFault::Device),
            Cause::OutOfMemory => Err(RecordFault::OutOfMemory),
        },
    }
}

// The applications at the end.
#[derive(Drop)]
struct Talked<L: Site, M: Site> {
    zero: Seat<L>,
    one: Seat<M>,
    receipts: Vec<Receipt>,
    ended: bool,
}

// Lets both applications talk, each at its recorder.
fn let_talk<
    L: Site + Send + Sync,
    M: Site + Send + Sync,
    F: WireFate + Send + Drop,
    G: WireFate + Send + Drop,
    R: Threads + Wait + Sync,
>(
    rt: &R,
    alloc: Global,
    zero: &Recorder<L>,
    one: &Recorder<M>,
    talk: Talk<F, G>,
) -> Result<Talked<L, M>, RecordFault>
    requires hosts { (L.host ≡ Zero) × (M.host ≡ One) }
{
    let Talk {
        rounds,
        there,
        back,
    } = talk;
    let there = Way::new(alloc, there)?;
    let back = Way::new(alloc, back)?;
    let client = Place {
        recorder: zero,
        seat: zero.seat(rt, CLIENT_THREAD)?,
    };
    let server = Place {
        recorder: one,
        seat: one.seat(rt, SERVER_THREAD)?,
    };
    let (asked, served) = run_threads(rt, alloc, rounds, client, server, there, back)?;
    let ended = asked.whole && served.whole;
    let (mut receipts, mut others) = (asked.receipts, served.receipts);
    receipts.append(&mut others)?;
    Ok(Talked {
        zero: asked.seat,
        one: served.seat,
        receipts,
        ended,
    })
}

// The book of host 0, and that of a recorder that gave one seat. What isn't passed on is dropped by a call, so that the
// proof meets it once, and not at the end of each scope.
fn finish_one<M: Site, R: Wait>(
    rt: &R,
    alloc: Global,
    zero: HostBook,
    one: Recorder<M>,
    seat: Seat<M>,
) -> Result<(HostBook, HostBook), RecordFault>
    requires { M.parts ≡ 65535 }
    ensures zero { IfOk result (λ b. b.0 ≡ zero) }
    ensures one { IfOk result (λ b. (b.1.core.recorded.me ≡ M.host) × (b.1.core.recorded.header ≡ M.header)) }
{
    match finish(rt, alloc, one, seat) {
        Ok(one) => Ok((zero, one)),
        Err(fault) => {
            drop(zero);
            Err(fault)
        }
    }
}

// The books of both recorders, of which each gave one seat.
fn finish_both<L: Site, M: Site, R: Wait>(
    rt: &R,
    alloc: Global,
    zero: Recorder<L>,
    one: Recorder<M>,
    asker: Seat<L>,
    server: Seat<M>,
) -> Result<(HostBook, HostBook), RecordFault>
    requires parts { (L.parts ≡ 65535) × (M.parts ≡ 65535) }
    ensures zero { IfOk result (λ b. (b.0.core.recorded.me ≡ L.host) × (b.0.core.recorded.header ≡ L.header)) }
    ensures one { IfOk result (λ b. (b.1.core.recorded.me ≡ M.host) × (b.1.core.recorded.header ≡ M.header)) }
{
    match finish(rt, alloc, zero, asker) {
        Ok(zero) => finish_one(rt, alloc, zero, one, server),
        Err(fault) => {
            drop(one);
            drop(server);
            Err(fault)
        }
    }
}

// The books of both recorders, once both applications ended.
fn end_talk<L: Site, M: Site, R: Wait>(
    rt: &R,
    alloc: Global,
    zero: Recorder<L>,
    one: Recorder<M>,
    talked: Talked<L, M>,
) -> Result<Books, RecordFault>
    requires parts { (L.parts ≡ 65535) × (M.parts ≡ 65535) }
    requires hosts { (L.host ≡ Zero) × (M.host ≡ One) }
    requires headers { L.header ≡ M.header }
    ensures { IfOk result (λ b. AreBooks b.zero b.one L.header) }
{
    let Talked {
        zero: asker,
        one: server,
        receipts,
        ended,
    } = talked;
    match finish_both(rt, alloc, zero, one, asker, server) {
        Ok((zero, one)) => Ok(Books {
            zero,
            one,
            ended,
            receipts,
        }),
        Err(fault) => {
            drop(receipts);
            Err(fault)
        }
    }
}

// What two new recorders, each of one host, record of the connection.
fn record_with<
    L: Site + Send + Sync,
    M: Site + Send + Sync,
    F: WireFate + Send + Drop,
    G: WireFate + Send + Drop,
    R: Threads + Wait + Sync,
>(
    rt: &R,
    alloc: Global,
    header: Header,
    first: Blank,
    second: Blank,
    talk: Talk<F, G>,
) -> Result<Books, RecordFault>
    requires names { (first.name ≡ L.name) × (second.name ≡ M.name) }
    requires blanks { (first.parts ≡ L.parts) × (second.parts ≡ M.parts) }
    requires parts { (L.parts ≡ 65535) × (M.parts ≡ 65535) }
    requires hosts { (L.host ≡ Zero) × (M.host ≡ One) }
    requires headers { (L.header ≡ header) × (M.header ≡ header) }
    ensures { IfOk result (λ b. AreBooks b.zero b.one header) }
{
    let client = config_of(CLIENT_ISS);
    let server = config_of(SERVER_ISS);
    let zero: Recorder<L> = Recorder::new(alloc, Host::Zero, header, client, first);
    let one: Recorder<M> = Recorder::new(alloc, Host::One, header, server, second);
    match let_talk(rt, alloc, &zero, &one, talk) {
        Ok(talked) => end_talk(rt, alloc, zero, one, talked),
        Err(fault) => {
            drop(zero);
            drop(one);
            Err(fault)
        }
    }
}

/// What both hosts record if they talk like this.
pub fn record_books<F: WireFate + Send + Drop, G: WireFate + Send + Drop, R: Threads + Wait + Sync>(
    rt: &R,
    alloc: Global,
    version: Version,
    talk: Talk<F, G>,
) -> Result<Books, RecordFault>
    ensures { IfOk result (λ b. AreBooks b.zero b.one (header_of version)) }
{
    let (first, second) = (Blank::new(65_535), Blank::new(65_535));
    record_with::<Brand, Brand, F, G, R>(rt, alloc, header_of(version), first, second, talk)
}

/// Records the connection as it is planned, in a version from 1 to 5: later ones judge probes for a loss, too.
pub fn record<R: Threads + Wait + Sync>(
    rt: &R,
    alloc: Global,
    plan: Plan,
) -> Result<Recording, RecordFault>
    requires whole { is_half plan.version ≡ false }
    requires judged { says_sender plan.version ≡ false }
    ensures header { IfOk result (λ r. r.recorded.trace.header ≡ header_of plan.version) }
    ensures version { IfOk result (λ r. r.recorded.witness.version ≡ plan.version) }
    ensures shifts { IfOk result (λ r. TellShifts r.recorded.witness.version r.recorded.witness.steps) }
    ensures explains { IfOk result (λ r. Explains r.recorded.trace r.recorded.witness) }
    ensures ended { IfOk result (λ r. r.ended ≡ has_ended plan.rounds r.recorded.trace.lines) }
{
    let wire = Wire::losing(plan.lose, TURNS);
    let talk = Talk {
        rounds: plan.rounds,
        there: wire,
        back: wire,
    };
    let books = record_books(rt, alloc, plan.version, talk)?;
    let recorded = merge(alloc, books.zero, books.one)?;
    let ended = has_ended(recorded.trace.lines.as_slice(), plan.rounds);
    Ok(Recording {
        recorded,
        ended,
        receipts: books.receipts,
    })
}
