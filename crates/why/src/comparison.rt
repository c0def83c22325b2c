//! What the rule compares, by what the step is about.

use crate::scene::{Building, Expiring, Object, Processing, Scene};
use crate::{
    arrivals, builds, calls, inbox, late, limits, numbers, order, reported, resets, timers,
    timestamps, wire,
};
use case_forms::{Answer, Recovery, TakeChoice, Wire};
use endpoint_state::Endpoint;
use plain_words::Sheet;
use spec_tcp::{Arrived, Emission};
use verdict::Rule;

/// Writes what the rule compares. Each rule is named, so that a new one can't be forgotten here.
pub(crate) fn compare(out: &mut Sheet, scene: &Scene, rule: Rule) {
    match rule {
        Rule::LineRange => order::line_range(out, scene),
        Rule::LineAgain => order::line_again(out, scene),
        Rule::ThreadOrder => order::thread_order(out, scene),
        Rule::MomentFalls => order::moment_falls(out, scene),
        Rule::MomentOff => order::moment_off(out, scene),
        Rule::Overdue => order::overdue(out, scene),
        Rule::Unplaced => order::unplaced(out, scene),
        Rule::Dropped => limits::dropped(out, scene),
        Rule::AckExcess => limits::ack_excess(out, scene),
        Rule::SampleDue => limits::sample_due(out, scene),
        Rule::ProcessLate => late::waiting(out, scene),
        Rule::AnswerLate => late::answer(out, scene),
        Rule::SendLate => {
            late::never_sent(out, scene);
            compare_at(out, scene, rule);
        }
        Rule::AckLate
        | Rule::ExpiryLate
        | Rule::ResendLate
        | Rule::ProbeLate
        | Rule::StartLate
        | Rule::ResetLate => late::owed(out, scene),
        Rule::NoEndpoint | Rule::State => {
            compare_at(out, scene, rule);
            resets::say_reset(out, scene);
        }
        Rule::Socket
        | Rule::CallAnswer
        | Rule::Iss
        | Rule::BytesDiffer
        | Rule::NotMade
        | Rule::PayloadRange
        | Rule::AckField
        | Rule::OldData
        | Rule::Offered
        | Rule::Congestion
        | Rule::Size
        | Rule::CopyDiffers
        | Rule::Lifetime
        | Rule::NotPeer
        | Rule::Number
        | Rule::Unacceptable
        | Rule::AckRange
        | Rule::QueueFull
        | Rule::Growth
        | Rule::Sample
        | Rule::ScaleUnread
        | Rule::TimerOff
        | Rule::TimerEarly
        | Rule::Recovery
        | Rule::Discarded
        | Rule::SackUntrue
        | Rule::Echo
        | Rule::ClockFalls
        | Rule::Resent
        | Rule::ResentBeyond => compare_at(out, scene, rule),
        // What the step is about says it all.
        Rule::ThreadBusy
        | Rule::NoCall
        | Rule::DoneTwice
        | Rule::AnswerDiffers
        | Rule::NoEmission
        | Rule::Inbox => {}
    }
}

// What a rule compares that several kinds of steps may break, or that needs what the step is about.
fn compare_at(out: &mut Sheet, scene: &Scene, rule: Rule) {
    match scene.object() {
        Object::Effect(thread, answer) => of_effect(out, scene, rule, thread, answer),
        Object::Building(it) => of_building(out, scene, rule, it),
        Object::Sent(made, number, wire) => of_sent(out, scene, rule, made, number, wire),
        Object::Came(m, wire) => of_came(out, scene, rule, m, wire),
        Object::Processing(it) => of_processing(out, scene, rule, it),
        Object::Listening(_, _, choice) => of_listening(out, rule, choice),
        Object::Answered(host, m) if rule == Rule::State => {
            inbox::unanswerable(out, scene, host, m);
        }
        Object::Expiring(it) => of_expiring(out, scene, rule, it),
        Object::Recovering(endpoint, it) => of_recovering(out, scene, rule, endpoint, it),
        Object::End(..) | Object::Answered(..) | Object::Other => {}
    }
}

fn of_effect(out: &mut Sheet, scene: &Scene, rule: Rule, thread: u32, answer: &Answer) {
    match (rule, answer) {
        (Rule::Socket, Answer::Given(number)) => calls::socket(out, scene, *number),
        (Rule::CallAnswer, _) => calls::call_answer(out, scene, thread, answer),
        _ => {}
    }
}

fn of_building(out: &mut Sheet, scene: &Scene, rule: Rule, it: Building) {
    match rule {
        Rule::NoEndpoint | Rule::State => builds::state(out, scene.world, it),
        Rule::Iss => builds::iss(out, it),
        Rule::PayloadRange => builds::payload_range(out, it),
        Rule::AckField => builds::ack_field(out, it),
        Rule::OldData => builds::old_data(out, scene, it),
        Rule::Offered => builds::offered(out, it),
        Rule::Congestion => builds::congestion(out, "new bytes", it),
        Rule::ResentBeyond => builds::congestion(out, "outstanding bytes", it),
        Rule::Size => builds::size(out, it),
        Rule::Resent => limits::resent(out, scene, it),
        _ => {}
    }
}

fn of_sent(out: &mut Sheet, scene: &Scene, rule: Rule, made: &Emission, number: u32, wire: &Wire) {
    match rule {
        Rule::BytesDiffer => wire::differs(out, scene.header().version, made, wire),
        Rule::NotMade => wire::sent_before(out, scene, number),
        Rule::SendLate => late::built(out, scene, number),
        Rule::SackUntrue => reported::untrue(out, scene, made, wire),
        Rule::Echo => timestamps::echo(out, scene, made, number, wire),
        Rule::ClockFalls => timestamps::clock(out, scene, made, number, wire),
        _ => {}
    }
}

fn of_came(out: &mut Sheet, scene: &Scene, rule: Rule, m: &Emission, wire: &Wire) {
    match rule {
        Rule::CopyDiffers => wire::copy_differs(out, scene.header().version, m, wire),
        Rule::Lifetime => wire::lifetime(out, scene, m),
        _ => {}
    }
}

fn of_processing(out: &mut Sheet, scene: &Scene, rule: Rule, it: Processing) {
    match rule {
        Rule::State => out.put("in SYN-SENT only a segment with SYN or RST is processed\n"),
        Rule::QueueFull => arrivals::queue_full(out, scene, it),
        _ => match scene.as_read(it.endpoint, it.m) {
            Some(m) => of_read(out, scene, rule, it, &m),
            None => {}
        },
    }
}

// The segment is given as its endpoint reads it.
fn of_read(out: &mut Sheet, scene: &Scene, rule: Rule, it: Processing, m: &Arrived) {
    match rule {
        Rule::NotPeer => arrivals::not_peer(out, scene, it, m),
        Rule::Number => numbers::misread(out, scene, it.endpoint, m),
        Rule::Unacceptable => numbers::unacceptable(out, it.endpoint, m),
        Rule::AckRange => numbers::ack_range(out, it.endpoint, m),
        Rule::Growth => arrivals::growth(out, it, m, scene.moment()),
        Rule::Sample => arrivals::sample(out, scene.header().version, it.endpoint, m),
        Rule::ScaleUnread => arrivals::scale_unread(out, it.endpoint, m),
        Rule::Discarded => limits::discarded(out, it.endpoint, m),
        _ => {}
    }
}

fn of_listening(out: &mut Sheet, rule: Rule, choice: TakeChoice) {
    match rule {
        Rule::State => out.put(
            "a listener processes only a segment with SYN, without ACK and RST\n",
        ),
        Rule::Growth => {
            let cwnd = choice.cwnd;
            out.say(
                "the step chooses cwnd {}, a child begins with 0\n",
                &[u64::from(cwnd)],
            );
        }
        Rule::Sample => out.put(
            "the step measures a round trip, but a child has sent nothing that could be acknowledged\n",
        ),
        _ => {}
    }
}

fn of_expiring(out: &mut Sheet, scene: &Scene, rule: Rule, it: Expiring) {
    match rule {
        Rule::NoEndpoint => out.put("the endpoint is CLOSED, and has no timers\n"),
        Rule::Growth => timers::growth(out, scene, it),
        Rule::TimerOff => timers::off(out, scene, it),
        Rule::TimerEarly => timers::early(out, scene, it),
        _ => {}
    }
}

fn of_recovering(out: &mut Sheet, scene: &Scene, rule: Rule, endpoint: &Endpoint, it: Recovery) {
    match rule {
        Rule::NoEndpoint => out.put("the endpoint is CLOSED\n"),
        Rule::State => timers::handshake(out, endpoint),
        Rule::Recovery => timers::recovery(out, scene, endpoint, it),
        _ => {}
    }
}
