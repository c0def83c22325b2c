//! The endpoint that a step touches, whose duties it compares, and what that endpoint knows of losses and timestamps.

use crate::replay::{Replay, has_room, is_small};
use case_forms::{Step, TakenLine};
use endpoint_state::World;
use flights::Standing;
use spec_duties::{Droppable, Observation, TouchedEndpoint};
use spec_step::{Act, Hidden, act_of};
use spec_tcp::EndpointId;
use watched::{observe_hidden, observe_line};

impl Replay<'_> {
    /// The endpoint that a step touches, as it is before the step. None: it touches none, or creates one.
    pub fn touched(&self, step: &Step) -> Option<EndpointId> {
        match act_of(&step.label) {
            Act::Line(named) => {
                let line = self.case().line(named.number)?.copy().ok()?;
                let taken = line.taken(named.extras)?;
                touched_by_line(self.world(), step.moment, &taken)
            }
            Act::Hidden(hidden) => touched_by_other(self.world(), step.moment, &hidden),
        }
    }

    /// In version 6, what the endpoint that a step touches knows of losses, if the step is refused for them. None: it
    /// isn't, or one of the two SYNs didn't permit selective acknowledgments.
    pub fn standing(&self, step: &Step) -> Option<Standing> {
        match act_of(&step.label) {
            Act::Line(_) => None,
            Act::Hidden(hidden) => {
                let touched = seen_by_other(self.world(), step.moment, &hidden)?;
                let header = self.world().header();
                self.watched
                    .flights()
                    .standing(header, step.moment, &touched)
            }
        }
    }
}

impl Replay<'_> {
    /// Whether a step drops a segment that may be dropped because its timestamp is too old, or because it has none. In
    /// versions 1 to 5 none may.
    pub fn is_excused(&self, step: &Step) -> bool {
        match act_of(&step.label) {
            Act::Line(_) => false,
            Act::Hidden(hidden) => is_excused_at(self, step.moment, &hidden),
        }
    }
}

// The same of a step that uses no line.
fn is_excused_at(replay: &Replay<'_>, moment: u64, step: &Hidden<'_>) -> bool {
    let world = replay.world();
    if !world.header().version.says_sender() || !has_room(world) || !is_small(step) {
        return false;
    }
    let seen = observe_hidden(world, moment, step);
    let shown = replay.flights().excused(world.header(), &seen);
    is_droppable(&shown) && !is_droppable(&seen)
}

// Whether a step drops a segment that may be dropped.
fn is_droppable(seen: &Observation) -> bool {
    match seen.dropping {
        Some(dropping) => matches!(dropping.droppable, Droppable::Yes),
        None => false,
    }
}

/// The endpoint that a line touches. None: it touches none.
pub(crate) fn touched_by_line(world: &World, moment: u64, line: &TakenLine) -> Option<EndpointId> {
    if !has_room(world) {
        return None;
    }
    born(world, observe_line(world, moment, line).touched)
}

/// The endpoint that a step touches which uses no line. None: it touches none, or creates one.
pub(crate) fn touched_by_other(
    world: &World,
    moment: u64,
    step: &Hidden<'_>,
) -> Option<EndpointId> {
    born(world, seen_by_other(world, moment, step))
}

// The same, with what the step does. The endpoint may be one that it creates.
fn seen_by_other(world: &World, moment: u64, step: &Hidden<'_>) -> Option<TouchedEndpoint> {
    if !has_room(world) || !is_small(step) {
        return None;
    }
    observe_hidden(world, moment, step).touched
}

// What is touched, if it exists before the step.
fn born(world: &World, touched: Option<TouchedEndpoint>) -> Option<EndpointId> {
    let TouchedEndpoint { host, place, .. } = touched?;
    world.body(host).endpoint_at(place)?;
    Some(EndpointId {
        host,
        number: place,
    })
}
