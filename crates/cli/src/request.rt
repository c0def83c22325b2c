//! What the words request.

ghost use Rattle.std.specs.Prelude.{◌≡◌, ◌∷◌, IfOk, codes, map};
ghost use Rattle.help.specs.AskedHelp.{asks_help};
ghost use Rattle.help.specs.declared.topics.Program.{Program};
ghost use Rattle.cli.specs.Requests.{asks_for_help, IsRequested, IsWhole};

use crate::file_words::files_in;
use crate::options::{is_dashed, number_in, take_option};
use crate::record_words::plan_in;
use case_forms::OutOfMemory;
use help::{Program, Topic, topic_of};
use std::alloc::Global;
use two_hosts::Plan;

/// What the words after the program's name request.
#[derive(Clone, Copy)]
pub enum Request<'w> {
    /// To print this help, or the version.
    Help(Topic<'w>),
    /// To check a case in two files: the name of the trace's file and of the witness's.
    Files(&'w str, &'w str),
    /// A command that opens no file.
    Command(Command<'w>),
    /// Nothing that the program does.
    Unknown,
}

/// A command that opens no file: it reads standard input at most.
#[derive(Clone, Copy)]
pub enum Command<'w> {
    /// To check a case.
    Check,
    /// To check many cases with so many workers.
    Many(usize),
    /// To record two hosts.
    Record(Plan),
    /// To print the segment of this hex text.
    Segment(&'w str),
}

/// What the words request. The error is that memory ran out.
pub fn request_of<'w>(alloc: Global, words: &[&'w str]) -> Result<Request<'w>, OutOfMemory>
    ensures requested { IfOk result (λ request. IsRequested request (map (λ word. word.now) words.now)) }
    ensures help { IfOk result (λ request.
        asks_for_help request ≡ asks_help Program.Tcpwit (map (λ word. word.now) words.now)) }
    ensures whole { IfOk result (λ request. IsWhole request) }
{
    match topic_of(Program::Tcpwit, words) {
        Some(topic) => Ok(Request::Help(topic)),
        None => without_help(alloc, words),
    }
}

// What the words request if they don't ask for help.
fn without_help<'w>(alloc: Global, words: &[&'w str]) -> Result<Request<'w>, OutOfMemory>
    ensures { IfOk result (λ request. IsRequested request (map (λ word. word.now) words.now)) }
{
    let [command, options @ ..] = words else {
        return Ok(Request::Unknown);
    };
    match *command {
        "check" => Ok(check_with(options)),
        "many" => many_with(alloc, options),
        "record" => record_with(alloc, options),
        "segment" => Ok(segment_with(options)),
        _ => Ok(Request::Unknown),
    }
}

// What `check` requests with these options.
fn check_with<'w>(options: &[&'w str]) -> Request<'w>
    ensures { IsRequested result (codes "check" ∷ map (λ word. word.now) options.now) }
{
    if options.is_empty() {
        return Request::Command(Command::Check);
    }
    match files_in(options) {
        Some((trace, witness)) => Request::Files(trace, witness),
        None => Request::Unknown,
    }
}

// What `many` requests with these options.
fn many_with<'w>(alloc: Global, options: &[&'w str]) -> Result<Request<'w>, OutOfMemory>
    ensures { IfOk result (λ request. IsRequested request (codes "many" ∷ map (λ word. word.now) options.now)) }
{
    let Some((workers, rest)) = take_option(options, "--workers") else {
        return Ok(Request::Unknown);
    };
    if !rest.is_empty() {
        return Ok(Request::Unknown);
    }
    match number_in(alloc, workers, 1, 64)? {
        Some(workers) => Ok(Request::Command(Command::Many(workers as usize))),
        None => Ok(Request::Unknown),
    }
}

// What `record` requests with these options.
fn record_with<'w>(alloc: Global, options: &[&'w str]) -> Result<Request<'w>, OutOfMemory>
    ensures { IfOk result (λ request. IsRequested request (codes "record" ∷ map (λ word. word.now) options.now)) }
{
    match plan_in(alloc, options)? {
        Some(plan) => Ok(Request::Command(Command::Record(plan))),
        None => Ok(Request::Unknown),
    }
}

// What `segment` requests with these words.
fn segment_with<'w>(words: &[&'w str]) -> Request<'w>
    ensures { IsRequested result (codes "segment" ∷ map (λ word. word.now) words.now) }
{
    match words {
        [text] if !is_dashed(text) => Request::Command(Command::Segment(text)),
        _ => Request::Unknown,
    }
}
