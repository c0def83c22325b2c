//! The program `tcpwit`: it does what the process's words request, on its standard input and its standard output.
#![tactic(auto)]

ghost use Rattle.std.specs.Prelude.{◌≡◌, ◌<◌, ◌^◌, OnErr};
ghost use Rattle.counted.specs.Counting.{failures_of};

use cli::{INPUT_BYTES, answer_bad_memory, given_words, request_of, run_request};
use counted::Counted;
use std::alloc::{AllocError, Global};
use std::env::{Args, Env};
use std::io::{BufRead, BufReader, Input, Read, Write};
use std::process::ExitCode;
use std::rt::Files;
use std::sync::Wait;
use std::thread::Threads;

fn main(rt: HostRuntime) -> ExitCode {
    ExitCode::from(run_process(&rt, rt.alloc(), rt.reader(), rt.stdout()))
}

// Does what the process's words request, and returns the exit status.
pub(crate) fn run_process<
    R: Read + Send + Drop,
    W: Write + Send + Drop,
    H: Env + Files + Threads + Wait + Sync,
>(rt: &H, alloc: Global, input: R, out: W) -> u8 {
    let mut writer = Counted::new(out);
    let Ok(input) = BufReader::with_capacity(alloc, INPUT_BYTES, input) else {
        return answer_bad_memory(&mut writer);
    };
    let mut reader = Counted::new(input);
    match given_words(rt, alloc) {
        Ok(given) => match run_given(rt, alloc, given, &mut reader, &mut writer) {
            Ok(status) => status,
            Err(AllocError) => answer_bad_memory(&mut writer),
        },
        Err(_) => answer_bad_memory(&mut writer),
    }
}

// Runs with the words after the program's name. If there is no memory for them, nothing is read or written.
fn run_given<R: BufRead + Send, W: Write + Send, H: Files + Threads + Wait + Sync>(
    rt: &H,
    alloc: Global,
    given: Args,
    r: &mut Counted<R>,
    w: &mut Counted<W>,
) -> Result<u8, AllocError>
    requires { (failures_of r.old < 2 ^ 50) × (failures_of w.old < 2 ^ 50) }
    ensures { OnErr result ((r.new ≡ r.old) × (w.new ≡ w.old)) }
{
    let given: Vec<String> = given.collect(alloc)?;
    let mut words = Vec::new(alloc);
    for word in given.iter().skip(1) {
        words.push(word.as_str())?;
    }
    let request = request_of(alloc, words.as_slice())?;
    let status = run_request(rt, alloc, request, r, w);
    Ok(status)
}
