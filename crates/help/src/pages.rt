//! The text about a topic.

use crate::command_line::CommandLine;
use crate::tcpwit::TCPWIT;
use crate::tcpwit_lab::TCPWIT_LAB;
use crate::topics::{Program, Topic};
use std::alloc::{AllocError, Global};

/// The version of the programs, which the head of README.md names too.
const VERSION: &str = "1.0";

/// What a program prints about a topic. If it has no subcommand of that name, this is the help of the program. An error
/// means that memory ran out.
pub fn help_page<'a>(
    alloc: Global,
    program: Program,
    topic: Topic<'a>,
) -> Result<String, AllocError> {
    text_about(alloc, command_line(program), topic)
}

// The text about a topic.
fn text_about(alloc: Global, line: &CommandLine, topic: Topic<'_>) -> Result<String, AllocError> {
    let name = match topic {
        Topic::Version => return format!(in alloc; "{} {VERSION}\n", line.name),
        Topic::Program => return line.help(alloc, VERSION),
        Topic::Subcommand(name) => name,
    };
    match line
        .subcommands
        .iter()
        .find(|subcommand| subcommand.name == name)
    {
        Some(subcommand) => subcommand.help(alloc),
        None => line.help(alloc, VERSION),
    }
}

fn command_line(program: Program) -> &'static CommandLine {
    match program {
        Program::Tcpwit => &TCPWIT,
        Program::TcpwitLab => &TCPWIT_LAB,
    }
}
