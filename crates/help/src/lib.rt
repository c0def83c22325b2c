//! What a program prints if it's asked for its help or its version.
//!
//! - `topics`: what help is about, and the words that ask for it (`specs/AskedHelp`)
//! - `pages`: the text about a topic, as clap prints it. No contract says what it contains.
//! - `command_line`: what the help of a program and of a subcommand says
//! - `tcpwit`, `tcpwit_lab`: the command lines of both programs. Only help reads them: `cli` and the crate `tcpwit_lab`
//!   say what the words mean.
//! - `print`: how a text is printed
#![tactic(auto)]

mod command_line;
mod pages;
mod print;
mod tcpwit;
mod tcpwit_lab;
mod topics;

pub use pages::help_page;
pub use print::print_help;
pub use topics::{Program, Topic, topic_of};
