//! What help is about, and the words that ask for it.

ghost use Rattle.std.specs.Prelude.{◌≡◌, is_some, map};
ghost use Rattle.help.specs.AskedHelp.{asks_help, is_help_option, is_subcommand, is_version_option};

/// A program that has help.
#[derive(Clone, Copy)]
pub enum Program {
    /// `tcpwit`, the checker.
    Tcpwit,
    /// `tcpwit_lab`, the programs around it.
    TcpwitLab,
}

/// What words ask for.
#[derive(Clone, Copy)]
pub enum Topic<'a> {
    /// The version of the program.
    Version,
    /// The help of the program.
    Program,
    /// The help of this subcommand.
    Subcommand(&'a str),
}

/// What these words, which follow the program's name, ask for. None: neither for help nor for the version.
pub fn topic_of<'a>(program: Program, words: &[&'a str]) -> Option<Topic<'a>>
    ensures { is_some result ≡ asks_help program (map (λ word. word.now) words.now) }
{
    match words {
        [word] if is_version_option(word) => Some(Topic::Version),
        [word] if *word == "help" || is_help_option(word) => Some(Topic::Program),
        [name, option] if is_subcommand(program, name) && is_help_option(option) => {
            Some(Topic::Subcommand(name))
        }
        [help, name] if *help == "help" && is_subcommand(program, name) => {
            Some(Topic::Subcommand(name))
        }
        _ => None,
    }
}

fn is_help_option(word: &str) -> bool
    ensures { result ≡ is_help_option word.now }
{
    word == "--help" || word == "-h"
}

fn is_version_option(word: &str) -> bool
    ensures { result ≡ is_version_option word.now }
{
    word == "--version" || word == "-V"
}

fn is_subcommand(program: Program, word: &str) -> bool
    ensures { result ≡ is_subcommand program word.now }
{
    match program {
        Program::Tcpwit => matches!(word, "check" | "many" | "segment" | "record"),
        Program::TcpwitLab => {
            matches!(
                word,
                "find" | "explain" | "show" | "draw" | "judge" | "remark"
            )
        }
    }
}
