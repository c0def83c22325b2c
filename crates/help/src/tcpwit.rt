//! The command line of `tcpwit`, as its help shows it.

use crate::command_line::{Argument, CommandLine, Form, Subcommand};

/// The whole command line.
pub(crate) static TCPWIT: CommandLine = CommandLine {
    name: "tcpwit",
    about: "Checks a recorded run of one or two TCP hosts against RFC 9293, 6298 and 5681",
    subcommands: &[
        Subcommand {
            name: "check",
            about: "Judges a case: a trace and its witness",
            usage: "tcpwit check < CASE\n       tcpwit check --trace F --witness G",
            arguments: &[
                Argument {
                    name: "trace",
                    form: Form::Option("F"),
                    help: "The file or pipe of the trace; only together with --witness",
                },
                Argument {
                    name: "witness",
                    form: Form::Option("G"),
                    help: "The file or pipe of the witness",
                },
            ],
            after: CHECK,
        },
        Subcommand {
            name: "many",
            about: "Judges many cases with several threads",
            usage: "tcpwit many --workers N < CASES",
            arguments: &[Argument {
                name: "workers",
                form: Form::Option("N"),
                help: "How many threads check, 1 to 64",
            }],
            after: MANY,
        },
        Subcommand {
            name: "segment",
            about: "Prints the fields of a segment",
            usage: "tcpwit segment HEX",
            arguments: &[Argument {
                name: "hex",
                form: Form::Word("HEX"),
                help: "The segment from its TCP header on, two hex digits for each byte",
            }],
            after: SEGMENT,
        },
        Subcommand {
            name: "record",
            about: "Records two TCP hosts that talk, and prints the case",
            usage: "tcpwit record --rounds N --lose K [--format V] > CASE",
            arguments: &[
                Argument {
                    name: "rounds",
                    form: Form::Option("N"),
                    help: "How many rounds, 1 to 1000; in each, host 0 sends 64 bytes to host 1",
                },
                Argument {
                    name: "lose",
                    form: Form::Option("K"),
                    help: "Each K-th segment of a host is lost, 2 to 1000; 0: none is",
                },
                Argument {
                    name: "format",
                    form: Form::Option("V"),
                    help: "The version of the texts, 1 or 2 [default: 1]",
                },
            ],
            after: RECORD,
        },
    ],
    after: AFTER,
};

const AFTER: &str = "\
Each answer is one line on standard output. Nothing is written on standard error.

Status:
  0  yes; the segment, the help or the version was printed; all rounds of the recording ended
  1  no; a recording met a limit
  2  a trace, a witness or a segment is refused
  3  bad usage
  4  bad memory: memory ran out
  5  bad device: a file or a stream couldn't be opened, read or written

Examples:
  tcpwit check < run.case
  tcpwit check --trace run.trace --witness run.witness
  tcpwit many --workers 4 < runs.cases
  tcpwit record --rounds 2 --lose 3 > run.case

tcpwit-case(5) describes the texts, and the folder docs/ has the rules. If you have a trace and no
witness, `tcpwit_lab find` looks for one.";

const CHECK: &str = "\
Without options, standard input is the case: the trace, then the witness. With both options, each
has a file of its own. Both files are read while they are judged, so they may be pipes. F, the
trace, is opened first, then G, the witness.

Fill two pipes from two processes or threads. If one thread fills both, it opens F, then G, before
it writes anything; then it writes to whichever pipe has room, as poll(2) reports. If it waits for
one pipe alone, it and the checker may wait for each other forever.

Output, one line:
  yes LINES HIDDEN                 the witness explains the trace, with HIDDEN hidden steps
  no W T RULE                      line W of the witness, for line T of the trace, breaks RULE
  bad trace LINE START STOP KIND   the trace is refused for these bytes of a line
  bad witness LINE START STOP KIND

Status:
  0  yes
  1  no
  2  bad trace, bad witness
  3  bad usage
  4  bad memory
  5  bad device";

const MANY: &str = "\
Standard input has the cases, each ended by a line `end`. The answers come in the order of the
cases, one line for each, as `tcpwit check` prints it. They are the same for any number of threads.

Status: the highest status of a case, as of `tcpwit check`; 0 if there is no case.";

const SEGMENT: &str = "\
Nothing is read. Output: `src`, `dst` and the other fields with their values on one line, or `bad
segment` and what is wrong.

Status:
  0  the segment was printed
  2  the bytes are no segment
  3  bad usage";

const RECORD: &str = "\
Two hosts in one process talk. What they recorded is printed as a case, whose verdict is yes if its
numbers keep to the limits of the texts.

Status:
  0  all rounds ended
  1  a limit was met first";
