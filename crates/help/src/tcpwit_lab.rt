//! The command line of `tcpwit_lab`, as its help shows it.

use crate::command_line::{Argument, CommandLine, Form, Subcommand};

/// The whole command line.
pub(crate) static TCPWIT_LAB: CommandLine = CommandLine {
    name: "tcpwit_lab",
    about: "Finds witnesses, judges traces, explains and draws cases",
    subcommands: &[
        Subcommand {
            name: "find",
            about: "Looks for a witness of a trace, and prints the case",
            usage: "tcpwit_lab find [--budget N] [--ways WAYS] [--expiries HOSTS] < TRACE > CASE",
            arguments: &[BUDGET, WAYS, EXPIRIES],
            after: FIND,
        },
        Subcommand {
            name: "explain",
            about: "Explains the verdict on a case in plain words",
            usage: "tcpwit_lab explain [--simulated] [--json] < CASE",
            arguments: &[
                Argument {
                    name: "simulated",
                    form: Form::Flag,
                    help: "The segments crossed a simulated wire: name no cause that only captures have",
                },
                JSON,
            ],
            after: EXPLAIN,
        },
        Subcommand {
            name: "show",
            about: "Prints a case or a trace with words for its numbers",
            usage: "tcpwit_lab show < CASE",
            arguments: &[],
            after: SHOW,
        },
        Subcommand {
            name: "draw",
            about: "Draws a case or a trace as a picture",
            usage: "tcpwit_lab draw [--from N] [--to M] < CASE > PICTURE",
            arguments: &[
                Argument {
                    name: "from",
                    form: Form::Option("N"),
                    help: "The first trace line drawn",
                },
                Argument {
                    name: "to",
                    form: Form::Option("M"),
                    help: "The last trace line drawn",
                },
            ],
            after: DRAW,
        },
        Subcommand {
            name: "judge",
            about: "Finds the strictest level that gets a yes for a trace",
            usage: JUDGE_USAGE,
            arguments: &[
                Argument {
                    name: "least",
                    form: Form::Option("LEVEL"),
                    help: "The laxest level that gives status 0: full, recovery, none [default: full]",
                },
                Argument {
                    name: "from",
                    form: Form::Option("LEVEL"),
                    help: "The level tried first, not laxer than --least [default: that of --least]",
                },
                Argument {
                    name: "slack",
                    form: Form::Option("SLACK"),
                    help: "How late a duty may be, in microseconds, or any [default: 1000000]",
                },
                BUDGET,
                WAYS,
                EXPIRIES,
                Argument {
                    name: "case",
                    form: Form::Option("FILE"),
                    help: "Writes the case of the last level tried to FILE",
                },
                JSON,
                Argument {
                    name: "many",
                    form: Form::Flag,
                    help: "Judges many traces, each ended by a line `end`; needs --json",
                },
            ],
            after: JUDGE,
        },
        Subcommand {
            name: "remark",
            about: "Lists what breaks no rule of a case and is worth a look",
            usage: "tcpwit_lab remark [--json] < CASE",
            arguments: &[JSON],
            after: REMARK,
        },
    ],
    after: AFTER,
};

const BUDGET: Argument = Argument {
    name: "budget",
    form: Form::Option("N"),
    help: "How many steps are spent on going back for one line [default: 1000000]",
};

const WAYS: Argument = Argument {
    name: "ways",
    form: Form::Option("WAYS"),
    help: "How hosts do what the RFCs leave open, such as 0:bytes,1:newreno",
};

const EXPIRIES: Argument = Argument {
    name: "expiries",
    form: Form::Option("HOSTS"),
    help: "The trace shows each expiry of these hosts' timers: 0, 1 or 0,1",
};

const JSON: Argument = Argument {
    name: "json",
    form: Form::Flag,
    help: "Prints one JSON object",
};

const AFTER: &str = "\
Each subcommand reads its text from standard input and writes to standard output. If a file or a
stream can't be opened, read or written, standard error has its name and the reason.

Status:
  0  done; explain: yes; judge: the least level or a stricter one has a yes; remark: no remark
  1  explain: no; judge: no such level has a yes; remark: a remark
  2  bad trace, bad witness: the text is refused
  3  bad usage
  4  bad memory: memory ran out
  5  bad device: a file or a stream couldn't be opened, read or written

Examples:
  tcpwit_lab judge < run.trace
  tcpwit_lab find < run.trace > run.case
  tcpwit_lab explain < run.case
  tcpwit_lab draw < run.case > run.svg
  tcpwit_lab remark < run.case

The answers of `tcpwit` don't depend on this program.";

const FIND: &str = "\
Input: a trace. Output: a case. If a line can't be explained, find goes back: it chooses otherwise
before that line, and tries again. If no choice helps, or the budget is spent, the case ends with a
step that `tcpwit check` refuses. Standard error then has the line, and which of the two it was.

WAYS has ways of hosts, with commas between them: the host, a colon, and one of these.
  bytes        congestion avoidance counts acknowledged bytes (RFC 5681, 3.1)
  one-sample   one round trip is measured at a time (RFC 6298, 3)
  last-sample  that of the last segment of a flight is measured
  newreno      fast recovery ends once all is acknowledged that was sent before it (RFC 6582, 3.2)
The search begins with them. If a line can't be explained, it tries the host in its other ways for
the whole run; standard error has those that the case needs.

HOSTS are 0, 1 or 0,1. For other hosts, find adds lines for timeouts that the trace doesn't show.";

const EXPLAIN: &str = "\
Input: a case. Output: the answer of `tcpwit check`. After a no: the refused step, the endpoint
before it, what the rule compares, and the usual causes.";

const SHOW: &str = "\
Input: a case, or a trace alone. Output: text, one event a line.";

const DRAW: &str = "\
Input: a case, or a trace alone. Output: a picture (SVG). Time goes down, segments are arrows, a
refused step is red.";

const JUDGE_USAGE: &str = "\
tcpwit_lab judge [--least LEVEL] [--from LEVEL] [--slack SLACK] [--budget N]
                        [--ways WAYS] [--expiries HOSTS] [--case FILE] [--json] < TRACE
       tcpwit_lab judge --many --json [OPTION].. < TRACES";

const JUDGE: &str = "\
Input: a trace. It looks for a witness at the levels `full`, `recovery` and `none`, in this order,
from that of --from until the first yes. Output: a line for each level tried, what the yes means,
the ways of hosts that it needs, and what each level before it refused first. If a line can't be
explained, it goes back, as find does; `tcpwit_lab find --help` has WAYS and HOSTS.

It judges duties, too, such as acknowledging in time: a host may be SLACK late with them. With
`--slack any`, they aren't judged. A trace of version 5 or 6 has a slack of its own, which is the
default then. If a duty refuses a level, the output has the verdict without duties, too.

With --many, each trace is ended by a line `end`, and gets an object, a line, before the next one is
read. The options count for all traces, and there is no --case.

Status: 0 if the level of --least or a stricter one has a yes, 1 if none has; with --many, the
highest of all traces.";

const REMARK: &str = "\
Input: a case. Output: a line for each remark, with the trace lines that it is about. For a no, only
the steps before the refused one count. Remarks are about acceptable segments that were dropped or
not kept, retransmissions, acknowledgments that nothing asked for, SACK blocks that should be sent,
timers and open windows with nothing sent, a SYN given up too early, and what is left at the end.

Status: 0 if there is no remark, 1 if there is any.";
