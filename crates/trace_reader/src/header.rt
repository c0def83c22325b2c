//! The header of a trace.

ghost use Rattle.std.specs.Prelude.{◌≡◌, ◌≢◌, Err, IfOk};
ghost use Rattle.counted.specs.Counting.{one_more};
ghost use Rattle.line_fields.specs.Rows.{with_rest, Reads};
ghost use Rattle.case_lines.specs.CaseLines.{KeepsWitness};
ghost use Rattle.case_lines.specs.TextLeft.{rows_left, witness_left, text_failures};
ghost use Rattle.trace_reader.specs.Headers.{header_of};

use crate::first_line::first_line;
use crate::late_lines::late_lines;
use crate::named_lines::next_number;
use case_forms::Header;
use case_lines::TextLines;
use line_fields::SourceFault;
use std::io::BufRead;

const MAX_SKEW: u64 = 1_000_000_000;

const MAX_MSL: u64 = 3_600_000_000;

const MAX_GRAIN: u64 = 60_000_000;

const MAX_MINRTO: u64 = 60_000_000;

const MAX_EXTRA: u64 = 65_535;

/// The header of a text, whose lines it reads. The error is the first fault, or a read that failed.
pub(crate) fn header<A: BufRead>(text: &mut TextLines<A>) -> Result<Header, SourceFault>
    ensures header { Reads with_rest header_of (rows_left A.remaining text.old)
        (rows_left A.remaining text.new) result }
    ensures witness { IfOk result (λ x.
        KeepsWitness (witness_left A.remaining text.old) (witness_left A.remaining text.new)) }
    ensures read { result ≡ Err SourceFault.Read → text_failures text.new ≡ one_more (text_failures text.old) }
    ensures same { result ≢ Err SourceFault.Read → text_failures text.new ≡ text_failures text.old }
{
    let version = first_line(text)?;
    let skew = next_number(text, 2, "skew", 0, MAX_SKEW)?;
    let msl = next_number(text, 3, "msl", 1, MAX_MSL)?;
    let grain = next_number(text, 4, "grain", 0, MAX_GRAIN)?;
    let minrto = next_number(text, 5, "minrto", 0, MAX_MINRTO)?;
    let extra = next_number(text, 6, "extra", 0, MAX_EXTRA)? as u16;
    let late = late_lines(text, version)?;
    Ok(Header {
        version: late.version,
        skew,
        msl,
        grain,
        minrto,
        extra,
        initial: late.initial,
        congestion: late.congestion,
        slack: late.slack,
        sender: late.sender,
        growth: late.growth,
    })
}
