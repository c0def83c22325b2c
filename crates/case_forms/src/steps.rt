//! The steps of a witness.

ghost use Rattle.std.specs.Prelude.{◌≡◌, [], ◌∷◌, ◌++◌, IfOk, OnOk, OnErr};

use crate::OutOfMemory;
use crate::calls::{Answer, Host};
use crate::named_line::NamedLine;
use crate::timer::Recovery;
use crate::trace::Span;
use crate::version::Version;
use seqno::Word;
use std::alloc::Global;
use std::marker::Model;

/// The flags of a segment to build (RFC 9293, 3.1).
#[derive(Clone, Copy, PartialEq, Eq)]
pub struct Flags {
    pub ack: bool,
    pub rst: bool,
    pub syn: bool,
    pub fin: bool,
}

/// A segment that a host is to build (RFC 9293, 3.1).
#[derive(Clone, Copy)]
pub struct SegmentPlan {
    /// The port of its endpoint.
    pub lport: u16,
    /// The peer's port.
    pub rport: u16,
    /// The position of its sequence number.
    pub pos: u64,
    /// How many bytes it carries, 0 to 65515.
    pub len: u16,
    pub flags: Flags,
    /// The window that it offers, in bytes.
    pub window: u16,
    /// The initial send sequence number, given only with the endpoint's first SYN (RFC 9293, 3.4.1).
    pub iss: Option<Word>,
    /// The shift, in bits, of the windows that the endpoint offers: 0 to 14, given only with `iss` (RFC 7323, 2.2 and
    /// 2.3).
    pub shift: Option<u8>,
}

/// What an endpoint chooses when it processes a segment.
#[derive(Clone, Copy)]
pub struct TakeChoice {
    /// The congestion window afterwards, in bytes (RFC 5681, 3.1).
    pub cwnd: u32,
    /// Whether the bytes and the FIN are kept, as far as they fit.
    pub keep: bool,
    /// Whether the round trip time is measured (RFC 6298, 2).
    pub sample: bool,
}

/// What a step does. `Taken` is how a step refers to the line that it uses: by its number in a witness (`NamedLine`),
/// or by its content in the model (`TakenLine`).
#[derive(Drop)]
pub enum Label<Taken> {
    /// `L n [x [y]]`: use a line of the trace.
    L(Taken),
    /// `D t answer`: the open call of thread t takes effect, with this answer.
    D {
        thread: u32,
        answer: Answer,
    },
    /// `M h lp rp pos len flags wnd [iss [shift]]`: host h builds this segment.
    M {
        host: Host,
        plan: SegmentPlan,
    },
    /// `T h k cwnd keep sample`: host h processes the segment of trace line k from its inbox, with this choice.
    T {
        host: Host,
        line: u64,
        choice: TakeChoice,
    },
    /// `K h k`: host h drops the segment of trace line k from its inbox.
    K {
        host: Host,
        line: u64,
    },
    /// `R h k`: host h answers the segment of trace line k with a reset (RFC 9293, 3.10.7.1).
    R {
        host: Host,
        line: u64,
    },
    /// `F h lp rp cwnd ssthresh`: an endpoint of host h enters fast recovery (RFC 5681, 3.2). `U h lp rp cwnd
    /// ssthresh`: it undoes a recovery (RFC 4015, 3.2).
    F {
        host: Host,
        recovery: Recovery,
    },
}

/// How a step refers to the line that it uses.
pub trait Takes {
    /// An equal value. The error is that memory ran out.
    fn copy(&self) -> Result<Self, OutOfMemory>
        ensures { IfOk result (λ taken. taken ≡ self.now) };
}

impl<Taken: Takes> Label<Taken> {
    /// An equal label. The error is that memory ran out.
    pub fn copy(&self) -> Result<Label<Taken>, OutOfMemory>
        ensures { IfOk result (λ label. label ≡ self.now) }
    {
        Ok(match self {
            Label::L(taken) => Label::L(taken.copy()?),
            Label::D { thread, answer } => Label::D {
                thread: *thread,
                answer: answer.copy()?,
            },
            Label::M { host, plan } => Label::M {
                host: *host,
                plan: *plan,
            },
            Label::T { host, line, choice } => Label::T {
                host: *host,
                line: *line,
                choice: *choice,
            },
            Label::K { host, line } => Label::K {
                host: *host,
                line: *line,
            },
            Label::R { host, line } => Label::R {
                host: *host,
                line: *line,
            },
            Label::F { host, recovery } => Label::F {
                host: *host,
                recovery: *recovery,
            },
        })
    }
}

/// A step of a witness.
#[derive(Drop)]
pub struct Step {
    /// The moment of the step, in microseconds.
    pub moment: u64,
    pub label: Label<NamedLine>,
    /// The whole line of the witness, without its end.
    pub span: Span,
}

impl Step {
    /// An equal step. The error means that memory ran out.
    pub fn copy(&self) -> Result<Step, OutOfMemory>
        ensures { IfOk result (λ step. step ≡ self.now) }
    {
        Ok(Step {
            moment: self.moment,
            label: self.label.copy()?,
            span: self.span,
        })
    }
}

/// The steps of a witness, which contracts see as a list.
#[derive(Drop)]
pub struct Steps {
    items: Vec<Step>,
}

impl Model for Steps {
    ghost use Rattle.std.specs.Prelude.{List};
    ghost use Rattle.case_forms.specs.declared.steps.Step.{Step};

    ghost Value = { List Step };

    ghost view = { λ a. a.items.items };
}

impl Steps {
    /// No steps.
    pub fn new(alloc: Global) -> Self
        ensures { result ≡ [] }
    {
        Steps {
            items: Vec::new(alloc),
        }
    }

    /// Appends a step. If memory runs out, the steps don't change.
    pub fn push(&mut self, step: Step) -> Result<(), OutOfMemory>
        ensures ok { OnOk result (self.new ≡ self.old ++ step ∷ []) }
        ensures err { OnErr result (self.new ≡ self.old) }
    {
        self.items.push(step)?;
        Ok(())
    }

    /// The steps in order.
    pub fn as_slice(&self) -> &[Step]
        ensures { result.now ≡ self.now }
    {
        self.items.as_slice()
    }

    /// An equal copy. The error means that memory ran out.
    pub fn copy(&self) -> Result<Steps, OutOfMemory>
        ensures { IfOk result (λ steps. steps ≡ self.now) }
    {
        let mut copied = Steps::new(*self.items.allocator());
        for step in self.items.as_slice() {
            copied.push(step.copy()?)?;
        }
        Ok(copied)
    }
}

/// A witness: an order of the trace's lines, with hidden steps between them. The checker doesn't trust it.
#[derive(Drop)]
pub struct Witness {
    /// The version, that of its trace.
    pub version: Version,
    pub steps: Steps,
}

impl Witness {
    /// An equal witness. The error means that memory ran out.
    pub fn copy(&self) -> Result<Witness, OutOfMemory>
        ensures { IfOk result (λ witness. witness ≡ self.now) }
    {
        Ok(Witness {
            version: self.version,
            steps: self.steps.copy()?,
        })
    }
}
