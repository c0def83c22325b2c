//! The answer of a call.

ghost use Rattle.std.specs.Prelude.{◌≡◌};

use case_forms::Answer;

/// The answer of a call that ended. Only `HostCore::attempt` makes one, and nothing copies it.
#[derive(Drop)]
pub struct Answered {
    pub(crate) thread: u32,
    pub(crate) answer: Answer,
}

impl Answered {
    /// The thread that called.
    pub fn thread(&self) -> u32
        ensures { result ≡ self.now.thread }
    {
        self.thread
    }

    /// The answer.
    pub fn answer(&self) -> &Answer
        ensures { result.now ≡ self.now.answer }
    {
        &self.answer
    }
}
