//! Which input and which writer the threads share.

ghost use Rattle.std.specs.Prelude.{◌≡◌, ℕ, List, Option, None};
ghost use Rattle.std.specs.Borrow.{GName};
ghost use Rattle.answer_stream.specs.Told.{IsAnswerAt};

use parallel_check::CaseResult;
use std::marker::{Brand, PhantomData};

/// The ends that the workers share, as they were at the start. Each call of `answer_all` picks its own.
pub(crate) trait Stream {
    /// The bytes of the input, if they are known.
    ghost input: { Option (List ℕ) };

    /// What the writer had, if it is known.
    ghost contents: { Option (List ℕ) };

    /// How many reads had failed.
    ghost reads: { ℕ };

    /// How many writes had failed.
    ghost writes: { ℕ };

    /// The name of the reference to the reader.
    ghost reader: { GName };

    /// The name of the reference to the writer.
    ghost writer: { GName };
}

impl Stream for Brand {
    ghost input = { None };

    ghost contents = { None };

    ghost reads = { 0 };

    ghost writes = { 0 };

    ghost reader = { 0 };

    ghost writer = { 0 };
}

/// A reference that moves from one owner to another and stays the same reference.
#[derive(Drop)]
pub(crate) struct Lent<'a, X> {
    pub at: &'a mut X,
}

impl<'a, X> Lent<'a, X> {
    /// Lends this value.
    pub fn new(at: &'a mut X) -> Lent<'a, X>
        ensures same { result.at.ghost_name ≡ at.entry.ghost_name }
        ensures now { result.at.now ≡ at.old }
    {
        Lent { at }
    }
}

/// The answer to a case, with the number of the case, from 0.
#[derive(Drop)]
pub(crate) struct NumberedAnswer<S: Stream> {
    pub number: u64,
    pub answer: CaseResult,
    pub of: PhantomData<S>,
    pub ghost answers: { ∥ IsAnswerAt S.input number answer ∥₁ },
}
