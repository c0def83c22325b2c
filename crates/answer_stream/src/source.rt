//! The input, which one worker at a time reads.

ghost use Rattle.std.specs.Prelude.{◌≡◌, ◌≢◌, ◌<◌, ◌^◌, IfSome, None};
ghost use Rattle.counted.specs.Counting.{left_of, failures_of};
ghost use Rattle.answer_stream.specs.declared.state.State.{State};
ghost use Rattle.counted.specs.declared.ends.ReadFault.{ReadFault};
ghost use Rattle.answer_stream.specs.Left.{AreLeftIn, IsHeldAt};

use crate::state::State;
use crate::stream::{Lent, Stream};
use case_stream::{Kept, Next, next_case, next_case_at_hand};
use counted::{Counted, ReadFault};
use std::alloc::Global;
use std::io::BufRead;
use std::marker::PhantomData;

/// The reader, with the number of cases that were read.
#[derive(Drop)]
pub(crate) struct Source<'a, B: BufRead, S: Stream> {
    pub at: &'a mut Counted<B>,
    kept: Kept,
    pub taken: u64,
    pub state: State,
    of: PhantomData<S>,
    pub ghost same: { at.ghost_name ≡ S.reader },
    pub ghost left: { ∥ AreLeftIn state S.input taken (left_of B.remaining at.now) ∥₁ },
    pub ghost quiet: { state ≢ State.Failed → failures_of at.now ≡ S.reads },
    pub ghost failed: { state ≡ State.Failed → S.reads < failures_of at.now },
    pub ghost few: { S.reads < 2 ^ 50 },
}

impl<'a, B: BufRead, S: Stream> Source<'a, B, S> {
    /// A reader from which nothing was read yet.
    pub fn new(alloc: Global, lent: Lent<'a, Counted<B>>) -> Source<'a, B, S>
        requires same { lent.at.ghost_name ≡ S.reader }
        requires input { S.input ≡ left_of B.remaining lent.at.now }
        requires reads { failures_of lent.at.now ≡ S.reads }
        requires few { S.reads < 2 ^ 50 }
    {
        let Lent { at } = lent;
        Source {
            at,
            kept: Kept::new(alloc),
            taken: 0,
            state: State::Open,
            of: PhantomData,
        }
    }

    /// Reads the next case into `text`, and returns its number. If one of its lines is too long, `text` has the lines
    /// before that one, whose length is returned, too. `None`: no further case can be read.
    pub fn take(&mut self, text: &mut Vec<u8>) -> Option<(u64, Option<u64>)>
        ensures { IfSome result (λ taken. ∥ IsHeldAt S.input taken.0 taken.1 text.new.items ∥₁) }
    {
        if self.state != State::Open {
            return None;
        }
        let number = self.taken;
        let Some(taken) = number.checked_add(1) else {
            self.state = State::OutOfMemory;
            return None;
        };
        match next_case(self.at, &mut self.kept, text) {
            Ok(Next::Case) => {
                self.taken = taken;
                Some((number, None))
            }
            Ok(Next::LongCase(size)) => {
                self.taken = taken;
                Some((number, Some(size)))
            }
            Ok(Next::Last) => {
                self.taken = taken;
                self.state = State::Ended;
                Some((number, None))
            }
            Ok(Next::LongLast(size)) => {
                self.taken = taken;
                self.state = State::Ended;
                Some((number, Some(size)))
            }
            Ok(Next::Nothing) => {
                self.state = State::Ended;
                None
            }
            Err(fault) => {
                self.state = state_of(fault);
                None
            }
        }
    }

    /// Reads the next case into `text`, if all of it is at hand, and returns its number. `None`: it isn't, or no
    /// further case can be read.
    pub fn take_at_hand(&mut self, text: &mut Vec<u8>) -> Option<u64>
        ensures { IfSome result (λ number. ∥ IsHeldAt S.input number None text.new.items ∥₁) }
    {
        if self.state != State::Open {
            return None;
        }
        let number = self.taken;
        let taken = number.checked_add(1)?;
        match next_case_at_hand(self.at, &mut self.kept, text) {
            Ok(true) => {
                self.taken = taken;
                Some(number)
            }
            Ok(false) => None,
            Err(fault) => {
                self.state = state_of(fault);
                None
            }
        }
    }

    /// The reader again.
    pub fn into_lent(self) -> Lent<'a, Counted<B>>
        ensures { result.at ≡ self.entry.at }
    {
        let Source {
            at,
            kept: _,
            taken: _,
            state: _,
            of: _,
        } = self;
        Lent { at }
    }
}

// How it is after a fault.
fn state_of(fault: ReadFault) -> State
    ensures read { fault ≡ ReadFault.Read → result ≡ State.Failed }
    ensures memory { fault ≡ ReadFault.OutOfMemory → result ≡ State.OutOfMemory }
{
    match fault {
        ReadFault::Read => State::Failed,
        ReadFault::OutOfMemory => State::OutOfMemory,
    }
}
