//! What happens to segments in transit.

/// What happens to a segment.
#[derive(Clone, Copy)]
pub enum Fate {
    /// It is sent.
    Pass,
    /// It is lost.
    Lose,
    /// It is sent twice.
    Twice,
    /// It is sent after this many further segments of its host were, or never if the loop ends first.
    Hold(u32),
}

/// Decides what happens to each segment.
pub trait WireFate {
    /// The fate of the next segment.
    fn next(&mut self) -> Fate;
}

/// Loses each `every`-th segment; none if `every` is 0.
#[derive(Clone, Copy)]
pub struct LoseEach {
    every: u32,
    left: u32,
}

impl LoseEach {
    /// The first lost segment is the `every`-th.
    pub fn new(every: u32) -> LoseEach {
        LoseEach { every, left: every }
    }
}

impl WireFate for LoseEach {
    fn next(&mut self) -> Fate {
        if self.left == 1 {
            self.left = self.every;
            return Fate::Lose;
        }
        self.left = self.left.saturating_sub(1);
        Fate::Pass
    }
}
