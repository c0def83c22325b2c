//! The flags of a segment, by name (RFC 9293, 3.1).

ghost use Rattle.std.specs.Prelude.{◌≡◌, ◌<◌};
ghost use Rattle.segment.specs.Flags.{mask_of};

/// A flag of a segment. `Cwr`, `Ece`, `Urg` and `Psh` have no effect here.
#[derive(Clone, Copy, PartialEq, Eq)]
pub enum Flag {
    /// Congestion window reduced.
    Cwr,
    /// ECN echo.
    Ece,
    /// The urgent pointer is valid.
    Urg,
    /// The acknowledgment number is valid.
    Ack,
    /// Push.
    Psh,
    /// Reset the connection.
    Rst,
    /// Synchronize sequence numbers: the first position is this segment's.
    Syn,
    /// Nothing more is sent after this segment.
    Fin,
}

impl Flag {
    /// The flag's bit in the byte of flags.
    pub fn mask(self) -> u8
        ensures mask { result ≡ mask_of self }
        ensures some { 0 < result }
    {
        match self {
            Flag::Cwr => 0x80,
            Flag::Ece => 0x40,
            Flag::Urg => 0x20,
            Flag::Ack => 0x10,
            Flag::Psh => 0x08,
            Flag::Rst => 0x04,
            Flag::Syn => 0x02,
            Flag::Fin => 0x01,
        }
    }
}
