//! Frames: what one connection is told or tells, or that a stop is wanted.

ghost use Rattle.std.specs.Prelude.{◌≡◌, Some, None, IfNone, MatchOption, ⊤};
ghost use Rattle.wh_multiplex.specs.StreamFrames.{kind_code, IsNoKind};

use bytes::Bytes;

/// The most bytes that one frame carries.
pub const LONGEST_FRAME: usize = 65536;

// How many bytes stand before those that a frame carries: its connection, its kind and how many it carries.
pub(crate) const HEAD: usize = 9;

/// What a frame says. In bytes it is a number from 1 on, in this order.
#[derive(Clone, Copy, Debug, PartialEq, Eq)]
pub enum StreamKind {
    /// A peer has connected.
    Opened,
    /// These bytes came from the peer, or are for it.
    Data,
    /// To the program: the peer sends no more, or is gone. From it: the connection is to be closed after what was sent.
    Ended,
    /// An orderly stop is wanted.
    Stop,
}

impl StreamKind {
    // The number of a kind.
    pub(crate) fn code(self) -> u8
        ensures { result ≡ kind_code self }
    {
        match self {
            StreamKind::Opened => 1,
            StreamKind::Data => 2,
            StreamKind::Ended => 3,
            StreamKind::Stop => 4,
        }
    }

    // The kind that has a number.
    pub(crate) fn from_code(code: u8) -> Option<StreamKind>
        ensures { MatchOption result (IsNoKind code) (λ kind. code ≡ kind_code kind) }
    {
        match code {
            1 => Some(StreamKind::Opened),
            2 => Some(StreamKind::Data),
            3 => Some(StreamKind::Ended),
            4 => Some(StreamKind::Stop),
            _ => None,
        }
    }
}

/// What one connection is told or tells, or that a stop is wanted.
#[derive(Drop)]
pub struct StreamFrame {
    /// The number of the connection, and 0 where a stop is wanted.
    pub connection: u32,
    /// What the frame says.
    pub kind: StreamKind,
    /// What it carries: at most `LONGEST_FRAME` bytes, none but of `Data`.
    pub bytes: Bytes,
}
