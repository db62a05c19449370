//! What goes into a joiner and what comes out of it.
ghost use Rattle.std.specs.Prelude.{◌≡◌, ◌<◌, ◌^◌, Some, length};
ghost use Rattle.cap_ip.specs.Header.{IsPiece};

use cap_ip::{Fragment, Header};
use cap_time::Stamp;

/// What is known of a fragment's frame: its own time, its place in the list of packets, and its original
/// length in bytes.
#[derive(Clone, Copy, Debug)]
pub struct Stamped {
    /// The frame's own time; `None` if it has none.
    pub time: Option<Stamp>,
    /// The frame's place in the list of packets, counted from 0.
    pub place: u64,
    /// How many bytes the frame had on the wire.
    pub original: u32,
}

/// A fragment on its way into its group.
#[derive(Clone, Copy)]
pub(crate) struct Incoming<'a> {
    /// Its header.
    pub(crate) header: &'a Header,
    /// What the header says of it as a fragment.
    pub(crate) fragment: Fragment,
    /// All of its data.
    pub(crate) data: &'a [u8],
    /// What is known of its frame.
    pub(crate) stamped: Stamped,
    ghost found: { header.now.fragment ≡ Some fragment },
    ghost shape: { IsPiece (length data.now) fragment },
    ghost fits: { stamped.original < 2 ^ 32 },
}

/// A datagram that was joined from fragments.
#[derive(Drop, Debug)]
pub struct Datagram {
    /// The header of the latest fragment that began at 0.
    pub header: Header,
    /// The datagram's data.
    pub payload: Vec<u8>,
    /// How many fragments were put into it.
    pub frames: u64,
    /// The sum of their frames' original lengths.
    pub bytes: u128,
    /// The frame of the least time, of equal times that of the lowest place; `None` if no frame has
    /// a time.
    pub first: Option<Stamped>,
    /// The frame of the greatest time, of equal times that of the lowest place; `None` if no frame
    /// has a time.
    pub last: Option<Stamped>,
}

/// What a fragment did that was put into a joiner.
#[derive(Drop, Debug)]
pub enum Put {
    /// It is kept until its datagram is complete.
    Kept,
    /// It completed its datagram.
    Joined(Datagram),
}

/// Why a fragment wasn't put.
#[derive(Clone, Copy, Debug, PartialEq, Eq)]
pub enum JoinFault {
    /// Too many datagrams are incomplete. This is never returned: the oldest is given up instead.
    OpenLimit,
    /// No memory was found. The joiner is as it was.
    Memory,
}
