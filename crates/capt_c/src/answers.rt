//! What a call returns: a status, and where a capture is refused or a read failed.
ghost use Rattle.std.specs.Prelude.{◌≡◌, ℕ};
ghost use Rattle.cap_commands.specs.Jobs.{tail_of};
ghost use Rattle.capt_c.specs.Answers.{status_of, place_of_fault, order_of, format_of, status_of_result};
ghost use Rattle.capt_c.specs.Answers.{place_of_result, status_of_unit};

use cap_bytes::{Fault, Order, Tail};
use cap_source::Format;

/// All was done. A reader has no more packets.
pub const DONE: u32 = 0;

/// There was a next packet.
pub const PACKET: u32 = 1;

/// A capture breaks a rule.
pub const REFUSED: u32 = 2;

/// A read failed.
pub const READ: u32 = 3;

/// A write failed.
pub const WRITE: u32 = 4;

/// An allocation failed.
pub const MEMORY: u32 = 5;

/// A capture that is fed needs more bytes.
pub const MORE: u32 = 7;

/// The call is misused: its handle isn't open or is for other calls, it has no file, more than 32, or no room, or it
/// doesn't take a flag.
pub const MISUSE: u32 = 6;

/// Bytes of a job's text came.
pub const PIECE: u32 = 8;

/// A job has ended, whose captures differ.
pub const DIFFERENCE: u32 = 9;

/// A job has ended, of whose captures one isn't whole.
pub const NOT_WHOLE: u32 = 10;

/// Where a capture is refused, or where a read failed.
#[repr(C)]
#[derive(Clone, Copy)]
pub struct CPlace {
    /// Where the record or the block begins, in bytes.
    pub offset: u64,
    /// The number of the file, from 1; 0 if the fault is in no file.
    pub file: u32,
    /// The rule that is broken, from 1 to 21; 0 if none is.
    pub rule: u32,
}

/// No place.
pub fn nowhere() -> CPlace
    ensures { result ≡ record { offset = 0; file = 0; rule = 0 } }
{
    CPlace {
        offset: 0,
        file: 0,
        rule: 0,
    }
}

/// The status of a fault.
pub fn status_of(fault: Fault) -> u32
    ensures { result ≡ status_of fault }
{
    match fault {
        Fault::Refused(_) => REFUSED,
        Fault::Read { .. } => READ,
        Fault::Write => WRITE,
        Fault::Memory => MEMORY,
    }
}

/// The place of a fault.
pub fn place_of(fault: Fault) -> CPlace
    ensures { result ≡ place_of_fault fault }
{
    match fault {
        Fault::Refused(refusal) => CPlace {
            offset: refusal.offset,
            file: refusal.file,
            rule: u32::from(refusal.rule.number()),
        },
        Fault::Read { file, offset } => CPlace {
            offset,
            file,
            rule: 0,
        },
        Fault::Write | Fault::Memory => nowhere(),
    }
}

/// What a call returns without a fault.
pub trait Success {
    ghost status: { Self → ℕ };

    /// Its status.
    fn status(self) -> u32
        ensures { result ≡ status self };
}

impl Success for () {
    ghost status = { status_of_unit };

    fn status(self) -> u32 {
        DONE
    }
}

/// The status of a call that returns `answer`.
pub fn status_of_result<T: Success>(answer: Result<T, Fault>) -> u32
    ensures { result ≡ status_of_result T.status answer }
{
    match answer {
        Ok(success) => success.status(),
        Err(fault) => status_of(fault),
    }
}

/// The status of a call that returns `answer`; `place` becomes the place of its fault, or no place.
pub fn status_and_place<T: Success>(answer: Result<T, Fault>, place: &mut CPlace) -> u32
    ensures status { result ≡ status_of_result T.status answer }
    ensures place { place.new ≡ place_of_result answer }
{
    *place = match &answer {
        Ok(_) => nowhere(),
        Err(fault) => place_of(*fault),
    };
    status_of_result(answer)
}

/// What is done with a cut end.
pub fn tail_of(allow_cut: bool) -> Tail
    ensures { result ≡ tail_of allow_cut }
{
    if allow_cut {
        Tail::Accept
    } else {
        Tail::Refuse
    }
}

/// The byte order of what is written.
pub fn order_of(big: bool) -> Order
    ensures { result ≡ order_of big }
{
    if big { Order::Big } else { Order::Little }
}

/// The format of what is written.
pub fn format_of(pcap: bool) -> Format
    ensures { result ≡ format_of pcap }
{
    if pcap { Format::Pcap } else { Format::Pcapng }
}
