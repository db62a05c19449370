//! Why an input is refused, where, and what else can go wrong.
ghost use Rattle.std.specs.Prelude.{◌≡◌};
ghost use Rattle.cap_bytes.specs.Rules.{rule_number, rule_name};

use std::alloc::{AllocError, AllocFailed};
use thiserror::Error;

/// The rules by which a file is refused. Their numbers and names are printed, and never change.
#[derive(Clone, Copy, Debug, PartialEq, Eq)]
pub enum Rule {
    /// The first four bytes are none of the five magics.
    Magic,
    /// A pcap file isn't of version 2.4, or a pcapng section not of 1.0 or 1.2.
    Version,
    /// The input ends inside a header, a record or a block.
    Cut,
    /// The captured length is above 262,144.
    PacketLong,
    /// The total length isn't a multiple of 4, or outside what its kind of block allows.
    BlockLength,
    /// The second total length differs from the first.
    BlockTrailer,
    /// A section header's order magic is neither spelling of `1A2B3C4D`.
    OrderMagic,
    /// The captured bytes don't fit in the block's body.
    Captured,
    /// The section has no interface of that number.
    InterfaceUnknown,
    /// An option's value runs past the body.
    OptionEnd,
    /// `if_tsresol` isn't of length 1, or `if_tsoffset` not of length 8.
    OptionLength,
    /// The exponent of a resolution is above 19 (of ten) or above 63 (of two).
    Resolution,
    /// A 1,025th interface, in a section or in a written file.
    InterfaceLimit,
    /// A record or a block would end past byte 2^40.
    FileLimit,
    /// Never returned: the oldest group of fragments is given up instead.
    OpenLimit,
    /// A unit would open the 1,048,577th conversation.
    TalkLimit,
    /// A packet without a time is to be written.
    NoTime,
    /// A pcap file would need a second link type.
    LinkMixed,
    /// A time isn't whole in the pcap file's unit.
    Inexact,
    /// A pcap file's seconds would be below 0 or above 4,294,967,295.
    TimeRange,
    /// A pcap file is asked of a file that describes no interface.
    NoInterface,
}

impl Rule {
    /// The number that is printed, from 1 to 21.
    pub fn number(self) -> u8
        ensures { result ≡ rule_number self }
    {
        match self {
            Rule::Magic => 1,
            Rule::Version => 2,
            Rule::Cut => 3,
            Rule::PacketLong => 4,
            Rule::BlockLength => 5,
            Rule::BlockTrailer => 6,
            Rule::OrderMagic => 7,
            Rule::Captured => 8,
            Rule::InterfaceUnknown => 9,
            Rule::OptionEnd => 10,
            Rule::OptionLength => 11,
            Rule::Resolution => 12,
            Rule::InterfaceLimit => 13,
            Rule::FileLimit => 14,
            Rule::OpenLimit => 15,
            Rule::TalkLimit => 16,
            Rule::NoTime => 17,
            Rule::LinkMixed => 18,
            Rule::Inexact => 19,
            Rule::TimeRange => 20,
            Rule::NoInterface => 21,
        }
    }

    /// The name that is printed, as `packet-long`.
    pub fn name(self) -> &'static str
        ensures { result.now ≡ rule_name self }
    {
        match self {
            Rule::Magic => "magic",
            Rule::Version => "version",
            Rule::Cut => "cut",
            Rule::PacketLong => "packet-long",
            Rule::BlockLength => "block-length",
            Rule::BlockTrailer => "block-trailer",
            Rule::OrderMagic => "order-magic",
            Rule::Captured => "captured",
            Rule::InterfaceUnknown => "interface-unknown",
            Rule::OptionEnd => "option-end",
            Rule::OptionLength => "option-length",
            Rule::Resolution => "resolution",
            Rule::InterfaceLimit => "interface-limit",
            Rule::FileLimit => "file-limit",
            Rule::OpenLimit => "open-limit",
            Rule::TalkLimit => "talk-limit",
            Rule::NoTime => "no-time",
            Rule::LinkMixed => "link-mixed",
            Rule::Inexact => "inexact",
            Rule::TimeRange => "time-range",
            Rule::NoInterface => "no-interface",
        }
    }
}

/// Where a file is refused, and by which rule.
#[derive(Clone, Copy, Debug, PartialEq, Eq, Error)]
#[error("file {file} offset {offset} rule {} {}", .rule.number(), .rule.name())]
pub struct Refusal {
    /// Where the record or block begins, in bytes: 0 for the file header, and for
    /// `Rule::NoInterface`.
    pub offset: u64,
    /// The file's number, from 1.
    pub file: u32,
    /// The rule that is broken.
    pub rule: Rule,
}

/// What a call over files returns in place of its result.
#[derive(Clone, Copy, Debug, PartialEq, Eq, Error)]
pub enum Fault {
    /// The input breaks a rule.
    #[error("refused: {0}")]
    Refused(Refusal),
    /// A reader failed. `offset` is where the record or block begins that was being read.
    #[error("fault: read file {file} offset {offset}")]
    Read { file: u32, offset: u64 },
    /// A writer failed, or took none of some bytes.
    #[error("fault: write")]
    Write,
    /// A growth was refused.
    #[error("fault: memory")]
    Memory,
}

impl From<AllocError> for Fault {
    ghost use Rattle.cap_bytes.specs.declared.faults.Fault.TheVariants.{Memory};

    ghost from_gives = { λ _ fault. fault ≡ Memory };

    fn from(_error: AllocError) -> Fault {
        Fault::Memory
    }
}

impl<T: Drop> From<AllocFailed<T>> for Fault {
    ghost use Rattle.cap_bytes.specs.declared.faults.Fault.TheVariants.{Memory};

    ghost from_gives = { λ _ fault. fault ≡ Memory };

    fn from(_error: AllocFailed<T>) -> Fault {
        Fault::Memory
    }
}

/// What is done with an input that ends inside a record or a block.
#[derive(Clone, Copy, Debug, PartialEq, Eq)]
pub enum Tail {
    /// It is refused by `Rule::Cut`.
    Refuse,
    /// The cut rest is dropped, and the file is noted as cut. A cut file header, or a cut first
    /// block, is refused all the same.
    Accept,
}
