//! What a caller asks for in one number.
ghost use Rattle.std.specs.Prelude.{◌≡◌, ◌<◌};
ghost use Rattle.capt_c.specs.Flags.{flags_in, flags_taken, has_bit, takes_each};

/// The flags that a caller sets, or those that a call takes.
#[derive(Clone, Copy)]
pub struct Flags {
    /// A last record or block that is cut off is dropped.
    pub allow_cut: bool,
    /// The numbers of what is written are big-endian.
    pub big: bool,
    /// What is written is a pcap file.
    pub to_pcap: bool,
    /// IPv6 packets are read.
    pub ipv6: bool,
}

/// The flags of a call that reads captures.
pub const CUT_ALONE: Flags = Flags {
    allow_cut: true,
    big: false,
    to_pcap: false,
    ipv6: false,
};

/// The flags of a call that reports on captures.
pub const CUT_AND_IPV6: Flags = Flags {
    allow_cut: true,
    big: false,
    to_pcap: false,
    ipv6: true,
};

/// The flags of a call that writes a capture.
pub const CUT_AND_FORM: Flags = Flags {
    allow_cut: true,
    big: true,
    to_pcap: true,
    ipv6: false,
};

/// The flags of a call that writes packets.
pub const FORM_ALONE: Flags = Flags {
    allow_cut: false,
    big: true,
    to_pcap: true,
    ipv6: false,
};

/// Whether a number has the bit of that value, a power of two.
pub(crate) fn has_bit(number: u32, bit: u32) -> bool
    requires { 0 < bit }
    ensures { result ≡ has_bit number bit }
{
    number / bit % 2 == 1
}

/// The flags that a number has.
pub(crate) fn flags_in(number: u32) -> Flags
    ensures { result ≡ flags_in number }
{
    Flags {
        allow_cut: has_bit(number, 1),
        big: has_bit(number, 2),
        to_pcap: has_bit(number, 4),
        ipv6: has_bit(number, 8),
    }
}

/// Whether a call that takes the first flags takes each of the second.
pub(crate) fn takes_each(taken: Flags, flags: Flags) -> bool
    ensures { result ≡ takes_each taken flags }
{
    (taken.allow_cut || !flags.allow_cut)
        && (taken.big || !flags.big)
        && (taken.to_pcap || !flags.to_pcap)
        && (taken.ipv6 || !flags.ipv6)
}

/// The flags that a number has, if a call takes each of them.
pub fn flags_taken(taken: Flags, number: u32) -> Option<Flags>
    ensures { result ≡ flags_taken taken number }
{
    let flags = flags_in(number);
    // from 16 on a number has a bit that is no flag
    if number < 16 && takes_each(taken, flags) {
        Some(flags)
    } else {
        None
    }
}
