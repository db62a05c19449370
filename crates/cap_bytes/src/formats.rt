//! The two formats of captures.
ghost use Rattle.std.specs.Prelude.{◌≡◌};

/// The format of a capture file.
#[derive(Clone, Copy, Debug, PartialEq, Eq)]
pub enum Format {
    /// Pcap 2.4. draft-ietf-opsawg-pcap.
    Pcap,
    /// Pcapng 1.0 and 1.2. draft-ietf-opsawg-pcapng.
    Pcapng,
}

impl Format {
    ghost use Rattle.cap_bytes.specs.Formats.{format_name};

    /// The name that is printed: `pcap` or `pcapng`.
    pub fn name(&self) -> &'static str
        ensures { result.now ≡ format_name self.now }
    {
        match self {
            Format::Pcap => "pcap",
            Format::Pcapng => "pcapng",
        }
    }
}
