//! Laws of what is left out, and of the unit of time that is asked for.
ghost use Rattle.cap_write.specs.LeftOut.{LeftOutLaw};
ghost use Rattle.cap_write.specs.Units.{AskedUnit, OwnUnit};

/// Each packet of a run is left out by `join` or in a datagram that it writes, and not both: the packets of each class
/// but the counted ones are left out, and of these exactly those that are truncated.
pub fn left_out_law()
    ensures { LeftOutLaw }
{}

/// A pcap file has the unit of time that is asked for, and the byte order, the snaplen and the link that it has without
/// it. If it has that unit without it too, the file is the same.
pub fn asked_unit()
    ensures header { AskedUnit }
    ensures own { OwnUnit }
{}
