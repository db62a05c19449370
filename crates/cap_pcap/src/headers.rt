//! The header of a pcap file. draft-ietf-opsawg-pcap, 4.
ghost use Rattle.std.specs.Prelude.{◌≡◌, true, false, ◌≤◌, ◌^◌, ◌||◌, length, IsTrue, is_err, IsOkUnless, Some, IfSome};
ghost use Rattle.std.specs.Prelude.{IfNone};
ghost use Rattle.cap_bytes.specs.Device.{Puts, WriterKeeps, writer_of};
ghost use Rattle.cap_bytes.specs.inner.Reach.{Reaches};
ghost use Rattle.cap_bytes.specs.inner.Window.{WindowKeeps, position, read_to};
ghost use Rattle.cap_pcap.specs.Grammar.{magic_of, header_bytes};
ghost use Rattle.cap_pcap.specs.inner.Parsing.{HasMagic, ParsesPcapHeader, LooksForHeader};
ghost use Rattle.cap_pcap.specs.Split.{is_magic, pcap_unit_at};

use cap_bytes::{
    FILE_LIMIT, Fault, Order, Refusal, Rule, Sink, Source, Window, put_all, put_u16, put_u32,
    u16_at, u32_at,
};
use cap_time::Unit;

/// How many bytes a file's header takes.
pub const HEADER_SIZE: usize = 24;

const MICRO: u32 = 0xA1B2_C3D4;

const NANO: u32 = 0xA1B2_3C4D;

/// What the header of a pcap file says. draft-ietf-opsawg-pcap, 4.
#[derive(Clone, Copy, Debug, PartialEq, Eq)]
pub struct PcapHeader {
    /// The order of all numbers in the file.
    pub order: Order,
    /// The unit in which the records count the fraction of a second.
    pub unit: Unit,
    /// The most bytes that were to be captured of a packet. No record is held to it.
    pub snaplen: u32,
    /// The link type: the low 16 bits of the link word.
    pub link: u16,
}

// The unit that the magic at the front tells, read in that order.
fn unit_in(order: Order, bytes: &[u8]) -> Option<Unit>
    requires { 4 ≤ length bytes.now }
    ensures found { IfSome result (λ unit. (is_magic order bytes.now ≡ true)
        × (unit ≡ pcap_unit_at order bytes.now)) }
    ensures none { IfNone result (is_magic order bytes.now ≡ false) }
{
    match u32_at(order, bytes, 0) {
        MICRO => Some(Unit::Micro),
        NANO => Some(Unit::Nano),
        _ => None,
    }
}

// The order in which the magic at the front reads, and the unit that it tells.
fn spelling_of(bytes: &[u8]) -> Option<(Order, Unit)>
    requires { 4 ≤ length bytes.now }
    ensures found { IfSome result (λ spelling. HasMagic bytes.now spelling.0 spelling.1) }
    ensures none { IfNone result ((is_magic Order.Big bytes.now ≡ false)
        × (is_magic Order.Little bytes.now ≡ false)) }
{
    if let Some(unit) = unit_in(Order::Big, bytes) {
        return Some((Order::Big, unit));
    }
    if let Some(unit) = unit_in(Order::Little, bytes) {
        return Some((Order::Little, unit));
    }
    None
}

/// The header that stands at the front of some bytes, which begin at `offset`. If there is none,
/// the first rule that is broken; `Rule::Cut` if they are too few.
#[tactic(auto, unfolding(crate::specs::Split::pcap_header_fault, crate::specs::Split::header_at))]
pub fn find_header(offset: u64, bytes: &[u8]) -> Result<PcapHeader, Rule>
    requires { offset ≤ 2 ^ 40 }
    ensures parses { ParsesPcapHeader offset bytes.now result }
{
    if bytes.len() < 4 {
        return Err(Rule::Cut);
    }
    let Some((order, unit)) = spelling_of(bytes) else {
        return Err(Rule::Magic);
    };
    if bytes.len() < HEADER_SIZE {
        return Err(Rule::Cut);
    }
    if u16_at(order, bytes, 4) != 2 || u16_at(order, bytes, 6) != 4 {
        return Err(Rule::Version);
    }
    if offset + HEADER_SIZE as u64 > FILE_LIMIT {
        return Err(Rule::FileLimit);
    }
    Ok(PcapHeader {
        order,
        unit,
        snaplen: u32_at(order, bytes, 16),
        link: (u32_at(order, bytes, 20) % 0x1_0000) as u16,
    })
}

/// Looks for the header at the front of a window, which shows it then.
pub fn look_for_header<R: Source>(
    window: &mut Window<R>,
) -> Result<Result<PcapHeader, Refusal>, Fault>
    ensures answer { LooksForHeader window.old result window.new }
    ensures reaches { Reaches (λ _. Some 24) 24 (position window.old) result (read_to window.new) }
    ensures offset { window.new.offset ≡ window.old.offset }
    ensures keeps { WindowKeeps window.old window.new }
{
    let file = window.file();
    let offset = window.offset();
    window.need(HEADER_SIZE)?;
    match find_header(offset, window.bytes()) {
        Ok(header) => Ok(Ok(header)),
        Err(rule) => Ok(Err(Refusal { file, offset, rule })),
    }
}

// The magic that tells a unit.
fn magic_number(unit: Unit) -> u32
    ensures { result ≡ magic_of unit }
{
    match unit {
        Unit::Micro => MICRO,
        Unit::Nano => NANO,
    }
}

// The bytes that are written for a header.
fn header_bytes(header: &PcapHeader) -> [u8; HEADER_SIZE]
    ensures { result ≡ header_bytes header.now }
{
    let mut bytes = [0; HEADER_SIZE];
    put_u32(header.order, &mut bytes, 0, magic_number(header.unit));
    put_u16(header.order, &mut bytes, 4, 2);
    put_u16(header.order, &mut bytes, 6, 4);
    put_u32(header.order, &mut bytes, 8, 0);
    put_u32(header.order, &mut bytes, 12, 0);
    put_u32(header.order, &mut bytes, 16, header.snaplen);
    put_u32(header.order, &mut bytes, 20, header.link as u32);
    bytes
}

/// Writes a file's header: 24 bytes, of version 2.4, with 0 in the reserved fields. Takes no memory.
/// Returns `Fault::Write`, and no other fault, if the writer failed: a prefix is written then.
/// draft-ietf-opsawg-pcap, 4.
pub fn put_header<W: Sink>(writer: &mut W, header: &PcapHeader) -> Result<(), Fault>
    ensures bytes { IsTrue (W.tells_held writer.old)
        → Puts (W.held writer.old) result (W.held writer.new) (header_bytes header.now) }
    ensures writer { WriterKeeps (writer_of W.Sink writer.old) (is_err result) (writer_of W.Sink writer.new) }
    ensures fault { IsOkUnless result Fault.Write }
{
    put_all(writer, &header_bytes(header))
}
