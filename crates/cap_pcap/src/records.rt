//! The records of a pcap file. draft-ietf-opsawg-pcap, 5.
ghost use Rattle.std.specs.Prelude.{◌≡◌, ◌+◌, ◌≤◌, ◌^◌, length, take, IsTrue, IsNone, IfSome, OnSome, is_err};
ghost use Rattle.std.specs.Prelude.{IsOkUnless};
ghost use Rattle.cap_bytes.specs.Device.{Puts, WriterKeeps, writer_of};
ghost use Rattle.cap_bytes.specs.inner.Reach.{Reaches, size_found};
ghost use Rattle.cap_bytes.specs.inner.Window.{WindowKeeps, WindowPasses, coming, position, read_to};
ghost use Rattle.cap_bytes.specs.declared.faults.Tail.{Tail};
ghost use Rattle.cap_pcap.specs.Grammar.{head_bytes, record_bytes};
ghost use Rattle.cap_pcap.specs.inner.Finding.{FindsRecord};
ghost use Rattle.cap_pcap.specs.inner.Parsing.{Measures, LooksForRecord, SeesRecord};
ghost use Rattle.cap_pcap.specs.inner.Reader.{record_size};
ghost use Rattle.cap_pcap.specs.Split.{record_at, captured_at};

use crate::headers::PcapHeader;
use cap_bytes::{
    FILE_LIMIT, Fault, Order, PACKET_LIMIT, Refusal, Rule, Sink, Source, Stop, Tail, Window,
    put_all, put_u32, u32_at,
};
use cap_time::Unit;

/// What a record says of its packet. draft-ietf-opsawg-pcap, 5.
#[derive(Clone, Copy, Debug, PartialEq, Eq)]
pub struct Record {
    /// Where the record begins, in bytes.
    pub offset: u64,
    /// When the packet was captured, in the file's units since 1970. A fraction of a second or more
    /// has carried into the seconds.
    pub units: u64,
    /// How many bytes were captured of it, at most 262,144.
    pub captured: u32,
    /// How many bytes it had.
    pub original: u32,
}

/// A packet's time as a record holds it. draft-ietf-opsawg-pcap, 5.
#[derive(Clone, Copy, Debug, PartialEq, Eq)]
pub struct RecordTime {
    /// The whole seconds since 1970.
    pub seconds: u32,
    /// What is left of it, in the file's unit.
    pub fraction: u32,
}

/// How many bytes stand in front of a record's captured bytes.
pub const HEAD_SIZE: usize = 16;

// How many bytes the record takes that begins with these, or the first rule that its captured length
// breaks.
#[tactic(auto, unfolding(crate::specs::Split::record_fault))]
fn measure(order: Order, offset: u64, bytes: &[u8]) -> Result<usize, Rule>
    requires head { 16 ≤ length bytes.now }
    requires limit { offset ≤ 2 ^ 40 }
    ensures { Measures order offset bytes.now result }
{
    let captured = u32_at(order, bytes, 8);
    if captured > PACKET_LIMIT {
        return Err(Rule::PacketLong);
    }
    let size = HEAD_SIZE + captured as usize;
    if offset + size as u64 > FILE_LIMIT {
        return Err(Rule::FileLimit);
    }
    Ok(size)
}

// The record that begins with these bytes, in that order.
#[tactic(auto, unfolding(crate::specs::Split::record_at))]
#[inline(always)]
fn record_in(order: Order, unit: Unit, offset: u64, bytes: &[u8]) -> Record
    requires { 16 ≤ length bytes.now }
    ensures { result ≡ record_at order unit offset bytes.now }
{
    let seconds = u32_at(order, bytes, 0) as u64;
    let fraction = u32_at(order, bytes, 4) as u64;
    Record {
        offset,
        units: seconds * unit.in_second() as u64 + fraction,
        captured: u32_at(order, bytes, 8),
        original: u32_at(order, bytes, 12),
    }
}

// The record of a file that begins with these bytes. Each order has a way of its own: on one for both, each number is
// read in both.
#[inline(always)]
fn record_of(header: PcapHeader, offset: u64, bytes: &[u8]) -> Record
    requires { 16 ≤ length bytes.now }
    ensures { result ≡ record_at header.order header.unit offset bytes.now }
{
    match header.order {
        Order::Little => record_in(Order::Little, header.unit, offset, bytes),
        Order::Big => record_in(Order::Big, header.unit, offset, bytes),
    }
}

/// The record that stands whole at the front of some bytes, which begin at `offset`. If there is none, the first rule
/// that is broken; `Rule::Cut` if they are too few. draft-ietf-opsawg-pcap, 5.
#[tactic(auto, unfolding(crate::specs::Split::record_fault))]
pub fn find_record(header: PcapHeader, offset: u64, bytes: &[u8]) -> Result<Record, Rule>
    requires { offset ≤ 2 ^ 40 }
    ensures { FindsRecord header offset bytes.now result }
{
    if bytes.len() < HEAD_SIZE {
        return Err(Rule::Cut);
    }
    let size = measure(header.order, offset, bytes)?;
    if size > bytes.len() {
        return Err(Rule::Cut);
    }
    Ok(record_of(header, offset, bytes))
}

// Passes the first bytes that a window shows, if it shows a whole record after them.
#[inline(always)]
pub fn try_next_buffered<R: Source>(
    window: &mut Window<R>,
    given: usize,
    header: PcapHeader,
) -> Option<Record>
    requires given { given ≤ length window.old.shown }
    requires limit { window.old.offset + given ≤ 2 ^ 40 }
    ensures passes { OnSome result (WindowPasses given window.old window.new) }
    ensures held { OnSome result (window.new.held ≤ 524288) }
    ensures sees { IfSome result (λ r. (tail : Tail) → SeesRecord header tail r window.new window.new) }
    ensures none { IsNone result → window.new ≡ window.old }
{
    if !window.has_buffered(given + HEAD_SIZE) {
        return None;
    }
    let (_, bytes) = window.bytes().split_at(given);
    let offset = window.offset() + given as u64;
    match measure(header.order, offset, bytes) {
        Ok(size) => {
            if bytes.len() < size {
                return None;
            }
            let record = record_of(header, offset, bytes);
            window.pass(given);
            Some(record)
        }
        Err(_) => None,
    }
}

/// Looks for a record at the front of a window, which shows it whole then.
pub fn look_for_record<R: Source>(
    window: &mut Window<R>,
    header: PcapHeader,
    tail: Tail,
) -> Result<Result<Record, Stop>, Fault>
    ensures answer { LooksForRecord header tail window.old result window.new }
    ensures reaches { Reaches (size_found record_size) (16 + captured_at header.order (coming window.old))
        (position window.old) result (read_to window.new) }
    ensures offset { window.new.offset ≡ window.old.offset }
    ensures keeps { WindowKeeps window.old window.new }
{
    let file = window.file();
    let offset = window.offset();
    let cut = Refusal {
        file,
        offset,
        rule: Rule::Cut,
    };
    if !window.need(HEAD_SIZE)? {
        return Ok(Err(if window.bytes().is_empty() {
            Stop::End
        } else {
            Stop::by(true, tail, cut, window.bytes().len() as u64)
        }));
    }
    let size = match measure(header.order, offset, window.bytes()) {
        Ok(size) => size,
        Err(rule) => {
            let size = window.bytes().len() as u64;
            return Ok(Err(Stop::by(true, tail, Refusal { file, offset, rule }, size)));
        }
    };
    if !window.need(size)? {
        return Ok(Err(Stop::by(true, tail, cut, window.bytes().len() as u64)));
    }
    Ok(Ok(record_of(header, offset, window.bytes())))
}

// The bytes that are written in front of a packet's captured bytes.
fn record_head(order: Order, time: RecordTime, captured: u32, original: u32) -> [u8; HEAD_SIZE]
    ensures { result ≡ head_bytes order time.seconds time.fraction captured original }
{
    let mut bytes = [0; HEAD_SIZE];
    put_u32(order, &mut bytes, 0, time.seconds);
    put_u32(order, &mut bytes, 4, time.fraction);
    put_u32(order, &mut bytes, 8, captured);
    put_u32(order, &mut bytes, 12, original);
    bytes
}

// The most captured bytes of a packet whose record is put together before it is written: for so few a copy costs less
// than a call of the writer.
const SMALL: usize = 112;

// Puts a record of few captured bytes at the front of some bytes.
#[inline(always)]
fn fill_record(bytes: &mut [u8; 128], order: Order, time: RecordTime, original: u32, frame: &[u8])
    requires { length frame.now ≤ 112 }
    ensures { take (16 + length frame.now) bytes.new
        ≡ record_bytes order time.seconds time.fraction original frame.now }
{
    let head = record_head(order, time, frame.len() as u32, original);
    let (front, rest) = bytes.split_at_mut(HEAD_SIZE);
    front.copy_from_slice(&head);
    rest.split_at_mut(frame.len()).0.copy_from_slice(frame);
}

/// Writes a record: 16 bytes and then `frame`, the bytes that were captured of a packet of the `original`
/// length. Takes no memory. Returns `Fault::Write`, and no other fault, if the writer failed: a prefix is
/// written then. draft-ietf-opsawg-pcap, 5.
pub fn put_record<W: Sink>(
    writer: &mut W,
    order: Order,
    time: RecordTime,
    original: u32,
    frame: &[u8],
) -> Result<(), Fault>
    requires { length frame.now ≤ 262144 }
    ensures bytes { IsTrue (W.tells_held writer.old)
        → Puts (W.held writer.old) result (W.held writer.new)
        (record_bytes order time.seconds time.fraction original frame.now) }
    ensures writer { WriterKeeps (writer_of W.Sink writer.old) (is_err result) (writer_of W.Sink writer.new) }
    ensures fault { IsOkUnless result Fault.Write }
{
    if frame.len() <= SMALL {
        let mut record = [0; 128];
        fill_record(&mut record, order, time, original, frame);
        return put_all(writer, record.split_at(HEAD_SIZE + frame.len()).0);
    }
    let head = record_head(order, time, frame.len() as u32, original);
    put_all(writer, &head)?;
    put_all(writer, frame)
}
