//! Values from outside: what the rules are called, and inputs that are cut, fail or are refused
//! memory at every place.
ghost use Rattle.std.specs.Prelude.{◌≤◌};

use crate::checks::{holds, same};
use cap_bytes::{
    Broken, CutRest, Device, Fault, Order, Pieces, Refusal, Room, Rule, Sink, Source, Stop, Tail,
    Tracked, Window, put_all, put_u16, put_u32, put_u64, u16_at, u32_at, u64_at,
};
use std::alloc::Global;
use std::cmp::max;
use std::io;
use std::io::{ErrorKind, Read, Write};
use std::process::Abort;

// A rule that 19 bytes break, which are the rest of a file.
const CUT: Refusal = Refusal {
    file: 2,
    offset: 24,
    rule: Rule::Cut,
};

// What ends the pieces of a file there: the rest, if it is dropped, and what a call for a piece returns.
fn ends(
    inside: bool,
    tail: Tail,
    refusal: Refusal,
) -> (Option<CutRest>, Result<Option<u8>, Fault>) {
    let stop = Stop::by(inside, tail, refusal, 19);
    (stop.cut(), stop.answer())
}

#[test]
fn a_cut_rest_is_dropped_or_refused(rt: HostRuntime) {
    let rest = CutRest {
        offset: 24,
        size: 19,
    };
    let short = Refusal {
        rule: Rule::BlockTrailer,
        ..CUT
    };
    same!(&rt; ends(true, Tail::Accept, CUT), (Some(rest), Ok(None)));
    same!(&rt; ends(true, Tail::Refuse, CUT), (None, Err(Fault::Refused(CUT))));
    same!(&rt; ends(false, Tail::Accept, CUT), (None, Err(Fault::Refused(CUT))));
    same!(&rt; ends(true, Tail::Accept, short), (None, Err(Fault::Refused(short))));
    same!(&rt; Stop::End.cut(), None);
}

const RULES: [(Rule, u8, &str); 21] = [
    (Rule::Magic, 1, "magic"),
    (Rule::Version, 2, "version"),
    (Rule::Cut, 3, "cut"),
    (Rule::PacketLong, 4, "packet-long"),
    (Rule::BlockLength, 5, "block-length"),
    (Rule::BlockTrailer, 6, "block-trailer"),
    (Rule::OrderMagic, 7, "order-magic"),
    (Rule::Captured, 8, "captured"),
    (Rule::InterfaceUnknown, 9, "interface-unknown"),
    (Rule::OptionEnd, 10, "option-end"),
    (Rule::OptionLength, 11, "option-length"),
    (Rule::Resolution, 12, "resolution"),
    (Rule::InterfaceLimit, 13, "interface-limit"),
    (Rule::FileLimit, 14, "file-limit"),
    (Rule::OpenLimit, 15, "open-limit"),
    (Rule::TalkLimit, 16, "talk-limit"),
    (Rule::NoTime, 17, "no-time"),
    (Rule::LinkMixed, 18, "link-mixed"),
    (Rule::Inexact, 19, "inexact"),
    (Rule::TimeRange, 20, "time-range"),
    (Rule::NoInterface, 21, "no-interface"),
];

#[test]
fn rules_have_their_numbers_and_names(rt: HostRuntime) {
    for &(rule, number, name) in &RULES {
        same!(&rt; rule.number(), number);
        same!(&rt; rule.name(), name);
    }
}

// A fault prints as that line.
fn prints(rt: &impl Abort, alloc: Global, fault: Fault, line: &str) {
    let printed = format!(in alloc; "{fault}").expect(rt, "memory");
    same!(rt; printed.as_str(), line);
}

#[test]
fn faults_print_one_line(rt: HostRuntime) {
    let refused = Fault::Refused(Refusal {
        file: 2,
        offset: 24,
        rule: Rule::BlockTrailer,
    });
    prints(
        &rt,
        rt.alloc(),
        refused,
        "refused: file 2 offset 24 rule 6 block-trailer",
    );
    let read = Fault::Read {
        file: 1,
        offset: 24,
    };
    prints(&rt, rt.alloc(), read, "fault: read file 1 offset 24");
    prints(&rt, rt.alloc(), Fault::Write, "fault: write");
    prints(&rt, rt.alloc(), Fault::Memory, "fault: memory");
}

// Numbers of 2, 4 and 8 bytes, with a byte before and one after them.
fn written(order: Order, short: u16, middle: u32, long: u64) -> [u8; 16] {
    let mut bytes = [0xff; 16];
    put_u16(order, &mut bytes, 1, short);
    put_u32(order, &mut bytes, 3, middle);
    put_u64(order, &mut bytes, 7, long);
    bytes
}

#[test]
fn numbers_in_both_orders(rt: HostRuntime) {
    let bytes = [9, 1, 2, 3, 4, 5, 6, 7, 8];
    same!(&rt; u16_at(Order::Big, &bytes, 1), 0x0102);
    same!(&rt; u16_at(Order::Little, &bytes, 1), 0x0201);
    same!(&rt; u32_at(Order::Big, &bytes, 1), 0x0102_0304);
    same!(&rt; u32_at(Order::Little, &bytes, 1), 0x0403_0201);
    same!(&rt; u64_at(Order::Big, &bytes, 1), 0x0102_0304_0506_0708);
    same!(&rt; u64_at(Order::Little, &bytes, 1), 0x0807_0605_0403_0201);
    let big = written(Order::Big, 0x0102, 0x0304_0506, 0x0708_090a_0b0c_0d0e);
    same!(&rt;
        big,
        [0xff, 1, 2, 3, 4, 5, 6, 7, 8, 9, 10, 11, 12, 13, 14, 0xff]
    );
    let little = written(Order::Little, 0x0201, 0x0605_0403, 0x0e0d_0c0b_0a09_0807);
    same!(&rt; little, big);
}

// The bytes 0, 1, 2, .. of a file that is `length` long; the byte at a place is the place modulo 251.
fn counted(rt: &impl Abort, alloc: Global, length: usize) -> Vec<u8> {
    let mut bytes = match Vec::with_capacity(alloc, length) {
        Ok(bytes) => bytes,
        // Only one allocation is refused.
        Err(_) => Vec::with_capacity(alloc, length).expect(rt, "memory"),
    };
    for place in 0..length {
        bytes.push((place % 251) as u8).expect(rt, "memory");
    }
    bytes
}

// Drops n bytes if they are shown.
fn pass_shown<R: Source>(window: &mut Window<R>, n: usize) -> bool {
    if window.offset() <= 1 << 30 && n <= 1 << 20 && n <= window.bytes().len() {
        window.pass(n);
        return true;
    }
    false
}

// A call again, after the first ran out of memory: what a growth refused in turn leaves.
fn need<R: Source>(window: &mut Window<R>, n: usize) -> Result<bool, Fault>
    requires { n ≤ 524288 }
{
    match window.need(n) {
        Err(Fault::Memory) => window.need(n),
        answer => answer,
    }
}

// The same of a skip, of a place that is far from the limit of a file.
fn skip<R: Source>(window: &mut Window<R>, n: u32) -> Result<bool, Fault> {
    if window.offset() > 1 << 30 {
        return Ok(false);
    }
    match window.skip(u64::from(n)) {
        Err(Fault::Memory) if window.offset() <= 1 << 30 => window.skip(u64::from(n)),
        answer => answer,
    }
}

// What is asked of a window.
#[derive(Clone, Copy, Debug)]
enum Asked {
    Need(usize),
    Pass(usize),
    Skip(u32),
}

fn answer<R: Source>(window: &mut Window<R>, asked: Asked) -> Result<bool, Fault> {
    match asked {
        Asked::Need(n) => need(window, n.min(524_288)),
        Asked::Pass(n) => Ok(pass_shown(window, n)),
        Asked::Skip(n) => skip(window, n),
    }
}

// Steps over a file of 70,000 bytes: the answer of each, the offset then, and a place where the window shows the byte
// of the file that stands as far from the offset.
const STEPS: [(Asked, bool, u64, Option<usize>); 7] = [
    (Asked::Need(3), true, 0, Some(0)),
    (Asked::Pass(3), true, 3, None),
    (Asked::Need(66_000), true, 3, Some(65_999)),
    (Asked::Skip(69_990), true, 69_993, None),
    (Asked::Need(7), true, 69_993, Some(6)),
    (Asked::Need(8), false, 69_993, Some(0)),
    (Asked::Skip(8), false, 70_000, None),
];

// A window at an offset shows the byte of the file that stands that far from it.
fn shows_at<R: Source>(rt: &impl Abort, window: &Window<R>, offset: u64, place: usize) {
    let byte = window.bytes().get(place).copied();
    let expected = (offset.saturating_add(place as u64) % 251) as u8;
    same!(rt; byte, Some(expected), (offset, place));
}

// A step is answered so, and leaves the window at that offset.
fn takes_step<R: Source>(
    rt: &impl Abort,
    window: &mut Window<R>,
    asked: Asked,
    wanted: bool,
    offset: u64,
) {
    same!(rt; answer(window, asked), Ok(wanted), asked);
    same!(rt; window.offset(), offset, asked);
    holds!(rt; window.held() <= 524_288);
}

// The window is at the file's end.
fn is_at_end<R: Source>(rt: &impl Abort, window: &Window<R>) {
    holds!(rt; window.bytes().is_empty());
    same!(rt; window.read_to(), 70_000);
    same!(rt; window.file(), 7);
    holds!(rt; !window.failed());
}

// Each step is answered as its row says, and the last leaves the window at the end.
fn takes_steps<R: Source>(rt: &impl Abort, window: &mut Window<R>) {
    for &(asked, wanted, offset, shown) in &STEPS {
        takes_step(rt, window, asked, wanted, offset);
        if let Some(place) = shown {
            shows_at(rt, window, offset, place);
        }
    }
    is_at_end(rt, window);
}

#[test]
fn always_memory_a_window_shows_the_next_bytes_or_the_end(rt: HostRuntime) {
    for &piece in &[1, 2, 4_096] {
        let pieces = Pieces::new(counted(&rt, rt.alloc(), 70_000), max(piece, 1), None);
        let mut window = Window::new(rt.alloc(), pieces, 7);
        takes_steps(&rt, &mut window);
    }
}

// Bytes come by four, and a window shows what was read.
#[test]
fn always_memory_a_window_shows_what_was_read(rt: HostRuntime) {
    let pieces = Pieces::new(counted(&rt, rt.alloc(), 10), 4, None);
    let mut window = Window::new(rt.alloc(), pieces, 3);
    holds!(&rt; !window.has_buffered(1));
    same!(&rt; need(&mut window, 3), Ok(true));
    same!(&rt; (window.offset(), window.read_to()), (0, 4));
    holds!(&rt; window.has_buffered(4));
    holds!(&rt; !window.has_buffered(5));
}

// Reads 10 bytes by a window: shows 4, drops them, and skips 6.
fn walk<R: Source>(window: &mut Window<R>) -> Result<bool, Fault> {
    if !need(window, 4)? || !pass_shown(window, 4) {
        return Ok(false);
    }
    skip(window, 6)
}

// The walk ends in a fault, and each call after it too.
fn fails_again<R: Source>(rt: &impl Abort, window: &mut Window<R>, fault: Fault) {
    same!(rt; walk(window), Err(fault));
    holds!(rt; window.failed());
    same!(rt; window.need(0), Err(fault));
    same!(rt; skip(window, 1), Err(fault));
}

// A window on a file of 10 bytes, of which the read with that number fails.
fn ten(rt: &impl Abort, alloc: Global, failing: u64) -> Window<Pieces> {
    let pieces = Pieces::new(counted(rt, alloc, 10), 1, Some(failing));
    Window::new(alloc, pieces, 3)
}

#[test]
fn a_window_that_failed_answers_so_again(rt: HostRuntime) {
    for failing in 1..=10 {
        // A look at the first 4 bytes stands at 0; a skip stands where it has come to.
        let offset = if failing <= 4 { 0 } else { failing - 1 };
        let fault = Fault::Read { file: 3, offset };
        fails_again(&rt, &mut ten(&rt, rt.alloc(), failing), fault);
    }
    same!(&rt; walk(&mut ten(&rt, rt.alloc(), 11)), Ok(true));
}

// The writer takes no more than the first bytes of a text.
fn takes_prefix(rt: &impl Abort, writer: &mut Room, text: &[u8], room: usize) {
    same!(rt; put_all(writer, text), Err(Fault::Write));
    holds!(rt; writer.failed());
    same!(rt; writer.bytes().len(), room);
    holds!(rt; text.starts_with(writer.bytes()));
}

#[test]
fn a_writer_that_fails_has_taken_a_prefix(rt: HostRuntime) {
    let text = b"0123456789";
    for room in 0..10 {
        let mut writer = Room::new(Vec::with_capacity(rt.alloc(), room).expect(&rt, "memory"));
        takes_prefix(&rt, &mut writer, text, room);
    }
    let mut writer = Room::new(Vec::with_capacity(rt.alloc(), 10).expect(&rt, "memory"));
    same!(&rt; put_all(&mut writer, text), Ok(()));
    same!(&rt; writer.bytes(), text.as_slice());
}

// Takes bytes one by one, and none once `left` is 0.
#[derive(Drop)]
struct Full {
    left: u32,
}

impl Write for Full {
    fn write(&mut self, bytes: &[u8]) -> io::Result<usize> {
        if self.left == 0 || bytes.is_empty() {
            return Ok(0);
        }
        self.left -= 1;
        Ok(1)
    }

    fn flush(&mut self) -> io::Result<()> {
        Ok(())
    }
}

#[test]
fn a_writer_that_takes_nothing_has_failed(rt: HostRuntime) {
    for left in 0..10 {
        let mut writer = Tracked::new(Full { left });
        same!(&rt; put_all(&mut writer, b"0123456789"), Err(Fault::Write));
        holds!(&rt; writer.failed());
    }
    let mut writer = Tracked::new(Full { left: 10 });
    same!(&rt; put_all(&mut writer, b"0123456789"), Ok(()));
    holds!(&rt; !writer.failed());
}

// The window shows ten bytes, and no more.
fn shows_ten<R: Source>(rt: &impl Abort, window: &mut Window<R>, bytes: &[u8]) {
    same!(rt; need(window, 10), Ok(true));
    same!(rt; window.bytes(), bytes);
    same!(rt; need(window, 11), Ok(false));
}

#[test]
fn a_standard_reader_is_read_to_its_end(rt: HostRuntime) {
    let bytes = b"0123456789";
    let mut window = Window::new(rt.alloc(), Tracked::new(bytes.as_slice()), 1);
    shows_ten(&rt, &mut window, bytes);
}

// Shows that many bytes, also if asked again, and fails to read the next.
fn reads_just<R: Source>(rt: &impl Abort, window: &mut Window<R>, n: usize)
    requires { n ≤ 9 }
{
    same!(rt; need(window, n), Ok(true));
    same!(rt; window.bytes().len(), n);
    same!(rt; need(window, n), Ok(true));
    let fault = Fault::Read { file: 3, offset: 0 };
    same!(rt; need(window, n + 1), Err(fault));
}

// Reads no further than it is asked: the next read would fail.
#[test]
fn a_window_reads_no_further(rt: HostRuntime) {
    for n in 1..=9 {
        reads_just(&rt, &mut ten(&rt, rt.alloc(), n as u64 + 1), n);
    }
}

// Errs at the first call of each kind, and then reads and takes one byte at a time.
#[derive(Drop)]
struct ErrsOnce {
    kind: ErrorKind,
    reads: u32,
    writes: u32,
}

impl Read for ErrsOnce {
    fn read(&mut self, buffer: &mut [u8]) -> io::Result<usize> {
        self.reads = self.reads.saturating_add(1);
        if self.reads == 1 {
            return Err(self.kind.into());
        }
        let Some(slot) = buffer.first_mut() else {
            return Ok(0);
        };
        *slot = 7;
        Ok(1)
    }
}

impl Write for ErrsOnce {
    fn write(&mut self, bytes: &[u8]) -> io::Result<usize> {
        self.writes = self.writes.saturating_add(1);
        if self.writes == 1 {
            return Err(self.kind.into());
        }
        Ok(bytes.len().min(1))
    }

    fn flush(&mut self) -> io::Result<()> {
        Ok(())
    }
}

// Any error is a failure at once: a read and a write that err are asked for once each.
fn errs_once(rt: &impl Abort, kind: ErrorKind) {
    let inner = ErrsOnce {
        kind,
        reads: 0,
        writes: 0,
    };
    let mut device = Tracked::new(inner);
    let mut buffer = [0; 4];
    same!(rt; device.take(&mut buffer), Err(Broken));
    holds!(rt; device.failed());
    same!(rt; device.give(b"0123"), Err(Broken));
    let inner = device.into_inner();
    same!(rt; (inner.reads, inner.writes), (1, 1));
}

#[test]
fn an_error_is_told_at_once(rt: HostRuntime) {
    errs_once(&rt, ErrorKind::Interrupted);
    errs_once(&rt, ErrorKind::Other);
}
