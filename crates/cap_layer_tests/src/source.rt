//! The packets of whole files, by one byte a read and by many. The files and what they give are worked out by hand from
//! draft-ietf-opsawg-pcap and draft-ietf-opsawg-pcapng.
ghost use Rattle.std.specs.Prelude.{◌≡◌, [], ◌∷◌, Some};

use crate::checks::{holds, same};
use crate::vectors::{CARRY_PCAP, COMMENTS_PCAPNG, OPTIONS_PCAPNG};
use cap_bytes::{Fault, Pieces, Refusal, Rule, Source, Tail};
use cap_source::{Capture, Ending, Format, Head, Listed, Meta, PacketFeed, next_packet};
use cap_time::{Interface, Resolution, Stamp};
use std::alloc::Global;
use std::cmp::max;
use std::process::Abort;

fn capture(
    rt: &impl Abort,
    alloc: Global,
    bytes: &[u8],
    piece: usize,
    tail: Tail,
) -> Capture<Pieces>
    ensures files { (⟦<Capture<Pieces> as PacketFeed>⟧.feed result).files ≡ 7 ∷ [] }
{
    let bytes = bytes.to_vec(alloc).expect(rt, "memory");
    Capture::new(alloc, Pieces::new(bytes, max(piece, 1), None), 7, tail)
}

fn interface(rt: &impl Abort, link: u16, snaplen: u32, code: u8, offset: i64) -> Interface {
    Interface {
        link,
        snaplen,
        resolution: Resolution::from_code(code).expect(rt, "a code that is read"),
        offset,
    }
}

// The packet of 4 bytes at 2,500,000 units of the file above, at a place.
pub(crate) fn carried(rt: &impl Abort, offset: u64, format: Format) -> Meta {
    Meta {
        file: 7,
        offset,
        format,
        skipped: 0,
        instance: 0,
        interface: interface(rt, 1, 262_144, 6, 0),
        units: Some(2_500_000),
        captured: 4,
        original: 4,
    }
}

// What comes next is that.
fn comes<F: PacketFeed>(rt: &impl Abort, feed: &mut F, head: Head) {
    same!(rt; feed.head(), Ok(head));
}

// A packet comes next, which is at hand then.
fn finds<F: PacketFeed>(rt: &impl Abort, feed: &mut F, meta: Meta) {
    same!(rt; feed.peek(), Ok(true));
    holds!(rt; feed.try_peek_buffered());
    comes(rt, feed, Head::Packet(meta));
}

// What comes next is that packet with those bytes, which is passed.
fn takes<F: PacketFeed>(rt: &impl Abort, feed: &mut F, meta: Meta, frame: &[u8]) {
    finds(rt, feed, meta);
    same!(rt; feed.head(), Ok(Head::Packet(meta)));
    same!(rt; *feed.packet(), meta);
    same!(rt; feed.frame(), frame);
    feed.pass();
}

// What comes next is that packet of 4 bytes, which is passed.
fn takes_carried<F: PacketFeed>(rt: &impl Abort, feed: &mut F, offset: u64, format: Format) {
    takes(rt, feed, carried(rt, offset, format), &[1, 2, 3, 4]);
}

// The file's interface is that of the packets above.
fn has_interface<R: Source>(rt: &impl Abort, feed: &mut Capture<R>) {
    same!(rt; feed.first(), Ok(Some(interface(rt, 1, 262_144, 6, 0))));
}

// How the file ended, which is the only one.
#[tactic(auto, using(cap_source::specs::inner::Laws::has_file_alone))]
fn ended<F: PacketFeed>(feed: &F) -> Ending
    requires end { (F.feed feed.now).known ≡ Some Head.End }
    requires files { (F.feed feed.now).files ≡ 7 ∷ [] }
{
    feed.ending(7)
}

// The end comes next, and the file ended so.
fn ends<F: PacketFeed>(rt: &impl Abort, mut feed: F, ending: Ending)
    requires files { (F.feed feed).files ≡ 7 ∷ [] }
{
    same!(rt; feed.head(), Ok(Head::End));
    same!(rt; ended(&feed), ending);
}

fn refused(offset: u64, rule: Rule) -> Head {
    Head::Refused(Refusal {
        file: 7,
        offset,
        rule,
    })
}

// A feed holds a window, and no interface of a section.
fn holds_window<F: PacketFeed>(rt: &impl Abort, feed: &F) {
    let held = feed.feed_held();
    holds!(rt; held.window > 0);
    same!(rt; held.interfaces, 0);
}

// The packet of CARRY_PCAP comes after its interface, and then the end.
fn gives_one<R: Source>(rt: &impl Abort, feed: &mut Capture<R>) {
    has_interface(rt, feed);
    takes_carried(rt, feed, 24, Format::Pcap);
    same!(rt; feed.peek(), Ok(false));
    comes(rt, feed, Head::End);
    holds_window(rt, feed);
}

#[test]
fn always_memory_a_pcap_file(rt: HostRuntime) {
    for &piece in &[1, 4_096] {
        let mut feed = capture(&rt, rt.alloc(), &CARRY_PCAP, piece, Tail::Refuse);
        gives_one(&rt, &mut feed);
    }
}

// 2,500,000 millionths of a second are five halves; a packet without units has no time.
#[test]
fn the_time_of_a_packet(rt: HostRuntime) {
    let halves = interface(&rt, 1, 0, 129, 0);
    let mut meta = carried(&rt, 24, Format::Pcap);
    same!(&rt; meta.time(), Some(Stamp::new(5, &halves)));
    meta.units = None;
    same!(&rt; meta.time(), None);
}

// The packet comes, and then the end: a block was skipped.
fn gives_options<F: PacketFeed>(rt: &impl Abort, mut feed: F)
    requires files { (F.feed feed).files ≡ 7 ∷ [] }
{
    let head = Head::Packet(carried(rt, 96, Format::Pcapng));
    same!(rt; feed.head(), Ok(head));
    same!(rt; feed.frame(), [1, 2, 3, 4].as_slice());
    feed.pass();
    let ending = Ending {
        format: Format::Pcapng,
        skipped: 1,
        cut: None,
    };
    ends(rt, feed, ending);
}

#[test]
fn options_file(rt: HostRuntime) {
    gives_options(
        &rt,
        capture(&rt, rt.alloc(), &OPTIONS_PCAPNG, 1, Tail::Refuse),
    );
}

// That a read fails before the first packet, which is reported so, and again.
fn fails_twice<F: PacketFeed>(rt: &impl Abort, mut feed: F, fault: Fault) {
    same!(rt; feed.head(), Err(fault));
    same!(rt; feed.head(), Err(fault));
    holds!(rt; feed.feed_held().failed);
}

// Byte 100 of the file with options, which is of its packet, can't be read.
#[test]
fn a_failed_read_comes_again(rt: HostRuntime) {
    let bytes = OPTIONS_PCAPNG.to_vec(rt.alloc()).expect(&rt, "memory");
    let pieces = Pieces::new(bytes, 1, Some(100));
    let feed = Capture::new(rt.alloc(), pieces, 7, Tail::Refuse);
    fails_twice(
        &rt,
        feed,
        Fault::Read {
            file: 7,
            offset: 96,
        },
    );
}

// The head, asked again after a growth was refused.
fn asked<F: PacketFeed>(feed: &mut F) -> Result<Head, Fault> {
    match feed.head() {
        Err(Fault::Memory) => feed.head(),
        answer => answer,
    }
}

// The bytes of the file with options, also if a growth was refused.
fn options_bytes(rt: &impl Abort, alloc: Global) -> Vec<u8> {
    match OPTIONS_PCAPNG.to_vec(alloc) {
        Ok(bytes) => bytes,
        Err(_) => OPTIONS_PCAPNG.to_vec(alloc).expect(rt, "memory"),
    }
}

// The file's packet and its interface come as with memory.
fn answers<R: Source>(rt: &impl Abort, feed: &mut Capture<R>) {
    same!(rt; asked(feed), Ok(Head::Packet(carried(rt, 96, Format::Pcapng))));
    has_interface(rt, feed);
}

// Each answer as with memory, whichever growth is refused.
#[test]
fn a_refused_growth(rt: HostRuntime) {
    let pieces = Pieces::new(options_bytes(&rt, rt.alloc()), 4_096, None);
    answers(&rt, &mut Capture::new(rt.alloc(), pieces, 7, Tail::Refuse));
}

// Two packets without bytes come.
fn lists_two<F: PacketFeed>(rt: &impl Abort, feed: &mut F, clock: Interface) {
    for &(offset, units) in &[(0, 5), (1, 6)] {
        let meta = Meta {
            interface: clock,
            units: Some(units),
            captured: 0,
            original: 0,
            ..carried(rt, offset, Format::Pcap)
        };
        takes(rt, feed, meta, &[]);
    }
}

// A refusal comes, and no packet.
fn lists_none<F: PacketFeed>(rt: &impl Abort, feed: &mut F) {
    comes(rt, feed, refused(2, Rule::Cut));
    let refusal = Refusal {
        file: 7,
        offset: 2,
        rule: Rule::Cut,
    };
    same!(rt; feed.peek(), Err(Fault::Refused(refusal)));
    holds!(rt; !feed.try_peek_buffered());
}

// The list's packets come, and then its refusal.
fn lists<F: PacketFeed>(rt: &impl Abort, mut feed: F, clock: Interface) {
    lists_two(rt, &mut feed, clock);
    lists_none(rt, &mut feed);
}

// Two packets in memory, and then a refusal.
#[test]
fn a_list(rt: HostRuntime) {
    let clock = interface(&rt, 101, 0, 6, 0);
    let times = [5, 6].to_vec(rt.alloc()).expect(&rt, "memory");
    lists(&rt, Listed::new(7, clock, times, Some(Rule::Cut)), clock);
}

// A packet is at hand once it was asked for, and is passed.
fn passes_first<F: PacketFeed>(rt: &impl Abort, feed: &mut F) {
    holds!(rt; !feed.try_peek_buffered());
    same!(rt; feed.peek(), Ok(true));
    holds!(rt; feed.try_peek_buffered());
    feed.pass();
}

// The next one is at hand without that.
fn passes_shown<F: PacketFeed>(rt: &impl Abort, feed: &mut F) {
    holds!(rt; feed.try_peek_buffered());
    same!(rt; *feed.packet(), carried(rt, 44, Format::Pcap));
    same!(rt; feed.frame(), [1, 2, 3, 4].as_slice());
    feed.pass();
}

// No packet is at hand, and none comes.
fn shows_none<F: PacketFeed>(rt: &impl Abort, feed: &mut F) {
    holds!(rt; !feed.try_peek_buffered());
    same!(rt; feed.peek(), Ok(false));
    holds!(rt; !feed.try_peek_buffered());
}

// Both packets are at hand after one read.
fn shows_both<F: PacketFeed>(rt: &impl Abort, mut feed: F) {
    passes_first(rt, &mut feed);
    passes_shown(rt, &mut feed);
    shows_none(rt, &mut feed);
}

// CARRY_PCAP with its record twice.
fn two_records(rt: &impl Abort, alloc: Global) -> Vec<u8> {
    let mut bytes = CARRY_PCAP.to_vec(alloc).expect(rt, "memory");
    bytes
        .extend_from_slice(&CARRY_PCAP[24..])
        .expect(rt, "memory");
    bytes
}

// A file of two records, of which a read shows both.
#[test]
fn packets_at_hand(rt: HostRuntime) {
    let bytes = two_records(&rt, rt.alloc());
    shows_both(&rt, capture(&rt, rt.alloc(), &bytes, 4_096, Tail::Refuse));
}

// One packet comes, and then none.
fn walks<F: PacketFeed>(rt: &impl Abort, mut feed: F) {
    let next = next_packet(&mut feed).map(|meta| meta.map(|meta| (
        meta.file,
        meta.offset,
        meta.captured,
    )));
    same!(rt; next, Ok(Some((7, 24, 4))));
    feed.pass();
    same!(rt; next_packet(&mut feed), Ok(None));
}

#[test]
fn a_walk(rt: HostRuntime) {
    let capture = capture(&rt, rt.alloc(), &CARRY_PCAP, 1, Tail::Refuse);
    same!(&rt; capture.file(), 7);
    walks(&rt, capture);
}

// How many comments the file has, which is the only one.
#[tactic(auto, using(cap_source::specs::inner::Laws::has_file_alone))]
fn comments_of<F: PacketFeed>(feed: &F) -> Option<u64>
    requires end { (F.feed feed.now).known ≡ Some Head.End }
    requires files { (F.feed feed.now).files ≡ 7 ∷ [] }
{
    feed.comments(7)
}

// Two packets come, and then the end of a file with so many comments.
fn has_comments<F: PacketFeed>(rt: &impl Abort, mut feed: F, comments: Option<u64>)
    requires files { (F.feed feed).files ≡ 7 ∷ [] }
{
    same!(rt; feed.peek(), Ok(true));
    feed.pass();
    same!(rt; feed.peek(), Ok(true));
    feed.pass();
    same!(rt; feed.peek(), Ok(false));
    same!(rt; comments_of(&feed), comments);
}

// The comments of a section, an interface and a packet, counted or not.
#[test]
fn comments_are_counted(rt: HostRuntime) {
    for (asked, comments) in [(true, Some(4)), (false, None)] {
        let bytes = COMMENTS_PCAPNG.to_vec(rt.alloc()).expect(&rt, "memory");
        let pieces = Pieces::new(bytes, 4_096, None);
        has_comments(
            &rt,
            Capture::with_comments(rt.alloc(), pieces, 7, Tail::Refuse, asked),
            comments,
        );
    }
}

#[test]
fn formats_by_name(rt: HostRuntime) {
    same!(&rt; Format::Pcap.name(), "pcap");
    same!(&rt; Format::Pcapng.name(), "pcapng");
}
