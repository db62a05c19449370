//! The packets of captures that are fed byte by byte. The files and what they give are worked out by hand from
//! draft-ietf-opsawg-pcap and draft-ietf-opsawg-pcapng.
use crate::checks::{holds, same};
use crate::source::carried;
use crate::vectors::{CARRY_PCAP, OPTIONS_PCAPNG};
use cap_bytes::{CutRest, Fault, Refusal, Rule, Tail};
use cap_source::{Ending, Fed, FedCapture, Format, Meta};
use std::alloc::Global;
use std::process::Abort;

// More bytes are wanted before each of those.
fn wants(rt: &impl Abort, fed: &mut FedCapture, bytes: &[u8]) {
    for &byte in bytes {
        same!(rt; fed.next(), Ok(Fed::More));
        holds!(rt; !fed.has_ended());
        fed.feed(&[byte]).expect(rt, "memory");
    }
}

// That packet of 4 bytes comes.
fn gives(rt: &impl Abort, fed: &mut FedCapture, meta: Meta) {
    same!(rt; fed.next(), Ok(Fed::Packet(meta)));
    same!(rt; fed.frame(), [1, 2, 3, 4].as_slice());
}

// How the capture ended, if it has.
fn ending(fed: &FedCapture) -> Option<Ending> {
    match fed.ending() {
        Some(end) => Some(end.ending),
        None => None,
    }
}

// More is wanted until it is said that all was fed; then that comes, again and again, and the capture has ended so.
fn ends(rt: &impl Abort, mut fed: FedCapture, last: Result<Fed, Fault>, told: Option<Ending>) {
    same!(rt; fed.next(), Ok(Fed::More));
    holds!(rt; !fed.has_ended());
    fed.end();
    holds!(rt; fed.has_ended());
    same!(rt; ending(&fed), None);
    same!(rt; fed.next(), last);
    same!(rt; fed.next(), last);
    same!(rt; ending(&fed), told);
}

// An ending of that format.
fn ended(format: Format, skipped: u64, cut: Option<CutRest>) -> Option<Ending> {
    Some(Ending {
        skipped,
        format,
        cut,
    })
}

#[test]
fn a_pcap_file_byte_by_byte(rt: HostRuntime) {
    let mut fed = FedCapture::new(rt.alloc(), 7, Tail::Refuse);
    wants(&rt, &mut fed, &CARRY_PCAP);
    gives(&rt, &mut fed, carried(&rt, 24, Format::Pcap));
    ends(&rt, fed, Ok(Fed::End), ended(Format::Pcap, 0, None));
}

// The packet's block ends at byte 144, and a block that is skipped comes after it.
#[test]
fn a_pcapng_file_byte_by_byte(rt: HostRuntime) {
    let mut fed = FedCapture::new(rt.alloc(), 7, Tail::Refuse);
    wants(&rt, &mut fed, &OPTIONS_PCAPNG[..144]);
    gives(&rt, &mut fed, carried(&rt, 96, Format::Pcapng));
    wants(&rt, &mut fed, &OPTIONS_PCAPNG[144..]);
    ends(&rt, fed, Ok(Fed::End), ended(Format::Pcapng, 1, None));
}

// A record without its last byte.
#[test]
fn a_cut_file_is_refused_at_the_end_alone(rt: HostRuntime) {
    let cut = Refusal {
        file: 7,
        offset: 24,
        rule: Rule::Cut,
    };
    let mut fed = FedCapture::new(rt.alloc(), 7, Tail::Refuse);
    wants(&rt, &mut fed, &CARRY_PCAP[..43]);
    ends(&rt, fed, Err(Fault::Refused(cut)), None);
    let mut fed = FedCapture::new(rt.alloc(), 7, Tail::Accept);
    wants(&rt, &mut fed, &CARRY_PCAP[..43]);
    let dropped = CutRest {
        offset: 24,
        size: 19,
    };
    ends(
        &rt,
        fed,
        Ok(Fed::End),
        ended(Format::Pcap, 0, Some(dropped)),
    );
}

// A pcap file whose header is fed first, and then records without bytes, 16 bytes each.
fn fed_in_two(rt: &impl Abort, alloc: Global, len: usize) -> FedCapture {
    let mut fed = FedCapture::new(alloc, 7, Tail::Refuse);
    fed.feed(&CARRY_PCAP[..24]).expect(rt, "memory");
    let records = vec![in alloc; 0u8; len].expect(rt, "memory");
    holds!(rt; !fed.has_ended());
    fed.feed(&records).expect(rt, "memory");
    fed
}

// What was passed stays until more are wanted; then 2 MiB are given back, and what is fed is kept.
#[test]
fn a_large_piece_is_given_back(rt: HostRuntime) {
    let mut fed = fed_in_two(&rt, rt.alloc(), 0x20_0000);
    same!(&rt; fed.kept(), 0x20_0018);
    holds!(&rt; fed.held() >= 0x20_0018);
    for _ in 0..0x2_0000 {
        holds!(&rt; matches!(fed.next(), Ok(Fed::Packet(_))));
    }
    same!(&rt; fed.kept(), 0x20_0018);
    same!(&rt; fed.next(), Ok(Fed::More));
    same!(&rt; (fed.kept(), fed.held()), (0, 0));
    holds!(&rt; !fed.has_ended());
    fed.feed(&[0; 5]).expect(&rt, "memory");
    same!(&rt; fed.next(), Ok(Fed::More));
    same!(&rt; fed.kept(), 5);
}

// The front is dropped once it is as long as the rest, with the next feed.
#[test]
fn the_front_is_dropped_at_half(rt: HostRuntime) {
    let mut fed = FedCapture::new(rt.alloc(), 7, Tail::Refuse);
    fed.feed(&CARRY_PCAP).expect(&rt, "memory");
    fed.feed(&[0; 80]).expect(&rt, "memory");
    holds!(&rt; matches!(fed.next(), Ok(Fed::Packet(_))));
    holds!(&rt; !fed.has_ended());
    fed.feed(&[0; 1]).expect(&rt, "memory");
    same!(&rt; fed.kept(), 125);
    holds!(&rt; matches!(fed.next(), Ok(Fed::Packet(_))));
    holds!(&rt; matches!(fed.next(), Ok(Fed::Packet(_))));
    holds!(&rt; !fed.has_ended());
    fed.feed(&[0; 1]).expect(&rt, "memory");
    same!(&rt; fed.kept(), 50);
}

// A file that begins with no magic is refused, and nothing of it is kept, nor of what is fed then.
#[test]
fn nothing_is_kept_after_a_refusal(rt: HostRuntime) {
    let magic = Refusal {
        file: 7,
        offset: 0,
        rule: Rule::Magic,
    };
    let mut fed = FedCapture::new(rt.alloc(), 7, Tail::Refuse);
    fed.feed(&[0; 100]).expect(&rt, "memory");
    same!(&rt; fed.next(), Err(Fault::Refused(magic)));
    same!(&rt; (fed.kept(), fed.held()), (0, 0));
    holds!(&rt; !fed.has_ended());
    fed.feed(&[0; 100]).expect(&rt, "memory");
    same!(&rt; (fed.kept(), fed.held()), (0, 0));
    same!(&rt; fed.next(), Err(Fault::Refused(magic)));
}
