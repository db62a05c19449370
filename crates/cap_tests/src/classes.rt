//! The class of a packet in a report of it alone, and what it is by itself.
use crate::checks::same;
use cap_class::{Class, packet_class};
use cap_layer_tests::frames::{
    COOKED_2_FRAME, COOKED_FRAME, FRAGMENT, IPV6_FRAME, PACKET, TAG_FRAME,
};
use cap_layer_tests::packets::meta_of;
use cap_print::{Form, Line, TimeForm};
use cap_source::Meta;
use cap_talks::{describe, put_description};
use std::process::Abort;

// A link type, how many bytes of which frame, its original length, and its class in a report of it alone.
const CLASSES: [(u16, &[u8], usize, u32, Class); 13] = [
    (1, &IPV6_FRAME, 13, 13, Class::Short),
    (1, &IPV6_FRAME, 13, 60, Class::Cut),
    (1, &TAG_FRAME, 14, 14, Class::Short),
    (1, &IPV6_FRAME, 14, 14, Class::NotIpv4),
    (147, &PACKET, 20, 20, Class::OtherLink),
    (101, &[], 0, 0, Class::Short),
    (113, &COOKED_FRAME, 46, 46, Class::Counted),
    (276, &COOKED_2_FRAME, 50, 50, Class::Counted),
    (101, &PACKET, 30, 30, Class::Counted),
    // the UDP header isn't captured whole
    (101, &PACKET, 27, 30, Class::Cut),
    (228, &[0x60], 1, 1, Class::Bad),
    (101, &[0x60], 1, 1, Class::NotIpv4),
    (101, &FRAGMENT, 28, 28, Class::Unjoined),
];

// The first bytes of a frame are a packet of that class.
fn has_class(rt: &impl Abort, meta: &Meta, frame: Option<&[u8]>, class: Class) {
    same!(rt; frame.map(|bytes| packet_class(meta, bytes)), Some(class), meta.interface.link);
}

#[test]
fn a_packet_alone_has_a_class(rt: HostRuntime) {
    for &(link, frame, captured, original, class) in &CLASSES {
        let meta = meta_of(link, original);
        has_class(&rt, &meta, frame.get(..captured), class);
    }
}

// A link type, how many bytes of which frame, its original length, and what it is by itself, in text and in JSON.
const DESCRIBED: [(u16, &[u8], usize, u32, &str, &str); 9] = [
    (
        147,
        &PACKET,
        20,
        20,
        " class other-link",
        ",\"class\":\"other-link\"",
    ),
    (
        1,
        &IPV6_FRAME,
        14,
        14,
        " class not-ipv4",
        ",\"class\":\"not-ipv4\"",
    ),
    (
        1,
        &IPV6_FRAME,
        13,
        13,
        " class short",
        ",\"class\":\"short\"",
    ),
    (
        1,
        &IPV6_FRAME,
        13,
        60,
        " class cut reason link-short",
        ",\"class\":\"cut\",\"reason\":\"link-short\"",
    ),
    (
        228,
        &[0x60],
        1,
        1,
        " class bad reason header-short",
        ",\"class\":\"bad\",\"reason\":\"header-short\"",
    ),
    // the UDP header isn't captured whole
    (
        101,
        &PACKET,
        27,
        30,
        " class cut reason udp-short",
        ",\"class\":\"cut\",\"reason\":\"udp-short\"",
    ),
    (
        101,
        &FRAGMENT,
        28,
        28,
        " class fragment identification 7 fragment-offset 16",
        ",\"class\":\"fragment\",\"identification\":7,\"fragment_offset\":16",
    ),
    (
        113,
        &COOKED_FRAME,
        46,
        46,
        " class counted udp 10.0.0.1:1000 10.0.0.2:2000",
        ",\"class\":\"counted\",\"protocol\":17,\"a\":{\"address\":\"10.0.0.1\",\"port\":1000},\
            \"b\":{\"address\":\"10.0.0.2\",\"port\":2000}",
    ),
    // ICMP, from 10.0.0.2 to 10.0.0.1
    (
        101,
        &ECHO,
        20,
        20,
        " class counted p1 10.0.0.1 10.0.0.2",
        ",\"class\":\"counted\",\"protocol\":1,\"a\":{\"address\":\"10.0.0.1\"},\
            \"b\":{\"address\":\"10.0.0.2\"}",
    ),
];

// A packet of ICMP without data, from 10.0.0.2 to 10.0.0.1.
const ECHO: [u8; 20] = [
    0x45, 0x00, 0x00, 0x14, 0x00, 0x01, 0x00, 0x00, 0x40, 0x01, 0x00, 0x00, 0x0a, 0x00, 0x00, 0x02,
    0x0a, 0x00, 0x00, 0x01,
];

// What the first bytes of a frame are by themselves, in a form.
fn is_described(rt: &impl Abort, meta: &Meta, frame: Option<&[u8]>, form: Form, text: &str) {
    let mut line = Line::new();
    if let Some(bytes) = frame {
        put_description(&mut line, form, &describe(meta, bytes));
    }
    same!(rt; line.as_slice(), text.as_bytes());
}

#[test]
fn a_packet_is_described(rt: HostRuntime) {
    for &(link, frame, captured, original, text, json) in &DESCRIBED {
        let meta = meta_of(link, original);
        is_described(
            &rt,
            &meta,
            frame.get(..captured),
            Form::Text(TimeForm::Exact),
            text,
        );
        is_described(
            &rt,
            &meta,
            frame.get(..captured),
            Form::Json(TimeForm::Exact),
            json,
        );
    }
}
