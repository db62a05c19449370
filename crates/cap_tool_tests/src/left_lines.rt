//! The lines that tell what a command left out.
use cap_bytes::{Fault, Refusal, Rule};
use cap_class::ClassCounts;
use cap_commands::NOTHING_LEFT;
use cap_line::LineFault;
use cap_print::{Form, TimeForm};
use cap_talks::OtherCounts;
use cap_tool::{DroppedInfo, Outcome, left_lines, left_out_line, network_line};
use cap_write::LeftOut;
use std::process::Abort;

const CUT: Fault = Fault::Refused(Refusal {
    file: 2,
    offset: 24,
    rule: Rule::Cut,
});

// How a run ended, how many blocks were skipped, how many of these have secrets and how many names, how many interfaces
// have a name, how many comments there are, how many packets ran back, and what is told of that.
const TOLD: [(Outcome, [u128; 6], &str); 22] = [
    (Outcome::Done, [0, 0, 0, 0, 0, 0], ""),
    (
        Outcome::Done,
        [1, 0, 0, 0, 0, 0],
        "not carried on: 1 block\n",
    ),
    (
        Outcome::Done,
        [3, 0, 0, 0, 0, 0],
        "not carried on: 3 blocks\n",
    ),
    (
        Outcome::Done,
        [1, 1, 0, 0, 0, 0],
        "not carried on: 1 block of secrets\n",
    ),
    (
        Outcome::Done,
        [2, 0, 2, 0, 0, 0],
        "not carried on: 2 blocks of names\n",
    ),
    (
        Outcome::Done,
        [2, 0, 1, 0, 0, 0],
        "not carried on: 1 block of names, 1 of another kind\n",
    ),
    (
        Outcome::Done,
        [4, 2, 0, 0, 0, 0],
        "not carried on: 2 blocks of secrets, 2 of other kinds\n",
    ),
    (
        Outcome::Done,
        [6, 2, 1, 1, 0, 0],
        "not carried on: 2 blocks of secrets, 1 of names, 3 of other kinds, names of 1 interface\n",
    ),
    (
        Outcome::Done,
        [2, 1, 1, 2, 0, 0],
        "not carried on: 1 block of secrets, 1 of names, names of 2 interfaces\n",
    ),
    (
        Outcome::Done,
        [1, 0, 1, 1, 0, 1],
        "not carried on: 1 block of names, names of 1 interface\nran back: 1 packet\n",
    ),
    (
        Outcome::Done,
        [0, 0, 0, 1, 0, 0],
        "not carried on: names of 1 interface\n",
    ),
    (
        Outcome::Done,
        [0, 0, 0, 2, 0, 0],
        "not carried on: names of 2 interfaces\n",
    ),
    (
        Outcome::Done,
        [3, 0, 0, 1, 0, 0],
        "not carried on: 3 blocks, names of 1 interface\n",
    ),
    (
        Outcome::Done,
        [0, 0, 0, 0, 1, 0],
        "not carried on: 1 comment\n",
    ),
    (
        Outcome::Done,
        [0, 0, 0, 2, 3, 1],
        "not carried on: names of 2 interfaces, 3 comments\nran back: 1 packet\n",
    ),
    (
        Outcome::Done,
        [6, 2, 1, 1, 3, 0],
        "not carried on: 2 blocks of secrets, 1 of names, 3 of other kinds, names of 1 interface, 3 comments\n",
    ),
    (Outcome::Done, [0, 0, 0, 0, 0, 2], "ran back: 2 packets\n"),
    (
        Outcome::Done,
        [12, 0, 0, 0, 0, 1],
        "not carried on: 12 blocks\nran back: 1 packet\n",
    ),
    (Outcome::Fault(CUT), [12, 1, 1, 1, 0, 1], ""),
    (Outcome::Line(LineFault::Help), [12, 1, 1, 1, 0, 1], ""),
    (Outcome::Differ, [12, 1, 1, 1, 0, 1], ""),
    (Outcome::NotWhole, [12, 1, 1, 1, 0, 1], ""),
];

// What is printed of what is left.
fn tells(rt: &impl Abort, outcome: &Outcome, counts: [u128; 6], text: &str) {
    let [
        skipped,
        secret_blocks,
        name_blocks,
        named,
        comments,
        ran_back,
    ] = counts;
    let left = DroppedInfo {
        skipped,
        secret_blocks,
        name_blocks,
        named,
        comments,
        ran_back,
        cuts: [None; 32],
        left_out: None,
        not_ipv4: None,
    };
    let line = left_lines(outcome, &left);
    assert_eq!(rt; line.as_slice(), text.as_bytes());
}

#[test]
fn what_is_left_is_told(rt: HostRuntime) {
    for (outcome, counts, text) in &TOLD {
        tells(&rt, outcome, *counts, *text);
    }
}

// How a run ended, how many packets there are of other links, not IPv4, short, cut, bad, unjoined, counted and
// truncated, and what is known of these.
const TOLD_OF_PACKETS: [(Outcome, [u64; 8], &str); 7] = [
    (Outcome::Done, [0, 0, 0, 0, 0, 0, 9, 0], ""),
    (
        Outcome::Done,
        [0, 24745, 0, 0, 0, 0, 0, 0],
        "left out: 24745 packets: not-ipv4 24745\n",
    ),
    (
        Outcome::Done,
        [0, 0, 0, 0, 1, 0, 3, 0],
        "left out: 1 packet: bad 1\n",
    ),
    (
        Outcome::Done,
        [0, 0, 0, 0, 0, 0, 3, 2],
        "left out: 2 packets: truncated 2\n",
    ),
    (
        Outcome::Done,
        [1, 2, 3, 4, 5, 6, 7, 7],
        "left out: 28 packets: other-link 1, not-ipv4 2, short 3, cut 4, bad 5, unjoined 6, truncated 7\n",
    ),
    (Outcome::Fault(CUT), [1, 1, 1, 1, 1, 1, 1, 1], ""),
    (Outcome::NotWhole, [1, 1, 1, 1, 1, 1, 1, 1], ""),
];

// What is printed of packets that are left out.
fn tells_packets(rt: &impl Abort, outcome: &Outcome, numbers: [u64; 8], text: &str) {
    let [
        other_link,
        not_ipv4,
        short,
        cut,
        bad,
        unjoined,
        counted,
        truncated,
    ] = numbers;
    let classes = ClassCounts {
        other_link,
        not_ipv4,
        short,
        cut,
        bad,
        unjoined,
        counted,
    };
    let left = DroppedInfo {
        skipped: 0,
        secret_blocks: 0,
        name_blocks: 0,
        named: 0,
        comments: 0,
        ran_back: 0,
        cuts: [None; 32],
        left_out: Some(LeftOut { classes, truncated }),
        not_ipv4: None,
    };
    let line = left_out_line(outcome, &left);
    assert_eq!(rt; line.as_slice(), text.as_bytes());
}

#[test]
fn packets_that_are_left_out_are_told(rt: HostRuntime) {
    for (outcome, numbers, text) in &TOLD_OF_PACKETS {
        tells_packets(&rt, outcome, *numbers, *text);
    }
}

// How a run ended, how many packets there are of IPv6, of ARP and of other networks, and what is printed of these, in
// text and in JSON.
const TOLD_OF_NETWORKS: [(Outcome, [u64; 3], [&str; 2]); 6] = [
    (Outcome::Done, [0, 0, 0], ["", ""]),
    (
        Outcome::Done,
        [24745, 12, 3],
        [
            "not-ipv4: ipv6 24745, arp 12, other 3\n",
            "{\"type\":\"not_ipv4\",\"ipv6\":24745,\"arp\":12,\"other\":3}\n",
        ],
    ),
    (
        Outcome::Done,
        [0, 1, 0],
        [
            "not-ipv4: arp 1\n",
            "{\"type\":\"not_ipv4\",\"ipv6\":0,\"arp\":1,\"other\":0}\n",
        ],
    ),
    (
        Outcome::Done,
        [2, 0, 7],
        [
            "not-ipv4: ipv6 2, other 7\n",
            "{\"type\":\"not_ipv4\",\"ipv6\":2,\"arp\":0,\"other\":7}\n",
        ],
    ),
    (
        Outcome::NotWhole,
        [0, 0, 5],
        [
            "not-ipv4: other 5\n",
            "{\"type\":\"not_ipv4\",\"ipv6\":0,\"arp\":0,\"other\":5}\n",
        ],
    ),
    (Outcome::Fault(CUT), [1, 1, 1], ["", ""]),
];

// What is printed of the packets of networks other than IPv4 in a form.
fn tells_networks(
    rt: &impl Abort,
    reads_ipv6: bool,
    form: Form,
    outcome: &Outcome,
    numbers: [u64; 3],
    text: &str,
) {
    let [ipv6, arp, other] = numbers;
    let mut left = NOTHING_LEFT;
    left.not_ipv4 = Some(OtherCounts { ipv6, arp, other });
    let line = network_line(reads_ipv6, form, outcome, &left);
    assert_eq!(rt; line.as_slice(), text.as_bytes());
}

#[test]
fn networks_other_than_ipv4_are_told(rt: HostRuntime) {
    for (outcome, numbers, [text, object]) in &TOLD_OF_NETWORKS {
        let (as_text, as_object) = (Form::Text(TimeForm::Exact), Form::Json(TimeForm::Exact));
        tells_networks(&rt, false, as_text, outcome, *numbers, *text);
        tells_networks(&rt, false, as_object, outcome, *numbers, *object);
    }
}

// The same of a report that reads IPv6 packets.
static TOLD_BESIDE_IPV6: [(Outcome, [u64; 3], [&str; 2]); 3] = [
    (Outcome::Done, [9, 0, 0], ["", ""]),
    (
        Outcome::Done,
        [9, 1, 0],
        [
            "not-ip: arp 1\n",
            "{\"type\":\"not_ip\",\"arp\":1,\"other\":0}\n",
        ],
    ),
    (
        Outcome::NotWhole,
        [0, 2, 7],
        [
            "not-ip: arp 2, other 7\n",
            "{\"type\":\"not_ip\",\"arp\":2,\"other\":7}\n",
        ],
    ),
];

#[test]
fn networks_other_than_ip_are_told(rt: HostRuntime) {
    for (outcome, numbers, [text, object]) in &TOLD_BESIDE_IPV6 {
        let (as_text, as_object) = (Form::Text(TimeForm::Exact), Form::Json(TimeForm::Exact));
        tells_networks(&rt, true, as_text, outcome, *numbers, *text);
        tells_networks(&rt, true, as_object, outcome, *numbers, *object);
    }
}
