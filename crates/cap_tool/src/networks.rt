//! The line that tells the networks of the packets that a report counts as `not-ipv4`, or as `not-ip`.
ghost use Rattle.std.specs.Prelude.{◌≡◌, ◌+◌, ◌*◌, ◌^◌, ◌≤◌, ◌++◌};
ghost use Rattle.cap_print.specs.Lines.{room_in, text_in};
ghost use Rattle.cap_print.specs.declared.forms.Form.{Form};
ghost use Rattle.cap_print.specs.declared.forms.TimeForm.{TimeForm};
ghost use Rattle.cap_talks.specs.table.OtherNetworks.{sum_of_networks};
ghost use Rattle.cap_tool.specs.NetworkLine.{class_head, class_name, networks_in, networks_line, networks_line_if};
ghost use Rattle.cap_tool.specs.NetworkLine.{networks_text, networks_told, unread_networks};

use crate::left_out::prepend_class;
use crate::outcomes::Outcome;
use cap_commands::DroppedInfo;
use cap_print::{Form, Line};
use cap_talks::OtherCounts;

// Puts the networks that some packets are of, and how many packets are.
fn prepend_networks(line: &mut Line, counts: &OtherCounts)
    requires { 120 ≤ room_in line.old }
    ensures text { text_in line.new ≡ networks_text counts.now ++ text_in line.old }
    ensures room { room_in line.old ≤ room_in line.new + 120 }
{
    let ipv6 = u128::from(counts.ipv6);
    let arp = ipv6 + u128::from(counts.arp);
    prepend_class(line, arp, b"other ", counts.other);
    prepend_class(line, ipv6, b"arp ", counts.arp);
    prepend_class(line, 0, b"ipv6 ", counts.ipv6);
}

// The networks of the packets of the class: where IPv6 packets are read, it has none of them.
fn unread_networks(reads_ipv6: bool, counts: OtherCounts) -> OtherCounts
    ensures { result ≡ unread_networks reads_ipv6 counts }
{
    if reads_ipv6 {
        OtherCounts {
            ipv6: 0,
            arp: counts.arp,
            other: counts.other,
        }
    } else {
        counts
    }
}

// Puts what the class is called.
fn prepend_name(line: &mut Line, reads_ipv6: bool)
    requires { 120 ≤ room_in line.old }
    ensures { text_in line.new ≡ class_name reads_ipv6 ++ text_in line.old }
{
    if reads_ipv6 {
        line.prepend_text(b"not-ip");
    } else {
        line.prepend_text(b"not-ipv4");
    }
}

// `not-ipv4: ipv6 24745, arp 12, other 3`, or `not-ip: arp 12, other 3`
fn networks_text(reads_ipv6: bool, counts: OtherCounts) -> Line
    ensures { text_in result ≡ networks_in reads_ipv6 (Form.Text TimeForm.Exact) counts }
{
    let mut line = Line::new();
    line.prepend_text(b"\n");
    prepend_networks(&mut line, &unread_networks(reads_ipv6, counts));
    prepend_name(&mut line, reads_ipv6);
    line
}

// Puts the beginning of the object.
fn prepend_head(line: &mut Line, reads_ipv6: bool, counts: &OtherCounts)
    requires { 120 ≤ room_in line.old }
    ensures { text_in line.new ≡ class_head reads_ipv6 counts.now ++ text_in line.old }
{
    if reads_ipv6 {
        line.prepend_text(b"{\"type\":\"not_ip\"");
    } else {
        line.prepend_field(b"{\"type\":\"not_ipv4\",\"ipv6\":", counts.ipv6);
    }
}

// `{"type":"not_ipv4","ipv6":24745,"arp":12,"other":3}`, or `{"type":"not_ip","arp":12,"other":3}`
fn networks_object(reads_ipv6: bool, counts: OtherCounts) -> Line
    ensures { text_in result ≡ networks_in reads_ipv6 (Form.Json TimeForm.Exact) counts }
{
    let mut line = Line::new();
    line.prepend_text(b"}\n");
    line.prepend_field(b",\"other\":", counts.other);
    line.prepend_field(b",\"arp\":", counts.arp);
    prepend_head(&mut line, reads_ipv6, &counts);
    line
}

// How many packets there are of networks other than IPv4.
fn sum_of_networks(counts: OtherCounts) -> u128
    ensures { result ≡ sum_of_networks counts }
{
    u128::from(counts.ipv6) + u128::from(counts.arp) + u128::from(counts.other)
}

// The line in a form, if there is such a packet.
fn networks_line(reads_ipv6: bool, form: Form, counts: OtherCounts) -> Line
    ensures { text_in result ≡ networks_line reads_ipv6 form counts }
{
    if sum_of_networks(unread_networks(reads_ipv6, counts)) == 0 {
        return Line::new();
    }
    match form {
        Form::Text(_) => networks_text(reads_ipv6, counts),
        Form::Json(_) => networks_object(reads_ipv6, counts),
    }
}

// The line in a form, if packets were counted.
fn counted_line(reads_ipv6: bool, form: Form, counts: Option<OtherCounts>) -> Line
    ensures { text_in result ≡ networks_line_if reads_ipv6 form counts }
{
    match counts {
        Some(counts) => networks_line(reads_ipv6, form, counts),
        None => Line::new(),
    }
}

/// The line that tells after a run that is done of which networks the packets are that `report` counts as `not-ipv4`:
/// in text `not-ipv4: ipv6 24745, arp 12, other 3`, without the networks that no packet is of, and in JSON an object of
/// all three (RFC 8259), `{"type":"not_ipv4","ipv6":24745,"arp":12,"other":3}`. Where IPv6 packets are read, the class
/// is `not-ip`, and has none of them: `not-ip: arp 12, other 3` and `{"type":"not_ip","arp":12,"other":3}`. There is no
/// line if there is no such packet, nor after any other run than one that is done, with or without files that were left
/// out.
pub fn network_line(reads_ipv6: bool, form: Form, outcome: &Outcome, left: &DroppedInfo) -> Line
    ensures { text_in result ≡ networks_told reads_ipv6 form outcome.now left.now }
{
    match outcome {
        Outcome::Done | Outcome::NotWhole => counted_line(reads_ipv6, form, left.not_ipv4),
        Outcome::Differ
        | Outcome::Line(_)
        | Outcome::Fault(_)
        | Outcome::Open(_)
        | Outcome::List
        | Outcome::ListLine(_)
        | Outcome::Create => Line::new(),
    }
}
