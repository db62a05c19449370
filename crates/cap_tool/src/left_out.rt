//! The line that tells which packets `join` leaves out.
ghost use Rattle.std.specs.Prelude.{◌≡◌, ◌+◌, ◌*◌, ◌^◌, ◌≤◌, ◌++◌, length};
ghost use Rattle.cap_print.specs.Lines.{room_in, text_in};
ghost use Rattle.cap_tool.specs.LeftOutLine.{class_text, classes_text, left_out_text, left_out_told, left_packets_text};
ghost use Rattle.cap_tool.specs.LeftOutLine.{headline_text, unjoined_and_before};

use crate::outcomes::Outcome;
use cap_class::ClassCounts;
use cap_commands::DroppedInfo;
use cap_print::Line;
use cap_write::LeftOut;

/// Puts the name of a class and its count before what was put, unless the count is 0. The classes before it, which are
/// put after it, count so many.
pub(crate) fn prepend_class(line: &mut Line, before: u128, name: &[u8], count: u64)
    requires { length name.now + 22 ≤ room_in line.old }
    ensures text { text_in line.new ≡ class_text before name.now count ++ text_in line.old }
    ensures room { room_in line.old ≤ room_in line.new + length name.now + 22 }
{
    if count == 0 {
        return;
    }
    line.prepend_field(name, count);
    line.prepend_text(if before == 0 { b": " } else { b", " });
}

// Puts the classes that are left out, in the order of the report.
fn prepend_classes(line: &mut Line, classes: &ClassCounts)
    requires { 240 ≤ room_in line.old }
    ensures text { text_in line.new ≡ classes_text classes.now ++ text_in line.old }
    ensures room { room_in line.old ≤ room_in line.new + 240 }
{
    let link = u128::from(classes.other_link);
    let network = link + u128::from(classes.not_ipv4);
    let short = network + u128::from(classes.short);
    let cut = short + u128::from(classes.cut);
    let bad = cut + u128::from(classes.bad);
    prepend_class(line, bad, b"unjoined ", classes.unjoined);
    prepend_class(line, cut, b"bad ", classes.bad);
    prepend_class(line, short, b"cut ", classes.cut);
    prepend_class(line, network, b"short ", classes.short);
    prepend_class(line, link, b"not-ipv4 ", classes.not_ipv4);
    prepend_class(line, 0, b"other-link ", classes.other_link);
}

// How many packets there are of the classes that are left out.
fn unjoined_and_before(classes: &ClassCounts) -> u128
    ensures value { result ≡ unjoined_and_before classes.now }
    ensures few { result ≤ 6 * 2 ^ 64 }
{
    u128::from(classes.other_link)
        + u128::from(classes.not_ipv4)
        + u128::from(classes.short)
        + u128::from(classes.cut)
        + u128::from(classes.bad)
        + u128::from(classes.unjoined)
}

// Puts how many packets are left out.
fn prepend_headline(line: &mut Line, all: u128)
    requires { 60 ≤ room_in line.old }
    ensures { text_in line.new ≡ headline_text all ++ text_in line.old }
{
    line.prepend_text(if all == 1 { b" packet" } else { b" packets" });
    line.prepend_integer(b"left out: ", all);
}

// `left out: 441 packets: not-ipv4 2, bad 439`
fn packets_line(left: LeftOut) -> Line
    ensures { text_in result ≡ left_packets_text left }
{
    let mut line = Line::new();
    let before = unjoined_and_before(&left.classes);
    let all = before + u128::from(left.truncated);
    if all == 0 {
        return line;
    }
    line.prepend_text(b"\n");
    prepend_class(&mut line, before, b"truncated ", left.truncated);
    prepend_classes(&mut line, &left.classes);
    prepend_headline(&mut line, all);
    line
}

// The line, if packets were counted.
fn counted_line(left_out: Option<LeftOut>) -> Line
    ensures { text_in result ≡ left_out_text left_out }
{
    match left_out {
        Some(left) => packets_line(left),
        None => Line::new(),
    }
}

/// The line that tells after a run that is done how many packets are in no datagram that `join` writes, by their class
/// in a report: `left out: 441 packets: not-ipv4 2, bad 439`. The classes stand in the order of the report, without
/// those that have no packet; behind them `truncated` counts the datagrams that a report counts although some of
/// their data was not captured. There is no line if no packet is left out, nor after any other run.
pub fn left_out_line(outcome: &Outcome, left: &DroppedInfo) -> Line
    ensures { text_in result ≡ left_out_told outcome.now left.now }
{
    match outcome {
        Outcome::Done => counted_line(left.left_out),
        Outcome::Differ
        | Outcome::NotWhole
        | Outcome::Line(_)
        | Outcome::Fault(_)
        | Outcome::Open(_)
        | Outcome::List
        | Outcome::ListLine(_)
        | Outcome::Create => Line::new(),
    }
}
