//! The lines of conversations.
ghost use Rattle.std.specs.Prelude.{◌≡◌, ◌+◌, ◌≤◌, ◌<◌, ◌++◌, List, [], ◌∷◌, codes, length, IsTrue, IsOkUnless};
ghost use Rattle.std.specs.Prelude.{None};
ghost use Rattle.cap_bytes.specs.Device.{WriterKeeps, writer_of};
ghost use Rattle.cap_bytes.specs.Printing.{Prints, is_write};
ghost use Rattle.cap_print.specs.Facts.{coded, fact_in, facts_in, fields_in, line_in, name_in};
ghost use Rattle.cap_print.specs.Lines.{room_in, text_in};
ghost use Rattle.cap_print.specs.inner.Parts.{name_room};
ghost use Rattle.cap_talks.specs.inner.table.Ranked.{AreRanked, Shows};
ghost use Rattle.cap_talks.specs.table.Conversations.{Conversation};
ghost use Rattle.cap_talks.specs.table.TalkLines.{address_label, address_text, end_field, ipv4_text, line_at_in};
ghost use Rattle.cap_talks.specs.table.TalkLines.{port_facts, protocol_text};
ghost use Rattle.cap_talks.specs.table.TalkLines.{talk_facts, talk_fields, talk_texts_in, talks_facts, traffic_field};

use crate::table::conversations::Conversations;
use crate::table::rows::{TalkKey, TalkRow};
use crate::table::top::Ranked;
use crate::table::units::{Address, Endpoint};
use cap_bytes::{Fault, Sink, put_all};
use cap_print::{Form, Line};

// The protocol numbers that have a name (IANA).
const TCP: u8 = 6;

const UDP: u8 = 17;

// Puts a protocol: in text its name, or `p` and its number.
fn put_protocol(line: &mut Line, form: Form, protocol: u8)
    requires { 18 ≤ room_in line.old }
    ensures text { text_in line.new ≡ fact_in form (record {
      label = codes " ";
      key = codes "protocol";
      value = coded (protocol_text protocol) protocol;
    }) (text_in line.old) }
    ensures room { room_in line.old ≤ room_in line.new + 18 }
{
    match protocol {
        UDP => line.put_coded_as(form, b" ", b"protocol", b"udp", protocol),
        TCP => line.put_coded_as(form, b" ", b"protocol", b"tcp", protocol),
        _ => line.put_number_as(form, b" p", b"protocol", protocol),
    }
}

// Puts an IPv4 address, as its four bytes.
fn prepend_ipv4(line: &mut Line, address: u32)
    requires { 15 ≤ room_in line.old }
    ensures text { text_in line.new ≡ ipv4_text address ++ text_in line.old }
    ensures room { room_in line.old ≤ room_in line.new + 15 }
{
    line.prepend_integer(b".", (address % 256) as u8);
    line.prepend_integer(b".", (address / 0x100 % 256) as u8);
    line.prepend_integer(b".", (address / 0x1_0000 % 256) as u8);
    line.prepend_integer(b"", (address / 0x100_0000) as u8);
}

// Puts an address.
fn prepend_address(line: &mut Line, address: Address)
    requires { 40 ≤ room_in line.old }
    ensures text { text_in line.new ≡ address_text address ++ text_in line.old }
    ensures room { room_in line.old ≤ room_in line.new + 40 }
{
    match address {
        Address::Ipv4(address) => prepend_ipv4(line, address),
        Address::Ipv6(address) => line.prepend_ipv6(address),
    }
}

// Puts a port, if there is one.
fn put_port(line: &mut Line, form: Form, end: Endpoint)
    requires { 14 ≤ room_in line.old }
    ensures text { text_in line.new ≡ facts_in form (port_facts end.address end.port) (text_in line.old) }
    ensures room { room_in line.old ≤ room_in line.new + 14 }
{
    match (end.address, end.port) {
        (_, None) => {}
        (Address::Ipv4(_), Some(port)) => line.put_number_as(form, b":", b"port", port),
        (Address::Ipv6(_), Some(port)) => line.put_number_as(form, b"]:", b"port", port),
    }
}

// Puts what names an address.
fn put_address_name(line: &mut Line, form: Form, end: Endpoint)
    requires { 12 ≤ room_in line.old }
    ensures text { text_in line.new ≡ name_in form (address_label end) (codes "address") (text_in line.old) }
    ensures room { room_in line.old ≤ room_in line.new + 12 }
{
    match (end.address, end.port) {
        (Address::Ipv6(_), Some(_)) => line.put_name(form, b" [", b"address"),
        _ => line.put_name(form, b" ", b"address"),
    }
}

// Puts an end: its address, and its port if it has one.
fn put_end(line: &mut Line, form: Form, key: &[u8], end: Endpoint)
    requires { length key.now + 74 ≤ room_in line.old }
    ensures text { text_in line.new ≡ fields_in form (end_field key.now end ∷ []) (text_in line.old) }
    ensures room { room_in line.old ≤ room_in line.new + length key.now + 74 }
{
    line.put_group_end(form);
    put_port(line, form, end);
    line.put_quote(form);
    prepend_address(line, end.address);
    line.put_quote(form);
    put_address_name(line, form, end);
    line.put_group(form, key);
}

/// Puts what names a conversation: in text `PROTO A B`, its protocol and its two ends, the lesser first.
pub(crate) fn put_key(line: &mut Line, form: Form, key: &TalkKey)
    requires { 168 ≤ room_in line.old }
    ensures text { text_in line.new ≡ fields_in form (talk_fields key.now) (text_in line.old) }
    ensures room { room_in line.old ≤ room_in line.new + 168 }
{
    put_end(line, form, b"b", key.greater);
    put_end(line, form, b"a", key.lesser);
    put_protocol(line, form, key.protocol);
}

// Puts what went one way.
fn put_traffic(line: &mut Line, form: Form, label: &[u8], key: &[u8], frames: u64, bytes: u128)
    requires { name_room label.now (codes "packets") + length key.now + 74 ≤ room_in line.old }
    ensures text { text_in line.new
        ≡ fields_in form (traffic_field label.now key.now frames bytes ∷ []) (text_in line.old) }
    ensures room { room_in line.old
        ≤ room_in line.new + name_room label.now (codes "packets") + length key.now + 74 }
{
    line.put_group_end(form);
    line.put_number_as(form, b" ", b"bytes", bytes);
    line.put_number_as(form, label, b"packets", frames);
    line.put_group(form, key);
}

// The line of a conversation: in text `talk PROTO A B forward P BYTES backward P BYTES first T last T`. The protocol
// is `udp`, `tcp`, or `p` and its number; an end is `a.b.c.d:port`, or `a.b.c.d` if it has no port, and of IPv6
// `[a::b]:port` or `a::b`; A is the lesser end.
fn talk_line(form: Form, key: &TalkKey, row: &TalkRow) -> Line
    ensures { text_in result ≡ line_in form (talk_facts key.now row.now) }
{
    let mut line = Line::end(form);
    line.put_time(form, b"last", row.last);
    line.put_time(form, b"first", row.first);
    put_traffic(
        &mut line,
        form,
        b" backward ",
        b"backward",
        row.backward_frames,
        row.backward_bytes,
    );
    put_traffic(
        &mut line,
        form,
        b" forward ",
        b"forward",
        row.forward_frames,
        row.forward_bytes,
    );
    put_key(&mut line, form, key);
    line.put_kind(form, b"talk");
    line
}

// The line that says how many conversations there are: in text `talks C`.
fn talks_line(form: Form, count: usize) -> Line
    ensures { text_in result ≡ line_in form (talks_facts count) }
{
    let mut line = Line::end(form);
    line.put_number_as(form, b" ", b"talks", count as u64);
    line.put_kind(form, b"talks");
    line
}

// The line of the conversation at a place.
fn line_at(form: Form, talks: &Conversations, place: usize) -> Line
    requires { place < length talks.now.rows }
    ensures { text_in result ≡ line_at_in form talks.now.rows place }
{
    match talks.get(place) {
        None => unreachable!(),
        Some((key, row)) => talk_line(form, &key, &row),
    }
}

// Writes the lines of all conversations, in a form.
fn put_each<W: Sink>(writer: &mut W, form: Form, talks: &Conversations) -> Result<(), Fault>
    ensures text { IsTrue (W.tells_held writer.old)
        → Prints (talk_texts_in form talks.now.rows) None (W.held writer.old) result (W.held writer.new) }
    ensures writer { WriterKeeps (writer_of W.Sink writer.old) (is_write result) (writer_of W.Sink writer.new) }
    ensures fault { IsOkUnless result Fault.Write }
{
    for place in 0..talks.len() {
        let line = line_at(form, talks, place);
        put_all(writer, line.as_slice())?;
    }
    Ok(())
}

// Writes the lines of the conversations that are named by their places, in a form.
fn put_named<W: Sink>(
    writer: &mut W,
    form: Form,
    talks: &Conversations,
    named: &[Ranked],
) -> Result<(), Fault>
    requires named { (rows : List Conversation) × AreRanked talks.now.rows named.now rows }
    ensures text { (rows : List Conversation) → AreRanked talks.now.rows named.now rows
        → IsTrue (W.tells_held writer.old)
        → Prints (talk_texts_in form rows) None (W.held writer.old) result (W.held writer.new) }
    ensures writer { WriterKeeps (writer_of W.Sink writer.old) (is_write result) (writer_of W.Sink writer.new) }
    ensures fault { IsOkUnless result Fault.Write }
{
    for each in named {
        let line = line_at(form, talks, each.place as usize);
        put_all(writer, line.as_slice())?;
    }
    Ok(())
}

// Writes the lines of the conversations that are shown, in a form: of all, if none are named.
fn put_shown<W: Sink>(
    writer: &mut W,
    form: Form,
    talks: &Conversations,
    shown: &Option<Vec<Ranked>>,
) -> Result<(), Fault>
    requires shown { (rows : List Conversation) × Shows talks.now.rows shown.now rows }
    ensures text { (rows : List Conversation) → Shows talks.now.rows shown.now rows
        → IsTrue (W.tells_held writer.old)
        → Prints (talk_texts_in form rows) None (W.held writer.old) result (W.held writer.new) }
    ensures writer { WriterKeeps (writer_of W.Sink writer.old) (is_write result) (writer_of W.Sink writer.new) }
    ensures fault { IsOkUnless result Fault.Write }
{
    match shown {
        None => put_each(writer, form, talks),
        Some(named) => put_named(writer, form, talks, named.as_slice()),
    }
}

/// Writes a line that says how many conversations there are, and a line for each that is shown, in a form: for all, in
/// the order of their first units, if none are named, and else for those that are, one after another. Returns
/// `Fault::Write`, and no other fault, if the writer failed: a prefix of the lines is written then.
pub fn put_talks<W: Sink>(
    writer: &mut W,
    form: Form,
    talks: &Conversations,
    shown: &Option<Vec<Ranked>>,
) -> Result<(), Fault>
    requires shown { (rows : List Conversation) × Shows talks.now.rows shown.now rows }
    ensures text { (rows : List Conversation) → Shows talks.now.rows shown.now rows
        → IsTrue (W.tells_held writer.old)
        → Prints (line_in form (talks_facts (length talks.now.rows)) ++ talk_texts_in form rows) None
        (W.held writer.old) result (W.held writer.new) }
    ensures writer { WriterKeeps (writer_of W.Sink writer.old) (is_write result) (writer_of W.Sink writer.new) }
    ensures fault { IsOkUnless result Fault.Write }
{
    let line = talks_line(form, talks.len());
    put_all(writer, line.as_slice())?;
    put_shown(writer, form, talks, shown)
}
