//! The lines of packets and blocks.
ghost use Rattle.std.specs.Prelude.{◌≡◌, ◌≤◌, ◌++◌, Some, codes, length, option_map};
ghost use Rattle.cap_print.specs.Facts.{begin_in, fact_in, fields_in, line_in, named, word};
ghost use Rattle.cap_print.specs.Lines.{room_in, text_in};
ghost use Rattle.cap_commands.specs.BlockText.{block_line, kind_text, order_text};
ghost use Rattle.cap_print.specs.inner.Parts.{quote_in};
ghost use Rattle.cap_commands.specs.inner.PacketParts.{behind_in, packet_head};
ghost use Rattle.cap_time.specs.Stamp.{printed_of};
ghost use Rattle.cap_commands.specs.DiffText.{packet_side};
ghost use Rattle.cap_commands.specs.ListText.{facts_before, facts_showing, packet_fields, printed_in};
ghost use Rattle.cap_talks.specs.table.Descriptions.{description_fields};

use cap_blocks::Block;
use cap_bytes::Order;
use cap_print::{Form, Line};
use cap_source::Meta;
use cap_talks::{Description, put_description};
use cap_time::Stamp;

// The time of a packet, if it has one, as it is printed.
fn stamp_of(meta: &Meta) -> Option<Stamp>
    ensures { option_map printed_of result ≡ printed_in meta.now.units meta.now.interface }
{
    meta.time()
}

// Puts the facts of the packet number n, from 1, except its bytes, and the beginning of its line.
#[inline(always)]
fn put_packet(line: &mut Line, form: Form, n: u64, meta: &Meta)
    requires { 262 ≤ room_in line.old }
    ensures { text_in line.new
        ≡ begin_in form (codes "packet") (fields_in form (packet_fields n meta.now) (text_in line.old)) }
{
    line.put_number(form, b"link", meta.interface.link);
    line.put_number(form, b"original", meta.original);
    line.put_number(form, b"captured", meta.captured);
    line.put_time(form, b"time", stamp_of(meta));
    line.put_number(form, b"offset", meta.offset);
    line.put_number_as(form, b" ", b"n", n);
    line.put_kind(form, b"packet");
}

/// The most bytes of a packet that its line holds as digits.
pub(crate) const MOST_SHOWN: usize = 128;

/// Makes a line that of the packet number n, from 1, in a form, with these bytes of it. In text it is
/// `packet N offset O time T captured C original G link L data X`.
pub(crate) fn write_packet(line: &mut Line, form: Form, n: u64, meta: &Meta, shown: &[u8])
    requires { length shown.now ≤ 128 }
    ensures { text_in line.new ≡ line_in form (facts_showing n meta.now shown.now) }
{
    line.clear_to_end(form);
    line.put_hex(form, b"data", shown);
    put_packet(line, form, n, meta);
}

/// The most bytes of a packet that its line holds as digits, if it says of which class the packet is.
pub(crate) const MOST_SHOWN_CLASSED: usize = 60;

/// Makes a line that of the packet number n, from 1, in a form, with these bytes of it, and what it is by itself.
pub(crate) fn write_classed(
    line: &mut Line,
    form: Form,
    n: u64,
    meta: &Meta,
    shown: &[u8],
    description: &Description,
)
    requires { length shown.now ≤ 60 }
    ensures { text_in line.new
        ≡ line_in form (facts_before (description_fields description.now) n meta.now shown.now) }
{
    line.clear_to_end(form);
    put_description(line, form, description);
    line.put_hex(form, b"data", shown);
    put_packet(line, form, n, meta);
}

/// What stands behind the digits of a packet's bytes, up to the end of the line.
#[derive(Clone, Copy)]
pub(crate) enum Behind {
    /// The end of the line.
    LineEnd,
    /// In JSON the end of the object that the packet's object stands in, and the end of the line.
    ObjectEnd,
    /// What the packet is by itself, and the end of the line.
    Described(Description),
}

// Makes a line its end, and what is behind the bytes of a packet before it.
fn write_behind(line: &mut Line, form: Form, behind: &Behind)
    ensures text { text_in line.new ≡ behind_in form behind.now }
    ensures room { 376 ≤ room_in line.new }
{
    line.clear_to_end(form);
    match behind {
        Behind::LineEnd => {}
        Behind::ObjectEnd => line.put_group_end(form),
        Behind::Described(description) => put_description(line, form, description),
    }
}

/// Makes a line the end of a packet's line in a form, after the digits of its bytes, with what is behind them.
pub(crate) fn write_packet_end(line: &mut Line, form: Form, behind: &Behind)
    ensures text { text_in line.new ≡ quote_in form (behind_in form behind.now) }
    ensures room { 375 ≤ room_in line.new }
{
    write_behind(line, form, behind);
    line.put_quote(form);
}

/// Makes a line the packet number n, from 1, in a form, up to the digits of its bytes.
pub(crate) fn write_packet_head(line: &mut Line, form: Form, n: u64, meta: &Meta)
    ensures { text_in line.new ≡ packet_head form n meta.now }
{
    line.clear();
    line.put_quote(form);
    line.put_name(form, b" data ", b"data");
    put_packet(line, form, n, meta);
}

/// Makes a line the packet number n, from 1, in a form, with these bytes of it; in JSON its object ends the one that it
/// stands in.
pub(crate) fn write_side(line: &mut Line, form: Form, n: u64, meta: &Meta, shown: &[u8])
    requires { length shown.now ≤ 128 }
    ensures { text_in line.new ≡ packet_side form n meta.now shown.now }
{
    line.clear_to_end(form);
    line.put_group_end(form);
    line.put_hex(form, b"data", shown);
    put_packet(line, form, n, meta);
}

// The name of an order.
fn order_name(order: Order) -> &'static str
    ensures { result.now ≡ order_text order }
{
    match order {
        Order::Big => "big",
        Order::Little => "little",
    }
}

// Puts a block's kind, in eight lower case hex digits.
#[inline(always)]
#[tactic(auto, unfolding(cap_bytes::specs::Number::bytes_of))]
fn put_block_kind(line: &mut Line, form: Form, kind: u32)
    requires { 20 ≤ room_in line.old }
    ensures text { text_in line.new
        ≡ fact_in form (named (codes "kind") (word (Some (kind_text kind)))) (text_in line.old) }
    ensures room { 380 ≤ room_in line.old → 360 ≤ room_in line.new }
{
    line.put_quote(form);
    line.prepend_hex(b"", &kind.to_be_bytes());
    line.put_quote(form);
    line.put_name(form, b" kind ", b"kind");
}

/// Makes a line that of the block number n, from 1, in a form. In text it is
/// `block N offset O order big|little kind KKKKKKKK total T`.
pub fn write_block(line: &mut Line, form: Form, n: u64, block: &Block)
    ensures { text_in line.new ≡ block_line form n block.now }
{
    line.clear_to_end(form);
    line.put_number(form, b"total", block.total);
    put_block_kind(line, form, block.kind);
    line.put_word(form, b"order", Some(order_name(block.order)));
    line.put_number(form, b"offset", block.offset);
    line.put_number_as(form, b" ", b"n", n);
    line.put_kind(form, b"block");
}
