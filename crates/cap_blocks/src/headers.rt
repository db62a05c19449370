//! The header of a block: its first 12 bytes (draft-ietf-opsawg-pcapng, 3.1 and 4.1).
ghost use Rattle.std.specs.Prelude.{◌≡◌, ◌+◌, ◌≤◌, ◌^◌, ◌&&◌, ◌==◌, None, Some, Ok, IfSome, is_some, length};
ghost use Rattle.cap_bytes.specs.inner.Reach.{Reaches};
ghost use Rattle.cap_bytes.specs.inner.Window.{position, read_to};
ghost use Rattle.cap_blocks.specs.Grammar.{enhanced_kind};
ghost use Rattle.cap_blocks.specs.inner.Parsing.{FindsOwnOrder, FindsOrder, ParsesBlockHeader, LooksAtHeader};
ghost use Rattle.cap_blocks.specs.inner.Parsing.{ParsingStays};
ghost use Rattle.cap_blocks.specs.Split.{is_section, is_ordered, first_fault};

use crate::blocks::{Block, ENHANCED_PACKET, ORDER_MAGIC, SECTION, is_total};
use cap_bytes::{FILE_LIMIT, Fault, Order, Refusal, Rule, Source, Stop, Tail, Window, u32_at};

/// How many bytes stand round the body of a block; its first ones tell its order and its total length.
pub const FRAME_SIZE: usize = 12;

/// Whether some bytes begin with the kind of a section header, which reads the same in both orders.
pub fn is_section(bytes: &[u8]) -> bool
    requires { 4 ≤ length bytes.now }
    ensures { result ≡ is_section bytes.now }
{
    u32_at(Order::Big, bytes, 0) == SECTION
}

// Whether the order magic of a section header reads in an order.
fn is_ordered(order: Order, bytes: &[u8]) -> bool
    requires { 12 ≤ length bytes.now }
    ensures { result ≡ is_ordered order bytes.now }
{
    u32_at(order, bytes, 8) == ORDER_MAGIC
}

// What the first block of a file is refused by before it is looked at as a block.
#[tactic(auto, unfolding(crate::specs::Split::first_fault))]
fn first_rule(section: Option<Order>, bytes: &[u8]) -> Option<Rule>
    ensures { result ≡ first_fault section bytes.now }
{
    if section.is_some() {
        return None;
    }
    if bytes.len() < 4 {
        return Some(Rule::Cut);
    }
    if is_section(bytes) {
        None
    } else {
        Some(Rule::Magic)
    }
}

// The order in which the order magic of a section header reads, if it does in either.
fn own_order(bytes: &[u8]) -> Option<Order>
    requires { 12 ≤ length bytes.now }
    ensures { FindsOwnOrder bytes.now result }
{
    if is_ordered(Order::Big, bytes) {
        return Some(Order::Big);
    }
    if is_ordered(Order::Little, bytes) {
        return Some(Order::Little);
    }
    None
}

// The order of the block at the front, unless it is a section header without an order magic.
#[inline(always)]
fn order_of(section: Option<Order>, bytes: &[u8]) -> Option<Order>
    requires head { 12 ≤ length bytes.now }
    requires first { first_fault section bytes.now ≡ None }
    ensures { FindsOrder section bytes.now result }
{
    match section {
        Some(section) if !is_section(bytes) => Some(section),
        _ => own_order(bytes),
    }
}

/// The block that stands at the front of some bytes, which begin at `offset`, as far as its first 12
/// bytes tell it. If there is none, the first rule that they break; `Rule::Cut` if they are too
/// few. The order is that of the section that is being read, if one is.
#[inline(always)]
pub fn find_block_header(section: Option<Order>, offset: u64, bytes: &[u8]) -> Result<Block, Rule>
    requires { offset ≤ 2 ^ 40 }
    ensures { ParsesBlockHeader section offset bytes.now result }
{
    if let Some(rule) = first_rule(section, bytes) {
        return Err(rule);
    }
    if bytes.len() < FRAME_SIZE {
        return Err(Rule::Cut);
    }
    let Some(order) = order_of(section, bytes) else {
        return Err(Rule::OrderMagic);
    };
    let kind = u32_at(order, bytes, 0);
    let total = u32_at(order, bytes, 4);
    if !is_total(kind, total) {
        return Err(Rule::BlockLength);
    }
    if offset + u64::from(total) > FILE_LIMIT {
        return Err(Rule::FileLimit);
    }
    Ok(Block {
        kind,
        offset,
        total,
        order,
    })
}

/// The enhanced packet block (draft-ietf-opsawg-pcapng, 4.3) that stands at the front of some bytes, which begin at
/// `offset`, as far as its first 12 bytes tell it, in that order, which is that of the section: what
/// `find_block_header` returns then, with no table of kinds on the way of a packet. `None` says nothing: the block is
/// another one, or breaks a rule.
#[inline(always)]
pub fn enhanced_at(order: Order, offset: u64, bytes: &[u8]) -> Option<Block>
    requires head { 12 ≤ length bytes.now }
    requires limit { offset ≤ 2 ^ 40 }
    ensures header { IfSome result (λ block. ParsesBlockHeader (Some order) offset bytes.now (Ok block)) }
    ensures kind { IfSome result (λ block. block.kind ≡ enhanced_kind) }
{
    if is_section(bytes) || u32_at(order, bytes, 0) != ENHANCED_PACKET {
        return None;
    }
    let total = u32_at(order, bytes, 4);
    if !is_total(ENHANCED_PACKET, total) || offset + u64::from(total) > FILE_LIMIT {
        return None;
    }
    Some(Block {
        kind: ENHANCED_PACKET,
        offset,
        total,
        order,
    })
}

// Whether the blocks end if these bytes are all that is left.
fn is_end(section: Option<Order>, bytes: &[u8]) -> bool
    ensures { result ≡ (is_some section && (length bytes.now == 0)) }
{
    section.is_some() && bytes.is_empty()
}

/// Looks for the header of a block at the front of a window, which shows it then.
pub fn look_at_header<R: Source>(
    window: &mut Window<R>,
    section: Option<Order>,
    tail: Tail,
) -> Result<Result<Block, Stop>, Fault>
    ensures answer { LooksAtHeader section tail window.old result window.new }
    ensures reaches { Reaches (λ _. Some 12) 12 (position window.old) result (read_to window.new) }
    ensures stays { ParsingStays window.old window.new }
{
    let file = window.file();
    let offset = window.offset();
    window.need(FRAME_SIZE)?;
    if is_end(section, window.bytes()) {
        return Ok(Err(Stop::End));
    }
    match find_block_header(section, offset, window.bytes()) {
        Ok(block) => Ok(Ok(block)),
        Err(rule) => {
            let size = window.bytes().len() as u64;
            Ok(Err(Stop::by(
                section.is_some(),
                tail,
                Refusal { file, offset, rule },
                size,
            )))
        }
    }
}
