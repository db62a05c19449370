//! The comments of the blocks of a pcapng file. draft-ietf-opsawg-pcapng, 3.5.
ghost use Rattle.std.specs.Prelude.{◌≡◌, ◌≤◌, ◌+◌, ◌%◌, count_by, drop, length};
ghost use Rattle.cap_blocks.specs.OptionList.{options_of, padded};
ghost use Rattle.cap_blocks.specs.inner.Options.{option_item};
ghost use Rattle.cap_source.specs.Comments.{comments_in, is_comment, option_bytes};

use crate::contents::BlockContent;
use cap_blocks::{Options, SIMPLE_PACKET};
use cap_bytes::{Order, Rule};

// The code of a comment. draft-ietf-opsawg-pcapng, 3.5.
const COMMENT: u16 = 1;

// Where the options of a section header begin in its body, those of an interface block, and the captured bytes of an
// enhanced or an obsolete packet block.
const SECTION_HEAD: usize = 16;

const INTERFACE_HEAD: usize = 8;

const PACKET_HEAD: usize = 20;

// Whether an option is a comment.
fn is_comment(option: Result<(u16, &[u8]), Rule>) -> bool
    ensures { result ≡ is_comment (option_item option.entry) }
{
    match option {
        Ok((code, _)) => code == COMMENT,
        Err(_) => false,
    }
}

// How many comments are among these options.
fn count_options(order: Order, options: &[u8]) -> u64
    requires { length options.now % 4 ≡ 0 }
    ensures count { result ≡ count_by is_comment (options_of order options.now) }
    ensures few { result ≤ length options.now }
{
    let mut count = 0;
    for option in Options::new(order, options) {
        if is_comment(option) {
            count += 1;
        }
    }
    count
}

// What follows the first n bytes of a body, if anything does.
fn behind(body: &[u8], n: usize) -> &[u8]
    ensures { result.now ≡ drop n body.entry.now }
{
    if body.len() < n {
        &[]
    } else {
        body.split_at(n).1
    }
}

// A length with the padding to a multiple of 4.
fn padded(length: u32) -> usize
    ensures { result ≡ padded length }
{
    4 * ((length as usize + 3) / 4)
}

// The bytes of the options of a block of that kind which says this.
fn options_in(kind: u32, content: BlockContent, body: &[u8]) -> &[u8]
    ensures { result.now ≡ option_bytes kind content body.entry.now }
{
    match content {
        BlockContent::Section => behind(body, SECTION_HEAD),
        BlockContent::Interface(_) => behind(body, INTERFACE_HEAD),
        BlockContent::Packet(packet) => {
            if kind == SIMPLE_PACKET {
                &[]
            } else {
                behind(body, PACKET_HEAD + padded(packet.captured))
            }
        }
        BlockContent::Other(_) => &[],
    }
}

/// How many comments a block of that kind has which says this.
#[tactic(auto, unfolding(crate::specs::Comments::comments_in))]
pub fn comments_of(kind: u32, order: Order, content: BlockContent, body: &[u8]) -> u64
    requires padded { length body.now % 4 ≡ 0 }
    ensures count { result ≡ comments_in kind order content body.now }
    ensures few { result ≤ length body.now }
{
    count_options(order, options_in(kind, content, body))
}
