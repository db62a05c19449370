//! The body of a block, and its total length again after it (draft-ietf-opsawg-pcapng, 3.1 and 4.1).
ghost use Rattle.std.specs.Prelude.{◌≡◌, ◌≤◌, ◌+◌, None, Some, OnOk, true, false, length};
ghost use Rattle.cap_bytes.specs.inner.Reach.{Reaches, ReachesTo};
ghost use Rattle.cap_bytes.specs.inner.Window.{position, read_to};
ghost use Rattle.cap_blocks.specs.Grammar.{is_known_kind};
ghost use Rattle.cap_blocks.specs.inner.Parsing.{IsHeader, LooksAtBody, SkipsBody, ParsingStays};
ghost use Rattle.cap_blocks.specs.Split.{body_fault};

use crate::blocks::{Block, SECTION, is_known, is_version};
use cap_bytes::{Fault, Rule, Source, Window, u16_at, u32_at};

// How many bytes the total length takes after the body.
const TRAILER_SIZE: usize = 4;

/// What a block is refused by that stands whole at the front of some bytes, by its header: its total length again after
/// its body, and of a section header the version. draft-ietf-opsawg-pcapng, 3.1 and 4.1.
#[inline(always)]
pub fn body_rule(block: Block, bytes: &[u8]) -> Option<Rule>
    requires header { IsHeader block block.offset bytes.now }
    requires whole { block.total ≤ length bytes.now }
    ensures { result ≡ body_fault block.order bytes.now }
{
    let place = block.total as usize - TRAILER_SIZE;
    if u32_at(block.order, bytes, place) != block.total {
        return Some(Rule::BlockTrailer);
    }
    if block.kind == SECTION {
        let major = u16_at(block.order, bytes, 12);
        let minor = u16_at(block.order, bytes, 14);
        if !is_version(major, minor) {
            return Some(Rule::Version);
        }
    }
    None
}

// Looks at the body of a block of a known kind, which the window shows whole then.
fn look_at_known<R: Source>(window: &mut Window<R>, block: Block) -> Result<Option<Rule>, Fault>
    requires header { IsHeader block window.old.offset window.old.shown }
    requires known { is_known_kind block.kind ≡ true }
    ensures answer { LooksAtBody block window.old result window.new }
    ensures reaches { Reaches (λ _. Some block.total) block.total (position window.old) result (read_to window.new) }
    ensures stays { ParsingStays window.old window.new }
{
    if !window.need(block.total as usize)? {
        return Ok(Some(Rule::Cut));
    }
    Ok(body_rule(block, window.bytes()))
}

// Passes a block of another kind, and looks at its trailer.
fn skip_body<R: Source>(window: &mut Window<R>, block: Block) -> Result<Option<Rule>, Fault>
    requires header { IsHeader block window.old.offset window.old.shown }
    requires room { 12 ≤ window.old.room }
    requires whole { window.old.broken ≡ None }
    requires unknown { is_known_kind block.kind ≡ false }
    ensures answer { SkipsBody block window.old result window.new }
    ensures reaches { OnOk result (ReachesTo window.old.most (window.old.offset + block.total)
        (read_to window.old) (read_to window.new)) }
    ensures stays { ParsingStays window.old window.new }
{
    if !window.skip(u64::from(block.total) - TRAILER_SIZE as u64)? {
        return Ok(Some(Rule::Cut));
    }
    if !window.need(TRAILER_SIZE)? {
        return Ok(Some(Rule::Cut));
    }
    if u32_at(block.order, window.bytes(), 0) != block.total {
        return Ok(Some(Rule::BlockTrailer));
    }
    window.pass(TRAILER_SIZE);
    Ok(None)
}

// The same, if a read that fails is reported with the block's own offset.
fn look_at_skipped<R: Source>(window: &mut Window<R>, block: Block) -> Result<Option<Rule>, Fault>
    requires header { IsHeader block window.old.offset window.old.shown }
    requires room { 12 ≤ window.old.room }
    requires whole { window.old.broken ≡ None }
    requires unknown { is_known_kind block.kind ≡ false }
    ensures answer { LooksAtBody block window.old result window.new }
    ensures reaches { Reaches (λ _. Some block.total) block.total (position window.old) result (read_to window.new) }
    ensures stays { ParsingStays window.old window.new }
{
    match skip_body(window, block) {
        Ok(fault) => Ok(fault),
        Err(_) => {
            let offset = block.offset;
            window.fail_at(offset);
            Err(Fault::Read {
                file: window.file(),
                offset,
            })
        }
    }
}

/// Looks at what follows the header of a block, which a window shows. A block of a known kind is
/// shown whole then, and one of another kind is passed.
pub fn look_at_body<R: Source>(window: &mut Window<R>, block: Block) -> Result<Option<Rule>, Fault>
    requires header { IsHeader block window.old.offset window.old.shown }
    requires room { 12 ≤ window.old.room }
    requires whole { window.old.broken ≡ None }
    ensures answer { LooksAtBody block window.old result window.new }
    ensures reaches { Reaches (λ _. Some block.total) block.total (position window.old) result (read_to window.new) }
    ensures stays { ParsingStays window.old window.new }
{
    if is_known(block.kind) {
        look_at_known(window, block)
    } else {
        look_at_skipped(window, block)
    }
}
