//! A reader of pcapng files.
ghost use Rattle.std.specs.Prelude.{◌≡◌, ◌≤◌, ◌+◌, ◌^◌, length, IsTrue, IsSome, IsNone, IfSome, OnSome, Some, Ok};
ghost use Rattle.cap_bytes.specs.Items.{cut_by};
ghost use Rattle.cap_bytes.specs.inner.Reach.{Reaches, size_found};
ghost use Rattle.cap_bytes.specs.inner.Reader.{opened_reader, ReaderKeeps, HasWindow};
ghost use Rattle.cap_blocks.specs.inner.Reader.{GivesNextBlock, ReachesBlock, TakesBlock, block_size, shown_block_size};
ghost use Rattle.cap_blocks.specs.inner.Reader.{shown_size};
ghost use Rattle.cap_blocks.specs.Grammar.{enhanced_kind, is_known_kind};
ghost use Rattle.cap_blocks.specs.inner.Parsing.{LooksForBlock, SeesBlock, ParsingStays};
ghost use Rattle.cap_blocks.specs.Split.{wanted_at};
ghost use Rattle.cap_bytes.specs.inner.Window.{WindowPasses, coming, position, read_to};
ghost use Rattle.cap_bytes.specs.declared.faults.Tail.{Tail};

use crate::blocks::{Block, is_known};
use crate::bodies::{body_rule, look_at_body};
use crate::headers::{FRAME_SIZE, enhanced_at, look_at_header};
use cap_bytes::{CutRest, FILE_LIMIT, Fault, Order, Refusal, Source, Stop, Tail, Window};
use std::marker::Model;

// How many bytes of a block stand in front of its body.
const HEAD_SIZE: usize = 8;

/// A reader of a pcapng file, block by block. It keeps no more of the file than its window shows.
#[derive(Drop)]
pub struct BlockReader<R: Source> {
    window: Window<R>,
    tail: Tail,
    // the order of the section that is being read
    section: Option<Order>,
    // the total length of the block that was given last, if the window still shows it
    given: Option<u32>,
    stop: Option<Stop>,
}

impl<R: Source> Model for BlockReader<R> {
    ghost use Rattle.std.specs.Prelude.{length};
    ghost use Rattle.cap_bytes.specs.inner.Reader.{ReaderState};
    ghost use Rattle.cap_bytes.specs.declared.numbers.Order.{Order};
    ghost use Rattle.cap_blocks.specs.inner.Reader.{IsSoundBlockReader, block_reader_state};

    ghost Value = { ReaderState Order };

    ghost view = { λ r. block_reader_state r.window r.tail r.section r.given r.stop };

    ghost invariant = { λ r. IsSoundBlockReader r.given (length r.window.shown) r.window.offset r.window.held };
}

// Looks for a block at the front of a window, which then shows it whole if its kind is known, and has
// passed it otherwise.
fn look_for_block<R: Source>(
    window: &mut Window<R>,
    section: Option<Order>,
    tail: Tail,
) -> Result<Result<Block, Stop>, Fault>
    ensures answer { LooksForBlock section tail window.old result window.new }
    ensures reaches { Reaches (size_found block_size) (wanted_at section window.old.offset (coming window.old))
        (position window.old) result (read_to window.new) }
    ensures stays { ParsingStays window.old window.new }
{
    let file = window.file();
    let block = match look_at_header(window, section, tail)? {
        Ok(block) => block,
        Err(stop) => return Ok(Err(stop)),
    };
    let offset = block.offset;
    match look_at_body(window, block)? {
        None => Ok(Ok(block)),
        Some(rule) => {
            let size = window.read_to() - offset;
            Ok(Err(Stop::by(
                section.is_some(),
                tail,
                Refusal { file, offset, rule },
                size,
            )))
        }
    }
}

// Passes the first bytes that a window shows, if it shows a whole enhanced packet block after them.
#[inline(always)]
fn take_packet<R: Source>(
    window: &mut Window<R>,
    given: usize,
    section: Option<Order>,
) -> Option<Block>
    requires given { given ≤ length window.old.shown }
    requires limit { window.old.offset + given ≤ 2 ^ 40 }
    ensures passes { OnSome result (WindowPasses given window.old window.new) }
    ensures held { OnSome result (window.new.held ≤ 524288) }
    ensures kind { IfSome result (λ block. block.kind ≡ enhanced_kind) }
    ensures sees { IfSome result (λ block. (tail : Tail) → SeesBlock section tail block window.new window.new) }
    ensures none { IsNone result → window.new ≡ window.old }
{
    let Some(order) = section else {
        return None;
    };
    if !window.has_buffered(given + FRAME_SIZE) {
        return None;
    }
    let (_, bytes) = window.bytes().split_at(given);
    let offset = window.offset() + given as u64;
    match enhanced_at(order, offset, bytes) {
        Some(block) => {
            if bytes.len() < block.total as usize {
                return None;
            }
            match body_rule(block, bytes) {
                None => {
                    window.pass(given);
                    Some(block)
                }
                Some(_) => None,
            }
        }
        None => None,
    }
}

// How many bytes the window still shows of the block that was given last.
fn size_given(given: Option<u32>) -> usize
    ensures { result ≡ shown_block_size given }
{
    match given {
        Some(total) => total as usize,
        None => 0,
    }
}

// How many bytes the window shows of a block that is given.
fn shown_of(block: Block) -> Option<u32>
    ensures { result ≡ shown_size (is_known_kind block.kind) block.total }
{
    if is_known(block.kind) {
        Some(block.total)
    } else {
        None
    }
}

impl<R: Source> BlockReader<R> {
    /// A reader of the bytes that a window shows from now on. It reads nothing yet.
    pub fn new(window: Window<R>, tail: Tail) -> BlockReader<R>
        ensures opened { result ≡ opened_reader window tail }
        ensures held { result.held ≤ 524288 }
    {
        // limits of every window, which the reader keeps
        prove!(window.offset() <= FILE_LIMIT);
        prove!(window.held() <= 524_288);
        BlockReader {
            window,
            tail,
            section: None,
            given: None,
            stop: None,
        }
    }

    /// The next block, if it is an enhanced packet block that the window shows whole already, as it does most of them:
    /// what `next_block` returns then, at less cost. `None` says nothing of the block, and leaves the reader as it is.
    #[inline(always)]
    pub fn take_packet(&mut self) -> Option<Block>
        ensures kind { IfSome result (λ block. block.kind ≡ enhanced_kind) }
        ensures answer { IfSome result (λ block. GivesNextBlock self.old (Ok (Some block)) self.new) }
        ensures reaches { IfSome result (λ block. ReachesBlock self.old (Ok (Some block)) self.new) }
        ensures keeps { ReaderKeeps self.old self.new }
        ensures items { IsTrue self.old.told → IfSome result (λ block. TakesBlock self.old (Ok (Some block)) self.new) }
        ensures none { IsNone result → self.new ≡ self.old }
    {
        if self.stop.is_some() {
            return None;
        }
        match take_packet(&mut self.window, size_given(self.given), self.section) {
            Some(block) => {
                self.section = Some(block.order);
                self.given = Some(block.total);
                Some(block)
            }
            None => None,
        }
    }

    /// The next block, or `None` at the end of the file, which comes again then. `body` lends the body of
    /// a block of a known kind; one of another kind is skipped, and its trailer looked at. Bytes that are
    /// no block are refused, now and at each later call; if the tail is accepted, a rest that is cut is
    /// dropped instead, which is the end, but never within the first section header. `Memory` leaves what
    /// is to come. A read that fails is reported with the offset at which the block begins, and comes again.
    pub fn next_block(&mut self) -> Result<Option<Block>, Fault>
        ensures answer { GivesNextBlock self.old result self.new }
        ensures reaches { ReachesBlock self.old result self.new }
        ensures keeps { ReaderKeeps self.old self.new }
        ensures items { IsTrue self.old.told → TakesBlock self.old result self.new }
    {
        if let Some(stop) = self.stop {
            return stop.answer();
        }
        self.window.pass(size_given(self.given));
        self.given = None;
        match look_for_block(&mut self.window, self.section, self.tail)? {
            Ok(block) => {
                self.section = Some(block.order);
                self.given = shown_of(block);
                Ok(Some(block))
            }
            Err(stop) => {
                self.stop = Some(stop);
                stop.answer()
            }
        }
    }

    /// The body of the block that was given last, without the 8 bytes in front of it and the 4 after.
    pub fn body(&self) -> &[u8]
        requires known { IsSome self.now.lent }
        ensures body { self.now.lent ≡ Some result.now }
    {
        let total = self.given.unwrap() as usize;
        let (_, behind) = self.window.bytes().split_at(HEAD_SIZE);
        behind.split_at(total - FRAME_SIZE).0
    }

    /// The rest of the file that was cut, and that was dropped, if it ended so.
    pub fn cut(&self) -> Option<CutRest>
        ensures cut { result ≡ cut_by self.now.stop }
    {
        match self.stop {
            Some(stop) => stop.cut(),
            None => None,
        }
    }

    /// The window by which the file is read.
    pub fn window(&self) -> &Window<R>
        ensures window { HasWindow self.now result.now }
    {
        &self.window
    }
}
