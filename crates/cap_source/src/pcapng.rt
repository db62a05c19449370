//! What comes next of a pcapng file.
ghost use Rattle.std.specs.Prelude.{◌≡◌, ◌≤◌, ◌<◌, ◌+◌, ◌^◌, [], length, false, IsTrue, IfOk, IfSome, None, Some, Err};
ghost use Rattle.std.specs.Prelude.{is_some, unwrap_or, vec_len, vec_capacity};
ghost use Rattle.cap_blocks.specs.Grammar.{is_known_kind, is_total};
ghost use Rattle.cap_source.specs.Comments.{comments_in};
ghost use Rattle.cap_source.specs.Contents.{content_in, of_body};
ghost use Rattle.cap_source.specs.Items.{ending_with, meta_in, behind, commented};
ghost use Rattle.cap_source.specs.inner.FileState.{FileAnswers, TakesShown, FileKeeps, IfTaken, FileSteps, FileTakes};
ghost use Rattle.cap_source.specs.inner.FileState.{pcapng_state};
ghost use Rattle.cap_source.specs.inner.FileState.{next_at};
ghost use Rattle.cap_source.specs.inner.Fronts.{FrontsAnswer, FrontsPass, pcapng_fronts};
ghost use Rattle.cap_source.specs.inner.SectionState.{progress_of, counted_blocks, has_room};

use crate::comments::comments_of;
use crate::contents::{BlockContent, BlockPacket, content_of, enhanced_packet};
use crate::feeds::{Ending, FileEnd};
use crate::packets::Meta;
use crate::peek_slots::PeekSlot;
use crate::section_states::{SectionState, go_on};
use cap_blocks::{Block, BlockReader, is_known};
use cap_bytes::{CutRest, Fault, Format, Refusal, Rule, Source};
use cap_time::Interface;

/// How a pcapng file ended of which that much was read.
pub fn ending_of_blocks(reached: &SectionState, cut: Option<CutRest>) -> FileEnd
    requires { counted_blocks (progress_of reached.now) ≤ 2 ^ 40 }
    ensures { result ≡ ending_with (progress_of reached.now) cut }
{
    let skipped = reached.skipped;
    let named = reached.named;
    let kinds = reached.kinds;
    let comments = reached.comments;
    FileEnd {
        ending: Ending {
            format: Format::Pcapng,
            skipped,
            cut,
        },
        interfaces: reached.base + reached.interfaces.len() as u64,
        named,
        kinds,
        comments,
    }
}

// What the block says that was given last.
#[tactic(auto, using(crate::proofs::Bodies::other))]
fn read_content<R: Source>(
    reader: &BlockReader<R>,
    block: Block,
    interfaces: &[Interface],
) -> Result<BlockContent, Rule>
    requires known { is_some reader.now.lent ≡ is_known_kind block.kind }
    requires allowed { IsTrue (is_total block.kind block.total) }
    requires size { IfSome reader.now.lent (λ body. length body + 12 ≡ block.total) }
    ensures { result ≡ content_in interfaces.now block.kind block.order (unwrap_or reader.now.lent []) }
{
    if is_known(block.kind) {
        content_of(interfaces, block.kind, block.order, reader.body())
    } else {
        Ok(BlockContent::Other(block.kind))
    }
}

// How many comments the block has that was given last and says this.
fn comments_given<R: Source>(reader: &BlockReader<R>, block: Block, content: BlockContent) -> u64
    requires known { is_some reader.now.lent ≡ is_known_kind block.kind }
    requires allowed { IsTrue (is_total block.kind block.total) }
    requires size { IfSome reader.now.lent (λ body. length body + 12 ≡ block.total) }
    requires other { is_known_kind block.kind ≡ false → content ≡ BlockContent.Other block.kind }
    ensures count { result ≡ comments_in block.kind block.order content (unwrap_or reader.now.lent []) }
    ensures few { result ≤ length (unwrap_or reader.now.lent []) }
{
    if is_known(block.kind) {
        comments_of(block.kind, block.order, content, reader.body())
    } else {
        0
    }
}

// Counts the comments of the block that was given last and says this, if comments are counted.
fn count_comments<R: Source>(
    reader: &BlockReader<R>,
    block: Block,
    said: Result<BlockContent, Rule>,
    reached: &mut SectionState,
)
    requires known { is_some reader.now.lent ≡ is_known_kind block.kind }
    requires allowed { IsTrue (is_total block.kind block.total) }
    requires size { IfSome reader.now.lent (λ body. length body + 12 ≡ block.total) }
    requires says { said ≡ content_in reached.old.interfaces.items block.kind block.order
        (unwrap_or reader.now.lent []) }
    requires limit { counted_blocks (progress_of reached.old) < 2 ^ 40 }
    ensures comments { progress_of reached.new
        ≡ commented (progress_of reached.old) block (unwrap_or reader.now.lent []) said }
    ensures capacity { vec_capacity reached.new.interfaces ≡ vec_capacity reached.old.interfaces }
{
    match (reached.comments, said) {
        (Some(counted), Ok(content)) => {
            reached.comments = Some(counted + comments_given(reader, block, content));
        }
        _ => {}
    }
}

/// What a block tells of its packet.
pub fn meta_of_packet(file: u32, block: Block, reached: &SectionState, packet: BlockPacket) -> Meta
    requires { reached.now.base < 2 ^ 63 }
    ensures { result ≡ meta_in file (progress_of reached.now) block packet }
{
    Meta {
        file,
        offset: block.offset,
        format: Format::Pcapng,
        skipped: reached.skipped,
        instance: reached.base + u64::from(packet.number),
        interface: packet.interface,
        units: packet.units,
        captured: packet.captured,
        original: packet.original,
    }
}

// Takes what a block says: a packet or a refusal comes next, which is put into `known`, or the file goes on after the
// block, and nothing is.
fn take_content(
    reached: &mut SectionState,
    file: u32,
    block: Block,
    content: Result<BlockContent, Rule>,
    known: &mut PeekSlot,
)
    requires room { vec_len reached.old.interfaces < vec_capacity reached.old.interfaces }
    requires limit { counted_blocks (progress_of reached.old) < 2 ^ 40 }
    requires unknown { known.old.next ≡ None }
    ensures next { known.new.next ≡ next_at file (progress_of reached.old) block content }
    ensures behind { progress_of reached.new ≡ behind (progress_of reached.old) content }
{
    match content {
        Ok(BlockContent::Packet(packet)) => {
            known.set_packet(meta_of_packet(file, block, reached, packet), packet.place);
        }
        Ok(content) => {
            go_on(reached, content);
        }
        Err(rule) => refuse(reached, file, block, rule, known),
    }
}

/// Puts what comes next of a pcapng file into `known`, if it is a packet in an enhanced packet block that the window
/// shows already, as most are, and if comments aren't counted. Returns whether it did: if not, nothing has changed.
#[inline(always)]
pub fn try_next_buffered<R: Source>(
    reader: &mut BlockReader<R>,
    reached: &SectionState,
    known: &mut PeekSlot,
) -> bool
    requires unknown { known.old.next ≡ None }
    requires counted { counted_blocks (progress_of reached.now) ≤ 2 ^ 40 }
    ensures answer { TakesShown (pcapng_state reader.old (progress_of reached.now)) result known.new.next
        (pcapng_state reader.new (progress_of reached.now)) }
    ensures reaches { IsTrue result → FileTakes (pcapng_state reader.old (progress_of reached.now))
        (pcapng_state reader.new (progress_of reached.now)) }
    ensures keeps { FileKeeps (pcapng_state reader.old (progress_of reached.now))
        (pcapng_state reader.new (progress_of reached.now)) }
    ensures room { IsTrue (has_room reader.old.broken reached.now) → IsTrue (has_room reader.new.broken reached.now) }
    ensures fronts { IsTrue reader.old.told → IsTrue result → IfTaken known.new.next
        (FrontsPass (pcapng_fronts reader.old (progress_of reached.now)) known.new.next
        (pcapng_fronts reader.new (progress_of reached.now))) }
    ensures none { result ≡ false → (reader.new ≡ reader.old) × (known.new.next ≡ None) }
{
    // the comments of a packet that is taken here aren't looked for
    if reached.comments.is_some() {
        return false;
    }
    let file = reader.window().file();
    match reader.take_packet() {
        Some(block) => {
            let said = enhanced_packet(&reached.interfaces, block.order, reader.body());
            set_packet(reached, file, block, said, known);
            true
        }
        None => false,
    }
}

// Puts into `known` what comes next after an enhanced packet block that says this.
#[inline(always)]
fn set_packet(
    reached: &SectionState,
    file: u32,
    block: Block,
    said: Result<BlockPacket, Rule>,
    known: &mut PeekSlot,
)
    requires { counted_blocks (progress_of reached.now) ≤ 2 ^ 40 }
    ensures { known.new.next ≡ next_at file (progress_of reached.now) block (of_body BlockContent.Packet said) }
{
    match said {
        Ok(packet) => {
            known.set_packet(meta_of_packet(file, block, reached, packet), packet.place);
        }
        Err(rule) => refuse(reached, file, block, rule, known),
    }
}

// Puts the refusal of a block into `known`. It isn't inlined, so that a packet is written where it is kept without a
// look at what a refusal keeps there.
#[inline(never)]
fn refuse(reached: &SectionState, file: u32, block: Block, rule: Rule, known: &mut PeekSlot)
    requires { counted_blocks (progress_of reached.now) ≤ 2 ^ 40 }
    ensures { known.new.next ≡ next_at file (progress_of reached.now) block (Err rule) }
{
    known.set_refused(
        Refusal {
            file,
            offset: block.offset,
            rule,
        },
        ending_of_blocks(reached, None),
    );
}

// Takes one block: what comes next, or none if the file goes on after it. There is room for an
// interface.
fn take_block<R: Source>(
    reader: &mut BlockReader<R>,
    reached: &mut SectionState,
    known: &mut PeekSlot,
) -> Result<(), Fault>
    requires room { vec_len reached.old.interfaces < vec_capacity reached.old.interfaces }
    requires unknown { known.old.next ≡ None }
    requires counted { counted_blocks (progress_of reached.old) ≤ reader.old.offset }
    requires free { reader.old.stop ≡ None }
    requires limit { reader.old.offset ≤ 2 ^ 40 }
    ensures answer { FileSteps (pcapng_state reader.old (progress_of reached.old)) result known.new.next
        (pcapng_state reader.new (progress_of reached.new)) }
    ensures reaches { IfOk result (λ _. IfTaken known.new.next
        (FileTakes (pcapng_state reader.old (progress_of reached.old))
        (pcapng_state reader.new (progress_of reached.new)))) }
    ensures keeps { FileKeeps (pcapng_state reader.old (progress_of reached.old))
        (pcapng_state reader.new (progress_of reached.new)) }
    ensures room { IsTrue (has_room reader.new.broken reached.new) }
    ensures fronts { IsTrue reader.old.told → FrontsAnswer (pcapng_fronts reader.old (progress_of reached.old)) result
        known.new.next (pcapng_fronts reader.new (progress_of reached.new)) }
{
    let file = reader.window().file();
    match reader.next_block() {
        Ok(Some(block)) => {
            let content = read_content(reader, block, &reached.interfaces);
            count_comments(reader, block, content, reached);
            take_content(reached, file, block, content, known);
            Ok(())
        }
        Ok(None) => {
            known.set_end(ending_of_blocks(reached, reader.cut()));
            Ok(())
        }
        Err(Fault::Refused(refusal)) => {
            known.set_refused(refusal, ending_of_blocks(reached, None));
            Ok(())
        }
        Err(fault) => Err(fault),
    }
}

// The same, if room for an interface is found first: the block isn't taken without.
fn step<R: Source>(
    reader: &mut BlockReader<R>,
    reached: &mut SectionState,
    known: &mut PeekSlot,
) -> Result<(), Fault>
    requires unknown { known.old.next ≡ None }
    requires counted { counted_blocks (progress_of reached.old) ≤ reader.old.offset }
    requires free { reader.old.stop ≡ None }
    requires limit { reader.old.offset ≤ 2 ^ 40 }
    requires room { IsTrue (has_room reader.old.broken reached.old) }
    ensures answer { FileSteps (pcapng_state reader.old (progress_of reached.old)) result known.new.next
        (pcapng_state reader.new (progress_of reached.new)) }
    ensures reaches { IfOk result (λ _. IfTaken known.new.next
        (FileTakes (pcapng_state reader.old (progress_of reached.old))
        (pcapng_state reader.new (progress_of reached.new)))) }
    ensures keeps { FileKeeps (pcapng_state reader.old (progress_of reached.old))
        (pcapng_state reader.new (progress_of reached.new)) }
    ensures room { IsTrue (has_room reader.new.broken reached.new) }
    ensures fronts { IsTrue reader.old.told → FrontsAnswer (pcapng_fronts reader.old (progress_of reached.old)) result
        known.new.next (pcapng_fronts reader.new (progress_of reached.new)) }
{
    reached.interfaces.reserve(1)?;
    take_block(reader, reached, known)
}

/// Puts into `known` what comes next of a pcapng file.
pub fn next_of_blocks<R: Source>(
    reader: &mut BlockReader<R>,
    reached: &mut SectionState,
    known: &mut PeekSlot,
) -> Result<(), Fault>
    requires unknown { known.old.next ≡ None }
    requires counted { counted_blocks (progress_of reached.old) ≤ reader.old.offset }
    requires free { reader.old.stop ≡ None }
    requires limit { reader.old.offset ≤ 2 ^ 40 }
    requires room { IsTrue (has_room reader.old.broken reached.old) }
    ensures answer { FileAnswers (pcapng_state reader.old (progress_of reached.old)) result known.new.next
        (pcapng_state reader.new (progress_of reached.new)) }
    ensures reaches { IfOk result (λ _. IfTaken known.new.next
        (FileTakes (pcapng_state reader.old (progress_of reached.old))
        (pcapng_state reader.new (progress_of reached.new)))) }
    ensures keeps { FileKeeps (pcapng_state reader.old (progress_of reached.old))
        (pcapng_state reader.new (progress_of reached.new)) }
    ensures room { IsTrue (has_room reader.new.broken reached.new) }
    ensures fronts { IsTrue reader.old.told → FrontsAnswer (pcapng_fronts reader.old (progress_of reached.old)) result
        known.new.next (pcapng_fronts reader.new (progress_of reached.new)) }
{
    loop {
        step(reader, reached, known)?;
        if known.is_some() {
            return Ok(());
        }
    }
}
