//! A capture whose bytes are fed piece by piece: how far it was read, and what comes next of it.
ghost use Rattle.std.specs.Prelude.{◌≡◌, ◌≤◌, ◌+◌, ◌-◌, ◌^◌, ◌||◌, min, not, length, is_some, false, true, Ok, Some};
ghost use Rattle.std.specs.Prelude.{◌<◌, IsTrue, vec_capacity, vec_len};
ghost use Rattle.cap_blocks.specs.Grammar.{is_known_kind, is_total};
ghost use Rattle.cap_blocks.specs.Split.{body_in};
ghost use Rattle.cap_blocks.specs.inner.Parsing.{ParsesBlockHeader};
ghost use Rattle.cap_bytes.specs.Items.{stop_by, stop_where};
ghost use Rattle.cap_source.specs.Fed.{EndingAt, format_ending};
ghost use Rattle.cap_source.specs.Items.{is_pcapng};
ghost use Rattle.cap_source.specs.inner.FedSteps.{BreaksBy, BreaksOff, PushKeeps, IsSoundPush, StepsFed, StopsFed};
ghost use Rattle.cap_source.specs.inner.FedSteps.{format_at};
ghost use Rattle.cap_source.specs.inner.FedSteps.{SaysWithin, TakesBlockFed, TakesFed, push_view};

use crate::contents::{BlockContent, content_of};
use crate::feeds::FileEnd;
use crate::packets::Meta;
use crate::pcap::{ending_of_pcap, meta_of_record};
use crate::pcapng::{ending_of_blocks, meta_of_packet};
use crate::section_states::{SectionState, go_on, skip_block};
use cap_blocks::{Block, body_rule, find_block_header, is_known, is_section};
use cap_bytes::{CutRest, Fault, Format, Order, Refusal, Rule, Stop, Tail, u32_at};
use cap_pcap::{PcapHeader, find_header, find_record};

/// Where the next bytes of a capture stand in it.
#[derive(Clone, Copy)]
pub enum Stage {
    /// At its first byte.
    Start,
    /// At a record of a pcap file with that header.
    Records(PcapHeader),
    /// At a block of a pcapng file, in a section of that order; before the first section, in none.
    Blocks(Option<Order>),
    /// In a block of a kind that is skipped, that many bytes before its trailer.
    Skipping(Block, u64),
    /// Nothing comes any more of a file of that format.
    Stopped(Format, Stop),
}

impl Stage {
    // The format of the file, as far as it was looked at.
    fn format(self) -> Format
        ensures { result ≡ format_at self }
    {
        match self {
            Stage::Start | Stage::Records(_) => Format::Pcap,
            Stage::Blocks(_) | Stage::Skipping(_, _) => Format::Pcapng,
            Stage::Stopped(format, _) => format,
        }
    }
}

/// How far a capture was read that is fed.
#[derive(Drop)]
pub struct PushState {
    /// The number of the file.
    pub file: u32,
    /// Whether a record or block that the end of the file cuts is refused, or dropped.
    pub tail: Tail,
    /// Whether all of its bytes were fed.
    pub ended: bool,
    /// Where the next record or block begins, or that which is being skipped.
    pub offset: u64,
    /// Where the next bytes stand.
    pub stage: Stage,
    /// What is known of its interfaces and blocks.
    pub reached: SectionState,
}

/// What some bytes are, which come next of a capture.
#[derive(Clone, Copy)]
pub enum PushEvent {
    /// That many of them are a header, a part of a block that is skipped, or a block that gives no packet.
    Passed(usize),
    /// A packet, the place of its captured bytes among these, and how many of them its record or block takes.
    Packet(Meta, usize, usize),
    /// More are wanted to tell.
    Short,
    /// The capture ends.
    Ends,
}

// The capture stops for good.
fn stop(state: &mut PushState, stop: Stop) -> Result<PushEvent, Fault>
    ensures { StopsFed (push_view state.old) stop result (push_view state.new) }
{
    state.stage = Stage::Stopped(state.stage.format(), stop);
    match stop {
        Stop::End | Stop::Cut(_) => Ok(PushEvent::Ends),
        Stop::Refused(refusal) => Err(Fault::Refused(refusal)),
    }
}

// What ends a capture if a rule is broken at some bytes: they may be none.
fn stop_of(state: &PushState, inside: bool, bytes: &[u8], rule: Rule) -> Stop
    ensures { stop_where inside state.now.tail state.now.file state.now.offset bytes.now (Some rule) ≡ Some result }
{
    if inside && bytes.is_empty() {
        return Stop::End;
    }
    let refusal = Refusal {
        file: state.file,
        offset: state.offset,
        rule,
    };
    Stop::by(inside, state.tail, refusal, bytes.len() as u64)
}

// Nothing comes of some bytes, since they break a rule: more are wanted, or the capture stops.
fn break_by(state: &mut PushState, rule: Rule, end: Stop) -> Result<PushEvent, Fault>
    ensures { BreaksBy (push_view state.old) rule end result (push_view state.new) }
{
    if !state.ended && matches!(rule, Rule::Cut) {
        return Ok(PushEvent::Short);
    }
    stop(state, end)
}

// The same where a header, a record or a block may begin.
fn break_off(
    state: &mut PushState,
    inside: bool,
    bytes: &[u8],
    rule: Rule,
) -> Result<PushEvent, Fault>
    ensures { BreaksOff (push_view state.old) inside bytes.now rule result (push_view state.new) }
{
    let end = stop_of(state, inside, bytes, rule);
    break_by(state, rule, end)
}

// At the first byte of a pcap file.
fn step_start(state: &mut PushState, bytes: &[u8]) -> Result<PushEvent, Fault>
    requires start { state.old.stage ≡ Stage.Start }
    requires sound { IsSoundPush (push_view state.old) }
    requires pcap { is_pcapng bytes.now ≡ false }
    ensures step { StepsFed (push_view state.old) bytes.now result (push_view state.new) }
    ensures keeps { PushKeeps (push_view state.old) (push_view state.new) }
    ensures sound { IsSoundPush (push_view state.new) }
{
    match find_header(state.offset, bytes) {
        Ok(header) => {
            state.offset += 24;
            state.stage = Stage::Records(header);
            Ok(PushEvent::Passed(24))
        }
        Err(rule) => break_off(state, false, bytes, rule),
    }
}

// At a record.
fn step_record(state: &mut PushState, header: PcapHeader, bytes: &[u8]) -> Result<PushEvent, Fault>
    requires record { state.old.stage ≡ Stage.Records header }
    requires sound { IsSoundPush (push_view state.old) }
    ensures step { StepsFed (push_view state.old) bytes.now result (push_view state.new) }
    ensures keeps { PushKeeps (push_view state.old) (push_view state.new) }
    ensures sound { IsSoundPush (push_view state.new) }
{
    match find_record(header, state.offset, bytes) {
        Ok(record) => {
            let size = 16 + record.captured as usize;
            state.offset += size as u64;
            Ok(PushEvent::Packet(meta_of_record(state.file, header, record), 16, size))
        }
        Err(rule) => break_off(state, true, bytes, rule),
    }
}

// How many bytes come before the trailer of a block that is skipped, and may be passed.
fn passed_of(left: u64, bytes: &[u8]) -> usize
    ensures { result ≡ min left (length bytes.now) }
{
    let here = bytes.len();
    if left < here as u64 {
        left as usize
    } else {
        here
    }
}

// At the header of a block that is skipped.
fn begin_skip(state: &mut PushState, block: Block, bytes: &[u8]) -> PushEvent
    requires { 12 ≤ block.total }
    ensures step { result ≡ PushEvent.Passed (min (block.total - 4) (length bytes.now)) }
    ensures stage { push_view state.new ≡ record (push_view state.old) {
      stage = Stage.Skipping block (block.total - 4 - min (block.total - 4) (length bytes.now));
    } }
{
    let left = u64::from(block.total) - 4;
    let passed = passed_of(left, bytes);
    state.stage = Stage::Skipping(block, left - passed as u64);
    PushEvent::Passed(passed)
}

// The body of a block that stands whole.
fn body_of(block: Block, bytes: &[u8]) -> &[u8]
    requires least { 12 ≤ block.total }
    requires whole { block.total ≤ length bytes.now }
    ensures { result.now ≡ body_in block.total bytes.entry.now }
{
    let (front, _) = bytes.split_at(block.total as usize - 4);
    front.split_at(8).1
}

// Takes what a block says that breaks no rule. There is room for an interface.
fn take_content(state: &mut PushState, block: Block, content: BlockContent) -> PushEvent
    requires sound { IsSoundPush (push_view state.old) }
    requires begins { block.offset ≡ state.old.offset }
    requires limit { block.offset + block.total ≤ 2 ^ 40 }
    requires least { 12 ≤ block.total }
    requires within { SaysWithin block (Ok content) }
    requires room { vec_len state.old.reached.interfaces < vec_capacity state.old.reached.interfaces }
    ensures step { TakesFed (push_view state.old) block (Ok content) (Ok result) (push_view state.new) }
    ensures keeps { PushKeeps (push_view state.old) (push_view state.new) }
    ensures sound { IsSoundPush (push_view state.new) }
{
    let total = block.total as usize;
    match content {
        BlockContent::Packet(packet) => {
            let meta = meta_of_packet(state.file, block, &state.reached, packet);
            state.offset += u64::from(block.total);
            state.stage = Stage::Blocks(Some(block.order));
            PushEvent::Packet(meta, 8 + packet.place as usize, total)
        }
        content => {
            go_on(&mut state.reached, content);
            state.offset += u64::from(block.total);
            state.stage = Stage::Blocks(Some(block.order));
            PushEvent::Passed(total)
        }
    }
}

// Takes what a block says. There is room for an interface.
fn take_said(
    state: &mut PushState,
    block: Block,
    said: Result<BlockContent, Rule>,
) -> Result<PushEvent, Fault>
    requires sound { IsSoundPush (push_view state.old) }
    requires begins { block.offset ≡ state.old.offset }
    requires limit { block.offset + block.total ≤ 2 ^ 40 }
    requires least { 12 ≤ block.total }
    requires within { SaysWithin block said }
    requires room { vec_len state.old.reached.interfaces < vec_capacity state.old.reached.interfaces }
    ensures step { TakesFed (push_view state.old) block said result (push_view state.new) }
    ensures keeps { PushKeeps (push_view state.old) (push_view state.new) }
    ensures sound { IsSoundPush (push_view state.new) }
{
    match said {
        Ok(content) => Ok(take_content(state, block, content)),
        Err(rule) => {
            let refusal = Refusal {
                file: state.file,
                offset: block.offset,
                rule,
            };
            stop(state, Stop::Refused(refusal))
        }
    }
}

// Takes a block that stands whole: room for an interface is found first.
fn take_block(state: &mut PushState, block: Block, bytes: &[u8]) -> Result<PushEvent, Fault>
    requires sound { IsSoundPush (push_view state.old) }
    requires begins { block.offset ≡ state.old.offset }
    requires limit { block.offset + block.total ≤ 2 ^ 40 }
    requires least { 12 ≤ block.total }
    requires whole { block.total ≤ length bytes.now }
    requires allowed { IsTrue (is_total block.kind block.total) }
    ensures step { TakesBlockFed (push_view state.old) block bytes.now result (push_view state.new) }
    ensures keeps { PushKeeps (push_view state.old) (push_view state.new) }
    ensures sound { IsSoundPush (push_view state.new) }
{
    state.reached.interfaces.reserve(1)?;
    let body = body_of(block, bytes);
    let said = content_of(&state.reached.interfaces, block.kind, block.order, body);
    take_said(state, block, said)
}

// At the header of a block that is read whole.
fn step_whole(
    state: &mut PushState,
    section: Option<Order>,
    block: Block,
    bytes: &[u8],
) -> Result<PushEvent, Fault>
    requires stage { state.old.stage ≡ Stage.Blocks section }
    requires sound { IsSoundPush (push_view state.old) }
    requires header { ParsesBlockHeader section state.old.offset bytes.now (Ok block) }
    requires read { IsTrue (is_known_kind block.kind || not (is_some section)) }
    ensures step { StepsFed (push_view state.old) bytes.now result (push_view state.new) }
    ensures keeps { PushKeeps (push_view state.old) (push_view state.new) }
    ensures sound { IsSoundPush (push_view state.new) }
{
    let inside = section.is_some();
    if bytes.len() < block.total as usize {
        return break_off(state, inside, bytes, Rule::Cut);
    }
    match body_rule(block, bytes) {
        Some(rule) => break_off(state, inside, bytes, rule),
        None => take_block(state, block, bytes),
    }
}

// Whether a block is read whole: it is of a known kind, or stands before the first section.
fn is_read_whole(section: Option<Order>, block: Block) -> bool
    ensures { result ≡ (is_known_kind block.kind || not (is_some section)) }
{
    is_known(block.kind) || section.is_none()
}

// At a block.
fn step_block(
    state: &mut PushState,
    section: Option<Order>,
    bytes: &[u8],
) -> Result<PushEvent, Fault>
    requires stage { state.old.stage ≡ Stage.Blocks section }
    requires sound { IsSoundPush (push_view state.old) }
    ensures step { StepsFed (push_view state.old) bytes.now result (push_view state.new) }
    ensures keeps { PushKeeps (push_view state.old) (push_view state.new) }
    ensures sound { IsSoundPush (push_view state.new) }
{
    match find_block_header(section, state.offset, bytes) {
        Ok(block) => {
            if is_read_whole(section, block) {
                step_whole(state, section, block, bytes)
            } else {
                Ok(begin_skip(state, block, bytes))
            }
        }
        Err(rule) => break_off(state, section.is_some(), bytes, rule),
    }
}

// The same in a block that is skipped, of which so many bytes are there.
fn break_skip(state: &mut PushState, rule: Rule, size: u64) -> Result<PushEvent, Fault>
    ensures { BreaksBy (push_view state.old) rule
        (stop_by true state.old.tail state.old.file state.old.offset size rule) result (push_view state.new) }
{
    let refusal = Refusal {
        file: state.file,
        offset: state.offset,
        rule,
    };
    let end = Stop::by(true, state.tail, refusal, size);
    break_by(state, rule, end)
}

// In a block that is skipped, that many bytes before its trailer.
fn step_skip(
    state: &mut PushState,
    block: Block,
    left: u64,
    bytes: &[u8],
) -> Result<PushEvent, Fault>
    requires stage { state.old.stage ≡ Stage.Skipping block left }
    requires sound { IsSoundPush (push_view state.old) }
    ensures step { StepsFed (push_view state.old) bytes.now result (push_view state.new) }
    ensures keeps { PushKeeps (push_view state.old) (push_view state.new) }
    ensures sound { IsSoundPush (push_view state.new) }
{
    let passed = passed_of(left, bytes);
    if passed > 0 {
        state.stage = Stage::Skipping(block, left - passed as u64);
        return Ok(PushEvent::Passed(passed));
    }
    let size = u64::from(block.total) - 4 - left + bytes.len() as u64;
    if bytes.len() < 4 {
        return break_skip(state, Rule::Cut, size);
    }
    if u32_at(block.order, bytes, 0) != block.total {
        return break_skip(state, Rule::BlockTrailer, size);
    }
    skip_block(&mut state.reached, block.kind);
    state.offset += u64::from(block.total);
    state.stage = Stage::Blocks(Some(block.order));
    Ok(PushEvent::Passed(4))
}

// At the first byte of a pcapng file.
fn step_first(state: &mut PushState, bytes: &[u8]) -> Result<PushEvent, Fault>
    requires start { state.old.stage ≡ Stage.Start }
    requires sound { IsSoundPush (push_view state.old) }
    requires pcapng { is_pcapng bytes.now ≡ true }
    ensures step { StepsFed (push_view state.old) bytes.now result (push_view state.new) }
    ensures keeps { PushKeeps (push_view state.old) (push_view state.new) }
    ensures sound { IsSoundPush (push_view state.new) }
{
    state.stage = Stage::Blocks(None);
    step_block(state, None, bytes)
}

impl PushState {
    /// Looks at the next bytes of the capture.
    ///
    /// Returns `Refused` if they break a rule, and then always; `Memory` if a growth was refused, which leaves it as
    /// it was.
    pub fn step(&mut self, bytes: &[u8]) -> Result<PushEvent, Fault>
        requires sound { IsSoundPush (push_view self.old) }
        ensures step { StepsFed (push_view self.old) bytes.now result (push_view self.new) }
        ensures keeps { PushKeeps (push_view self.old) (push_view self.new) }
        ensures sound { IsSoundPush (push_view self.new) }
    {
        match self.stage {
            Stage::Start => {
                if bytes.len() >= 4 && is_section(bytes) {
                    step_first(self, bytes)
                } else {
                    step_start(self, bytes)
                }
            }
            Stage::Records(header) => step_record(self, header, bytes),
            Stage::Blocks(section) => step_block(self, section, bytes),
            Stage::Skipping(block, left) => step_skip(self, block, left, bytes),
            Stage::Stopped(_, stopped) => stop(self, stopped),
        }
    }

    /// How the capture ended, if it has, and wasn't refused.
    pub fn ending(&self) -> Option<FileEnd>
        requires { IsSoundPush (push_view self.now) }
        ensures { EndingAt (push_view self.now) result }
    {
        match self.stage {
            Stage::Stopped(format, Stop::End) => Some(self.ending_with(format, None)),
            Stage::Stopped(format, Stop::Cut(rest)) => Some(self.ending_with(format, Some(rest))),
            _ => None,
        }
    }

    // How a file of that format ends that was read so far, with the rest of it that was dropped.
    fn ending_with(&self, format: Format, cut: Option<CutRest>) -> FileEnd
        requires { IsSoundPush (push_view self.now) }
        ensures { result ≡ format_ending format (push_view self.now).progress cut }
    {
        match format {
            Format::Pcap => ending_of_pcap(cut),
            Format::Pcapng => ending_of_blocks(&self.reached, cut),
        }
    }
}
