//! How far a pcapng file was read, and what a block adds to that.
ghost use Rattle.std.specs.Prelude.{◌≡◌, ◌<◌, ◌+◌, ◌^◌, vec_len, vec_capacity};
ghost use Rattle.cap_source.specs.Items.{after, beginning, fresh};
ghost use Rattle.cap_source.specs.inner.SectionState.{progress_of, counted_blocks};

use crate::contents::{BlockContent, InterfaceDescription};
use crate::feeds::{NO_KINDS, SkippedKinds};
use cap_time::Interface;
use std::alloc::Global;

// The types of the blocks that are counted by themselves among those that are skipped.
const NAME_RESOLUTION: u32 = 4;

const DECRYPTION_SECRETS: u32 = 10;

/// How far a pcapng file was read.
#[derive(Drop)]
pub struct SectionState {
    /// The interfaces of the section that is being read, in order.
    pub interfaces: Vec<Interface>,
    /// How many interface blocks of the file stand before the section.
    pub base: u64,
    /// How many blocks of the file were skipped.
    pub skipped: u64,
    /// How many of these blocks have secrets, and how many have names.
    pub kinds: SkippedKinds,
    /// How many interfaces of the file have a name.
    pub named: u64,
    /// The first interface of the file, once it was read.
    pub first: Option<Interface>,
    /// How many comments its blocks have, if they are counted.
    pub comments: Option<u64>,
}

/// Nothing was read yet.
pub fn nothing_reached(alloc: Global) -> SectionState
    ensures { progress_of result ≡ fresh }
{
    SectionState {
        interfaces: Vec::new(alloc),
        base: 0,
        skipped: 0,
        kinds: NO_KINDS,
        named: 0,
        first: None,
        comments: None,
    }
}

/// Nothing was read yet of a file whose comments are counted if that is asked for.
pub fn beginning(alloc: Global, comments: bool) -> SectionState
    ensures { progress_of result ≡ beginning comments }
{
    let mut reached = nothing_reached(alloc);
    if comments {
        reached.comments = Some(0);
    }
    reached
}

// After a section header.
fn begin_section(reached: &mut SectionState)
    requires { counted_blocks (progress_of reached.old) < 2 ^ 40 }
    ensures { progress_of reached.new ≡ after (progress_of reached.old) BlockContent.Section }
{
    reached.base += reached.interfaces.len() as u64;
    reached.interfaces.clear();
}

// After an interface block.
fn add_interface(reached: &mut SectionState, described: InterfaceDescription)
    requires room { vec_len reached.old.interfaces < vec_capacity reached.old.interfaces }
    requires limit { counted_blocks (progress_of reached.old) < 2 ^ 40 }
    ensures { progress_of reached.new ≡ after (progress_of reached.old) (BlockContent.Interface described) }
{
    reached.first = Some(reached.first.unwrap_or(described.interface));
    if described.is_named {
        reached.named += 1;
    }
    reached.interfaces.push_reserved(described.interface);
}

/// After a block that is skipped, of that type.
pub fn skip_block(reached: &mut SectionState, kind: u32)
    requires { counted_blocks (progress_of reached.old) < 2 ^ 40 }
    ensures { progress_of reached.new ≡ after (progress_of reached.old) (BlockContent.Other kind) }
{
    reached.skipped += 1;
    match kind {
        DECRYPTION_SECRETS => reached.kinds.secrets += 1,
        NAME_RESOLUTION => reached.kinds.names += 1,
        _ => {}
    }
}

/// Goes on after a block that says this. There is room for an interface.
pub fn go_on(reached: &mut SectionState, content: BlockContent)
    requires room { vec_len reached.old.interfaces < vec_capacity reached.old.interfaces }
    requires limit { counted_blocks (progress_of reached.old) < 2 ^ 40 }
    ensures { progress_of reached.new ≡ after (progress_of reached.old) content }
{
    match content {
        BlockContent::Section => begin_section(reached),
        BlockContent::Interface(described) => add_interface(reached, described),
        BlockContent::Packet(_) => {}
        BlockContent::Other(kind) => skip_block(reached, kind),
    }
}
