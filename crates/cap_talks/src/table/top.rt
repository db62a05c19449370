//! The conversations with the most bytes.
ghost use Rattle.std.specs.Prelude.{◌≡◌, ◌<◌, ◌^◌, Some, None, Ok, length, slice_get, IfOk, IsOkUnless};
ghost use Rattle.cap_talks.specs.inner.table.Ranked.{AreRanked, Shows};
ghost use Rattle.cap_talks.specs.table.Conversations.{Conversation};
ghost use Rattle.cap_talks.specs.table.Rows.{bytes_in};
ghost use Rattle.cap_talks.specs.table.TopRows.{shown_rows, talk_bytes, top_rows};

use crate::table::conversations::Conversations;
use cap_bytes::Fault;
use std::alloc::Global;

/// A conversation by its place in a table, with its bytes.
#[derive(Clone, Copy)]
pub struct Ranked {
    /// Its bytes, both ways.
    pub bytes: u128,
    /// Its place, counted from 0.
    pub place: u32,
}

// The bytes of the conversation at a place, both ways.
fn bytes_at(talks: &Conversations, place: usize) -> u128
    requires place { place < length talks.now.rows }
    requires bytes { bytes_in talks.now.rows < 2 ^ 128 }
    ensures { (talk : Conversation) → slice_get talks.now.rows place ≡ Some talk → result ≡ talk_bytes talk }
{
    match talks.get(place) {
        None => unreachable!(),
        Some((_, row)) => row.forward_bytes + row.backward_bytes,
    }
}

// All conversations with their bytes, in the order of the table. Returns `Memory` if the growth was refused.
fn rank_all(alloc: Global, talks: &Conversations) -> Result<Vec<Ranked>, Fault>
    requires bytes { bytes_in talks.now.rows < 2 ^ 128 }
    ensures ranked { IfOk result (λ ranked. AreRanked talks.now.rows ranked.items talks.now.rows) }
    ensures fault { IsOkUnless result Fault.Memory }
{
    let mut ranked = Vec::with_capacity(alloc, talks.len())?;
    for place in 0..talks.len() {
        let bytes = bytes_at(talks, place);
        let place = place as u32;
        ranked.push(Ranked { bytes, place })?;
    }
    Ok(ranked)
}

// The `most` conversations with the most bytes, the greatest first; equal ones keep the table's order. Returns `Memory`
// if a growth was refused.
fn top_of(alloc: Global, talks: &Conversations, most: u32) -> Result<Vec<Ranked>, Fault>
    requires bytes { bytes_in talks.now.rows < 2 ^ 128 }
    ensures top { IfOk result (λ top. AreRanked talks.now.rows top.items (top_rows most talks.now.rows)) }
    ensures fault { IsOkUnless result Fault.Memory }
{
    let mut ranked = rank_all(alloc, talks)?;
    ranked.sort_by(|a, b| b.bytes.cmp(&a.bytes))?;
    ranked.truncate(most as usize);
    Ok(ranked)
}

/// The conversations that are shown: the `most` with the most bytes, the greatest first, if a number is given; none are
/// named if all are shown. Returns `Memory`, and no other fault, if a growth was refused; all are shown without one.
pub(crate) fn shown_of(
    alloc: Global,
    talks: &Conversations,
    most: Option<u32>,
) -> Result<Option<Vec<Ranked>>, Fault>
    requires bytes { bytes_in talks.now.rows < 2 ^ 128 }
    ensures shows { IfOk result (λ shown. Shows talks.now.rows shown (shown_rows most talks.now.rows)) }
    ensures fault { IsOkUnless result Fault.Memory }
    ensures all { most ≡ None → result ≡ Ok None }
{
    match most {
        None => Ok(None),
        Some(most) => Ok(Some(top_of(alloc, talks, most)?)),
    }
}
