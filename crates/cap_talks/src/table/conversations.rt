//! The table of conversations.
ghost use Rattle.std.specs.Prelude.{◌≡◌, ◌+◌, ◌≤◌, ◌<◌, ◌^◌, ◌++◌, List, [], ◌∷◌, length, slice_get, true, nat_lt, not};
ghost use Rattle.std.specs.Prelude.{Err, IfErr, IfOk, OnOk, OnErr, false};
ghost use Rattle.std.specs.List.{list_any};
ghost use Rattle.indexmap.specs.IndexMap.{insert_entry};
ghost use Rattle.indexmap.specs.IndexSet.{insert_key};
ghost use Rattle.indexmap.specs.Layout.{set_value_at};
ghost use Rattle.cap_talks.specs.inner.table.Knowing.{GrowsBy, IsKeyOf};
ghost use Rattle.cap_talks.specs.inner.table.Adding.{with_talk_delta};
ghost use Rattle.cap_talks.specs.inner.table.Ipv4Units.{frame_delta, unit_of_ipv4};
ghost use Rattle.cap_talks.specs.inner.table.Packed.{are_known, are_packed, is_ipv4_key, is_packed, same_packed};
ghost use Rattle.cap_talks.specs.inner.table.Packed.{same_wide, unpacked, unpacked_talks, widened};
ghost use Rattle.cap_talks.specs.table.Conversations.{talk_key, row_of};
ghost use Rattle.cap_talks.specs.table.Rows.{TalksStandFor, is_refused, is_limit, talk_limit, frames_in, bytes_in};
ghost use Rattle.cap_talks.specs.table.Rows.{frames_of_row, bytes_of_row, row_in, with_delta, with_talk, IsUnitInOrder};
ghost use Rattle.cap_talks.specs.table.Rows.{is_in_order, are_all_in_order};
ghost use Rattle.cap_talks.specs.declared.table.keys.WideKey.{WideKey};
ghost use Rattle.cap_talks.specs.declared.table.units.CountedUnit.{CountedUnit};

use crate::table::ipv4_units::{Ipv4Ends, Ipv4Unit};
use crate::table::keys::{PackedKey, WideKey};
use crate::table::rows::{RowDelta, TalkKey, TalkRow};
use crate::table::units::CountedUnit;
use cap_join::Stamped;
use indexmap::{IndexMap, IndexSet};
use std::alloc::Global;
use std::marker::Model;

// How many conversations a table may have.
const TALK_LIMIT: usize = 1_048_576;

/// Why a unit, or the packet that completes it, wasn't counted. The table is as it was.
#[derive(Clone, Copy)]
pub enum ConversationsFault {
    /// The unit's conversation is a new one, and there are 1,048,576 already.
    Limit,
    /// A growth was refused.
    Memory,
}

/// The conversations of counted units: those of a protocol between two ends, whichever of them is the
/// source. Each has a row, which counts its units; rows stand in the order of their first units.
///
/// What a table holds is stated by the units that it stands for.
#[derive(Drop)]
pub struct Conversations {
    rows: IndexMap<PackedKey, TalkRow>,
    // the keys with an end of IPv6, each by its place
    known: IndexSet<WideKey>,
}

impl Model for Conversations {
    ghost use Rattle.cap_talks.specs.table.Rows.{TalksState};

    ghost Value = { TalksState };

    ghost use Rattle.cap_talks.specs.inner.table.ConversationsView.{talks_view, IsSoundTalksInside};

    ghost view = { talks_view };

    ghost invariant = { IsSoundTalksInside };
}

impl Conversations {
    /// The table of no unit.
    pub fn new(alloc: Global) -> Conversations
        ensures stands { TalksStandFor result [] }
        ensures empty { result.rows ≡ [] }
    {
        Conversations {
            rows: IndexMap::new(alloc),
            known: IndexSet::new(alloc),
        }
    }

    /// Counts one unit more, after those that the table stands for: units come in the order of the frames
    /// that completed them. All frames of its rows and the unit's are fewer than 2^64, and their bytes fewer
    /// than 2^128. The unit's first frame isn't later than its last one, and is the same if it came in one.
    ///
    /// Returns `Limit` exactly if the unit's conversation is a new one and there are 1,048,576 already, `Memory`
    /// if a growth was refused. Both leave the table as it was.
    #[inline(always)]
    pub fn add(&mut self, unit: &CountedUnit) -> Result<(), ConversationsFault>
        requires frames { frames_in self.old.rows + unit.now.frames < 2 ^ 64 }
        requires bytes { bytes_in self.old.rows + unit.now.bytes < 2 ^ 128 }
        requires unit { IsUnitInOrder unit.now }
        ensures stands { OnOk result ((units : List CountedUnit) → TalksStandFor self.old units
            → TalksStandFor self.new (units ++ unit.now ∷ [])) }
        ensures frames { OnOk result (frames_in self.new.rows ≡ frames_in self.old.rows + unit.now.frames) }
        ensures bytes { OnOk result (bytes_in self.new.rows ≡ bytes_in self.old.rows + unit.now.bytes) }
        ensures limit { is_limit result ≡ is_refused talk_limit self.old.rows (talk_key unit.now) }
        ensures err { OnErr result (self.new ≡ self.old) }
    {
        add_unit(&mut self.rows, &mut self.known, unit)
    }

    /// Counts one unit of IPv4 more that came in one frame, as `add` does.
    #[inline(always)]
    pub(crate) fn add_ipv4(&mut self, unit: &Ipv4Unit) -> Result<(), ConversationsFault>
        requires frames { frames_in self.old.rows + 1 < 2 ^ 64 }
        requires bytes { bytes_in self.old.rows + unit.now.frame.original < 2 ^ 128 }
        requires unit { IsUnitInOrder (unit_of_ipv4 unit.now) }
        ensures stands { OnOk result ((units : List CountedUnit) → TalksStandFor self.old units
            → TalksStandFor self.new (units ++ unit_of_ipv4 unit.now ∷ [])) }
        ensures frames { OnOk result (frames_in self.new.rows ≡ frames_in self.old.rows + 1) }
        ensures bytes { OnOk result (bytes_in self.new.rows ≡ bytes_in self.old.rows + unit.now.frame.original) }
        ensures limit { is_limit result ≡ is_refused talk_limit self.old.rows (talk_key (unit_of_ipv4 unit.now)) }
        ensures err { OnErr result (self.new ≡ self.old) }
    {
        add_ipv4(&mut self.rows, &self.known, unit)
    }

    /// How many conversations there are: at most 1,048,576.
    pub fn len(&self) -> usize
        ensures value { result ≡ length self.now.rows }
        ensures bound { result ≤ 1048576 }
    {
        self.rows.len()
    }

    /// The conversation at a place in the order of their first units, counted from 0, and its row; `None`
    /// past the last.
    pub fn get(&self, place: usize) -> Option<(TalkKey, TalkRow)>
        ensures { result ≡ slice_get self.now.rows place }
    {
        match self.rows.get_index(place) {
            None => None,
            Some((key, row)) => Some((key.unpacked(&self.known), *row)),
        }
    }
}

// Counts one unit more in the row at a place.
#[inline(always)]
fn add_at(rows: &mut IndexMap<PackedKey, TalkRow>, place: usize, delta: RowDelta)
    requires place { place < length rows.old.entries }
    requires frames { frames_of_row (row_in rows.old.entries place) + delta.frames < 2 ^ 64 }
    requires bytes { bytes_of_row (row_in rows.old.entries place) + delta.bytes < 2 ^ 128 }
    requires order { is_in_order (row_in rows.old.entries place) ≡ true }
    requires one { delta.frames ≡ 1 → delta.first ≡ delta.last }
    ensures { rows.new.entries ≡ set_value_at rows.old.entries place
        (with_delta (row_in rows.old.entries place) delta) }
{
    let Some(row) = rows.get_index_mut(place) else {
        unreachable!();
    };
    row.take(delta);
}

// Counts one unit more that came in one frame in the row at a place.
#[inline(always)]
fn add_frame_at(
    rows: &mut IndexMap<PackedKey, TalkRow>,
    place: usize,
    forward: bool,
    frame: &Stamped,
)
    requires place { place < length rows.old.entries }
    requires frames { frames_of_row (row_in rows.old.entries place) + 1 < 2 ^ 64 }
    requires bytes { bytes_of_row (row_in rows.old.entries place) + frame.now.original < 2 ^ 128 }
    requires order { is_in_order (row_in rows.old.entries place) ≡ true }
    ensures { rows.new.entries ≡ set_value_at rows.old.entries place
        (with_delta (row_in rows.old.entries place) (frame_delta forward frame.now)) }
{
    let Some(row) = rows.get_index_mut(place) else {
        unreachable!();
    };
    row.take_frame(forward, frame);
}

// Adds the row of a new conversation, of one unit.
#[inline(never)]
fn add_row(
    rows: &mut IndexMap<PackedKey, TalkRow>,
    key: PackedKey,
    delta: RowDelta,
) -> Result<(), ConversationsFault>
    requires frames { delta.frames < 2 ^ 64 }
    requires bytes { delta.bytes < 2 ^ 128 }
    requires one { delta.frames ≡ 1 → delta.first ≡ delta.last }
    ensures entries { OnOk result (rows.new.entries
        ≡ insert_entry same_packed rows.old.entries key (with_delta (row_of []) delta)) }
    ensures limit { is_limit result ≡ not (nat_lt (length rows.old.entries) talk_limit) }
    ensures err { OnErr result (rows.new.entries ≡ rows.old.entries) }
{
    if rows.len() >= TALK_LIMIT {
        return Err(ConversationsFault::Limit);
    }
    let mut row = TalkRow::new();
    row.take(delta);
    match rows.insert(key, row) {
        Ok(_) => Ok(()),
        Err(_) => Err(ConversationsFault::Memory),
    }
}

// Makes a key known if one more conversation is allowed beside those that there are: its place among those known. It
// isn't inlined, so that a key that is known already need not be in memory.
#[inline(never)]
fn add_known(
    known: &mut IndexSet<WideKey>,
    talks: usize,
    key: WideKey,
) -> Result<usize, ConversationsFault>
    ensures stored { IfOk result (λ place. (it : WideKey) × (slice_get known.new.keys place ≡ Some it)
        × (same_wide key it ≡ true)) }
    ensures within { IfOk result (λ place. place < length known.new.keys) }
    ensures keys { OnOk result (known.new.keys ≡ insert_key same_wide known.old.keys key) }
    ensures limit { IfErr result (λ e. is_limit (Err e) ≡ not (nat_lt talks talk_limit)) }
    ensures err { OnErr result (known.new.keys ≡ known.old.keys) }
{
    if talks >= TALK_LIMIT {
        return Err(ConversationsFault::Limit);
    }
    match known.insert_full(key) {
        Ok((place, _)) => Ok(place),
        Err(_) => Err(ConversationsFault::Memory),
    }
}

// The key of the conversation that a unit with an end of IPv6 belongs to, and whether it goes from the lesser of its
// ends. It is known from then on: if it is new, and there are that many conversations, one more must be allowed.
#[inline(always)]
fn known_key(
    known: &mut IndexSet<WideKey>,
    talks: usize,
    unit: &CountedUnit,
) -> Result<(PackedKey, bool), ConversationsFault>
    requires known { are_known known.old.keys ≡ true }
    requires wide { is_ipv4_key (talk_key unit.now) ≡ false }
    ensures key { IfOk result (IsKeyOf known.new.keys unit.now) }
    ensures known { are_known known.new.keys ≡ true }
    ensures grows { GrowsBy known.old.keys known.new.keys (widened (talk_key unit.now)) }
    ensures unknown { OnErr result (list_any (same_wide (widened (talk_key unit.now))) known.old.keys ≡ false) }
    ensures limit { IfErr result (λ e. is_limit (Err e) ≡ not (nat_lt talks talk_limit)) }
{
    let (key, forward) = WideKey::of(unit);
    if let Some(place) = known.get_index_of(&key) {
        return Ok((PackedKey::at(place), forward));
    }
    let place = add_known(known, talks, key)?;
    Ok((PackedKey::at(place), forward))
}

// The key of the conversation that a unit belongs to, and whether it goes from the lesser of its ends.
#[inline(always)]
fn key_of(
    known: &mut IndexSet<WideKey>,
    talks: usize,
    unit: &CountedUnit,
) -> Result<(PackedKey, bool), ConversationsFault>
    requires known { are_known known.old.keys ≡ true }
    ensures key { IfOk result (IsKeyOf known.new.keys unit.now) }
    ensures known { are_known known.new.keys ≡ true }
    ensures grows { GrowsBy known.old.keys known.new.keys (widened (talk_key unit.now)) }
    ensures wide { OnErr result (is_ipv4_key (talk_key unit.now) ≡ false) }
    ensures unknown { OnErr result (list_any (same_wide (widened (talk_key unit.now))) known.old.keys ≡ false) }
    ensures limit { IfErr result (λ e. is_limit (Err e) ≡ not (nat_lt talks talk_limit)) }
{
    match Ipv4Ends::of(unit) {
        Some(ends) => Ok(PackedKey::of(&ends)),
        None => known_key(known, talks, unit),
    }
}

// Counts in the rows what a unit adds whose conversation has that key.
#[inline(always)]
fn add_delta(
    rows: &mut IndexMap<PackedKey, TalkRow>,
    known: &IndexSet<WideKey>,
    key: PackedKey,
    delta: &RowDelta,
) -> Result<(), ConversationsFault>
    requires known { are_known known.now.keys ≡ true }
    requires keys { are_packed known.now.keys rows.old.entries ≡ true }
    requires key { is_packed known.now.keys key ≡ true }
    requires frames { frames_in (unpacked_talks known.now.keys rows.old.entries) + delta.now.frames < 2 ^ 64 }
    requires bytes { bytes_in (unpacked_talks known.now.keys rows.old.entries) + delta.now.bytes < 2 ^ 128 }
    requires order { are_all_in_order (unpacked_talks known.now.keys rows.old.entries) ≡ true }
    requires one { delta.now.frames ≡ 1 → delta.now.first ≡ delta.now.last }
    ensures entries { OnOk result (unpacked_talks known.now.keys rows.new.entries
        ≡ with_talk_delta (unpacked_talks known.now.keys rows.old.entries) (unpacked known.now.keys key) delta.now) }
    ensures keys { are_packed known.now.keys rows.new.entries ≡ true }
    ensures limit { is_limit result
        ≡ is_refused talk_limit (unpacked_talks known.now.keys rows.old.entries) (unpacked known.now.keys key) }
    ensures err { OnErr result (rows.new.entries ≡ rows.old.entries) }
{
    // only the contract speaks of the keys known
    let _ = known;
    match rows.get_index_of(&key) {
        Some(place) => {
            add_at(rows, place, *delta);
            Ok(())
        }
        None => add_row(rows, key, *delta),
    }
}

// The same of a unit that came in one frame.
#[inline(always)]
fn add_frame(
    rows: &mut IndexMap<PackedKey, TalkRow>,
    known: &IndexSet<WideKey>,
    key: PackedKey,
    forward: bool,
    frame: &Stamped,
) -> Result<(), ConversationsFault>
    requires known { are_known known.now.keys ≡ true }
    requires keys { are_packed known.now.keys rows.old.entries ≡ true }
    requires key { is_packed known.now.keys key ≡ true }
    requires frames { frames_in (unpacked_talks known.now.keys rows.old.entries) + 1 < 2 ^ 64 }
    requires bytes { bytes_in (unpacked_talks known.now.keys rows.old.entries) + frame.now.original < 2 ^ 128 }
    requires order { are_all_in_order (unpacked_talks known.now.keys rows.old.entries) ≡ true }
    ensures entries { OnOk result (unpacked_talks known.now.keys rows.new.entries
        ≡ with_talk_delta (unpacked_talks known.now.keys rows.old.entries) (unpacked known.now.keys key)
        (frame_delta forward frame.now)) }
    ensures keys { are_packed known.now.keys rows.new.entries ≡ true }
    ensures limit { is_limit result
        ≡ is_refused talk_limit (unpacked_talks known.now.keys rows.old.entries) (unpacked known.now.keys key) }
    ensures err { OnErr result (rows.new.entries ≡ rows.old.entries) }
{
    // only the contract speaks of the keys known
    let _ = known;
    match rows.get_index_of(&key) {
        Some(place) => {
            add_frame_at(rows, place, forward, frame);
            Ok(())
        }
        None => add_row(rows, key, RowDelta::of_frame(forward, *frame)),
    }
}

// Counts one unit of IPv4 more in the rows.
#[inline(always)]
fn add_ipv4(
    rows: &mut IndexMap<PackedKey, TalkRow>,
    known: &IndexSet<WideKey>,
    unit: &Ipv4Unit,
) -> Result<(), ConversationsFault>
    requires known { are_known known.now.keys ≡ true }
    requires keys { are_packed known.now.keys rows.old.entries ≡ true }
    requires frames { frames_in (unpacked_talks known.now.keys rows.old.entries) + 1 < 2 ^ 64 }
    requires bytes { bytes_in (unpacked_talks known.now.keys rows.old.entries) + unit.now.frame.original < 2 ^ 128 }
    requires order { are_all_in_order (unpacked_talks known.now.keys rows.old.entries) ≡ true }
    ensures entries { OnOk result (unpacked_talks known.now.keys rows.new.entries
        ≡ with_talk (unpacked_talks known.now.keys rows.old.entries) (unit_of_ipv4 unit.now)) }
    ensures keys { are_packed known.now.keys rows.new.entries ≡ true }
    ensures limit { is_limit result
        ≡ is_refused talk_limit (unpacked_talks known.now.keys rows.old.entries) (talk_key (unit_of_ipv4 unit.now)) }
    ensures err { OnErr result (unpacked_talks known.now.keys rows.new.entries
        ≡ unpacked_talks known.now.keys rows.old.entries) }
{
    let (key, forward) = PackedKey::of(&unit.ends);
    add_frame(rows, known, key, forward, &unit.frame)
}

// Counts one unit more in the rows.
#[inline(always)]
fn add_unit(
    rows: &mut IndexMap<PackedKey, TalkRow>,
    known: &mut IndexSet<WideKey>,
    unit: &CountedUnit,
) -> Result<(), ConversationsFault>
    requires known { are_known known.old.keys ≡ true }
    requires keys { are_packed known.old.keys rows.old.entries ≡ true }
    requires frames { frames_in (unpacked_talks known.old.keys rows.old.entries) + unit.now.frames < 2 ^ 64 }
    requires bytes { bytes_in (unpacked_talks known.old.keys rows.old.entries) + unit.now.bytes < 2 ^ 128 }
    requires order { are_all_in_order (unpacked_talks known.old.keys rows.old.entries) ≡ true }
    requires one { unit.now.frames ≡ 1 → unit.now.first ≡ unit.now.last }
    ensures entries { OnOk result (unpacked_talks known.new.keys rows.new.entries
        ≡ with_talk (unpacked_talks known.old.keys rows.old.entries) unit.now) }
    ensures known { are_known known.new.keys ≡ true }
    ensures keys { are_packed known.new.keys rows.new.entries ≡ true }
    ensures limit { is_limit result
        ≡ is_refused talk_limit (unpacked_talks known.old.keys rows.old.entries) (talk_key unit.now) }
    ensures err { OnErr result (unpacked_talks known.new.keys rows.new.entries
        ≡ unpacked_talks known.old.keys rows.old.entries) }
{
    let (key, forward) = key_of(known, rows.len(), unit)?;
    add_delta(rows, known, key, &RowDelta::of(unit, forward))
}
