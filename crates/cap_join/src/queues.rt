//! The open groups in the order in which they were opened.
ghost use Rattle.std.specs.Prelude.{◌≡◌, ◌∷◌, [], ◌++◌, ◌+◌, ◌*◌, ◌<◌, ◌≤◌, ◌^◌, true, length, max, IsSome, IfSome};
ghost use Rattle.std.specs.Prelude.{IfNone, IsSomeAnd, IfOk, IfErr, OnOk, OnErr, IsOk, is_some, remove};
ghost use Rattle.std.specs.List.{IsDistinct};
ghost use Rattle.std.specs.Map.{keys_of, remove_entry};
ghost use Rattle.cap_join.specs.inner.Incoming.{piece_in};
ghost use Rattle.cap_join.specs.Frames.{is_too_old};
ghost use Rattle.cap_join.specs.History.{same_key};
ghost use Rattle.cap_join.specs.Joiners.{open_limit, most_bytes, spare_in};
ghost use Rattle.cap_join.specs.inner.Ages.{NoneOld, IsDeadline, AreInTurn, AreTimeless, IsFirstTimeless};
ghost use Rattle.cap_join.specs.inner.Tables.{entry_at, live_entries, has_live, PutsAt};

use crate::ages::sooner;
use crate::buffer_pools::{BufferPool, keep_buffer};
use crate::datagrams::Incoming;
use crate::groups::Group;
use cap_ip::Key;
use cap_time::Stamp;
use lru::LruCache;
use std::alloc::{AllocError, Global};
use std::marker::Model;

/// The open groups by their keys. `LruCache` links its entries, so that the first, the last and the one of a key are
/// taken out, and one is added, at a cost that doesn't depend on how many there are. They stand in the order of their
/// opening: a new group goes last, and no other call moves one.
///
/// Groups without a clock never grow old. A look for old groups sets those aside that stand before all others, so
/// each is passed once.
#[derive(Drop)]
pub(crate) struct Queue {
    timeless: LruCache<Key, Group>,
    rest: LruCache<Key, Group>,
}

impl Model for Queue {
    ghost use Rattle.std.specs.Prelude.{List};
    ghost use Rattle.cap_ip.specs.declared.headers.Key.{Key as QueueKey};
    ghost use Rattle.cap_join.specs.inner.Groups.{GroupState};

    ghost Value = { List (QueueKey × GroupState) };

    ghost use Rattle.cap_join.specs.inner.QueueView.{queue_view, IsSoundQueue};

    ghost view = { queue_view };

    ghost invariant = { IsSoundQueue };
}

// The key of the first group that is too old at a clock. If the groups are in order, those after one with a clock that
// isn't too old aren't looked at.
fn first_old(groups: &LruCache<Key, Group>, in_order: bool, now: Option<Stamp>) -> Option<Key>
    requires unique { IsDistinct same_key (keys_of groups.now.entries) }
    requires in_turn { in_order ≡ true → AreInTurn groups.now.entries }
    ensures old { IfSome result (λ key. IsSomeAnd (entry_at key groups.now.entries)
        (λ s. is_too_old s.clock now ≡ true)) }
    ensures none { IfNone result (NoneOld now groups.now.entries) }
{
    for (key, group) in groups.iter() {
        if group.is_too_old(now) {
            return Some(*key);
        }
        if in_order && group.has_clock() {
            return None;
        }
    }
    None
}

// The soonest deadline of the groups. If they are in order, it is that of the first with a clock.
fn soonest(groups: &LruCache<Key, Group>, in_order: bool) -> Option<Stamp>
    requires { in_order ≡ true → AreInTurn groups.now.entries }
    ensures { IsDeadline result groups.now.entries }
{
    let mut deadline = None;
    for (_key, group) in groups.iter() {
        deadline = sooner(deadline, group.deadline());
        if in_order && group.has_clock() {
            return deadline;
        }
    }
    deadline
}

// Puts a fragment into the group of its key, and returns whether that is complete.
fn put_in(
    groups: &mut LruCache<Key, Group>,
    key: &Key,
    incoming: &Incoming<'_>,
) -> Result<bool, AllocError>
    requires there { IsSomeAnd (entry_at key.now groups.old.entries) (λ s. s.frames < 2 ^ 63) }
    ensures ok { IfOk result (λ complete.
        PutsAt key.now (piece_in incoming.now) groups.old.entries complete groups.new.entries) }
    ensures err { OnErr result (groups.new.entries ≡ groups.old.entries) }
    ensures cap { groups.new.cap ≡ groups.old.cap }
{
    match groups.peek_mut(key) {
        None => unreachable!(),
        Some(group) => {
            group.put(incoming)?;
            Ok(group.is_complete())
        }
    }
}

// Puts a group after the others, in the place of one of its key, and returns that. An `Err` has the group.
fn append(
    groups: &mut LruCache<Key, Group>,
    key: &Key,
    group: Group,
) -> Result<Option<Group>, Group>
    requires few { length groups.old.entries < groups.old.cap }
    ensures ok { OnOk result (groups.new.entries ≡ remove_entry (same_key key.now) groups.old.entries
        ++ (key.now, group) ∷ []) }
    ensures err { OnErr result (groups.new.entries ≡ groups.old.entries) }
    ensures given { IfErr result (λ g. g ≡ group) }
    ensures succeeds { IsSome (entry_at key.now groups.old.entries) → IsOk result }
    ensures cap { groups.new.cap ≡ groups.old.cap }
{
    match groups.put(*key, group) {
        Err(failed) => {
            let (_key, group) = failed.value;
            Err(group)
        }
        Ok(replaced) => {
            groups.demote(key);
            Ok(replaced)
        }
    }
}

// Whether a key has a group.
fn holds(groups: &LruCache<Key, Group>, key: &Key) -> bool
    ensures { result ≡ is_some (entry_at key.now groups.now.entries) }
{
    if groups.is_empty() {
        return false;
    }
    groups.contains(key)
}

// Takes the first group out.
fn pop_first(groups: &mut LruCache<Key, Group>) -> Option<Group>
    ensures entries { groups.new.entries ≡ remove groups.old.entries 0 }
    ensures cap { groups.new.cap ≡ groups.old.cap }
{
    match groups.pop_mru() {
        None => None,
        Some((_key, group)) => Some(group),
    }
}

// The key of the first group, if it has no clock.
fn first_timeless(groups: &LruCache<Key, Group>) -> Option<Key>
    ensures { IfSome result (λ key. IsFirstTimeless key groups.now.entries) }
{
    match groups.peek_mru() {
        None => None,
        Some((key, group)) => { if group.has_clock() { None } else { Some(*key) } }
    }
}

// Puts a group after the others, in the place of one of its key. That needs no memory.
fn replace(groups: &mut LruCache<Key, Group>, key: &Key, group: Group)
    requires few { length groups.old.entries < groups.old.cap }
    requires there { IsSome (entry_at key.now groups.old.entries) }
    ensures entries { groups.new.entries ≡ remove_entry (same_key key.now) groups.old.entries ++ (key.now, group) ∷ [] }
    ensures cap { groups.new.cap ≡ groups.old.cap }
{
    match append(groups, key, group) {
        Err(_) => unreachable!(),
        Ok(_) => {}
    }
}

// Sets the first group aside, after the others there. A placeholder is put there first, so that the group isn't lost if
// there is no memory. An `Err` changes nothing.
fn set_first_aside(
    timeless: &mut LruCache<Key, Group>,
    rest: &mut LruCache<Key, Group>,
    alloc: Global,
    key: &Key,
) -> Result<(), AllocError>
    requires first { IsFirstTimeless key.now rest.old.entries }
    requires unique { IsDistinct same_key (keys_of (timeless.old.entries ++ rest.old.entries)) }
    requires room { length timeless.old.entries + 1 < timeless.old.cap }
    ensures whole { timeless.new.entries ++ rest.new.entries ≡ timeless.old.entries ++ rest.old.entries }
    ensures timeless { AreTimeless timeless.old.entries → AreTimeless timeless.new.entries }
    ensures fewer { OnOk result (length rest.new.entries < length rest.old.entries) }
    ensures same { OnErr result (rest.new.entries ≡ rest.old.entries) }
    ensures timeless_cap { timeless.new.cap ≡ timeless.old.cap }
    ensures rest_cap { rest.new.cap ≡ rest.old.cap }
{
    let blank = match rest.peek_mru() {
        None => unreachable!(),
        Some((_key, group)) => group.blank(alloc),
    };
    if append(timeless, key, blank).is_err() {
        return Err(AllocError);
    }
    match rest.pop_mru() {
        None => unreachable!(),
        Some((_key, group)) => replace(timeless, key, group),
    }
    Ok(())
}

// Sets the groups aside that stand before all with a clock. If there is no memory for one, it stays, and so do those
// after it.
fn set_aside(timeless: &mut LruCache<Key, Group>, rest: &mut LruCache<Key, Group>, alloc: Global)
    requires unique { IsDistinct same_key (keys_of (timeless.old.entries ++ rest.old.entries)) }
    requires few { length (timeless.old.entries ++ rest.old.entries) ≤ open_limit + 1 }
    requires room { open_limit + 2 < timeless.old.cap }
    ensures whole { timeless.new.entries ++ rest.new.entries ≡ timeless.old.entries ++ rest.old.entries }
    ensures timeless { AreTimeless timeless.old.entries → AreTimeless timeless.new.entries }
    ensures fewer { length rest.new.entries ≤ length rest.old.entries }
    ensures timeless_cap { timeless.new.cap ≡ timeless.old.cap }
    ensures rest_cap { rest.new.cap ≡ rest.old.cap }
{
    while let Some(key) = first_timeless(rest) {
        if set_first_aside(timeless, rest, alloc, &key).is_err() {
            return;
        }
    }
}

// The greatest length of a group's buffer.
fn most_in(groups: &LruCache<Key, Group>) -> usize
    ensures value { result ≡ most_bytes groups.now.entries }
    ensures bound { result ≤ 65520 }
{
    let mut most = 0;
    for (_key, group) in groups.iter() {
        most = group.held_bytes().max(most);
    }
    most
}

// The bytes of the buffers after the parts that the groups hold.
fn spare_in(groups: &LruCache<Key, Group>) -> usize
    requires { length groups.now.entries ≤ open_limit + 1 }
    ensures value { result ≡ spare_in groups.now.entries }
    ensures bound { result ≤ length groups.now.entries * 65520 }
{
    let mut bytes = 0;
    for (_key, group) in groups.iter() {
        bytes += group.spare_bytes();
    }
    bytes
}

// Takes out the groups that are too old at a clock, keeps their buffers, and sets the groups aside that stand before
// all with a clock.
fn expire(
    timeless: &mut LruCache<Key, Group>,
    rest: &mut LruCache<Key, Group>,
    spares: &mut BufferPool,
    alloc: Global,
    in_order: bool,
    now: Option<Stamp>,
)
    requires unique { IsDistinct same_key (keys_of (timeless.old.entries ++ rest.old.entries)) }
    requires few { length (timeless.old.entries ++ rest.old.entries) ≤ open_limit + 1 }
    requires room { open_limit + 2 < timeless.old.cap }
    requires timeless { AreTimeless timeless.old.entries }
    requires in_turn { in_order ≡ true → AreInTurn (timeless.old.entries ++ rest.old.entries) }
    ensures entries { timeless.new.entries ++ rest.new.entries
        ≡ live_entries now (timeless.old.entries ++ rest.old.entries) }
    ensures unique { IsDistinct same_key (keys_of (timeless.new.entries ++ rest.new.entries)) }
    ensures few { length (timeless.new.entries ++ rest.new.entries) ≤ open_limit + 1 }
    ensures timeless { AreTimeless timeless.new.entries }
    ensures timeless_cap { timeless.new.cap ≡ timeless.old.cap }
    ensures rest_cap { rest.new.cap ≡ rest.old.cap }
{
    set_aside(timeless, rest, alloc);
    while let Some(key) = first_old(rest, in_order, now) {
        keep_buffer(spares, rest.pop(&key));
        set_aside(timeless, rest, alloc);
    }
}

impl Queue {
    /// No group is open.
    pub(crate) fn new(alloc: Global) -> Result<Queue, AllocError>
        ensures { IfOk result (λ queue. queue ≡ []) }
    {
        Ok(Queue {
            timeless: LruCache::unbounded(alloc)?,
            rest: LruCache::unbounded(alloc)?,
        })
    }

    /// How many groups are open.
    pub(crate) fn len(&self) -> usize
        ensures { result ≡ length self.now }
    {
        self.timeless.len() + self.rest.len()
    }

    /// Whether a key has a group that isn't too old at a clock.
    pub(crate) fn has_live(&self, key: &Key, now: Option<Stamp>) -> bool
        ensures { result ≡ has_live key.now now self.now }
    {
        if holds(&self.timeless, key) {
            return true;
        }
        match self.rest.peek(key) {
            None => false,
            Some(group) => !group.is_too_old(now),
        }
    }

    /// Puts a fragment into the group of its key, and returns whether that is complete. An `Err` leaves the groups as
    /// they were.
    pub(crate) fn put_at(&mut self, key: &Key, incoming: &Incoming<'_>) -> Result<bool, AllocError>
        requires there { IsSomeAnd (entry_at key.now self.old) (λ s. s.frames < 2 ^ 63) }
        ensures ok { IfOk result (λ complete. PutsAt key.now (piece_in incoming.now) self.old complete self.new) }
        ensures err { OnErr result (self.new ≡ self.old) }
    {
        if holds(&self.timeless, key) {
            put_in(&mut self.timeless, key, incoming)
        } else {
            put_in(&mut self.rest, key, incoming)
        }
    }

    /// Takes the group of a key out.
    pub(crate) fn pop(&mut self, key: &Key) -> Option<Group>
        ensures value { result ≡ entry_at key.now self.old }
        ensures entries { self.new ≡ remove_entry (same_key key.now) self.old }
        ensures unique { IsDistinct same_key (keys_of self.new) }
    {
        if holds(&self.timeless, key) {
            self.timeless.pop(key)
        } else {
            self.rest.pop(key)
        }
    }

    /// Adds a group after the others, in the place of one of its key, which has a clock, and returns that. An `Err`
    /// has the group, and changes nothing.
    pub(crate) fn append(&mut self, key: &Key, group: Group) -> Result<Option<Group>, Group>
        requires few { length self.old ≤ open_limit }
        requires aged { IfSome (entry_at key.now self.old) (λ s. IsSome s.clock) }
        ensures ok { OnOk result (self.new ≡ remove_entry (same_key key.now) self.old ++ (key.now, group) ∷ []) }
        ensures unique { IsDistinct same_key (keys_of self.new) }
        ensures err { OnErr result (self.new ≡ self.old) }
        ensures given { IfErr result (λ g. g ≡ group) }
    {
        append(&mut self.rest, key, group)
    }

    /// Takes out the groups that are too old at a clock, and keeps their buffers.
    pub(crate) fn expire(
        &mut self,
        spares: &mut BufferPool,
        alloc: Global,
        in_order: bool,
        now: Option<Stamp>,
    )
        requires in_turn { in_order ≡ true → AreInTurn self.old }
        ensures entries { self.new ≡ live_entries now self.old }
        ensures unique { IsDistinct same_key (keys_of self.new) }
    {
        expire(
            &mut self.timeless,
            &mut self.rest,
            spares,
            alloc,
            in_order,
            now,
        );
    }

    /// The soonest deadline of the groups. If they are in order, it is that of the first with a clock.
    pub(crate) fn soonest(&self, in_order: bool) -> Option<Stamp>
        requires { in_order ≡ true → AreInTurn self.now }
        ensures { IsDeadline result self.now }
    {
        soonest(&self.rest, in_order)
    }

    /// Takes out the group that was opened first.
    pub(crate) fn pop_first(&mut self) -> Option<Group>
        ensures entries { self.new ≡ remove self.old 0 }
        ensures unique { IsDistinct same_key (keys_of self.new) }
    {
        if self.timeless.is_empty() {
            pop_first(&mut self.rest)
        } else {
            pop_first(&mut self.timeless)
        }
    }

    /// The greatest length of the part of a buffer that a group holds.
    pub(crate) fn most_bytes(&self) -> usize
        ensures value { result ≡ most_bytes self.now }
        ensures bound { result ≤ 65520 }
    {
        most_in(&self.timeless).max(most_in(&self.rest))
    }

    /// The bytes of the buffers after the parts that the groups hold.
    pub(crate) fn spare_bytes(&self) -> usize
        ensures value { result ≡ spare_in self.now }
        ensures bound { result ≤ length self.now * 65520 }
    {
        spare_in(&self.timeless) + spare_in(&self.rest)
    }
}
