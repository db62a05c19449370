//! The table of open groups, in the order in which they were opened.
ghost use Rattle.std.specs.Prelude.{◌≡◌, List, [], ◌∷◌, ◌++◌, ◌+◌, ◌*◌, ◌<◌, ◌≤◌, ◌<ℤ◌, ◌^◌, pos, true, false, not};
ghost use Rattle.std.specs.Prelude.{length, Some, None, IsSome, IfSome, IfNone, IsSomeAnd, IfOk, IfErr, OnOk, OnErr};
ghost use Rattle.std.specs.Prelude.{remove, nat_lt, if◌then◌else◌};
ghost use Rattle.cap_time.specs.Stamp.{seconds_of};
ghost use Rattle.cap_join.specs.inner.Fitting.{FitsDatagram, FitsPut};
ghost use Rattle.cap_join.specs.inner.Incoming.{key_in, piece_in, place_in};
ghost use Rattle.cap_join.specs.Frames.{is_too_old};
ghost use Rattle.std.specs.List.{IsDistinct};
ghost use Rattle.std.specs.Map.{keys_of, remove_entry};
ghost use Rattle.cap_join.specs.History.{OpenGroup, same_key};
ghost use Rattle.cap_join.specs.Joiners.{AreEntriesOf, IsTable, open_limit, most_bytes, spare_in};
ghost use Rattle.cap_join.specs.inner.BufferPool.{with_spare};
ghost use Rattle.cap_join.specs.Fragments.{Piece};
ghost use Rattle.cap_join.specs.ByteMap.{completes};
ghost use Rattle.cap_join.specs.inner.Groups.{IsGroupOf, IsDatagramOf};
ghost use Rattle.cap_join.specs.inner.Ages.{NoneOld, IsDeadline, AreInTurn};
ghost use Rattle.cap_join.specs.inner.Tables.{entries_of, entry_at, live_entries, has_live, PutsAt, PutsFragment};

use crate::ages::{is_past, latest_of, sooner, stays_in_order};
use crate::buffer_pools::{BufferPool, keep_buffer};
use crate::datagrams::{Datagram, Incoming, Put};
use crate::groups::Group;
use crate::queues::Queue;
use cap_ip::Key;
use cap_time::Stamp;
use std::alloc::{AllocError, Global};
use std::marker::Model;

// How many groups may be open.
const OPEN_LIMIT: usize = 1024;

/// The open groups, and a bound of their ages.
#[derive(Drop)]
pub(crate) struct GroupTable {
    groups: Queue,
    // No group is too old until this is past.
    deadline: Option<Stamp>,
    // The deadline of the group with a clock that was opened last.
    latest: Option<Stamp>,
    // Whether the groups with a clock were opened in the order of their clocks: then none after one that isn't too old
    // is.
    in_order: bool,
}

impl Model for GroupTable {
    ghost use Rattle.std.specs.Prelude.{List};
    ghost use Rattle.cap_ip.specs.declared.headers.Key.{Key as TableKey};
    ghost use Rattle.cap_join.specs.inner.Groups.{GroupState};

    ghost Value = { List (TableKey × GroupState) };

    ghost use Rattle.cap_join.specs.inner.TableView.{table_view, IsSoundTable};

    ghost view = { table_view };

    ghost invariant = { IsSoundTable };
}

impl GroupTable {
    /// A table without a group.
    pub(crate) fn new(alloc: Global) -> Result<GroupTable, AllocError>
        ensures { IfOk result (λ table. table ≡ []) }
    {
        Ok(GroupTable {
            groups: Queue::new(alloc)?,
            deadline: None,
            latest: None,
            in_order: true,
        })
    }

    /// How many groups are open.
    pub(crate) fn len(&self) -> usize
        ensures { result ≡ length self.now }
    {
        self.groups.len()
    }

    // Whether a key has a group that isn't too old at a clock.
    fn has_live(&self, key: &Key, now: Option<Stamp>) -> bool
        ensures { result ≡ has_live key.now now self.now }
    {
        self.groups.has_live(key, now)
    }

    // Puts a fragment into the group of its key, and returns whether that is complete. An `Err` leaves the
    // groups as they were.
    fn put_at(&mut self, key: &Key, incoming: &Incoming<'_>) -> Result<bool, AllocError>
        requires there { IsSomeAnd (entry_at key.now self.old) (λ s. s.frames < 2 ^ 63) }
        ensures ok { IfOk result (λ complete. PutsAt key.now (piece_in incoming.now) self.old complete self.new) }
        ensures err { OnErr result (self.new ≡ self.old) }
    {
        self.groups.put_at(key, incoming)
    }

    /// Takes the group of a key out.
    pub(crate) fn remove(&mut self, key: &Key) -> Option<Group>
        ensures value { result ≡ entry_at key.now self.old }
        ensures entries { self.new ≡ remove_entry (same_key key.now) self.old }
        ensures unique { IsDistinct same_key (keys_of self.new) }
    {
        self.groups.pop(key)
    }

    // Drops the groups that are too old at a clock, and looks at none while the deadline isn't past. Their buffers
    // are kept.
    fn drop_old(&mut self, spares: &mut BufferPool, alloc: Global, now: Option<Stamp>)
        ensures entries { self.new ≡ live_entries now self.old }
        ensures unique { IsDistinct same_key (keys_of self.new) }
    {
        if !is_past(self.deadline, now) {
            return;
        }
        self.groups.expire(spares, alloc, self.in_order, now);
        self.deadline = self.groups.soonest(self.in_order);
    }

    // Adds a group after the others, in the place of one of its key, and returns that. An `Err` has the group, and
    // changes nothing.
    fn add(&mut self, key: &Key, group: Group) -> Result<Option<Group>, Group>
        requires few { length self.old ≤ open_limit }
        requires aged { IfSome (entry_at key.now self.old) (λ s. IsSome s.clock) }
        ensures ok { OnOk result (self.new ≡ remove_entry (same_key key.now) self.old ++ (key.now, group) ∷ []) }
        ensures unique { IsDistinct same_key (keys_of self.new) }
        ensures err { OnErr result (self.new ≡ self.old) }
        ensures given { IfErr result (λ g. g ≡ group) }
    {
        let deadline = group.deadline();
        let replaced = self.groups.append(key, group)?;
        self.in_order = stays_in_order(self.in_order, self.latest, deadline);
        self.latest = latest_of(self.latest, deadline);
        self.deadline = sooner(self.deadline, deadline);
        Ok(replaced)
    }

    // Gives up the group that was opened first if more are open than may be, and returns whether it did. Its buffer
    // is kept.
    fn make_place(&mut self, spares: &mut BufferPool) -> bool
        ensures value { result ≡ nat_lt open_limit (length self.old) }
        ensures entries { self.new ≡ (if result then remove self.old 0 else self.old) }
        ensures unique { IsDistinct same_key (keys_of self.new) }
    {
        if self.groups.len() <= OPEN_LIMIT {
            return false;
        }
        keep_buffer(spares, self.groups.pop_first());
        true
    }

    /// The greatest length of a group's buffer.
    pub(crate) fn most_bytes(&self) -> usize
        ensures value { result ≡ most_bytes self.now }
        ensures bound { result ≤ 65520 }
    {
        self.groups.most_bytes()
    }

    /// The bytes of the buffers after the parts that the groups hold.
    pub(crate) fn spare_bytes(&self) -> usize
        ensures value { result ≡ spare_in self.now }
        ensures bound { result ≤ length self.now * 65520 }
    {
        self.groups.spare_bytes()
    }
}

// The datagram of a complete group. Its buffer is kept.
fn finish(spares: &mut BufferPool, alloc: Global, group: Group) -> Datagram
    ensures datagram { (ps : List Piece) → IsGroupOf group ps → completes ps ≡ true → IsDatagramOf result ps }
    ensures fits { FitsDatagram result }
{
    let (datagram, buffer) = group.into_datagram(alloc);
    spares.give_back(buffer);
    datagram
}

// Puts a fragment into the group of its key, which isn't too old, and drops the groups that are.
fn extend(
    groups: &mut GroupTable,
    spares: &mut BufferPool,
    alloc: Global,
    clock: Option<Stamp>,
    incoming: &Incoming<'_>,
) -> Result<Put, AllocError>
    requires live { has_live (key_in incoming.now) clock groups.old ≡ true }
    requires table { IsTable (place_in incoming.now) groups.old }
    requires last { place_in incoming.now < 2 ^ 63 }
    ensures ok { IfOk result (λ put. (os : List OpenGroup) → AreEntriesOf groups.old os →
        PutsFragment clock (piece_in incoming.now) os put false groups.new) }
    ensures fits { IfOk result FitsPut }
    ensures table { OnOk result (IsTable (place_in incoming.now + 1) groups.new) }
    ensures err { OnErr result (groups.new ≡ groups.old) }
    ensures spares { OnErr result (spares.new ≡ spares.old) }
{
    let key = incoming.header.key();
    let complete = groups.put_at(&key, incoming)?;
    groups.drop_old(spares, alloc, clock);
    if !complete {
        return Ok(Put::Kept);
    }
    match groups.remove(&key) {
        None => unreachable!(),
        Some(group) => Ok(Put::Joined(finish(spares, alloc, group))),
    }
}

// A group of its first fragment, in a spare buffer if there is one, and how long that buffer was. An `Err` leaves the
// spare buffers as they were.
fn begin(
    spares: &mut BufferPool,
    alloc: Global,
    clock: Option<Stamp>,
    incoming: &Incoming<'_>,
) -> Result<(Group, usize), AllocError>
    requires { IfSome clock (λ c. seconds_of c <ℤ pos (2 ^ 65)) }
    ensures group { IfOk result (λ begun. IsGroupOf begun.0 (piece_in incoming.now ∷ [])) }
    ensures clock { IfOk result (λ begun. begun.0.clock ≡ clock) }
    ensures place { IfOk result (λ begun. begun.0.place ≡ place_in incoming.now) }
    ensures room { IfOk result (λ begun. begun.1 ≤ begun.0.room) }
    ensures taken { IfOk result (λ begun. with_spare begun.1 spares.new ≡ spares.old) }
    ensures err { OnErr result (spares.new ≡ spares.old) }
{
    let buffer = spares.take(alloc);
    let taken = buffer.len();
    let mut group = Group::new(buffer, incoming.header, clock, incoming.stamped.place);
    match group.put(incoming) {
        Err(error) => {
            spares.give_back(group.into_buffer());
            Err(error)
        }
        Ok(()) => Ok((group, taken)),
    }
}

// Adds a group to the others, in the place of one of its key, whose buffer is kept. An `Err` leaves the groups as
// they were, and gives the new group's buffer back, as long as it was when it was taken.
fn settle(
    groups: &mut GroupTable,
    spares: &mut BufferPool,
    key: &Key,
    group: Group,
    taken: usize,
) -> Result<(), AllocError>
    requires few { length groups.old ≤ open_limit }
    requires aged { IfSome (entry_at key.now groups.old) (λ s. IsSome s.clock) }
    requires room { taken ≤ group.room }
    ensures ok { OnOk result (groups.new ≡ remove_entry (same_key key.now) groups.old ++ (key.now, group) ∷ []) }
    ensures unique { IsDistinct same_key (keys_of groups.new) }
    ensures err { OnErr result (groups.new ≡ groups.old) }
    ensures spares { OnErr result (spares.new ≡ with_spare taken spares.old) }
{
    match groups.add(key, group) {
        Err(group) => {
            let mut buffer = group.into_buffer();
            buffer.truncate(taken);
            spares.give_back(buffer);
            Err(AllocError)
        }
        Ok(replaced) => {
            keep_buffer(spares, replaced);
            Ok(())
        }
    }
}

// Opens a group with a fragment whose key has none, or one that is too old, and drops the groups that
// are. If as many are open as may be, the oldest is given up; returns whether it was. The group is
// added before any is dropped, so that no memory is asked for after.
fn open(
    groups: &mut GroupTable,
    spares: &mut BufferPool,
    alloc: Global,
    clock: Option<Stamp>,
    incoming: &Incoming<'_>,
) -> Result<(Put, bool), AllocError>
    requires live { has_live (key_in incoming.now) clock groups.old ≡ false }
    requires clock { IfSome clock (λ c. seconds_of c <ℤ pos (2 ^ 65)) }
    requires table { IsTable (place_in incoming.now) groups.old }
    ensures ok { IfOk result (λ put. (os : List OpenGroup) → AreEntriesOf groups.old os →
        PutsFragment clock (piece_in incoming.now) os put.0 put.1 groups.new) }
    ensures fits { IfOk result (λ put. FitsPut put.0) }
    ensures table { OnOk result (IsTable (place_in incoming.now + 1) groups.new) }
    ensures err { OnErr result (groups.new ≡ groups.old) }
    ensures spares { OnErr result (spares.new ≡ spares.old) }
{
    let key = incoming.header.key();
    let (group, taken) = begin(spares, alloc, clock, incoming)?;
    if group.is_complete() {
        groups.drop_old(spares, alloc, clock);
        return Ok((Put::Joined(finish(spares, alloc, group)), false));
    }
    settle(groups, spares, &key, group, taken)?;
    groups.drop_old(spares, alloc, clock);
    let gave_up = groups.make_place(spares);
    Ok((Put::Kept, gave_up))
}

// Puts a fragment at a clock: into the group of its key, unless that is too old, else into a new one.
// Groups that are too old are dropped, and the oldest is given up if a new one would be too many:
// returns whether it was. An `Err` leaves the groups as they were.
fn put_into(
    groups: &mut GroupTable,
    spares: &mut BufferPool,
    alloc: Global,
    clock: Option<Stamp>,
    incoming: &Incoming<'_>,
) -> Result<(Put, bool), AllocError>
    requires clock { IfSome clock (λ c. seconds_of c <ℤ pos (2 ^ 65)) }
    requires table { IsTable (place_in incoming.now) groups.old }
    requires last { place_in incoming.now < 2 ^ 63 }
    ensures ok { IfOk result (λ put. (os : List OpenGroup) → AreEntriesOf groups.old os →
        PutsFragment clock (piece_in incoming.now) os put.0 put.1 groups.new) }
    ensures fits { IfOk result (λ put. FitsPut put.0) }
    ensures table { OnOk result (IsTable (place_in incoming.now + 1) groups.new) }
    ensures err { OnErr result (groups.new ≡ groups.old) }
    ensures spares { OnErr result (spares.new ≡ spares.old) }
{
    if groups.has_live(&incoming.header.key(), clock) {
        let put = extend(groups, spares, alloc, clock, incoming)?;
        Ok((put, false))
    } else {
        open(groups, spares, alloc, clock, incoming)
    }
}

// Makes a table and places for spare buffers, if there is no table. An `Err` changes nothing.
fn make_table(
    table: &mut Option<GroupTable>,
    spares: &mut BufferPool,
    alloc: Global,
) -> Result<(), AllocError>
    ensures there { OnOk result (IsSome table.new) }
    ensures same { entries_of table.new ≡ entries_of table.old }
    ensures spares { spares.new.lengths ≡ spares.old.lengths }
{
    if table.is_none() {
        spares.reserve()?;
        *table = Some(GroupTable::new(alloc)?);
    }
    Ok(())
}

/// Puts a fragment at a clock: into the group of its key, unless that is too old, else into a new one.
/// Groups that are too old are dropped, and the oldest is given up if a new one would be too many:
/// returns whether it was. An `Err` leaves the groups as they were.
pub(crate) fn put_fragment(
    table: &mut Option<GroupTable>,
    spares: &mut BufferPool,
    alloc: Global,
    clock: Option<Stamp>,
    incoming: &Incoming<'_>,
) -> Result<(Put, bool), AllocError>
    requires clock { IfSome clock (λ c. seconds_of c <ℤ pos (2 ^ 65)) }
    requires table { IsTable (place_in incoming.now) (entries_of table.old) }
    requires last { place_in incoming.now < 2 ^ 63 }
    ensures ok { IfOk result (λ put. (os : List OpenGroup) → AreEntriesOf (entries_of table.old) os →
        PutsFragment clock (piece_in incoming.now) os put.0 put.1 (entries_of table.new)) }
    ensures fits { IfOk result (λ put. FitsPut put.0) }
    ensures table { OnOk result (IsTable (place_in incoming.now + 1) (entries_of table.new)) }
    ensures err { OnErr result (entries_of table.new ≡ entries_of table.old) }
    ensures spares { OnErr result (spares.new.lengths ≡ spares.old.lengths) }
{
    make_table(table, spares, alloc)?;
    match table {
        None => unreachable!(),
        Some(groups) => put_into(groups, spares, alloc, clock, incoming),
    }
}

/// Drops the group of a key, whose buffer is kept. The key is copied where it is looked for, so that before the first
/// fragment it need not be in memory.
#[inline(always)]
pub(crate) fn drop_group(table: &mut Option<GroupTable>, spares: &mut BufferPool, key: Key)
    ensures entries { entries_of table.new ≡ remove_entry (same_key key) (entries_of table.old) }
    ensures unique { IsDistinct same_key (keys_of (entries_of table.old))
        → IsDistinct same_key (keys_of (entries_of table.new)) }
{
    if let Some(groups) = table {
        let sought = key;
        keep_buffer(spares, groups.remove(&sought));
    }
}
