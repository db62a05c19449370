//! The joiner of fragments.
ghost use Rattle.std.specs.Prelude.{◌≡◌, List, [], ◌∷◌, ◌+◌, ◌≤◌, ◌<◌, ◌<ℤ◌, ◌*◌, ◌^◌, pos, length, sum, IsSome};
ghost use Rattle.std.specs.Prelude.{IfSome, IfOk, IfErr, OnOk, OnErr};
ghost use Rattle.cap_time.specs.Stamp.{seconds_of};
ghost use Rattle.cap_join.specs.inner.Fitting.{FitsPut};
ghost use Rattle.cap_join.specs.Fragments.{piece_of};
ghost use Rattle.cap_join.specs.History.{Event, arrives, flushes, open_groups_after, joined_pieces};
ghost use Rattle.cap_join.specs.Joiners.{JoinerStandsFor, IsAnswer, most_bytes, spare_in, held_by_groups, open_limit};
ghost use Rattle.cap_join.specs.declared.datagrams.JoinFault.TheVariants.{Memory};

use crate::buffer_pools::BufferPool;
use crate::datagrams::{Incoming, JoinFault, Put, Stamped};
use crate::tables::{GroupTable, drop_group, put_fragment};
use cap_ip::{Header, Key};
use cap_time::Stamp;
use std::alloc::Global;
use std::marker::Model;

/// Joins IPv4 fragments into datagrams (RFC 791, 3.2).
///
/// A fragment joins the open group of its key, unless the clock of the group's first fragment and 30
/// seconds are before the fragment's clock; then it opens a new group. A first fragment without a clock
/// never grows old. Of a byte that several fragments have the latest counts. A group is complete, and
/// is one no more, if a fragment after which none follows has told its length, and each block of 8
/// bytes below that is covered. At most 1,024 groups are open: a fragment that would open one more gives
/// up the one whose first fragment has the lowest place.
///
/// What a joiner holds is stated by the events that it stands for: the fragments that were put and the
/// keys that were flushed, the latest first.
#[derive(Drop)]
pub struct Joiner {
    // `None` until the first fragment is put.
    table: Option<GroupTable>,
    spares: BufferPool,
    next: u64,
    given_up: u64,
    alloc: Global,
}

impl Model for Joiner {
    ghost use Rattle.cap_join.specs.Joiners.{JoinerState};

    ghost Value = { JoinerState };

    ghost use Rattle.cap_join.specs.inner.JoinerView.{joiner_view, IsSoundJoinerInside};

    ghost view = { joiner_view };

    ghost invariant = { IsSoundJoinerInside };
}

impl Joiner {
    /// A joiner that was given nothing.
    pub fn new(alloc: Global) -> Joiner
        ensures stands { JoinerStandsFor result [] }
        ensures next { result.next ≡ 0 }
    {
        Joiner {
            table: None,
            spares: BufferPool::new(alloc),
            next: 0,
            given_up: 0,
            alloc,
        }
    }

    /// Puts a fragment at a clock: its header, all of its data, and what is known of its frame. Its place
    /// is above those of all fragments that were put before. Groups that are too old are dropped.
    ///
    /// Returns the datagram if the fragment's group is complete with it. Returns `Memory` if
    /// a growth was refused, and leaves the joiner as it was; no other fault is returned.
    pub fn put(
        &mut self,
        clock: Option<Stamp>,
        header: &Header,
        bytes: &[u8],
        stamped: Stamped,
    ) -> Result<Put, JoinFault>
        requires fragment { IsSome header.now.fragment }
        requires whole { length bytes.now ≡ header.now.data_length }
        requires clock { IfSome clock (λ c. seconds_of c <ℤ pos (2 ^ 65)) }
        requires place { self.old.next ≤ stamped.place }
        requires last { stamped.place < 2 ^ 63 }
        ensures answer { IfOk result (λ put. (events : List Event) → JoinerStandsFor self.old events →
            IsAnswer put (joined_pieces clock (piece_of header.now bytes.now stamped)
            (open_groups_after open_limit events))) }
        ensures stands { OnOk result ((events : List Event) → JoinerStandsFor self.old events →
            JoinerStandsFor self.new (arrives clock (piece_of header.now bytes.now stamped) ∷ events)) }
        ensures next { OnOk result (self.new.next ≡ stamped.place + 1) }
        ensures fits { IfOk result FitsPut }
        ensures fault { IfErr result (λ e. e ≡ Memory) }
        ensures err { OnErr result (self.new ≡ self.old) }
    {
        let Some(fragment) = header.fragment() else {
            unreachable!();
        };
        let incoming = Incoming {
            header,
            fragment,
            data: bytes,
            stamped,
        };
        match put_fragment(
            &mut self.table,
            &mut self.spares,
            self.alloc,
            clock,
            &incoming,
        ) {
            Err(_) => Err(JoinFault::Memory),
            Ok((put, gave_up)) => {
                self.next = stamped.place + 1;
                self.given_up += u64::from(gave_up);
                Ok(put)
            }
        }
    }

    /// Drops the group of a key, as a whole datagram of that key does.
    #[inline(always)]
    pub fn flush(&mut self, key: Key)
        ensures stands { (events : List Event) → JoinerStandsFor self.old events
            → JoinerStandsFor self.new (flushes key ∷ events) }
        ensures next { self.new.next ≡ self.old.next }
    {
        drop_group(&mut self.table, &mut self.spares, key);
    }

    /// How many groups are open: at most 1,024. A group that is too old counts until the next fragment is
    /// put.
    pub fn open_count(&self) -> usize
        ensures value { result ≡ length self.now.groups }
        ensures stands { (events : List Event) → JoinerStandsFor self.now events
            → result ≡ length (open_groups_after open_limit events).opens }
        ensures bound { result ≤ 1024 }
    {
        match &self.table {
            None => 0,
            Some(table) => table.len(),
        }
    }

    /// The most bytes that an open group holds of its buffer: the greatest end of the group's fragments,
    /// rounded up to whole blocks of 8. At most 65,520; 0 if none is open.
    pub fn held_bytes(&self) -> usize
        ensures value { result ≡ most_bytes self.now.groups }
        ensures stands { (events : List Event) → JoinerStandsFor self.now events
            → result ≡ held_by_groups (open_groups_after open_limit events).opens }
        ensures bound { result ≤ 65520 }
    {
        match &self.table {
            None => 0,
            Some(table) => table.most_bytes(),
        }
    }

    /// How many bytes are kept for later groups: those of at most 1,024 closed groups' buffers, and of each open
    /// group's buffer those that the group doesn't hold. A buffer has 65,520 bytes at most.
    pub fn held_spare(&self) -> usize
        ensures value { result ≡ sum self.now.spares + spare_in self.now.groups }
        ensures bound { result ≤ 2048 * 65520 }
    {
        let spares = self.spares.bytes();
        match &self.table {
            None => spares,
            Some(table) => spares + table.spare_bytes(),
        }
    }

    /// How many groups were given up.
    pub fn given_up(&self) -> u64
        ensures value { result ≡ self.now.given_up }
        ensures stands { (events : List Event) → JoinerStandsFor self.now events
            → result ≡ (open_groups_after open_limit events).given_up }
    {
        self.given_up
    }
}
