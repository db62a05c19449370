//! The packets of a capture whose bytes are fed piece by piece.
ghost use Rattle.std.specs.Prelude.{◌≡◌, ◌≤◌, ◌+◌, ◌-◌, ◌*◌, [], ◌++◌, ℕ, List, drop, false, length, max, true};
ghost use Rattle.std.specs.Prelude.{vec_capacity, vec_len};
ghost use Rattle.cap_source.specs.Fed.{EndingAt, fed_rest, file_rest};
ghost use Rattle.cap_source.specs.inner.FedSteps.{PushKeeps, IsSoundPush, LooksFed, push_view};
ghost use Rattle.cap_source.specs.inner.FedStates.{FeedsBytes, GivesFed, KeepsNothing, spare_room};

use crate::fed::{PushEvent, PushState, Stage};
use crate::feeds::FileEnd;
use crate::packets::Meta;
use crate::section_states::nothing_reached;
use cap_bytes::{Fault, Tail};
use std::alloc::Global;
use std::marker::Model;

/// What comes next of a capture that is fed.
#[derive(Clone, Copy, Debug, PartialEq, Eq)]
pub enum Fed {
    /// A packet, which is passed.
    Packet(Meta),
    /// More bytes are wanted to tell.
    More,
    /// Nothing: the capture ends.
    End,
}

// How many bytes it may hold memory for though it keeps fewer.
const SPARE_ROOM: usize = 1 << 20;

/// The packets of a capture of either format whose bytes are fed piece by piece, cut anywhere. It keeps the bytes of
/// the record or block that comes next, as far as they were fed, and none of a block that is skipped; besides what
/// was fed after them, at most as many that were passed, and the interfaces of the section that is being read. When
/// more are wanted it gives back what is beyond 1 MiB, and when nothing comes any more, all.
#[derive(Drop)]
pub struct FedCapture {
    state: PushState,
    bytes: Vec<u8>,
    // how many of these were passed
    passed: usize,
    // where the captured bytes of the packet that came last begin and end
    start: usize,
    end: usize,
}

impl Model for FedCapture {
    ghost use Rattle.std.specs.Prelude.{drop, slice_range, vec_capacity, vec_len};
    ghost use Rattle.cap_source.specs.Fed.{FedState};
    ghost use Rattle.cap_source.specs.inner.FedSteps.{push_view};
    ghost use Rattle.cap_source.specs.inner.FedStates.{IsSoundFed};

    ghost Value = { FedState };

    ghost view = { λ f. record {
      state = push_view f.state;
      rest = drop f.passed f.bytes.items;
      frame = slice_range f.bytes.items f.start f.end;
      kept = vec_len f.bytes;
      room = vec_capacity f.bytes;
    } };

    ghost invariant = { λ f. IsSoundFed (push_view f.state) f.start f.end f.passed (vec_len f.bytes) };
}

// Drops the first n bytes.
fn drop_front(bytes: &mut Vec<u8>, n: usize)
    requires { n ≤ vec_len bytes.old }
    ensures items { bytes.new.items ≡ drop n bytes.old.items }
    ensures len { vec_len bytes.new + n ≡ vec_len bytes.old }
    ensures capacity { vec_capacity bytes.new ≡ vec_capacity bytes.old }
{
    if n > 0 {
        let end = bytes.len();
        bytes.copy_within(n..end, 0);
        bytes.truncate(end - n);
    }
}

// Drops all bytes, and gives their memory back.
fn drop_all(bytes: &mut Vec<u8>)
    ensures items { bytes.new.items ≡ [] }
    ensures len { vec_len bytes.new ≡ 0 }
    ensures capacity { vec_capacity bytes.new ≡ 0 }
{
    bytes.clear();
    bytes.shrink_to_fit();
}

// Drops the bytes that were passed if they are as many as the others, so that a byte is moved at most once for each
// that is passed. Returns how many of those that are left were passed.
fn drop_passed(bytes: &mut Vec<u8>, passed: usize) -> usize
    requires { passed ≤ vec_len bytes.old }
    ensures rest { drop result bytes.new.items ≡ drop passed bytes.old.items }
    ensures within { result ≤ vec_len bytes.new }
    ensures len { vec_len bytes.new ≤ 2 * (vec_len bytes.old - passed) }
{
    if passed < bytes.len() - passed {
        return passed;
    }
    drop_front(bytes, passed);
    0
}

// Gives back the memory that is held for more than 1 MiB, as far as the bytes that weren't passed don't need it.
// Returns how many of those that are left were passed.
fn give_back(bytes: &mut Vec<u8>, passed: usize) -> usize
    requires { passed ≤ vec_len bytes.old }
    ensures rest { drop result bytes.new.items ≡ drop passed bytes.old.items }
    ensures within { result ≤ vec_len bytes.new }
    ensures len { vec_len bytes.new ≤ max spare_room (length (drop passed bytes.old.items)) }
    ensures room { drop passed bytes.old.items ≡ [] → vec_capacity bytes.new ≤ spare_room }
{
    if bytes.capacity() <= SPARE_ROOM {
        return passed;
    }
    drop_front(bytes, passed);
    bytes.shrink_to_fit();
    0
}

// Looks on, from byte `at` of those on, until a packet comes, more bytes are wanted or the capture ends.
fn look_on(state: &mut PushState, bytes: &[u8], at: &mut usize) -> Result<PushEvent, Fault>
    requires sound { IsSoundPush (push_view state.old) }
    requires within { at.old ≤ length bytes.now }
    ensures looks { LooksFed (push_view state.old) (drop at.old bytes.now) result (push_view state.new)
        (drop at.new bytes.now) }
    ensures keeps { PushKeeps (push_view state.old) (push_view state.new) }
    ensures sound { IsSoundPush (push_view state.new) }
    ensures further { at.old ≤ at.new }
    ensures within { at.new ≤ length bytes.now }
{
    loop {
        let step = state.step(bytes.split_at(*at).1)?;
        match step {
            PushEvent::Passed(n) => *at += n,
            _ => return Ok(step),
        }
    }
}

impl FedCapture {
    /// The capture of that number, of which nothing was fed yet. `tail` says what becomes of a cut end.
    pub fn new(alloc: Global, file: u32, tail: Tail) -> FedCapture
        ensures rest { (later : List ℕ) → fed_rest result later ≡ file_rest tail file later }
        ensures open { result.state.ended ≡ false }
        ensures nothing { KeepsNothing result }
    {
        FedCapture {
            state: PushState {
                file,
                tail,
                ended: false,
                offset: 0,
                stage: Stage::Start,
                reached: nothing_reached(alloc),
            },
            bytes: Vec::new(alloc),
            passed: 0,
            start: 0,
            end: 0,
        }
    }

    /// Feeds the next bytes of the capture, of which none are kept if nothing comes any more. The captured bytes of the
    /// last packet are let go.
    ///
    /// Returns `Memory` if a growth was refused for them, which are some: then nothing was fed.
    pub fn feed(&mut self, bytes: &[u8]) -> Result<(), Fault>
        requires open { self.old.state.ended ≡ false }
        ensures { FeedsBytes self.old bytes.now result self.new }
    {
        if let Stage::Stopped(_, _) = self.state.stage {
            self.keep_nothing();
            return Ok(());
        }
        self.start = 0;
        self.end = 0;
        self.passed = drop_passed(&mut self.bytes, self.passed);
        self.bytes.extend_from_slice(bytes)?;
        Ok(())
    }

    // Drops all bytes.
    fn keep_nothing(&mut self)
        ensures state { self.new.state ≡ self.old.state }
        ensures nothing { KeepsNothing self.new }
    {
        drop_all(&mut self.bytes);
        self.passed = 0;
        self.start = 0;
        self.end = 0;
    }

    /// No more bytes come.
    pub fn end(&mut self)
        ensures state { self.new.state ≡ record self.old.state { ended = true } }
        ensures rest { self.new.rest ≡ self.old.rest }
        ensures frame { self.new.frame ≡ self.old.frame }
        ensures kept { self.new.kept ≡ self.old.kept }
        ensures room { self.new.room ≡ self.old.room }
    {
        let state = &mut self.state;
        state.ended = true;
    }

    /// Whether that was said.
    pub fn has_ended(&self) -> bool
        ensures { result ≡ self.now.state.ended }
    {
        self.state.ended
    }

    /// How many bytes it keeps of those that were fed.
    pub fn kept(&self) -> usize
        ensures { result ≡ self.now.kept }
    {
        self.bytes.len()
    }

    /// For how many bytes that are fed it holds memory.
    pub fn held(&self) -> usize
        ensures { result ≡ self.now.room }
    {
        self.bytes.capacity()
    }

    /// The next packet, which is passed, as far as the bytes tell that were fed. If none comes, the captured bytes of
    /// the last one are let go.
    ///
    /// Returns `Refused` if they break a rule, and then always: a cut one only once all were fed. Returns `Memory` if
    /// a growth was refused for an interface, at a block of a pcapng file, and leaves the packets to come.
    pub fn next(&mut self) -> Result<Fed, Fault>
        ensures { GivesFed self.old result self.new }
    {
        match look_on(&mut self.state, &self.bytes, &mut self.passed) {
            Ok(PushEvent::Packet(meta, place, size)) => {
                self.start = self.passed + place;
                self.end = self.start + meta.captured as usize;
                self.passed += size;
                Ok(Fed::Packet(meta))
            }
            Ok(PushEvent::Short) => {
                self.start = 0;
                self.end = 0;
                self.passed = give_back(&mut self.bytes, self.passed);
                Ok(Fed::More)
            }
            Ok(PushEvent::Ends) => {
                self.keep_nothing();
                Ok(Fed::End)
            }
            Ok(PushEvent::Passed(_)) => unreachable!(),
            Err(Fault::Refused(refusal)) => {
                self.keep_nothing();
                Err(Fault::Refused(refusal))
            }
            Err(fault) => Err(fault),
        }
    }

    /// How the capture ended, once `next` has returned that it ends: `None` before, and if it was refused. Its comments
    /// aren't counted.
    pub fn ending(&self) -> Option<FileEnd>
        ensures { EndingAt self.now.state result }
    {
        self.state.ending()
    }

    /// The captured bytes of the packet that came last, until more are fed or no packet comes.
    pub fn frame(&self) -> &[u8]
        ensures { result.now ≡ self.now.frame }
    {
        &self.bytes[self.start..self.end]
    }
}
