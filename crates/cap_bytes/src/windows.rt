//! A window over a reader: the one cursor by which bytes are read.
ghost use Rattle.std.specs.Prelude.{◌≡◌, ◌+◌, ◌^◌, ◌≤◌, ◌<◌, IsSome, IsTrue, IfOk, ◌↔◌, None, length};
ghost use Rattle.cap_bytes.specs.inner.SourceState.{source_of, IsWithin};
ghost use Rattle.cap_bytes.specs.inner.Window.{opened_window, WindowKeeps, Needs, WindowPasses, Skips, FailsAt};
ghost use Rattle.cap_bytes.specs.inner.Window.{read_to};

use crate::buffers::{Filling, discard, make_room, read_on};
use crate::devices::Source;
use crate::faults::Fault;
use std::alloc::Global;
use std::marker::Model;

// The room that a skip leaves, so that the look at what follows it needs none.
const ROOM: usize = 12;

/// A window over the bytes of a reader. It shows the next bytes, and drops what was passed; at
/// most 524,288 bytes are held. Once a read has failed, each call that may read returns that same
/// `Fault::Read`.
#[derive(Drop)]
pub struct Window<R: Source> {
    reader: R,
    file: u32,
    offset: u64,
    buffer: Vec<u8>,
    start: usize,
    end: usize,
    broken: Option<u64>,
}

impl<R: Source> Model for Window<R> {
    ghost use Rattle.std.specs.Prelude.{◌||◌, is_some, slice_range, vec_len};
    ghost use Rattle.cap_bytes.specs.inner.Window.{WindowState, IsSoundWindow};

    ghost Value = { WindowState };

    ghost view = { λ w. record {
      file = w.file;
      offset = w.offset;
      shown = slice_range w.buffer.items w.start w.end;
      told = R.tells_coming w.reader;
      unread = R.coming w.reader;
      most = R.most w.reader;
      broken = w.broken;
      failed = R.has_failed w.reader;
      can_fail = R.can_fail w.reader || is_some w.broken;
      held = vec_len w.buffer;
      room = vec_len w.buffer;
    } };

    ghost invariant = { λ w. IsSoundWindow w.start w.end (vec_len w.buffer) w.offset w.broken (R.has_failed w.reader) };
}

impl<R: Source> Window<R> {
    /// A window over the bytes of `reader`, which is the file of that number. It reads nothing yet.
    pub fn new(alloc: Global, reader: R, file: u32) -> Window<R>
        ensures { result ≡ opened_window file (source_of R.Source reader) }
    {
        Window {
            reader,
            file,
            offset: 0,
            buffer: Vec::new(alloc),
            start: 0,
            end: 0,
            broken: None,
        }
    }

    /// Reads on until the next n bytes are shown, and no further; if they are already, nothing changes.
    /// Returns whether they are shown: if not, the input ends first. `Memory` leaves the bytes to come.
    #[inline(always)]
    pub fn need(&mut self, n: usize) -> Result<bool, Fault>
        requires { n ≤ 524288 }
        ensures same { n ≤ length self.old.shown → self.old.broken ≡ None → self.new ≡ self.old }
        ensures answer { Needs n self.old result self.new }
        ensures asked { length self.old.shown < n → IsWithin self.old.most n (length self.new.shown) }
        ensures offset { self.new.offset ≡ self.old.offset }
        ensures keeps { WindowKeeps self.old self.new }
    {
        if self.broken.is_none() && n <= self.end - self.start {
            return Ok(true);
        }
        self.need_more(n)
    }

    /// Whether the next n bytes are shown already, and no read has failed: `need` returns true then, and changes
    /// nothing.
    #[inline(always)]
    pub fn has_buffered(&self, n: usize) -> bool
        ensures { IsTrue result ↔ ((self.now.broken ≡ None) × (n ≤ length self.now.shown)) }
    {
        n <= self.end - self.start && self.broken.is_none()
    }

    // The same, if fewer bytes are shown or a read has failed.
    #[inline(never)]
    fn need_more(&mut self, n: usize) -> Result<bool, Fault>
        requires limit { n ≤ 524288 }
        requires fewer { self.old.broken ≡ None → length self.old.shown ≤ n }
        ensures answer { Needs n self.old result self.new }
        ensures asked { length self.old.shown < n → IsWithin self.old.most n (length self.new.shown) }
        ensures offset { self.new.offset ≡ self.old.offset }
        ensures keeps { WindowKeeps self.old self.new }
    {
        match self.broken {
            Some(offset) => Err(Fault::Read {
                file: self.file,
                offset,
            }),
            None => self.read_further(n),
        }
    }

    // The same, if fewer bytes are shown and no read has failed.
    fn read_further(&mut self, n: usize) -> Result<bool, Fault>
        requires limit { n ≤ 524288 }
        requires fewer { length self.old.shown ≤ n }
        requires whole { self.old.broken ≡ None }
        ensures answer { Needs n self.old result self.new }
        ensures asked { length self.old.shown < n → IsWithin self.old.most n (length self.new.shown) }
        ensures offset { self.new.offset ≡ self.old.offset }
        ensures keeps { WindowKeeps self.old self.new }
    {
        let (end, filling) = read_on(&mut self.reader, &mut self.buffer, self.start, self.end, n)?;
        self.start = 0;
        self.end = end;
        match filling {
            Filling::Whole => Ok(true),
            Filling::Ended => Ok(false),
            Filling::Failed => {
                self.broken = Some(self.offset);
                Err(Fault::Read {
                    file: self.file,
                    offset: self.offset,
                })
            }
        }
    }

    /// The bytes that are shown.
    #[inline]
    pub fn bytes(&self) -> &[u8]
        ensures { result.now ≡ self.now.shown }
    {
        &self.buffer[self.start..self.end]
    }

    /// Drops the first n bytes that are shown.
    #[tactic(auto, using(crate::proofs::Lists::slice_range_more))]
    #[inline]
    pub fn pass(&mut self, n: usize)
        requires there { n ≤ length self.old.shown }
        requires limit { self.old.offset + n ≤ 2 ^ 40 }
        ensures passes { WindowPasses n self.old self.new }
        ensures held { self.new.held ≤ 524288 }
    {
        self.start += n;
        self.offset += n as u64;
    }

    /// Drops the next n bytes, a piece at a time, and reads no further once they came. Returns whether
    /// there were as many: if not, the window stands at the end of the input. Returns `Memory` before the
    /// first byte is dropped, and leaves the bytes to come; after any other answer the next 12 bytes can
    /// be shown without it.
    pub fn skip(&mut self, n: u64) -> Result<bool, Fault>
        requires { self.old.offset + n ≤ 2 ^ 40 }
        ensures answer { Skips n self.old result self.new }
        ensures asked { length self.old.shown < n
            → IfOk result (λ all. IsTrue all → IsWithin self.old.most 0 (length self.new.shown)) }
        ensures keeps { WindowKeeps self.old self.new }
    {
        if let Some(offset) = self.broken {
            return Err(Fault::Read {
                file: self.file,
                offset,
            });
        }
        make_room(&mut self.buffer, ROOM)?;
        let here = (self.end - self.start) as u64;
        if n <= here {
            self.start += n as usize;
            self.offset += n;
            return Ok(true);
        }
        let rest = discard(&mut self.reader, self.buffer.as_mut_slice(), n - here);
        self.start = rest.start;
        self.end = rest.end;
        self.offset += n - rest.left;
        match rest.filling {
            Filling::Whole => Ok(true),
            Filling::Ended => Ok(false),
            Filling::Failed => {
                self.broken = Some(self.offset);
                Err(Fault::Read {
                    file: self.file,
                    offset: self.offset,
                })
            }
        }
    }

    /// Tells a read that failed with that offset from now on: where the piece begins in which it failed.
    pub fn fail_at(&mut self, offset: u64)
        requires { IsSome self.old.broken }
        ensures { FailsAt offset self.old self.new }
    {
        self.broken = Some(offset);
    }

    /// How many bytes were dropped so far: where the bytes that are shown begin in the input.
    #[inline]
    pub fn offset(&self) -> u64
        ensures value { result ≡ self.now.offset }
        ensures limit { result ≤ 2 ^ 40 }
    {
        self.offset
    }

    /// Up to where the input was read: how many bytes were dropped, and are shown.
    pub fn read_to(&self) -> u64
        ensures { result ≡ read_to self.now }
    {
        self.offset + (self.end - self.start) as u64
    }

    /// The file's number.
    pub fn file(&self) -> u32
        ensures { result ≡ self.now.file }
    {
        self.file
    }

    /// How many bytes are kept.
    pub fn held(&self) -> u64
        ensures value { result ≡ self.now.held }
        ensures limit { result ≤ 524288 }
    {
        self.buffer.len() as u64
    }

    /// Whether the reader has failed.
    pub fn failed(&self) -> bool
        ensures { result ≡ self.now.failed }
    {
        self.reader.failed()
    }
}
