//! An output that a run's inputs can reach, to write what waits in its buffer before they wait themselves.
ghost use Rattle.std.specs.Prelude.{◌≤◌, ◌<◌, IfOk, length};

use crate::outlets::{Buffered, Outlet};
use crate::streams::Output;
use cap_bytes::{Broken, Device, Sink};
use std::cell::RefCell;
use std::io;
use std::io::ErrorKind;

/// A buffered output that is shared, once there is one: what writes to it goes through an `OutputHandle`, and what
/// reads may write out what waits. No contract says what a cell holds, so `checks/program.sh` watches that each of
/// these calls does what the same call of the output does.
#[derive(Drop)]
pub struct SharedOutput {
    buffered: RefCell<Option<Buffered<Output>>>,
}

impl SharedOutput {
    /// No output yet.
    pub fn new() -> SharedOutput {
        SharedOutput {
            buffered: RefCell::new(None),
        }
    }

    /// Shares that output from now on.
    pub fn begin(&self, output: Buffered<Output>) {
        // no call keeps its borrow of the cell, so this can't fail
        let _ = self.buffered.try_replace(Some(output));
    }

    // Writes bytes, or lets them wait in the buffer.
    fn give(&self, bytes: &[u8]) -> Result<usize, Broken>
        ensures count { IfOk result (λ n. n ≤ length bytes.now) }
        ensures some { IfOk result (λ n. 0 < length bytes.now → 0 < n) }
    {
        match self.buffered.try_borrow_mut() {
            Ok(mut output) => match &mut *output {
                Some(output) => output.give(bytes),
                None => Err(Broken),
            },
            Err(_) => Err(Broken),
        }
    }

    // Writes all the bytes, or lets them wait in the buffer.
    fn give_all(&self, bytes: &[u8]) -> Result<(), Broken> {
        match self.buffered.try_borrow_mut() {
            Ok(mut output) => match &mut *output {
                Some(output) => output.give_all(bytes),
                None => Err(Broken),
            },
            Err(_) => Err(Broken),
        }
    }

    /// The number of the system's error at which the last write or flush failed, if one did.
    pub fn error(&self) -> Option<i32> {
        match self.buffered.try_borrow() {
            Ok(output) => match &*output {
                Some(output) => output.error(),
                None => None,
            },
            Err(_) => None,
        }
    }

    /// Writes what waits in the buffer. Bytes that could not be written wait on, so a later flush fails too.
    pub fn flush(&self) -> io::Result<()> {
        match self.buffered.try_borrow_mut() {
            Ok(mut output) => match &mut *output {
                Some(output) => output.flush(),
                None => Ok(()),
            },
            Err(_) => Err(io::Error::from(ErrorKind::WouldBlock)),
        }
    }
}

/// What a run writes to: a shared output.
#[derive(Drop)]
pub struct OutputHandle<'a> {
    output: &'a SharedOutput,
    failed: bool,
}

impl<'a> OutputHandle<'a> {
    /// What writes to `output`.
    pub fn new(output: &'a SharedOutput) -> OutputHandle<'a> {
        OutputHandle {
            output,
            failed: false,
        }
    }
}

impl<'a> Device for OutputHandle<'a> {
    ghost use Rattle.std.specs.Prelude.{true};
    ghost use Rattle.cap_tool.specs.OutputHandle.{handle_failed};

    ghost has_failed = { λ s. handle_failed s };

    ghost can_fail = { λ _. true };

    fn failed(&self) -> bool {
        self.failed
    }
}

impl<'a> Sink for OutputHandle<'a> {
    ghost use Rattle.std.specs.Prelude.{false, []};

    ghost tells_held = { λ _. false };

    ghost held = { λ _. [] };

    fn give(&mut self, bytes: &[u8]) -> Result<usize, Broken> {
        let answer = self.output.give(bytes);
        self.failed = self.failed || answer.is_err();
        answer
    }

    fn give_all(&mut self, bytes: &[u8]) -> Result<(), Broken> {
        let answer = self.output.give_all(bytes);
        self.failed = self.failed || answer.is_err();
        answer
    }
}

impl<'a> Outlet for OutputHandle<'a> {
    ghost use Rattle.std.specs.Prelude.{[]};

    ghost waiting = { λ _. [] };

    fn flush(&mut self) -> io::Result<()> {
        self.output.flush()
    }

    fn error(&self) -> Option<i32> {
        self.output.error()
    }
}
