//! What the library keeps for a caller between calls.
ghost use Rattle.std.specs.Coded.{coded_option};
ghost use Rattle.capt_c.specs.contracts.handles.HandleValue.{the_row as held_row};
ghost use Rattle.std.specs.Prelude.{◌≡◌, IsOkUnless, IsSome, IfSome, OnErr, OnOk, Option, is_some, Some, None};
ghost use Rattle.cap_bytes.specs.declared.faults.Fault.{Fault};
ghost use Rattle.capt_c.specs.HandleValue.{IsClosed};
ghost use Rattle.capt_c.specs.declared.handles.HandleValue.{HandleValue};

use crate::command_jobs::CommandJob;
use crate::packet_writers::PacketWriter;
use crate::raw_box::RawBox;
use crate::sources::{CaptureInput, Slice};
use cap_bytes::Fault;
use cap_source::{Capture, FedCapture};
use cap_talks::Table;
use std::alloc::Global;
use std::marker::Model;
use std::mem::replace;
use std::ptr::null_mut;

/// What a handle holds: a capture that is being read or fed, a table of captures, a text, a capture file that is being
/// written, or a command whose text is read.
#[derive(Drop)]
pub enum HandleValue {
    /// A capture.
    Capture(Capture<CaptureInput>),
    /// A capture that is fed.
    Fed(FedCapture),
    /// A table, in a box of its own, since it is larger than the others.
    Table(Box<Table<Capture<Slice<'static>>>>),
    /// A text.
    Text(Vec<u8>),
    /// A capture file that is being written.
    Writer(PacketWriter),
    /// A command whose text is read, in a box of its own too.
    Job(Box<CommandJob>),
}

/// The address of a box that it owns, or any address if it owns nothing.
#[repr(C)]
pub struct OwnedPointer {
    at: *mut u8,
    pub ghost value: { Option HandleValue } by { coded_option (held_row.coded) },
}

impl Model for OwnedPointer {
    ghost use Rattle.capt_c.specs.HandleValue.{owned};

    ghost also_owns = { λ k. owned k.at k.value };
}

impl OwnedPointer {
    // The pointer of a box.
    fn of(value: RawBox<HandleValue, Global>) -> OwnedPointer
        ensures value { result.value ≡ Some value.value }
    {
        let RawBox { at, alloc: _ } = value;
        OwnedPointer { at: at as *mut u8 }
    }

    // A pointer that owns nothing.
    fn nothing(at: *mut u8) -> OwnedPointer
        ensures { (result.value ≡ None) × (result.at ≡ at) }
    {
        OwnedPointer { at }
    }

    // The box.
    fn into_raw_box(self, alloc: Global) -> RawBox<HandleValue, Global>
        requires { IsSome self.value }
        ensures value { self.value ≡ Some result.value }
    {
        let OwnedPointer { at } = self;
        RawBox {
            at: at as *mut HandleValue,
            alloc,
        }
    }

    // Drops a pointer that owns nothing.
    fn discard(self)
        requires { self.value ≡ None }
    {
        let OwnedPointer { at: _ } = self;
    }
}

/// What a caller holds. A handle all of whose bytes are zero isn't open.
#[repr(C)]
pub struct Handle {
    kept: OwnedPointer,
    is_open: bool,
    ghost same: { is_open ≡ is_some kept.value },
}

// A handle that isn't open.
fn closed() -> Handle
    ensures { IsClosed result.kept.value result.kept.at result.is_open }
{
    let at = null_mut();
    let kept = OwnedPointer::nothing(at);
    Handle {
        kept,
        is_open: false,
    }
}

// A handle that holds that box.
fn opened(value: Box<HandleValue>) -> Handle
    ensures { result.kept.value ≡ Some value.value }
{
    let kept = OwnedPointer::of(RawBox::of(value));
    Handle {
        kept,
        is_open: true,
    }
}

impl Handle {
    /// Takes out what is held, if the handle is open.
    pub fn take(&mut self, alloc: Global) -> Option<Box<HandleValue>>
        ensures some { IfSome result (λ b. self.old.kept.value ≡ Some b.value) }
        ensures none { result ≡ None → self.old.kept.value ≡ None }
        ensures after { IsClosed self.new.kept.value self.new.kept.at self.new.is_open }
    {
        let Handle { kept, is_open } = replace(self, closed());
        if is_open {
            Some(kept.into_raw_box(alloc).into_box())
        } else {
            kept.discard();
            None
        }
    }

    /// Holds that box.
    pub fn put(&mut self, value: Box<HandleValue>)
        requires { self.old.kept.value ≡ None }
        ensures { self.new.kept.value ≡ Some value.value }
    {
        let Handle { kept, is_open: _ } = replace(self, opened(value));
        kept.discard();
    }

    /// Closes what is held, and holds `value`. Without memory for it the handle isn't open.
    pub fn hold(&mut self, alloc: Global, value: HandleValue) -> Result<(), Fault>
        ensures value { OnOk result (self.new.kept.value ≡ Some value) }
        ensures closed { OnErr result (IsClosed self.new.kept.value self.new.kept.at self.new.is_open) }
        ensures fault { IsOkUnless result Fault.Memory }
    {
        // dropping what was held closes it, and frees its memory for the new value
        let _ = self.take(alloc);
        let value = Box::new(alloc, value)?;
        self.put(value);
        Ok(())
    }
}

/// `with_open!(handle, alloc, |held| status)` is the status of a call on what the handle holds. If the handle isn't
/// open, the call isn't made, and the status is `MISUSE`.
macro_rules! with_open {
    ($handle:expr, $alloc:expr, |$held:ident| $status:expr) => {
        match $handle.take($alloc) {
            Some(taken) => {
                let mut $held = taken;
                let status = $status;
                $handle.put($held);
                status
            }
            None => $crate::answers::MISUSE,
        }
    };
}

pub(crate) use with_open;
