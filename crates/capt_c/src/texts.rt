//! Texts that the caller holds, and files in memory.
ghost use Rattle.std.specs.Prelude.{◌≡◌, ◌≤◌, ◌↔◌, IfOk, IsOkUnless, IsTrue, length, map};
ghost use denote.RawPtr.{null_ptr};
ghost use Rattle.cap_bytes.specs.Printing.{IsReadFault};
ghost use Rattle.cap_bytes.specs.declared.faults.Fault.{Fault};
ghost use Rattle.capt_c.specs.Texts.{AreFiles, IsTextClosed, Shown, by_memory, file_bytes};
ghost use Rattle.capt_c.specs.Sources.{rest_of};

use crate::answers::{CPlace, status_and_place};
use crate::handles::{Handle, HandleValue};
use crate::sinks::VecSink;
use crate::sources::Slice;
use cap_bytes::{Fault, Sink};
use std::alloc::Global;
use std::ptr::null;

/// The bytes of a file.
#[repr(C)]
#[derive(Drop)]
pub struct Bytes<'a> {
    /// Its bytes.
    pub bytes: &'a [u8],
}

/// A text that the library made, and holds until it is closed. A text all of whose bytes are zero isn't open.
#[repr(C)]
pub struct Text {
    /// Where it begins.
    pub at: *const u8,
    /// How many bytes it has.
    pub len: usize,
    pub(crate) handle: Handle,
}

/// Readers of files.
pub(crate) fn slices<'a>(alloc: Global, files: &[Bytes<'a>]) -> Result<Vec<Slice<'a>>, Fault>
    requires { length files.now ≤ 32 }
    ensures bytes { IfOk result (λ v. map rest_of v.items ≡ map file_bytes files.now) }
    ensures count { IfOk result (λ v. length v.items ≡ length files.now) }
    ensures fault { IsOkUnless result Fault.Memory }
{
    let mut slices = Vec::new(alloc);
    for file in files.iter() {
        slices.push(Slice::new(file.bytes))?;
    }
    Ok(slices)
}

/// A write to memory fails only if an allocation does.
pub(crate) fn by_memory(answer: Result<(), Fault>) -> Result<(), Fault>
    ensures { result ≡ by_memory answer }
{
    match answer {
        Err(Fault::Write) => Err(Fault::Memory),
        answer => answer,
    }
}

/// Shows no text.
pub(crate) fn empty(text: &mut Text)
    ensures at { text.new.at ≡ null_ptr }
    ensures len { text.new.len ≡ 0 }
    ensures handle { text.new.handle ≡ text.old.handle }
{
    text.at = null();
    text.len = 0;
}

/// Shows a text to the caller, and returns the status of the job that made it.
pub(crate) fn show(
    alloc: Global,
    text: &mut Text,
    sink: VecSink,
    answer: Result<(), Fault>,
    place: &mut CPlace,
) -> u32
    ensures text { Shown (⟦<VecSink as Sink>⟧.held sink) answer result place.new text.new
        text.new.handle.kept.value }
    ensures read { (IsReadFault answer → ⊥) → result ≡ 3 → ⊥ }
{
    let bytes = sink.into_bytes();
    text.at = bytes.as_ptr();
    text.len = bytes.len();
    match text.handle.hold(alloc, HandleValue::Text(bytes)) {
        Ok(()) => status_and_place(by_memory(answer), place),
        Err(fault) => {
            empty(text);
            status_and_place(Err::<(), Fault>(fault), place)
        }
    }
}

/// Whether a call takes that many files.
pub(crate) fn are_files(count: usize) -> bool
    ensures { IsTrue result ↔ AreFiles count }
{
    1 <= count && count <= 32
}

/// Closes a text. It may be closed already.
#[unsafe(no_mangle)]
pub extern "C" fn capt_text_close(alloc: Global, text: &mut Text)
    ensures { IsTextClosed text.new }
{
    empty(text);
    // dropping the text frees its memory
    let _ = text.handle.take(alloc);
}
