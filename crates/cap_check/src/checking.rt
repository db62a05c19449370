//! A file, checked: its packets counted to its end, to its refusal, or to a read that fails; and files, one after
//! another.
ghost use Rattle.std.specs.Prelude.{◌≡◌, ◌⊎◌, ◌+◌, ◌≤◌, ◌^◌, Some, IfErr, IfOk, IsOkUnless, IsTrue, false, map};
ghost use Rattle.std.specs.Prelude.{◌==◌, [], None, OnOk, if◌then◌else◌, option_map, vec_len};
ghost use Rattle.cap_bytes.specs.Device.{WriterKeeps, writer_of};
ghost use Rattle.cap_bytes.specs.Printing.{is_write};
ghost use Rattle.cap_digest.specs.Canonical.{canonical_text};
ghost use Rattle.cap_source.specs.Feed.{FeedKeeps};
ghost use Rattle.cap_source.specs.inner.Captures.{capture_fronts};
ghost use Rattle.cap_source.specs.inner.Walk.{GivesPacket, ShowsItem};
ghost use Rattle.cap_check.specs.CheckText.{WritesCheck, WritesChecks, asks_digest, no_names};
ghost use Rattle.cap_check.specs.Checking.{IsChecked, nothing_checked};
ghost use Rattle.cap_check.specs.inner.Taking.{EndsAt, FailsHere, FrontsNext, StopsIf, TakesPackets};

use crate::checked::{Check, CheckEnd, CheckLine, Checked};
use crate::digesting::{Digesting, NoDigest};
use crate::lines::put_check_line;
use cap_bytes::{Fault, Sink, Source, Tail};
use cap_digest::PacketDigest;
use cap_print::Form;
use cap_source::{Capture, FileEnd, Meta, PacketFeed};
use std::alloc::Global;

// What comes next of a file: a packet, which stays until it is passed, or none at the end. It is inlined, so that the
// packet need not be copied.
#[inline(always)]
fn next_of<R: Source>(capture: &mut Capture<R>) -> Result<Option<Meta>, Fault>
    ensures answer { GivesPacket (⟦<Capture<R> as PacketFeed>⟧.feed capture.old) result
        (⟦<Capture<R> as PacketFeed>⟧.feed capture.new) }
    ensures keeps { FeedKeeps (⟦<Capture<R> as PacketFeed>⟧.feed capture.old)
        (⟦<Capture<R> as PacketFeed>⟧.feed capture.new) }
    ensures items { IsTrue (⟦<Capture<R> as PacketFeed>⟧.feed capture.old).told
        → ShowsItem (⟦<Capture<R> as PacketFeed>⟧.feed capture.old) result
        (⟦<Capture<R> as PacketFeed>⟧.feed capture.new) }
    ensures fronts { IsTrue (capture_fronts capture.old).told
        → (⟦<Capture<R> as PacketFeed>⟧.feed capture.old).known ≡ None
        → FrontsNext (capture_fronts capture.old) result (capture_fronts capture.new) }
{
    if capture.peek()? {
        Ok(Some(*capture.packet()))
    } else {
        Ok(None)
    }
}

// Takes all packets of a file that are still to come. After a fault those before it were taken.
fn take_all<R: Source, D: Digesting>(
    capture: &mut Capture<R>,
    checked: &mut Checked,
    digest: &mut D,
) -> Result<(), Fault>
    requires few { (⟦<Capture<R> as PacketFeed>⟧.feed capture.old).left ≤ 2 ^ 40 }
    requires nothing { checked.old ≡ nothing_checked }
    requires empty { D.holds digest.old [] }
    requires unknown { (⟦<Capture<R> as PacketFeed>⟧.feed capture.old).known ≡ None }
    ensures counts { IsTrue (⟦<Capture<R> as PacketFeed>⟧.feed capture.old).told
        → TakesPackets (⟦<Capture<R> as PacketFeed>⟧.feed capture.old) result
        (⟦<Capture<R> as PacketFeed>⟧.feed capture.new) checked.new }
    ensures digest { OnOk result (IsTrue (⟦<Capture<R> as PacketFeed>⟧.feed capture.old).told
        → D.holds digest.new (canonical_text (⟦<Capture<R> as PacketFeed>⟧.feed capture.old).items)) }
    ensures stops { IsTrue (capture_fronts capture.old).told → (capture_fronts capture.old).broken ≡ None
        → StopsIf (capture_fronts capture.old) result (capture_fronts capture.new) checked.new }
    ensures ends { EndsAt result (⟦<Capture<R> as PacketFeed>⟧.feed capture.new).known }
    ensures keeps { FeedKeeps (⟦<Capture<R> as PacketFeed>⟧.feed capture.old)
        (⟦<Capture<R> as PacketFeed>⟧.feed capture.new) }
    ensures write { is_write result ≡ false }
    ensures fails { FailsHere (⟦<Capture<R> as PacketFeed>⟧.feed capture.old) result }
{
    while let Some(meta) = next_of(capture)? {
        // A length that is read is known to be below 2^32, so the sum of them all stays small.
        let _length = meta.original;
        checked.take(&meta);
        digest.take(&meta, &*capture);
        capture.pass();
    }
    Ok(())
}

// What a file has up to a failed read at that offset, unless its header or its first block begins there.
fn read_to<R: Source>(capture: &Capture<R>, offset: u64) -> Option<FileEnd>
    ensures { result ≡ (if offset == 0 then None else (capture_fronts capture.now).so_far) }
{
    if offset == 0 { None } else { capture.so_far() }
}

// Checks a file, and digests its packets or not.
fn check_by<R: Source, D: Digesting>(
    alloc: Global,
    source: R,
    file: u32,
    tail: Tail,
    mut digest: D,
) -> Result<Check, Fault>
    requires empty { D.holds digest [] }
    ensures checked { IfOk result (IsChecked tail D.ASKED file (Some (record {
      told = R.tells_coming source;
      bytes = R.coming source;
      can_fail = R.can_fail source;
    }))) }
    ensures fault { IsOkUnless result Fault.Memory }
{
    let mut counts = Checked::new();
    let mut capture = Capture::new(alloc, source, file, tail);
    match take_all(&mut capture, &mut counts, &mut digest) {
        Ok(()) => {
            let end = CheckEnd::Whole(capture.file_end());
            let digest = digest.finish();
            Ok(Check {
                counts,
                digest,
                end,
            })
        }
        Err(Fault::Refused(refusal)) => {
            let end = CheckEnd::Refusing(refusal, capture.file_end());
            let digest = None;
            Ok(Check {
                counts,
                digest,
                end,
            })
        }
        Err(Fault::Read { offset, .. }) => {
            let end = CheckEnd::Reading(offset, read_to(&capture, offset));
            let digest = None;
            Ok(Check {
                counts,
                digest,
                end,
            })
        }
        Err(fault) => Err(fault),
    }
}

/// Checks a capture file of either format, which has that number: counts its packets to its end, to its refusal, or to
/// a read that fails, and returns how it ends, with the digest of its packets if `is_asked` says so and it is whole. It
/// returns `Memory`, and no other fault, if a growth is refused.
pub fn check_file<R: Source>(
    alloc: Global,
    source: R,
    file: u32,
    tail: Tail,
    is_asked: bool,
) -> Result<Check, Fault>
    ensures checked { IfOk result (IsChecked tail is_asked file (Some (record {
      told = R.tells_coming source;
      bytes = R.coming source;
      can_fail = R.can_fail source;
    }))) }
    ensures fault { IsOkUnless result Fault.Memory }
{
    if is_asked {
        check_by(alloc, source, file, tail, PacketDigest::new())
    } else {
        check_by(alloc, source, file, tail, NoDigest)
    }
}

/// The same of a file that could be opened, or that could not be, which is `None`.
pub fn check_opened<R: Source>(
    alloc: Global,
    source: Option<R>,
    file: u32,
    tail: Tail,
    is_asked: bool,
) -> Result<Check, Fault>
    ensures checked { IfOk result (IsChecked tail is_asked file (option_map (λ s. record {
      told = R.tells_coming s;
      bytes = R.coming s;
      can_fail = R.can_fail s;
    }) source)) }
    ensures fault { IsOkUnless result Fault.Memory }
{
    match source {
        Some(source) => check_file(alloc, source, file, tail, is_asked),
        None => Ok(Check::unopened()),
    }
}

/// Checks a capture file of either format, which has that number, and prints that line of it as `put_check_line` does,
/// with `name` as its last field. A file that could not be opened, which is `None`, one that is refused and one whose
/// read fails have a line too. It returns whether the file was read whole. It returns `Memory` if a growth is refused,
/// before anything is printed, and `Write` if a write fails, after a prefix of the line.
pub fn check_to<R: Source, W: Sink>(
    alloc: Global,
    source: Option<R>,
    file: u32,
    tail: Tail,
    which: CheckLine,
    form: Form,
    name: &[u8],
    writer: &mut W,
) -> Result<bool, Fault>
    ensures text { IsTrue (W.tells_held writer.old)
        → WritesCheck which form tail file name.now (option_map (λ s. record {
          told = R.tells_coming s;
          bytes = R.coming s;
          can_fail = R.can_fail s;
        }) source) (W.held writer.old) result (W.held writer.new) }
    ensures writer { WriterKeeps (writer_of W.Sink writer.old) (is_write result) (writer_of W.Sink writer.new) }
    ensures fault { IfErr result (λ fault. (fault ≡ Fault.Memory) ⊎ (fault ≡ Fault.Write)) }
{
    let check = check_opened(alloc, source, file, tail, which.asks_digest())?;
    put_check_line(writer, which, form, file, name, &check)?;
    Ok(check.end.is_whole())
}

/// Checks capture files, which have the numbers from 1 on, one after another, and prints that line of each as soon as
/// it is read. No line names its file. It returns whether each was read whole. It returns `Memory` if a growth is
/// refused, after the lines of the files before, and `Write` if a write fails, after a prefix of the lines.
pub fn check_all_to<R: Source, W: Sink>(
    alloc: Global,
    sources: Vec<R>,
    tail: Tail,
    which: CheckLine,
    form: Form,
    writer: &mut W,
) -> Result<bool, Fault>
    requires most { vec_len sources ≤ 4294967295 }
    ensures text { IsTrue (W.tells_held writer.old) → WritesChecks which form tail no_names (map (λ s. Some (record {
      told = R.tells_coming s;
      bytes = R.coming s;
      can_fail = R.can_fail s;
    })) sources.items) (W.held writer.old)
        result (W.held writer.new) }
    ensures writer { WriterKeeps (writer_of W.Sink writer.old) (is_write result) (writer_of W.Sink writer.new) }
    ensures fault { IfErr result (λ fault. (fault ≡ Fault.Memory) ⊎ (fault ≡ Fault.Write)) }
{
    let mut are_whole = true;
    let mut files = 0u32;
    for source in sources {
        files += 1;
        are_whole &= check_to(alloc, Some(source), files, tail, which, form, b"", writer)?;
    }
    Ok(are_whole)
}
