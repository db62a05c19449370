//! The packets of several capture files as one feed.
ghost use Rattle.std.specs.Prelude.{◌≡◌, ◌≤◌, IfOk, IsOkUnless, false, map, vec_len};
ghost use Rattle.cap_merge.specs.inner.Readers.{AreUnread, IsCountedRun, IsUnreadRun, reader_of};
ghost use Rattle.cap_merge.specs.inner.View.{backward_of, counts_backward, parts_of};

use crate::merging::Merged;
use cap_bytes::{Fault, Source, Tail};
use cap_source::{Capture, PacketFeed};
use std::alloc::Global;

// The packets of files, which have the numbers from 1 on, and whose comments are counted if that is asked for. Nothing
// is read yet.
fn captures_of<R: Source>(
    alloc: Global,
    sources: Vec<R>,
    tail: Tail,
    comments: bool,
) -> Result<Vec<Capture<R>>, Fault>
    requires most { vec_len sources ≤ 32 }
    ensures unread { IfOk result (λ captures. AreUnread comments tail 1
        (map (reader_of R.tells_coming R.can_fail R.coming) sources.items)
        (map ⟦<Capture<R> as PacketFeed>⟧.feed captures.items)) }
    ensures memory { IsOkUnless result Fault.Memory }
{
    let mut captures = Vec::new(alloc);
    let mut file = 1u32;
    for source in sources {
        let capture = Capture::with_comments(alloc, source, file, tail, comments);
        captures.push(capture)?;
        file += 1;
    }
    Ok(captures)
}

/// The packets of 1 to 32 capture files, each of either format, in the order of exact time. The readers are
/// the files, numbered from 1 by their places. Nothing is read yet, so a faulty file header is a refusal
/// that comes in its turn. No packet is counted that runs backward. `Memory` is returned if no room for the list of
/// files was found.
pub fn merge_files<R: Source>(
    alloc: Global,
    sources: Vec<R>,
    tail: Tail,
) -> Result<Merged<Capture<R>>, Fault>
    requires some { 1 ≤ vec_len sources }
    requires most { vec_len sources ≤ 32 }
    ensures unread { IfOk result (λ merged. IsUnreadRun tail
        (map (reader_of R.tells_coming R.can_fail R.coming) sources.items) (parts_of merged)) }
    ensures backward { IfOk result (λ merged. backward_of merged ≡ 0) }
    ensures counts { IfOk result (λ merged. counts_backward merged ≡ false) }
    ensures memory { IsOkUnless result Fault.Memory }
{
    merge_files_with_comments(alloc, sources, tail, false)
}

/// The same of files whose comments are counted if that is asked for.
pub fn merge_files_with_comments<R: Source>(
    alloc: Global,
    sources: Vec<R>,
    tail: Tail,
    comments: bool,
) -> Result<Merged<Capture<R>>, Fault>
    requires some { 1 ≤ vec_len sources }
    requires most { vec_len sources ≤ 32 }
    ensures unread { IfOk result (λ merged. IsCountedRun comments tail
        (map (reader_of R.tells_coming R.can_fail R.coming) sources.items) (parts_of merged)) }
    ensures backward { IfOk result (λ merged. backward_of merged ≡ 0) }
    ensures counts { IfOk result (λ merged. counts_backward merged ≡ false) }
    ensures memory { IsOkUnless result Fault.Memory }
{
    let captures = captures_of(alloc, sources, tail, comments)?;
    Ok(Merged::new(captures))
}
