//! The lines of `list`, packet by packet.
ghost use Rattle.std.specs.Prelude.{◌≡◌, ◌+◌, ◌<◌, ◌≤◌, ◌^◌, ◌++◌, IsOkUnless, IsTrue, None, Ok, OnErr, OnOk, false};
ghost use Rattle.cap_bytes.specs.declared.faults.Fault.{Fault};
ghost use Rattle.cap_commands.specs.ClassText.{packet_line_by};
ghost use Rattle.cap_source.specs.inner.Captures.{capture_feed, capture_number};
ghost use Rattle.capt_c.specs.JobRests.{StepsJob, feed_rest};
ghost use Rattle.capt_c.specs.JobStands.{ListStands};

use crate::sinks::VecSink;
use crate::sources::Slice;
use crate::texts::by_memory;
use cap_bytes::{Fault, Tail};
use cap_commands::{Finding, ListOptions, put_packet_line};
use cap_print::Line;
use cap_source::{Capture, Meta, PacketFeed};
use std::alloc::Global;
use std::mem::replace;

// Puts the line of the packet number n behind a text, or leaves it as it was.
fn append_packet(
    alloc: Global,
    text: &mut Vec<u8>,
    line: &mut Line,
    options: ListOptions,
    n: u64,
    meta: &Meta,
    frame: &[u8],
) -> Result<(), Fault>
    ensures text { OnOk result (text.new.items ≡ text.old.items
        ++ packet_line_by options.class options.ipv6 options.form options.most n meta.now frame.now) }
    ensures none { OnErr result (text.new.items ≡ text.old.items) }
    ensures fault { IsOkUnless result Fault.Memory }
{
    let count = text.len();
    let mut sink = VecSink::behind(replace(text, Vec::new(alloc)));
    let answer = put_packet_line(&mut sink, line, options, n, meta, frame);
    *text = sink.into_bytes();
    if answer.is_err() {
        text.truncate(count);
    }
    by_memory(answer)
}

// Puts the line of the next packet behind a text, and passes the packet.
fn step_list<F: PacketFeed>(
    alloc: Global,
    feed: &mut F,
    options: ListOptions,
    number: &mut u64,
    line: &mut Line,
    text: &mut Vec<u8>,
) -> Result<Option<Finding>, Fault>
    requires { ListStands (F.feed feed.old) number.old }
    ensures stands { ListStands (F.feed feed.new) number.new }
    ensures step { StepsJob (feed_rest options number.old (F.feed feed.old)) text.old.items result text.new.items
        (feed_rest options number.new (F.feed feed.new)) }
    ensures fewer { result ≡ Ok None → (F.feed feed.new).left < (F.feed feed.old).left }
{
    if !feed.peek()? {
        return Ok(Some(Finding::Nothing));
    }
    append_packet(
        alloc,
        text,
        line,
        options,
        *number,
        feed.packet(),
        feed.frame(),
    )?;
    feed.pass();
    *number += 1;
    Ok(None)
}

/// A capture that is listed.
#[derive(Drop)]
pub struct ListWork {
    capture: Capture<Slice<'static>>,
    options: ListOptions,
    // the number of the next packet
    number: u64,
    ghost told: { IsTrue (capture_feed capture).told },
    ghost only: { capture_number capture ≡ 1 },
    ghost reads: { (capture_feed capture).can_fail 1 ≡ false },
    ghost place: { number + (capture_feed capture).left ≤ 2 ^ 41 },
}

impl ListWork {
    ghost use Rattle.cap_source.specs.Items.{file_items};
    ghost use Rattle.capt_c.specs.CommandJobs.{list_feed, list_rest};
    ghost use Rattle.capt_c.specs.JobRests.{items_rest};

    /// The work of a capture in memory.
    pub fn new(alloc: Global, bytes: &'static [u8], options: ListOptions, tail: Tail) -> ListWork
        ensures { list_rest result ≡ items_rest options 1 (file_items tail 1 bytes.now) }
    {
        let capture = Capture::new(alloc, Slice::new(bytes), 1, tail);
        ListWork {
            capture,
            options,
            number: 1,
        }
    }

    /// Puts the line of the next packet behind a text.
    pub fn step(
        &mut self,
        alloc: Global,
        line: &mut Line,
        text: &mut Vec<u8>,
    ) -> Result<Option<Finding>, Fault>
        ensures step { StepsJob (list_rest self.old) text.old.items result text.new.items (list_rest self.new) }
        ensures fewer { result ≡ Ok None → (list_feed self.new).left < (list_feed self.old).left }
    {
        step_list(
            alloc,
            &mut self.capture,
            self.options,
            &mut self.number,
            line,
            text,
        )
    }
}
