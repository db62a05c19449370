//! The report over captures in memory, packet by packet.
ghost use Rattle.std.specs.Prelude.{◌≡◌, ◌≤◌, IsOkUnless, OnErr, Some, length};
ghost use Rattle.cap_commands.specs.Jobs.{tail_of};
ghost use Rattle.capt_c.specs.Answers.{status_of_result, status_of_unit};
ghost use Rattle.capt_c.specs.Flags.{cut_and_ipv6, flags_taken};
ghost use Rattle.capt_c.specs.HandleValue.{IsClosed};
ghost use Rattle.capt_c.specs.Texts.{AreFiles};
ghost use Rattle.capt_c.specs.Reading.{OpensWith};
ghost use Rattle.capt_c.specs.Tables.{OpensTable, StepsTable, WritesTable, status_of_step};

use crate::answers::{
    CPlace, DONE, MISUSE, PACKET, Success, status_and_place, status_of_result, tail_of,
};
use crate::flags::{CUT_AND_IPV6, Flags, flags_taken};
use crate::handles::{Handle, HandleValue, with_open};
use crate::sinks::VecSink;
use crate::sources::Slice;
use crate::texts::{Bytes, Text, are_files, show, slices};
use cap_bytes::Fault;
use cap_merge::merge_files;
use cap_source::Capture;
use cap_talks::{Step, Table};
use std::alloc::Global;

// Closes what the handle held, and opens a table of those files.
fn open_table(
    alloc: Global,
    table: &mut Handle,
    files: &[Bytes<'static>],
    set: Flags,
) -> Result<(), Fault>
    requires some { 1 ≤ length files.now }
    requires most { length files.now ≤ 32 }
    ensures opens { OpensTable (tail_of set.allow_cut) set.ipv6 files.now
        (status_of_result status_of_unit result) table.new.kept.value }
    ensures closed { OnErr result (IsClosed table.new.kept.value table.new.kept.at table.new.is_open) }
    ensures fault { IsOkUnless result Fault.Memory }
{
    // dropping what was held closes it, and frees its memory for the table
    let _ = table.take(alloc);
    let sources = slices(alloc, files)?;
    let merged = merge_files(alloc, sources, tail_of(set.allow_cut))?;
    let opened = Box::new(alloc, Table::reading(alloc, merged, set.ipv6))?;
    table.hold(alloc, HandleValue::Table(opened))
}

/// Opens a table of 1 to 32 captures in memory, which stay as they are until it is closed. What the handle held is
/// closed.
#[unsafe(no_mangle)]
pub extern "C" fn capt_table_open(
    alloc: Global,
    table: &mut Handle,
    files: &[Bytes<'static>],
    flags: u32,
) -> u32
    ensures opens { AreFiles (length files.now) → OpensWith (flags_taken cut_and_ipv6 flags) (λ set.
        OpensTable (tail_of set.allow_cut) set.ipv6 files.now result table.new.kept.value)
        result table.old table.new }
    ensures closed { result ≡ 5 → IsClosed table.new.kept.value table.new.kept.at table.new.is_open }
    ensures misuse { (AreFiles (length files.now) → ⊥) → (result ≡ 6) × (table.new ≡ table.old) }
{
    let Some(set) = flags_taken(CUT_AND_IPV6, flags) else {
        return MISUSE;
    };
    if !are_files(files.len()) {
        return MISUSE;
    }
    status_of_result(open_table(alloc, table, files, set))
}

impl Success for Step {
    ghost status = { status_of_step };

    fn status(self) -> u32 {
        match self {
            Step::Took => PACKET,
            Step::Done => DONE,
        }
    }
}

// Counts the next packet of what is held, if that is a table.
fn step_of(held: &mut HandleValue, place: &mut CPlace) -> u32
    ensures { StepsTable (Some held.old) place.old result place.new (Some held.new) }
{
    match held {
        HandleValue::Table(table) => status_and_place(table.step(), place),
        HandleValue::Capture(_)
        | HandleValue::Fed(_)
        | HandleValue::Text(_)
        | HandleValue::Job(_)
        | HandleValue::Writer(_) => MISUSE,
    }
}

/// Counts the next packet of a table, in the order of exact time.
#[unsafe(no_mangle)]
pub extern "C" fn capt_table_step(alloc: Global, table: &mut Handle, place: &mut CPlace) -> u32
    ensures { StepsTable table.old.kept.value place.old result place.new table.new.kept.value }
{
    with_open!(table, alloc, |held| step_of(&mut held, place))
}

// Shows the report so far of what is held, if that is a table.
fn write_of(alloc: Global, held: &HandleValue, text: &mut Text, place: &mut CPlace) -> u32
    ensures { WritesTable (Some held.now) text.old place.old result text.new place.new }
{
    match held {
        HandleValue::Table(table) => {
            let mut sink = VecSink::new(alloc);
            let answer = table.write_so_far(&mut sink);
            show(alloc, text, sink, answer, place)
        }
        HandleValue::Capture(_)
        | HandleValue::Fed(_)
        | HandleValue::Text(_)
        | HandleValue::Job(_)
        | HandleValue::Writer(_) => MISUSE,
    }
}

/// The report over the packets that a table has counted.
#[unsafe(no_mangle)]
pub extern "C" fn capt_table_write(
    alloc: Global,
    table: &mut Handle,
    text: &mut Text,
    place: &mut CPlace,
) -> u32
    ensures text { WritesTable table.old.kept.value text.old place.old result text.new place.new }
    ensures table { table.new.kept.value ≡ table.old.kept.value }
{
    with_open!(table, alloc, |held| write_of(alloc, &held, text, place))
}
