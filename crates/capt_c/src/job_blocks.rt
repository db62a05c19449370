//! The lines of `blocks`, block by block.
ghost use Rattle.std.specs.Prelude.{◌≡◌, ◌+◌, ◌<◌, ◌≤◌, ◌^◌, ℕ, IsTrue, None, Ok, false};
ghost use Rattle.cap_print.specs.declared.forms.Form.{Form};
ghost use Rattle.capt_c.specs.BlockRests.{PeeksBlock, blocks_rest};
ghost use Rattle.capt_c.specs.JobRests.{StepsJob};
ghost use Rattle.capt_c.specs.JobStands.{BlocksStand, blocks_left, blocks_read};

use crate::sources::Slice;
use cap_blocks::{Block, BlockReader};
use cap_bytes::{Fault, Source, Tail, Window};
use cap_commands::{Finding, take_block, write_block};
use cap_print::{Form, Line};
use std::alloc::Global;

// The block that comes next, if one does. It stays `next` until it is passed.
fn peek_block<R: Source>(
    reader: &mut BlockReader<R>,
    next: &mut Option<Block>,
) -> Result<Option<Block>, Fault>
    requires { (number : ℕ) × BlocksStand reader.old next.old number }
    ensures stands { (number : ℕ) → BlocksStand reader.old next.old number → BlocksStand reader.new next.new number }
    ensures peeks { (form : Form) (number : ℕ)
        → PeeksBlock form number next.old reader.old result next.new reader.new }
    ensures left { blocks_left reader.new next.new ≤ blocks_left reader.old next.old }
{
    if let Some(block) = *next {
        return Ok(Some(block));
    }
    *next = take_block(reader)?;
    Ok(*next)
}

// Puts the line of the next block behind a text, and passes the block.
fn step_blocks<R: Source>(
    reader: &mut BlockReader<R>,
    form: Form,
    number: &mut u64,
    next: &mut Option<Block>,
    line: &mut Line,
    text: &mut Vec<u8>,
) -> Result<Option<Finding>, Fault>
    requires { BlocksStand reader.old next.old number.old }
    ensures stands { BlocksStand reader.new next.new number.new }
    ensures step { StepsJob (blocks_rest form number.old next.old reader.old) text.old.items result text.new.items
        (blocks_rest form number.new next.new reader.new) }
    ensures fewer { result ≡ Ok None → blocks_left reader.new next.new < blocks_left reader.old next.old }
{
    match peek_block(reader, next)? {
        Some(block) => {
            write_block(line, form, *number, &block);
            text.extend_from_slice(line.as_slice())?;
            *next = None;
            *number += 1;
            Ok(None)
        }
        None => Ok(Some(Finding::Nothing)),
    }
}

/// A pcapng capture whose blocks are listed.
#[derive(Drop)]
pub struct BlocksWork {
    reader: BlockReader<Slice<'static>>,
    form: Form,
    // the number of the next block, and that block, once it was read
    number: u64,
    next: Option<Block>,
    ghost told: { IsTrue reader.told },
    ghost reads: { reader.can_fail ≡ false },
    ghost place: { number + blocks_read next ≤ reader.offset + 1 },
    ghost limit: { reader.offset ≤ 2 ^ 40 },
}

impl BlocksWork {
    ghost use Rattle.capt_c.specs.BlockRests.{file_blocks_rest};
    ghost use Rattle.capt_c.specs.CommandJobs.{block_steps, block_list_rest};

    /// The work of a capture in memory.
    pub fn new(alloc: Global, bytes: &'static [u8], form: Form, tail: Tail) -> BlocksWork
        ensures { block_list_rest result ≡ file_blocks_rest form tail bytes.now }
    {
        let reader = BlockReader::new(Window::new(alloc, Slice::new(bytes), 1), tail);
        BlocksWork {
            reader,
            form,
            number: 1,
            next: None,
        }
    }

    /// Puts the line of the next block behind a text.
    pub fn step(&mut self, line: &mut Line, text: &mut Vec<u8>) -> Result<Option<Finding>, Fault>
        ensures step { StepsJob (block_list_rest self.old) text.old.items result text.new.items
            (block_list_rest self.new) }
        ensures fewer { result ≡ Ok None → block_steps self.new < block_steps self.old }
    {
        step_blocks(
            &mut self.reader,
            self.form,
            &mut self.number,
            &mut self.next,
            line,
            text,
        )
    }
}
