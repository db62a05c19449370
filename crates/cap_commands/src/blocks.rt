//! `capt blocks`, in text and in JSON: one line for each block of a pcapng file, as it is found.
ghost use Rattle.std.specs.Prelude.{◌≡◌, ◌∷◌, [], IfOk, IsTrue, OnOk};
ghost use Rattle.cap_blocks.specs.inner.Reader.{GivesNextBlock, TakesBlock, blocks_to_come};
ghost use Rattle.cap_commands.specs.inner.BlockWalk.{WalksBlocks};
ghost use Rattle.cap_commands.specs.BlockText.{block_line, block_lines, block_list, block_list_in, block_list_json};
ghost use Rattle.cap_commands.specs.BlockText.{block_cut, block_refusal, blocks_cut, blocks_refusal};
ghost use Rattle.cap_commands.specs.Left.{done_of};
ghost use Rattle.cap_bytes.specs.Items.{cut_by};
ghost use Rattle.cap_bytes.specs.Device.{WriterKeeps, writer_of};
ghost use Rattle.cap_bytes.specs.Printing.{Prints, is_write};
ghost use Rattle.cap_bytes.specs.inner.Reader.{ReaderKeeps};
ghost use Rattle.cap_source.specs.ReadFaults.{FailsOf};

use crate::left::without_cut;
use crate::lines::write_block;
use cap_blocks::{Block, BlockReader};
use cap_bytes::{CutRest, Fault, Sink, Source, Tail, Window, put_all};
use cap_print::{Form, Line, TimeForm};
use std::alloc::Global;

/// The next block, as `next_block` returns it. Most are packets that the window shows already: to take one of these
/// costs less.
#[inline(always)]
pub fn take_block<R: Source>(reader: &mut BlockReader<R>) -> Result<Option<Block>, Fault>
    ensures answer { GivesNextBlock reader.old result reader.new }
    ensures keeps { ReaderKeeps reader.old reader.new }
    ensures items { IsTrue reader.old.told → TakesBlock reader.old result reader.new }
{
    match reader.take_packet() {
        Some(block) => Ok(Some(block)),
        None => reader.next_block(),
    }
}

// Prints the blocks that a reader still gives in a form, the first of which has the number 1.
fn print_blocks<R: Source, W: Sink>(
    reader: &mut BlockReader<R>,
    form: Form,
    writer: &mut W,
) -> Result<(), Fault>
    ensures text { IsTrue reader.old.told → IsTrue (W.tells_held writer.old)
        → Prints (block_lines (block_line form) 1 (blocks_to_come reader.old))
        (blocks_refusal (blocks_to_come reader.old)) (W.held writer.old) result (W.held writer.new) }
    ensures writer { WriterKeeps (writer_of W.Sink writer.old) (is_write result) (writer_of W.Sink writer.new) }
    ensures walks { WalksBlocks reader.old result reader.new }
    ensures cut { OnOk result (IsTrue reader.old.told
        → cut_by reader.new.stop ≡ blocks_cut (blocks_to_come reader.old)) }
{
    let mut line = Line::new();
    let mut n = 1u64;
    while let Some(block) = take_block(reader)? {
        write_block(&mut line, form, n, &block);
        put_all(writer, line.as_slice())?;
        n += 1;
    }
    Ok(())
}

/// Does what `blocks_to` or `blocks_json_to` does, by the form, and returns the rest of the file that was cut and
/// dropped, if it was.
pub(crate) fn blocks_in<R: Source, W: Sink>(
    alloc: Global,
    source: R,
    tail: Tail,
    form: Form,
    writer: &mut W,
) -> Result<Option<CutRest>, Fault>
    ensures text { IsTrue (R.tells_coming source) → IsTrue (W.tells_held writer.old)
        → Prints (block_list_in form tail (R.coming source)) (block_refusal tail (R.coming source))
        (W.held writer.old) (done_of result) (W.held writer.new) }
    ensures writer { WriterKeeps (writer_of W.Sink writer.old) (is_write result) (writer_of W.Sink writer.new) }
    ensures read { FailsOf (R.can_fail source ∷ []) result }
    ensures cut { IfOk result (λ cut. IsTrue (R.tells_coming source) → cut ≡ block_cut tail (R.coming source)) }
{
    let mut reader = BlockReader::new(Window::new(alloc, source, 1), tail);
    print_blocks(&mut reader, form, writer)?;
    Ok(reader.cut())
}

/// Prints a line for each block of a pcapng file, each as it is found, up to the first refusal, which it returns. It
/// returns `Read` if a read fails, `Write` if a write does, `Memory` if a growth is refused; then a prefix of those
/// lines is written.
pub fn blocks_to<R: Source, W: Sink>(
    alloc: Global,
    source: R,
    tail: Tail,
    writer: &mut W,
) -> Result<(), Fault>
    ensures text { IsTrue (R.tells_coming source) → IsTrue (W.tells_held writer.old)
        → Prints (block_list tail (R.coming source)) (block_refusal tail (R.coming source))
        (W.held writer.old) result (W.held writer.new) }
    ensures writer { WriterKeeps (writer_of W.Sink writer.old) (is_write result) (writer_of W.Sink writer.new) }
    ensures read { FailsOf (R.can_fail source ∷ []) result }
{
    without_cut(blocks_in(alloc, source, tail, Form::Text(TimeForm::Exact), writer))
}

/// Prints a JSON object on a line of its own for each block of a pcapng file, each as it is found, up to the first
/// refusal, which it returns. It returns `Read` if a read fails, `Write` if a write does, `Memory` if a growth is
/// refused; then a prefix of those lines is written.
pub fn blocks_json_to<R: Source, W: Sink>(
    alloc: Global,
    source: R,
    tail: Tail,
    writer: &mut W,
) -> Result<(), Fault>
    ensures text { IsTrue (R.tells_coming source) → IsTrue (W.tells_held writer.old)
        → Prints (block_list_json tail (R.coming source)) (block_refusal tail (R.coming source))
        (W.held writer.old) result (W.held writer.new) }
    ensures writer { WriterKeeps (writer_of W.Sink writer.old) (is_write result) (writer_of W.Sink writer.new) }
    ensures read { FailsOf (R.can_fail source ∷ []) result }
{
    without_cut(blocks_in(alloc, source, tail, Form::Json(TimeForm::Exact), writer))
}
