//! What is told of a run beside how it ended, and the lines that tell what a command that writes a capture leaves out,
//! or leaves as it was.
ghost use Rattle.std.specs.Prelude.{◌≡◌, ◌+◌, ◌≤◌, ◌++◌, length};
ghost use Rattle.cap_print.specs.Lines.{room_in, text_in};
ghost use Rattle.cap_tool.specs.LeftLines.{count_text, dropped_text, left_text, left_told, name_blocks_text};
ghost use Rattle.cap_tool.specs.LeftLines.{names_label as names_label_text, other_blocks, other_blocks_text};
ghost use Rattle.cap_tool.specs.LeftLines.{comments_label as comments_label_text, drops_nothing, no_blocks, no_kinds};
ghost use Rattle.cap_tool.specs.LeftLines.{no_names, no_secrets};

use crate::outcomes::Outcome;
use cap_commands::DroppedInfo;
use cap_print::Line;

/// What is told of a job beside how it ended.
#[derive(Clone, Copy, Debug, PartialEq, Eq)]
pub struct Told {
    /// Whether it is told what the job leaves out, or why it isn't done.
    pub counts: bool,
    /// What it leaves out, if that is told.
    pub left: DroppedInfo,
}

// Puts a label and a count before what was put, and what is counted after it, unless the count is 0.
fn prepend_count(line: &mut Line, label: &[u8], count: u128, one: &[u8], many: &[u8])
    requires one { length label.now + length one.now + 40 ≤ room_in line.old }
    requires many { length label.now + length many.now + 40 ≤ room_in line.old }
    ensures text { text_in line.new ≡ count_text label.now count one.now many.now ++ text_in line.old }
    ensures room { room_in line.old ≤ room_in line.new + length label.now + length one.now + length many.now + 40 }
{
    if count == 0 {
        return;
    }
    line.prepend_text(if count == 1 { one } else { many });
    line.prepend_integer(label, count);
}

// How many skipped blocks are neither blocks of secrets nor blocks of names.
fn other_blocks(left: &DroppedInfo) -> u128
    ensures { result ≡ other_blocks left.now }
{
    let beside_secrets = left.skipped.saturating_sub(left.secret_blocks);
    beside_secrets.saturating_sub(left.name_blocks)
}

// Whether no block of secrets was skipped.
fn no_secrets(left: &DroppedInfo) -> bool
    ensures { result ≡ no_secrets left.now }
{
    left.secret_blocks == 0
}

// Whether no block of names was either.
fn no_kinds(left: &DroppedInfo) -> bool
    ensures { result ≡ no_kinds left.now }
{
    no_secrets(left) && left.name_blocks == 0
}

// Whether no block was.
fn no_blocks(left: &DroppedInfo) -> bool
    ensures { result ≡ no_blocks left.now }
{
    no_kinds(left) && other_blocks(left) == 0
}

// Whether no block was, and no interface has a name.
fn no_names(left: &DroppedInfo) -> bool
    ensures { result ≡ no_names left.now }
{
    no_blocks(left) && left.named == 0
}

// Whether no comment was counted either.
fn drops_nothing(left: &DroppedInfo) -> bool
    ensures { result ≡ drops_nothing left.now }
{
    no_names(left) && left.comments == 0
}

// The blocks of names, which are the first part of the line, or follow blocks of secrets.
fn prepend_name_blocks(line: &mut Line, is_first: bool, count: u128)
    requires { 100 ≤ room_in line.old }
    ensures text { text_in line.new ≡ name_blocks_text is_first count ++ text_in line.old }
    ensures room { room_in line.old ≤ room_in line.new + 100 }
{
    if is_first {
        prepend_count(
            line,
            b"not carried on: ",
            count,
            b" block of names",
            b" blocks of names",
        );
    } else {
        prepend_count(line, b", ", count, b" of names", b" of names");
    }
}

// The blocks of other kinds, which are the first part of the line, or follow blocks of secrets or of names.
fn prepend_other_blocks(line: &mut Line, is_first: bool, count: u128)
    requires { 100 ≤ room_in line.old }
    ensures text { text_in line.new ≡ other_blocks_text is_first count ++ text_in line.old }
    ensures room { room_in line.old ≤ room_in line.new + 100 }
{
    if is_first {
        prepend_count(line, b"not carried on: ", count, b" block", b" blocks");
    } else {
        prepend_count(line, b", ", count, b" of another kind", b" of other kinds");
    }
}

// What stands before the number of interfaces with a name, which is the first part of the line, or follows blocks.
fn names_label(is_first: bool) -> &'static [u8]
    ensures { result.now ≡ names_label_text is_first }
{
    if is_first {
        b"not carried on: names of "
    } else {
        b", names of "
    }
}

// What stands before the number of comments, which is the first part of the line, or follows another.
fn comments_label(is_first: bool) -> &'static [u8]
    ensures { result.now ≡ comments_label_text is_first }
{
    if is_first { b"not carried on: " } else { b", " }
}

// `not carried on: 2 blocks of secrets, 1 of names, 3 of other kinds, names of 2 interfaces, 3 comments`
fn prepend_dropped(line: &mut Line, left: &DroppedInfo)
    requires { 440 ≤ room_in line.old }
    ensures { text_in line.new ≡ dropped_text left.now ++ text_in line.old }
{
    if drops_nothing(left) {
        return;
    }
    line.prepend_text(b"\n");
    prepend_count(
        line,
        comments_label(no_names(left)),
        left.comments,
        b" comment",
        b" comments",
    );
    prepend_count(
        line,
        names_label(no_blocks(left)),
        left.named,
        b" interface",
        b" interfaces",
    );
    prepend_other_blocks(line, no_kinds(left), other_blocks(left));
    prepend_name_blocks(line, no_secrets(left), left.name_blocks);
    prepend_count(
        line,
        b"not carried on: ",
        left.secret_blocks,
        b" block of secrets",
        b" blocks of secrets",
    );
}

// `not carried on: 1 block of secrets, names of 1 interface`, `ran back: 1 packet`
fn count_lines(left: &DroppedInfo) -> Line
    ensures { text_in result ≡ left_text left.now }
{
    let mut line = Line::new();
    prepend_count(
        &mut line,
        b"ran back: ",
        left.ran_back,
        b" packet\n",
        b" packets\n",
    );
    prepend_dropped(&mut line, left);
    line
}

/// The lines that tell what is left after a run that is done: `not carried on: 2 blocks of secrets, 1 of names, 3 of
/// other kinds, names of 1 interface, 3 comments` and `ran back: 2 packets`. Each part is left out if it would tell of
/// none, and so is each line. There is none after any other run.
pub fn left_lines(outcome: &Outcome, left: &DroppedInfo) -> Line
    ensures { text_in result ≡ left_told outcome.now left.now }
{
    match outcome {
        Outcome::Done => count_lines(left),
        Outcome::Differ
        | Outcome::NotWhole
        | Outcome::Line(_)
        | Outcome::Fault(_)
        | Outcome::Open(_)
        | Outcome::List
        | Outcome::ListLine(_)
        | Outcome::Create => Line::new(),
    }
}
