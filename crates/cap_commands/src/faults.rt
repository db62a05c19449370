//! The line of a fault of a command.
ghost use Rattle.std.specs.Prelude.{◌≡◌, ◌≤◌, length};
ghost use Rattle.cap_print.specs.Lines.{text_in};
ghost use Rattle.cap_commands.specs.FaultText.{fault_text, read_text, refusal_text};

use cap_bytes::{Fault, Refusal};
use cap_print::Line;

// `refused: file 2 offset 24 rule 6 block-trailer`
fn refusal_line(refusal: &Refusal) -> Line
    ensures { text_in result ≡ refusal_text refusal.now }
{
    let mut line = Line::new();
    line.prepend_text(b"\n");
    line.prepend_text(refusal.rule.name().as_bytes());
    line.prepend_text(b" ");
    line.prepend_field(b" rule ", u64::from(refusal.rule.number()));
    line.prepend_field(b" offset ", refusal.offset);
    line.prepend_field(b"refused: file ", u64::from(refusal.file));
    line
}

// `fault: read file 1 offset 24`
fn read_line(file: u32, offset: u64) -> Line
    ensures { text_in result ≡ read_text file offset }
{
    let mut line = Line::new();
    line.prepend_text(b"\n");
    line.prepend_field(b" offset ", offset);
    line.prepend_field(b"fault: read file ", u64::from(file));
    line
}

// A line of that text alone.
fn short_line(text: &[u8]) -> Line
    requires { length text.now ≤ 512 }
    ensures { text_in result ≡ text.now }
{
    let mut line = Line::new();
    line.prepend_text(text);
    line
}

/// The line of a fault of a command, with its end: `refused: file I offset O rule R NAME`,
/// `fault: read file I offset O`, `fault: write` or `fault: memory`.
pub fn fault_line(fault: Fault) -> Line
    ensures { text_in result ≡ fault_text fault }
{
    match fault {
        Fault::Refused(refusal) => refusal_line(&refusal),
        Fault::Read { file, offset } => read_line(file, offset),
        Fault::Write => short_line(b"fault: write\n"),
        Fault::Memory => short_line(b"fault: memory\n"),
    }
}
