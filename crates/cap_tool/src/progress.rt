//! How far a run is, shown at a terminal while the run takes long.
ghost use Rattle.std.specs.Prelude.{◌≡◌, ◌+◌, ◌<◌, ◌≤◌, ◌++◌, length};
ghost use Rattle.cap_print.specs.Lines.{room_in, text_in};
ghost use Rattle.cap_tool.specs.Progress.{amount_text, left_text, of_text, progress_text, seconds_text};

use crate::shared::SharedOutput;
use cap_print::Line;
use std::cell::Cell;
use std::io::{Stderr, Write};
use std::time::{Clock, Duration, Instant};

// How many seconds a run may take before it shows how far it is.
const PATIENCE: u64 = 2;

// How many thousandths of a second a line stands at least.
const PAUSE: u64 = 200;

// To the beginning of the line, and what stands there is wiped.
const WIPE: &[u8] = b"\r\x1b[K";

// From here on a terminal cuts a line that is wider than it (DECAWM), and from here on it continues such a line below.
const CUT: &[u8] = b"\x1b[?7l";

const WRAP: &[u8] = b"\x1b[?7h";

// Puts a label and a number of bytes, in millions or thousands of millions, to a tenth.
fn prepend_amount(line: &mut Line, label: &[u8], bytes: u128)
    requires { length label.now + 84 ≤ room_in line.old }
    ensures text { text_in line.new ≡ label.now ++ amount_text bytes ++ text_in line.old }
    ensures room { room_in line.old ≤ room_in line.new + length label.now + 84 }
{
    if bytes < 1_000_000_000 {
        line.prepend_text(b" MB");
        line.prepend_integer(b".", bytes / 100_000 % 10);
        line.prepend_integer(label, bytes / 1_000_000);
    } else {
        line.prepend_text(b" GB");
        line.prepend_integer(b".", bytes / 100_000_000 % 10);
        line.prepend_integer(label, bytes / 1_000_000_000);
    }
}

// Puts how many bytes there are, if that is known.
fn prepend_total(line: &mut Line, total: Option<u64>)
    requires { 88 ≤ room_in line.old }
    ensures text { text_in line.new ≡ of_text total ++ text_in line.old }
    ensures room { room_in line.old ≤ room_in line.new + 88 }
{
    if let Some(total) = total {
        prepend_amount(line, b" of ", u128::from(total));
    }
}

// Puts a label and a time of that many seconds.
fn prepend_seconds(line: &mut Line, label: &[u8], seconds: u128)
    requires { length label.now + 44 ≤ room_in line.old }
    ensures text { text_in line.new ≡ label.now ++ seconds_text seconds ++ text_in line.old }
    ensures room { room_in line.old ≤ room_in line.new + length label.now + 44 }
{
    if seconds < 60 {
        line.prepend_text(b" s");
        line.prepend_integer(label, seconds);
    } else {
        line.prepend_text(b" min");
        line.prepend_integer(label, seconds / 60);
    }
}

// Puts how long the rest will take, if that is known.
fn prepend_left(line: &mut Line, read: u64, total: Option<u64>, millis: u64)
    requires { 51 ≤ room_in line.old }
    ensures text { text_in line.new ≡ left_text read total millis ++ text_in line.old }
    ensures room { room_in line.old ≤ room_in line.new + 51 }
{
    let Some(total) = total else {
        return;
    };
    if read == 0 || total <= read {
        return;
    }
    line.prepend_text(b" left");
    let rest = u128::from(total - read) * u128::from(millis);
    prepend_seconds(line, b", ", rest / (u128::from(read) * 1000));
}

/// How far a run is that has read that many bytes, of that many, in that many thousandths of a second:
/// `  120.4 MB of 4.8 GB, 412.0 MB a second, 11 s left`.
pub fn progress_line(read: u64, total: Option<u64>, millis: u64) -> Line
    requires { 0 < millis }
    ensures { text_in result ≡ progress_text read total millis }
{
    let mut line = Line::new();
    prepend_left(&mut line, read, total, millis);
    line.prepend_text(b" a second");
    let a_second = u128::from(read) * 1000 / u128::from(millis);
    prepend_amount(&mut line, b", ", a_second);
    prepend_total(&mut line, total);
    prepend_amount(&mut line, b"  ", u128::from(read));
    line
}

// A terminal, and since when something may be shown on it.
#[derive(Clone, Copy)]
struct Screen {
    stream: Stderr,
    begun: Instant,
}

/// What a run has read, and the line of a terminal that shows it: one that is written over again and again,
/// from two seconds after the run began, and wiped in the end.
#[derive(Drop)]
pub struct Progress<'a, C: Clock> {
    clock: &'a C,
    // none if nothing is to be shown
    screen: Cell<Option<Screen>>,
    // whether what is written is seen on the same screen
    is_shared: Cell<bool>,
    // how many bytes there are to read, if that is known
    total: Cell<Option<u64>>,
    read: Cell<u64>,
    // how long after the beginning the next line is due
    due: Cell<Duration>,
    // whether a line stands on the screen
    stands: Cell<bool>,
    // the output, which is written before a read that may wait
    output: Option<&'a SharedOutput>,
}

impl<'a, C: Clock> Progress<'a, C> {
    /// The progress of a run that has not begun, which shows nothing.
    pub fn idle(clock: &'a C) -> Progress<'a, C> {
        Progress {
            clock,
            screen: Cell::new(None),
            is_shared: Cell::new(false),
            total: Cell::new(None),
            read: Cell::new(0),
            due: Cell::new(Duration::from_secs(PATIENCE)),
            stands: Cell::new(false),
            output: None,
        }
    }

    /// The progress of a run that begins now, and that has that many bytes to read, if that is known. It is shown on
    /// the terminal `screen`, if there is one; if `is_shared`, what is written goes there too, and progress is shown
    /// only until something is written.
    pub fn new(
        clock: &'a C,
        screen: Option<Stderr>,
        is_shared: bool,
        total: Option<u64>,
    ) -> Progress<'a, C> {
        let progress = Progress::idle(clock);
        progress.begin(screen, is_shared, total);
        progress
    }

    /// Begins now, as `new` does.
    pub fn begin(&self, screen: Option<Stderr>, is_shared: bool, total: Option<u64>) {
        let screen = match (screen, Instant::now(self.clock)) {
            (Some(stream), Ok(begun)) => Some(Screen { stream, begun }),
            _ => None,
        };
        self.screen.set(screen);
        self.is_shared.set(is_shared);
        self.total.set(total);
    }

    /// The same of a run whose reads may wait, if it isn't known how many bytes there are, as of a pipe: what waits in
    /// `output` is written before each of them.
    pub fn with_output(self, output: &'a SharedOutput) -> Progress<'a, C> {
        Progress {
            output: Some(output),
            ..self
        }
    }

    /// Writes what waits in the output, if the read that follows may wait. A failure shows at the end of the run.
    pub fn before_read(&self) {
        if self.total.get().is_some() {
            return;
        }
        if let Some(output) = self.output {
            let _ = output.flush();
        }
    }

    /// Takes note of that many bytes more that were read, and shows a line if one is due.
    pub fn add(&self, bytes: usize) {
        let read = self.read.get().saturating_add(bytes as u64);
        self.read.set(read);
        let Some(screen) = self.screen.get() else {
            return;
        };
        let Ok(elapsed) = screen.begun.elapsed(self.clock) else {
            return;
        };
        if elapsed < self.due.get() {
            return;
        }
        self.due
            .set(elapsed.saturating_add(Duration::from_millis(PAUSE)));
        self.stands.set(true);
        show(screen.stream, read, self.total.get(), elapsed);
    }

    /// Wipes the line, if one stands.
    pub fn wipe(&self) {
        if let Some(screen) = self.screen.get() {
            if self.stands.replace(false) {
                // a terminal that fails shows no line
                let _ = (&screen.stream).write_all(WIPE);
            }
        }
    }

    /// Makes way for what is about to be written: if it is seen on the same screen, no line is shown from now on.
    pub fn make_way(&self) {
        if self.is_shared.get() {
            self.wipe();
            self.due.set(Duration::MAX);
        }
    }
}

// Writes a line over the one that stands. A terminal that fails shows none.
fn show(stream: Stderr, read: u64, total: Option<u64>, elapsed: Duration) {
    let millis = u64::try_from(elapsed.as_millis()).unwrap_or(u64::MAX);
    if millis > 0 {
        let line = progress_line(read, total, millis);
        for part in [WIPE, CUT, line.as_slice(), WRAP] {
            let _ = (&stream).write_all(part);
        }
    }
}
