//! Runs over a system in memory: files by their names, and an output.
ghost use Rattle.std.specs.Prelude.{if◌then◌else◌, Some, None, option_map};

use cap_bytes::{CutRest, Fault, Refusal, Rule, Tail, Tracked};
use cap_line::{Job, LineFault};
use cap_tool::{
    Buffered, Cause, DroppedInfo, FileId, FileType, Opener, Outcome, RunStop, System, Told,
    find_refusals, run_words,
};
use std::alloc::Global;
use std::cell::RefCell;
use std::io;
use std::io::{ErrorKind, Write};
use std::process::Abort;

// A pcap file of one packet of 4 bytes, at 2.5 seconds.
const ONE: &str = "d4c3b2a1020004000000000000000000000004000100000001000000\
    60e31600040000000400000001020304";

const LINE: &str =
    "packet 1 offset 24 time 2+500000/1000000 captured 4 original 4 link 1 data 01020304\n";

// Of that file, and of one that can't be opened.
const CHECKS: &str = "check 1 pcap packets 1 bytes 4 first 2+500000/1000000 last 2+500000/1000000 \
    backward 0 untimed 0 truncated 0 skipped 0 interfaces 1 whole\n\
    check 2 - packets 0 bytes 0 first - last - \
    backward 0 untimed 0 truncated 0 skipped 0 interfaces 0 open\n";

// The same, with their names, and as objects.
const NAMED: &str = "check 1 pcap packets 1 bytes 4 first 2+500000/1000000 last 2+500000/1000000 \
    backward 0 untimed 0 truncated 0 skipped 0 interfaces 1 whole name one\n\
    check 2 - packets 0 bytes 0 first - last - \
    backward 0 untimed 0 truncated 0 skipped 0 interfaces 0 open name \\u{1b}two\n";

const OBJECTS: &str =
    "{\"type\":\"check\",\"file\":1,\"format\":\"pcap\",\"packets\":1,\"bytes\":4,\
    \"first\":[2,500000,1000000],\"last\":[2,500000,1000000],\"backward\":0,\"untimed\":0,\
    \"truncated\":0,\"skipped\":0,\"interfaces\":1,\"whole\":true,\"cut\":false,\"path\":\"one\"}\n\
    {\"type\":\"check\",\"file\":2,\"format\":null,\"packets\":0,\"bytes\":0,\"first\":null,\"last\":null,\
    \"backward\":0,\"untimed\":0,\"truncated\":0,\"skipped\":0,\"interfaces\":0,\"open\":true,\
    \"path\":\"\\u001btwo\"}\n";

// Names of captures, each of which a NUL ends.
const LIST: &[u8] = b"one\0\x1btwo\0";

// A file that is named `one`, and another one, `list`.
#[derive(Clone, Copy)]
struct Shelf<'a> {
    one: &'a [u8],
    list: &'a [u8],
}

impl<'a> Opener for Shelf<'a> {
    ghost use Rattle.std.specs.Prelude.{◌≡◌, codes};
    ghost use Rattle.std.specs.Str.{bytes_eq};
    ghost use Rattle.cap_bytes.specs.Tracked.{tracked_inner};

    type Reader = Tracked<&'a [u8]>;

    ghost gives = { λ s name reader. option_map (λ r. tracked_inner r) reader
        ≡ (if bytes_eq name (codes "one") then Some s.one
        else (if bytes_eq name (codes "list") then Some s.list else None)) };

    fn open(&self, name: &str) -> Result<(Tracked<&'a [u8]>, FileType), Cause> {
        match name {
            "one" => Ok((Tracked::new(self.one), FileType::Other)),
            "list" => Ok((Tracked::new(self.list), FileType::Other)),
            _ => Err(Cause::Unknown),
        }
    }

    fn tell_cause(&self, _name: &str, _cause: &Cause, _job: &Job<'_>) {}

    fn tell_cut(&self, _file: u32, _rest: CutRest, _names: &[&str], _job: &Job<'_>) {}
}

// What a run writes, kept where the test sees it.
#[derive(Drop)]
struct Sheet<'a> {
    written: &'a RefCell<Vec<u8>>,
}

impl<'a> Write for Sheet<'a> {
    fn write(&mut self, bytes: &[u8]) -> io::Result<usize> {
        match self.written.try_borrow_mut() {
            Ok(mut written) => {
                written.extend_from_slice(bytes)?;
                Ok(bytes.len())
            }
            Err(_) => Err(io::Error::from(ErrorKind::WouldBlock)),
        }
    }

    fn flush(&mut self) -> io::Result<()> {
        Ok(())
    }
}

// A shelf, and a sheet to be written; no sheet, if a job is to be written in big-endian order.
#[derive(Drop)]
struct Desk<'a> {
    alloc: Global,
    shelf: Shelf<'a>,
    written: &'a RefCell<Vec<u8>>,
}

impl<'a> Opener for Desk<'a> {
    ghost use Rattle.std.specs.Prelude.{◌≡◌, codes};
    ghost use Rattle.std.specs.Str.{bytes_eq};
    ghost use Rattle.cap_bytes.specs.Tracked.{tracked_inner};

    type Reader = Tracked<&'a [u8]>;

    ghost gives = { λ d name reader. option_map (λ r. tracked_inner r) reader
        ≡ (if bytes_eq name (codes "one") then Some d.shelf.one
        else (if bytes_eq name (codes "list") then Some d.shelf.list else None)) };

    fn open(&self, name: &str) -> Result<(Tracked<&'a [u8]>, FileType), Cause> {
        self.shelf.open(name)
    }

    fn tell_cause(&self, name: &str, cause: &Cause, job: &Job<'_>) {
        self.shelf.tell_cause(name, cause, job);
    }

    fn tell_cut(&self, file: u32, rest: CutRest, names: &[&str], job: &Job<'_>) {
        self.shelf.tell_cut(file, rest, names, job);
    }
}

impl<'a> System for Desk<'a> {
    ghost use Rattle.std.specs.Prelude.{◌≡◌, false};

    type Writer = Buffered<Sheet<'a>>;

    type Name = ();

    ghost lacks_input = { λ _. false };

    ghost makes = { λ d job ids result. Unit {0} };

    ghost commits = { λ d name answer result. result ≡ answer };

    fn has_no_input(&self) -> bool {
        false
    }

    fn explains(&self) -> bool {
        false
    }

    fn create(
        &self,
        job: &Job<'_>,
        _names: &[&str],
        _inputs: &[Option<FileId>],
        _size: Option<u64>,
    ) -> Result<(Buffered<Sheet<'a>>, ()), RunStop> {
        if job.whole {
            return Err(RunStop::create(Cause::Unknown));
        }
        let sheet = Sheet {
            written: self.written,
        };
        Ok((Buffered::new(self.alloc, 64, sheet)?, ()))
    }

    fn commit(
        &self,
        _name: (),
        answer: Result<DroppedInfo, RunStop>,
    ) -> Result<DroppedInfo, RunStop> {
        answer
    }

    fn tell(&self, stop: RunStop, _job: Option<&Job<'_>>, _said: &[u8], _told: &Told) -> Outcome {
        stop.outcome
    }
}

// How a run of some words ends over a shelf, and what it writes.
fn runs(rt: &impl Abort, alloc: Global, words: &[&str], ending: Outcome, text: &str) {
    runs_over(rt, alloc, LIST, words, ending, text);
}

// The same over a shelf with that list.
fn runs_over(
    rt: &impl Abort,
    alloc: Global,
    list: &[u8],
    words: &[&str],
    ending: Outcome,
    text: &str,
) {
    let one = hex::decode(alloc, ONE).expect(rt, "bytes in hex");
    let written = RefCell::new(Vec::new(alloc));
    let desk = Desk {
        alloc,
        shelf: Shelf {
            one: one.as_slice(),
            list,
        },
        written: &written,
    };
    assert_eq!(rt; run_words(&desk, alloc, words), ending);
    match written.try_borrow() {
        Ok(bytes) => assert_eq!(rt; bytes.as_slice(), text.as_bytes()),
        Err(_) => panic!(rt; "it is borrowed"),
    }
}

// The words, how their run ends, and what it writes.
const RUNS: [(&[&str], Outcome, &str); 20] = [
    (&["capt", "list", "one"], Outcome::Done, LINE),
    (&["capt", "list", "two"], Outcome::Open(1), ""),
    (
        &["capt", "blocks", "one"],
        Outcome::Fault(Fault::Refused(NO_BLOCKS)),
        "",
    ),
    (&["capt", "check", "one", "two"], Outcome::NotWhole, CHECKS),
    (
        &["capt", "check", "--names", "one", "\u{1b}two"],
        Outcome::NotWhole,
        NAMED,
    ),
    (
        &["capt", "check", "--json", "one", "\u{1b}two"],
        Outcome::NotWhole,
        OBJECTS,
    ),
    (
        &["capt", "check", "--names", "--files0-from", "list"],
        Outcome::NotWhole,
        NAMED,
    ),
    (
        &["capt", "check", "--files0-from", "two"],
        Outcome::List,
        "",
    ),
    (
        &["capt", "check", "--files0-from", "list", "one"],
        Outcome::Line(LineFault::Line),
        "",
    ),
    (
        &["capt", "info", "--files0-from", "list"],
        Outcome::Line(LineFault::Line),
        "",
    ),
    (&["capt", "info", "one", "two"], Outcome::Open(2), ""),
    (
        &["capt", "merge", "--whole", "-o", "new", "one"],
        Outcome::Create,
        "",
    ),
    (&["capt", "diff", "one"], Outcome::Line(LineFault::Line), ""),
    (&["capt", "info", "one"], Outcome::Done, INFO),
    (
        &["capt", "info", "--skip-refused", "one"],
        Outcome::Done,
        INFO,
    ),
    (
        &["capt", "info", "--skip-refused", "list", "one"],
        Outcome::NotWhole,
        SKIPPED,
    ),
    (
        &["capt", "info", "--json", "--skip-refused", "list"],
        Outcome::NotWhole,
        SKIPPED_OBJECT,
    ),
    (
        &["capt", "info", "--skip-refused", "list", "two"],
        Outcome::Open(2),
        "",
    ),
    (
        &["capt", "info", "--skip-refused", "-"],
        Outcome::Line(LineFault::Input),
        "",
    ),
    (
        &["capt", "list", "--skip-refused", "one"],
        Outcome::Line(LineFault::Line),
        "",
    ),
];

// What `info` prints of that file, and with `--skip-refused` behind one that is none.
const INFO: &str = "files 1\n\
    file 1 pcap packets 1 bytes 4 truncated 0 skipped 0 first 2+500000/1000000 last 2+500000/1000000\n";

const SKIPPED: &str = "left out 1 offset 0 rule 1 magic\nfiles 1\n\
    file 1 pcap packets 1 bytes 4 truncated 0 skipped 0 first 2+500000/1000000 last 2+500000/1000000\n";

const SKIPPED_OBJECT: &str =
    "{\"type\":\"left out\",\"file\":1,\"offset\":0,\"rule\":1,\"name\":\"magic\"}\n";

// A pcap file is no pcapng file.
const NO_BLOCKS: Refusal = Refusal {
    file: 1,
    offset: 0,
    rule: Rule::Magic,
};

#[test]
fn always_memory_words_are_run(rt: HostRuntime) {
    for (words, ending, text) in &RUNS {
        runs(&rt, rt.alloc(), *words, *ending, *text);
    }
}

// The refusals of files by their names, found one after another.
#[test]
fn always_memory_refusals_are_found_by_names(rt: HostRuntime) {
    let alloc = rt.alloc();
    let one = hex::decode(alloc, ONE).expect(&rt, "bytes in hex");
    let shelf = Shelf {
        one: one.as_slice(),
        list: LIST,
    };
    match find_refusals(&shelf, alloc, &["one", "list"], Tail::Refuse) {
        Ok(found) => assert_eq!(&rt; found.as_slice(), [None, Some(NO_CAPTURE)].as_slice()),
        Err(_) => panic!(&rt; "they are found"),
    }
    match find_refusals(&shelf, alloc, &["one", "two"], Tail::Refuse) {
        Ok(_) => panic!(&rt; "it can't be opened"),
        Err(stop) => assert_eq!(&rt; stop.outcome, Outcome::Open(2)),
    }
}

// A list of names is no capture.
const NO_CAPTURE: Refusal = Refusal {
    file: 2,
    offset: 0,
    rule: Rule::Magic,
};

// The lines of `digest`, and of `check --digest`.
const DIGESTS: &str = "digest 1 sha256 \
    ae7312267c797be18247384507fd1956f2af9397397bd84f72a62298f1352b4e packets 1 name one\n\
    digest 2 open name \\u{1b}two\n";

const DIGEST_OBJECTS: &str = "{\"type\":\"digest\",\"file\":1,\"sha256\":\
    \"ae7312267c797be18247384507fd1956f2af9397397bd84f72a62298f1352b4e\",\"packets\":1,\"cut\":false,\
    \"path\":\"one\"}\n{\"type\":\"digest\",\"file\":2,\"open\":true,\"path\":\"\\u001btwo\"}\n";

const CHECK_DIGESTS: &str =
    "check 1 pcap packets 1 bytes 4 first 2+500000/1000000 last 2+500000/1000000 \
    backward 0 untimed 0 truncated 0 skipped 0 interfaces 1 sha256 \
    ae7312267c797be18247384507fd1956f2af9397397bd84f72a62298f1352b4e whole\n\
    check 2 - packets 0 bytes 0 first - last - \
    backward 0 untimed 0 truncated 0 skipped 0 interfaces 0 sha256 - open\n";

const DIGEST_RUNS: [(&[&str], &str); 3] = [
    (&["capt", "digest", "--names", "one", "\u{1b}two"], DIGESTS),
    (
        &["capt", "digest", "--json", "one", "\u{1b}two"],
        DIGEST_OBJECTS,
    ),
    (&["capt", "check", "--digest", "one", "two"], CHECK_DIGESTS),
];

#[test]
fn always_memory_digests_are_run(rt: HostRuntime) {
    for (words, text) in &DIGEST_RUNS {
        runs(&rt, rt.alloc(), *words, Outcome::NotWhole, *text);
    }
}

// Lists of lines, how a run ends that verifies them, and what it says: of what `digest --names` printed; of a line of
// another number, of one whose packets are others, and of one whose name is shown by a code; and of no lines.
const VERIFIED: [(&[u8], Outcome, &str); 7] = [
    (
        b"digest 1 sha256 ae7312267c797be18247384507fd1956f2af9397397bd84f72a62298f1352b4e packets 1 name one\n",
        Outcome::Done,
        "verify 1 same name one\n",
    ),
    (
        b"digest 7 sha256 ae7312267c797be18247384507fd1956f2af9397397bd84f72a62298f1352b4e packets 1 name one",
        Outcome::Done,
        "verify 7 same name one\n",
    ),
    (
        b"digest 1 sha256 ae7312267c797be18247384507fd1956f2af9397397bd84f72a62298f1352b4e packets 2 name one\n",
        Outcome::Differ,
        "verify 1 differs name one\n",
    ),
    (
        b"digest 1 open name one\ndigest 2 open name \\u{1b}two\n",
        Outcome::NotWhole,
        "verify 1 differs name one\nverify 2 missing name \\u{1b}two\n",
    ),
    (b"", Outcome::Done, ""),
    (
        b"digest 1 open name one\ncheck 2 open name two\n",
        Outcome::ListLine(2),
        "",
    ),
    (b"digest 01 open name one\n", Outcome::ListLine(1), ""),
];

#[test]
fn always_memory_lines_are_verified(rt: HostRuntime) {
    let words = ["capt", "digest", "--verify", "list"];
    for (list, ending, text) in &VERIFIED {
        runs_over(&rt, rt.alloc(), *list, words.as_slice(), *ending, *text);
    }
}

// The same as objects, and lists that can't be read or stand beside what they can't.
#[test]
fn always_memory_lines_are_verified_alone(rt: HostRuntime) {
    let list = b"digest 1 open name one\n";
    let json = ["capt", "digest", "--json", "--verify", "list"];
    let object = "{\"type\":\"verify\",\"file\":1,\"result\":\"differs\",\"path\":\"one\"}\n";
    runs_over(
        &rt,
        rt.alloc(),
        list,
        json.as_slice(),
        Outcome::Differ,
        object,
    );
    let unread = ["capt", "digest", "--verify", "two"];
    runs_over(&rt, rt.alloc(), list, unread.as_slice(), Outcome::List, "");
    let beside = ["capt", "digest", "--verify", "list", "one"];
    let line = Outcome::Line(LineFault::Line);
    runs_over(&rt, rt.alloc(), list, beside.as_slice(), line, "");
}
