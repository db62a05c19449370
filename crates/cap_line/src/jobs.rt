//! Jobs, and what the words of a command line name in one.
ghost use Rattle.std.specs.Prelude.{◌≡◌, map, count_by, codes, false, option_map, is_some};
ghost use Rattle.std.specs.Char.{is_ascii_digit};
ghost use Rattle.std.specs.List.{list_all, list_any};
ghost use Rattle.std.specs.Str.{bytes_eq};
ghost use Rattle.cap_line.specs.Jobs.{can_have_unit, can_read_ipv6, can_replace, can_share, can_show, can_skip};
ghost use Rattle.cap_line.specs.Jobs.{can_verify, count_in};
ghost use Rattle.cap_line.specs.Jobs.{data_by, files_fault, format_by, ignored_by, inputs_fault, is_also_file};
ghost use Rattle.cap_line.specs.Jobs.{is_digits, is_skipping, is_surveying, is_whole_task, most_files, number_in};
ghost use Rattle.cap_line.specs.Jobs.{order_by, task_by, time_by, top_by, unit_by};

use crate::faults::LineFault;
use cap_bytes::{Format, Order};
use cap_print::TimeForm;
use cap_time::Unit;

// How many files a command reads at most, and how many `digest` and `check` do, which read one after the other.
const FILES_LIMIT: usize = 32;

const SURVEY_LIMIT: usize = 4_294_967_295;

// How many bytes of a packet are shown at most.
const DATA_LIMIT: u32 = 262_144;

/// What is to be done.
#[derive(Clone, Copy, Debug, PartialEq, Eq)]
pub enum Task {
    /// Print a line for each packet of a file.
    List,
    /// Print a line for each block of a pcapng file.
    Blocks,
    /// Print whether two files have the same packets, or the first difference.
    Diff,
    /// Print a line for each of some files: the SHA-256 of its packets.
    Digest,
    /// Print a line for each of some files, also for one that is refused: how it ends.
    Check,
    /// Print a line for each of some files: what it holds.
    Info,
    /// Print what is counted of some files, and a line for each conversation.
    Report,
    /// Write the packets of a file in one of the formats.
    Convert,
    /// Write the packets of files as one file, in the order of time: a pcapng file, if no format is asked for.
    Merge,
    /// Write the whole IPv4 datagrams of files as one file, in the order of time: a pcapng file, if no format is asked
    /// for.
    Join,
}

/// In what two packets may differ and still count as the same.
#[derive(Clone, Copy, Debug, PartialEq, Eq)]
pub struct Ignored {
    /// Their times.
    pub time: bool,
    /// Their link types.
    pub link: bool,
    /// Their original lengths.
    pub original: bool,
}

/// Nothing: packets that differ in anything aren't the same.
pub const NOTHING_IGNORED: Ignored = Ignored {
    time: false,
    link: false,
    original: false,
};

/// What the command line asks for.
#[derive(Drop)]
pub struct Job<'a> {
    /// What is to be done.
    pub task: Task,
    /// The capture files, as they were named: from 1 to 32, of `Digest` and `Check` to 4,294,967,295; none if `list` or
    /// `verify` names them. `-` is standard input.
    pub files: Vec<&'a str>,
    /// The file that lists the captures in place of `files`, for `Digest` and `Check`: a NUL ends the name of each. `-`
    /// is standard input.
    pub list: Option<&'a str>,
    /// The file whose lines `Digest` verifies, in place of `files` and `list`: lines that `capt digest --names`
    /// printed. `-` is standard input.
    pub verify: Option<&'a str>,
    /// Whether a cut end of a file is dropped, and not refused.
    pub allow_cut: bool,
    /// The byte order of what is written.
    pub order: Order,
    /// The format that is written, if it was asked for.
    pub to: Option<Format>,
    /// The unit of time of the pcap file that is written, if one was asked for.
    pub unit: Option<Unit>,
    /// The file that is written, if one was named. `-` is standard output.
    pub out: Option<&'a str>,
    /// Whether a second line says, also where standard error is no terminal, which file a fault is of and why.
    pub explain: bool,
    /// Whether the file that is written takes its name only once all is done. Standard output has none.
    pub whole: bool,
    /// Whether JSON Lines are printed, and not text.
    pub json: bool,
    /// How many bytes of each packet are shown at most, if that was asked for: from 0 to 262,144.
    pub data: Option<u32>,
    /// The form of the times that are printed.
    pub time: TimeForm,
    /// How many conversations have a line in `Report` at most, those with the most bytes, if that was asked for: from 1
    /// on.
    pub top: Option<u32>,
    /// In what packets that are compared may differ.
    pub ignored: Ignored,
    /// Whether each line of `List` says of which class its packet is, and why.
    pub class: bool,
    /// Whether `Report` and the classes of `List` read IPv6 packets.
    pub ipv6: bool,
    /// Whether each line of `Check` has the digest of its file's packets.
    pub digests: bool,
    /// Whether each line of `Digest` and `Check` names its file, also in text.
    pub names: bool,
    /// Whether equal interfaces are one in what `Merge` writes.
    pub shares: bool,
    /// Whether `Info` and `Report` leave out the files that are refused. Such a run reads its files twice; a call of
    /// `job_to`, which reads them once, leaves none out.
    pub skips: bool,
}

impl<'a> Job<'a> {
    /// The same job over other files. It leaves none of them out.
    pub fn over(&self, files: Vec<&'a str>) -> Job<'a>
        ensures { result ≡ record self.now { files = files.entry; skips = false } }
    {
        Job {
            task: self.task,
            files,
            list: self.list,
            verify: self.verify,
            allow_cut: self.allow_cut,
            order: self.order,
            to: self.to,
            out: self.out,
            explain: self.explain,
            whole: self.whole,
            json: self.json,
            data: self.data,
            top: self.top,
            ignored: self.ignored,
            class: self.class,
            ipv6: self.ipv6,
            digests: self.digests,
            names: self.names,
            shares: self.shares,
            skips: false,
            time: self.time,
            unit: self.unit,
        }
    }
}

/// The task of that name, if it is one's: `list`, `blocks`, `diff`, `digest`, `check`, `info`, `report`,
/// `convert`, `merge` or `join`.
pub fn task_of(name: &str) -> Option<Task>
    ensures { result ≡ task_by name.now }
{
    match name {
        "list" => Some(Task::List),
        "blocks" => Some(Task::Blocks),
        "diff" => Some(Task::Diff),
        "digest" => Some(Task::Digest),
        "check" => Some(Task::Check),
        "info" => Some(Task::Info),
        "report" => Some(Task::Report),
        "convert" => Some(Task::Convert),
        "merge" => Some(Task::Merge),
        "join" => Some(Task::Join),
        _ => None,
    }
}

/// The byte order of that name: `big` is big, and all else is little, also no name.
pub fn order_of(name: Option<&str>) -> Order
    ensures { result ≡ order_by (option_map (λ o. o.now) name.entry) }
{
    match name {
        Some("big") => Order::Big,
        _ => Order::Little,
    }
}

/// The format of that name, if it is one's: `pcap` or `pcapng`.
pub fn format_of(name: Option<&str>) -> Option<Format>
    ensures { result ≡ format_by (option_map (λ o. o.now) name.entry) }
{
    match name {
        Some("pcap") => Some(Format::Pcap),
        Some("pcapng") => Some(Format::Pcapng),
        _ => None,
    }
}

/// The form of times of that name: `decimal` and `utc` are theirs, and all else is exact, also no name.
pub fn time_of(name: Option<&str>) -> TimeForm
    ensures { result ≡ time_by (option_map (λ o. o.now) name.entry) }
{
    match name {
        Some("decimal") => TimeForm::Decimal,
        Some("utc") => TimeForm::Utc,
        _ => TimeForm::Exact,
    }
}

/// The unit of time of that name, if it is one's: `micro` or `nano`.
pub fn unit_of(name: Option<&str>) -> Option<Unit>
    ensures { result ≡ unit_by (option_map (λ o. o.now) name.entry) }
{
    match name {
        Some("micro") => Some(Unit::Micro),
        Some("nano") => Some(Unit::Nano),
        _ => None,
    }
}

/// Whether a task has what it takes, with that many files: one file if it is of one, two for `diff`, a format for
/// `convert`, an output if it writes one.
pub fn is_whole(task: Task, files: usize, to: Option<Format>, out: Option<&str>) -> bool
    ensures { result ≡ is_whole_task task files to (option_map (λ o. o.now) out.entry) }
{
    match task {
        Task::List | Task::Blocks => files == 1,
        Task::Diff => files == 2,
        Task::Digest | Task::Check | Task::Info | Task::Report => true,
        Task::Convert => files == 1 && to.is_some() && out.is_some(),
        Task::Merge | Task::Join => out.is_some(),
    }
}

/// Whether the output can take its name once all is done, if that is asked for: standard output, `-`, can't.
pub fn can_replace(whole: bool, out: Option<&str>) -> bool
    ensures { result ≡ can_replace whole (option_map (λ o. o.now) out.entry) }
{
    match out {
        Some(out) => !(whole && out == "-"),
        None => true,
    }
}

/// Whether interfaces can be shared, if that is asked for: a pcap file, with its one interface, shares none.
pub fn can_share(shares: bool, to: Option<Format>) -> bool
    ensures { result ≡ can_share shares to }
{
    match to {
        Some(Format::Pcap) => !shares,
        Some(Format::Pcapng) => true,
        None => true,
    }
}

/// Whether times can be written in a unit, if one is asked for: only the header of a pcap file has one.
pub fn can_have_unit(unit: Option<Unit>, to: Option<Format>) -> bool
    ensures { result ≡ can_have_unit unit to }
{
    match to {
        Some(Format::Pcap) => true,
        Some(Format::Pcapng) => unit.is_none(),
        None => unit.is_none(),
    }
}

/// Whether the lines of a file can be verified, if that is asked for: with another list, or with names asked for, they
/// can't.
pub fn can_verify(verify: Option<&str>, list: Option<&str>, names: bool) -> bool
    ensures { result ≡ can_verify (is_some verify.entry) (is_some list.entry) names }
{
    verify.is_none() || list.is_none() && !names
}

// Whether each byte is a decimal digit.
fn are_digits(bytes: &[u8]) -> bool
    ensures { result ≡ list_all is_ascii_digit bytes.now }
{
    bytes.iter().all(|byte| byte.is_ascii_digit())
}

// Whether a text is one decimal digit or more, and nothing else.
fn is_digits(text: &str) -> bool
    ensures { result ≡ is_digits text.now }
{
    !text.is_empty() && are_digits(text.as_bytes())
}

/// The number that a text is in decimal digits alone, before which zeros may stand, if it is at most 4,294,967,295.
pub fn number_of(text: &str) -> Option<u32>
    ensures { result ≡ number_in text.now }
{
    if !is_digits(text) {
        return None;
    }
    match text.parse::<u32>() {
        Ok(number) => Some(number),
        Err(_) => None,
    }
}

// The number that a text is, if it is one from 0 to 262,144.
fn count_of(text: &str) -> Option<u32>
    ensures { result ≡ count_in text.now }
{
    match number_of(text) {
        Some(count) if count <= DATA_LIMIT => Some(count),
        _ => None,
    }
}

/// How many bytes of each packet a text asks for, if one is given: a number from 0 to 262,144 in decimal digits alone,
/// before which zeros may stand. `Line` comes if it isn't one.
pub fn data_of(text: Option<&str>) -> Result<Option<u32>, LineFault>
    ensures { result ≡ data_by (option_map (λ o. o.now) text.entry) }
{
    match text {
        Some(text) => match count_of(text) {
            Some(count) => Ok(Some(count)),
            None => Err(LineFault::Line),
        },
        None => Ok(None),
    }
}

/// How many conversations a text asks for, if one is given: a number from 1 to 4,294,967,295 in decimal digits alone,
/// before which zeros may stand. `Line` comes if it isn't one.
pub fn top_of(text: Option<&str>) -> Result<Option<u32>, LineFault>
    ensures { result ≡ top_by (option_map (λ o. o.now) text.entry) }
{
    match text {
        Some(text) => match number_of(text) {
            Some(most) if most > 0 => Ok(Some(most)),
            _ => Err(LineFault::Line),
        },
        None => Ok(None),
    }
}

/// Whether a task can show what is asked for: JSON Lines if it prints, and a number of bytes of each packet if it
/// prints packets as JSON Lines.
pub fn can_show(task: Task, json: bool, count: Option<u32>) -> bool
    ensures { result ≡ can_show task json count }
{
    match task {
        Task::List | Task::Diff => json || count.is_none(),
        Task::Blocks | Task::Digest | Task::Check | Task::Info | Task::Report => count.is_none(),
        Task::Convert | Task::Merge | Task::Join => !json && count.is_none(),
    }
}

/// Whether a task can read IPv6 packets, if that is asked for: `list` looks into packets only to name their classes. No
/// other task but `report` is asked for it.
pub fn can_read_ipv6(task: Task, class: bool, ipv6: bool) -> bool
    ensures { result ≡ can_read_ipv6 task class ipv6 }
{
    match task {
        Task::List => class || !ipv6,
        Task::Blocks | Task::Diff | Task::Digest | Task::Check | Task::Info | Task::Report => true,
        Task::Convert | Task::Merge | Task::Join => true,
    }
}

/// How many of some files are standard input, `-`.
pub fn standard_inputs(files: &[&str]) -> usize
    ensures { result ≡ count_by (λ f. bytes_eq f (codes "-")) (map (λ f. f.now) files.now) }
{
    files.iter().filter(|file| **file == "-").count()
}

// Whether a file has that name.
fn is_named(name: &str, files: &[&str]) -> bool
    ensures { result ≡ list_any (λ f. bytes_eq f.now name.now) files.now }
{
    files.iter().any(|file| *file == name)
}

/// What is ignored, by the words that name it: `time`, `link` and `original`.
pub fn ignored_of(words: &[&str]) -> Ignored
    ensures { result ≡ ignored_by (map (λ w. w.now) words.now) }
{
    Ignored {
        time: is_named("time", words),
        link: is_named("link", words),
        original: is_named("original", words),
    }
}

// Whether the output is one of the files, and not standard output.
fn is_input(out: Option<&str>, files: &[&str]) -> bool
    ensures { result ≡ is_also_file (option_map (λ o. o.now) out.entry) (map (λ f. f.now) files.now) }
{
    match out {
        Some(out) => {
            if out == "-" {
                false
            } else {
                is_named(out, files)
            }
        }
        None => false,
    }
}

/// How many files a task takes at most: 32, of `digest` and `check` 4,294,967,295.
pub fn files_limit(task: Task) -> usize
    ensures { result ≡ most_files task }
{
    match task {
        Task::Digest | Task::Check => SURVEY_LIMIT,
        Task::List | Task::Blocks | Task::Diff | Task::Info | Task::Report => FILES_LIMIT,
        Task::Convert | Task::Merge | Task::Join => FILES_LIMIT,
    }
}

/// Whether files that are refused can be left out, if that is asked for: standard input, `-`, can't be read twice.
pub fn can_skip(skips: bool, files: &[&str]) -> bool
    ensures { result ≡ can_skip skips (map (λ f. f.now) files.now) }
{
    !(skips && is_named("-", files))
}

/// Tests the files and the output that a task is given. Returns the first of these faults: `Line` if there is no file,
/// `Files` if there are more than the task takes, 32 or of `digest` and `check` 4,294,967,295, `Input` if standard
/// input, `-`, is named twice, `Output` if the output, other than `-`, is one of the files. Texts are compared.
pub fn check_files(task: Task, files: &[&str], out: Option<&str>) -> Result<(), LineFault>
    ensures { result ≡ files_fault task (map (λ f. f.now) files.now) (option_map (λ o. o.now) out.entry) }
{
    if files.is_empty() {
        return Err(LineFault::Line);
    }
    if files.len() > files_limit(task) {
        return Err(LineFault::Files);
    }
    if standard_inputs(files) > 1 {
        return Err(LineFault::Input);
    }
    if is_input(out, files) {
        return Err(LineFault::Output);
    }
    Ok(())
}

/// Whether a task takes any number of files, one after another, and a list of them in place of their names: `Digest`
/// and `Check` do.
pub fn is_surveying(task: Task) -> bool
    ensures { result ≡ is_surveying task }
{
    match task {
        Task::Digest | Task::Check => true,
        Task::List | Task::Blocks | Task::Diff | Task::Info | Task::Report => false,
        Task::Convert | Task::Merge | Task::Join => false,
    }
}

/// Whether a task leaves out the files that are refused, if that is asked for: `Info` and `Report` do.
pub fn is_skipping(task: Task, skips: bool) -> bool
    ensures { result ≡ is_skipping task skips }
{
    match task {
        Task::Info | Task::Report => skips,
        Task::List | Task::Blocks | Task::Diff | Task::Digest | Task::Check => false,
        Task::Convert | Task::Merge | Task::Join => false,
    }
}

/// Tests the files, the list of files and the output that a task is given: without a list as `check_files` does. With a
/// list `Line` comes if there is a file too, or if the task isn't `Digest` or `Check`.
pub fn check_inputs(
    task: Task,
    files: &[&str],
    list: Option<&str>,
    out: Option<&str>,
) -> Result<(), LineFault>
    ensures { result ≡ inputs_fault task (map (λ f. f.now) files.now) (option_map (λ l. l.now) list.entry)
        (option_map (λ o. o.now) out.entry) }
{
    if list.is_none() {
        return check_files(task, files, out);
    }
    if is_surveying(task) && files.is_empty() {
        Ok(())
    } else {
        Err(LineFault::Line)
    }
}
