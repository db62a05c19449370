//! What the words of the command line ask for.
ghost use Rattle.std.specs.Prelude.{◌≡◌, ◌≢◌, ◌≤◌, ◌⊎◌, ◌++◌, All, chars, string_bytes, IfSome, IsSome, ◌↔◌, map};
ghost use Rattle.std.specs.Prelude.{codes};
ghost use Rattle.std.specs.Prelude.{option_map, IsTrue, IfErr, IfOk, OnOk, Some};
ghost use Rattle.clap.specs.Values.{kind_of};
ghost use Rattle.clap.specs.Words.{first_of, rows_of, found_of, subcommand_rows_of};
ghost use Rattle.cap_line.specs.Jobs.{IsShownJob, IsWholeJob, can_read_ipv6, can_show, ignored_by, inputs_fault};
ghost use Rattle.cap_line.specs.CommandLine.{fault_by, files_in, names_in, IsJobBy, IsJobOf, IsNoJob, IsRefused};
ghost use Rattle.cap_line.specs.CommandLine.{CannotVerify, IsUnshown, Parses, data_in, names_file_in, out_in, top_in};
ghost use Rattle.cap_line.specs.Shown.{IsSeenOrLine};

use crate::command::capt;
use crate::faults::LineFault;
use crate::jobs::{
    Ignored, Job, NOTHING_IGNORED, Task, can_have_unit, can_read_ipv6, can_replace, can_share,
    can_show, can_skip, can_verify, check_inputs, data_of, format_of, ignored_of, is_whole,
    order_of, task_of, time_of, top_of, unit_of,
};
use crate::shown::{escape, escape_lines};
use crate::usage::{
    DATA_ALONE, DATA_NUMBER, FILES_BESIDE_LIST, FILES_BESIDE_VERIFY, IPV6_ALONE,
    LIST_BESIDE_VERIFY, NAMES_BESIDE_VERIFY, NO_FILES, SHARE_PCAP, TALKS_TIP, TOP_NUMBER,
    UNIT_PCAPNG, WHOLE_DASH, WRITE_TIP,
};
use clap::error::ErrorKind;
use clap::{ArgMatches, Error};
use std::alloc::{AllocError, Global};
use std::convert::AsStr;

// What clap's error is to the user.
fn fault_by(kind: ErrorKind) -> LineFault
    ensures { result ≡ fault_by kind }
{
    match kind {
        ErrorKind::DisplayHelp | ErrorKind::DisplayVersion => LineFault::Help,
        ErrorKind::OutOfMemory => LineFault::Memory,
        _ => LineFault::Line,
    }
}

// The words, each as a terminal shows it.
fn escape_words<S: AsStr>(alloc: Global, words: &[S]) -> Result<Vec<String>, AllocError> {
    let mut shown = Vec::new(alloc);
    for word in words.iter() {
        shown.push(escape(alloc, word.as_str())?)?;
    }
    Ok(shown)
}

// What clap says of words that it refuses.
fn refusal_of<S: AsStr>(alloc: Global, words: &[S]) -> Option<String> {
    let error = capt(alloc).ok()?.try_get_matches_from(words).err()?;
    format!(in alloc; "{error}").ok()
}

// Whether a word names what other programs call their list of conversations.
fn is_talks(word: &str) -> bool {
    word == "talks" || word == "conversations"
}

// What words are here that other programs take: the name of a command, or of the option for an output.
fn tip_of<S: AsStr>(words: &[S]) -> Option<&'static str> {
    if is_talks(words.get(1)?.as_str()) {
        return Some(TALKS_TIP);
    }
    for word in words.iter() {
        if word.as_str() == "-w" {
            return Some(WRITE_TIP);
        }
    }
    None
}

// The text of clap's error of that kind at those words, and a tip, if it refuses words that other programs take.
fn with_tip<S: AsStr>(text: String, kind: ErrorKind, words: &[S]) -> Option<String> {
    let mut text = text;
    if fault_by(kind) == LineFault::Line {
        if let Some(tip) = tip_of(words) {
            text.push_str(tip).ok()?;
        }
    }
    Some(text)
}

// The text of clap's error at those words, unless memory ran out. The words are named as a terminal shows them.
fn said_by<S: AsStr>(alloc: Global, error: Error, words: &[S]) -> Option<String>
    ensures kind { IsSome result → kind_of error ≢ ErrorKind.OutOfMemory }
    ensures seen { IfSome result (λ text. All IsSeenOrLine (chars (string_bytes text))) }
{
    if error.kind() == ErrorKind::OutOfMemory {
        return None;
    }
    let shown = escape_words(alloc, words).ok()?;
    let text = match refusal_of(alloc, shown.as_slice()) {
        Some(text) => text,
        None => format!(in alloc; "{error}").ok()?,
    };
    let text = with_tip(text, error.kind(), words)?;
    escape_lines(alloc, text.as_str()).ok()
}

// What is wrong with a line that clap takes and that gives no job, by the matches of its subcommand: the text of
// `--data` is no number, or is one without `--json`; that of `--top` is no number; a pcap file is to share interfaces;
// a pcapng file is to have a unit; standard output can't take its name once all is done; `--ipv6` is without `--class`;
// `--verify` has beside it what it can't have; there are files beside a list of them; or there is neither.
fn line_text(matches: &ArgMatches<'_>) -> &'static str {
    if let Some(text) = text_of(matches, "data") {
        return if data_of(Some(text)).is_ok() {
            DATA_ALONE
        } else {
            DATA_NUMBER
        };
    }
    if top_of(text_of(matches, "top")).is_err() {
        return TOP_NUMBER;
    }
    let to = format_of(text_of(matches, "to"));
    if !can_share(is_set(text_of(matches, "share-interfaces")), to) {
        return SHARE_PCAP;
    }
    if !can_have_unit(unit_of(text_of(matches, "unit")), to) {
        return UNIT_PCAPNG;
    }
    if is_set(text_of(matches, "whole")) {
        return WHOLE_DASH;
    }
    if is_set(text_of(matches, "ipv6")) {
        return IPV6_ALONE;
    }
    match (text_of(matches, "verify"), text_of(matches, "files0-from")) {
        (Some(_), Some(_)) => LIST_BESIDE_VERIFY,
        (Some(_), None) => {
            if is_set(text_of(matches, "names")) {
                NAMES_BESIDE_VERIFY
            } else {
                FILES_BESIDE_VERIFY
            }
        }
        (None, Some(_)) => FILES_BESIDE_LIST,
        (None, None) => NO_FILES,
    }
}

// What is said of words that clap takes and that give no job.
fn said_of_line(alloc: Global, fault: LineFault, matches: &ArgMatches<'_>) -> Option<String>
    ensures line { IsSome result → fault ≡ LineFault.Line }
    ensures seen { IfSome result (λ text. All IsSeenOrLine (chars (string_bytes text))) }
{
    match fault {
        LineFault::Line => {
            let (_, inner) = matches.subcommand()?;
            escape_lines(alloc, line_text(inner)).ok()
        }
        _ => None,
    }
}

// Adds the files that an argument names.
fn add_named<'a>(
    files: &mut Vec<&'a str>,
    matches: &ArgMatches<'a>,
    name: &str,
) -> Result<(), AllocError>
    ensures { OnOk result (map (λ f. f.now) files.new.items
        ≡ map (λ f. f.now) files.old.items ++ names_in name.now (rows_of (found_of matches.now))) }
{
    match matches.get_strs(name) {
        Some(named) => files.extend_from_slice(named),
        None => Ok(()),
    }
}

// The files that a subcommand names.
fn files_named<'a>(alloc: Global, matches: &ArgMatches<'a>) -> Result<Vec<&'a str>, AllocError>
    ensures { IfOk result (λ v. map (λ f. f.now) v.items ≡ files_in (rows_of (found_of matches.now))) }
{
    let mut files = Vec::new(alloc);
    add_named(&mut files, matches, "FILE")?;
    add_named(&mut files, matches, "A")?;
    add_named(&mut files, matches, "B")?;
    Ok(files)
}

// The first value of an argument.
#[tactic(auto, using(crate::proofs::Rows::first_value_is))]
fn text_of<'a>(matches: &ArgMatches<'a>, id: &str) -> Option<&'a str>
    ensures { option_map (λ s. s.now) result ≡ first_of id.now (rows_of (found_of matches.now)) }
{
    matches.get_str(id)
}

// What is ignored of packets that are compared.
fn ignored_in(matches: &ArgMatches<'_>) -> Ignored
    ensures { result ≡ ignored_by (names_in (codes "ignore") (rows_of (found_of matches.now))) }
{
    match matches.get_strs("ignore") {
        Some(words) => ignored_of(words),
        None => NOTHING_IGNORED,
    }
}

// Whether a flag was given.
fn is_set(flag: Option<&str>) -> bool
    ensures { IsTrue result ↔ (option_map (λ s. s.now) flag.entry ≡ Some (codes "true")) }
{
    flag == Some("true")
}

// Tests the files that a task is given, by their own names or by a file that has these.
fn check_named(task: Task, files: &[&str], matches: &ArgMatches<'_>) -> Result<(), LineFault>
    ensures taken { OnOk result (inputs_fault task (map (λ f. f.now) files.now)
        (names_file_in (rows_of (found_of matches.now))) (out_in (rows_of (found_of matches.now))) ≡ Ok tt) }
    ensures refused { IfErr result (λ fault.
        ((fault ≡ LineFault.Line) × CannotVerify (rows_of (found_of matches.now)))
        ⊎ (inputs_fault task (map (λ f. f.now) files.now) (names_file_in (rows_of (found_of matches.now)))
        (out_in (rows_of (found_of matches.now))) ≡ Err fault)) }
{
    let list = text_of(matches, "files0-from");
    let verify = text_of(matches, "verify");
    if !can_verify(verify, list, is_set(text_of(matches, "names"))) {
        return Err(LineFault::Line);
    }
    check_inputs(task, files, verify.or(list), text_of(matches, "out"))
}

// How many bytes of a packet and how many conversations are shown, if a task can show them and can read the packets.
fn shown_of(
    task: Task,
    json: bool,
    class: bool,
    ipv6: bool,
    matches: &ArgMatches<'_>,
) -> Result<(Option<u32>, Option<u32>), LineFault>
    ensures shown { IfOk result (λ shown. (data_in (rows_of (found_of matches.now)) ≡ Ok shown.0)
        × (top_in (rows_of (found_of matches.now)) ≡ Ok shown.1) × IsTrue (can_show task json shown.0)
        × IsTrue (can_read_ipv6 task class ipv6) × IfSome shown.0 (λ count. count ≤ 262144)) }
    ensures refused { IfErr result (λ fault. (fault ≡ LineFault.Line)
        × IsUnshown task json class ipv6 (rows_of (found_of matches.now))) }
{
    let data = data_of(text_of(matches, "data"))?;
    let top = top_of(text_of(matches, "top"))?;
    if !can_show(task, json, data) || !can_read_ipv6(task, class, ipv6) {
        return Err(LineFault::Line);
    }
    Ok((data, top))
}

// The job of a subcommand's name and its matches, or what it is refused by.
fn job_of<'a>(alloc: Global, name: &str, matches: &ArgMatches<'a>) -> Result<Job<'a>, LineFault>
    ensures { IsJobBy name.now (rows_of (found_of matches.now)) result }
{
    let Some(task) = task_of(name) else {
        return Err(LineFault::Line);
    };
    let Ok(files) = files_named(alloc, matches) else {
        return Err(LineFault::Memory);
    };
    let out = text_of(matches, "out");
    let to = format_of(text_of(matches, "to"));
    let unit = unit_of(text_of(matches, "unit"));
    let whole = is_set(text_of(matches, "whole"));
    let json = is_set(text_of(matches, "json"));
    let shares = is_set(text_of(matches, "share-interfaces"));
    if !is_whole(task, files.len(), to, out) || !can_replace(whole, out) || !can_share(shares, to) {
        return Err(LineFault::Line);
    }
    if !can_have_unit(unit, to) {
        return Err(LineFault::Line);
    }
    let class = is_set(text_of(matches, "class"));
    let ipv6 = is_set(text_of(matches, "ipv6"));
    let (data, top) = shown_of(task, json, class, ipv6, matches)?;
    check_named(task, files.as_slice(), matches)?;
    let skips = is_set(text_of(matches, "skip-refused"));
    if !can_skip(skips, files.as_slice()) {
        return Err(LineFault::Input);
    }
    Ok(Job {
        task,
        files,
        list: text_of(matches, "files0-from"),
        verify: text_of(matches, "verify"),
        allow_cut: is_set(text_of(matches, "allow-cut")),
        order: order_of(text_of(matches, "order")),
        to,
        unit,
        out,
        explain: is_set(text_of(matches, "explain")),
        whole,
        json,
        data,
        time: time_of(text_of(matches, "time")),
        top,
        ignored: ignored_in(matches),
        class,
        ipv6,
        digests: is_set(text_of(matches, "digest")),
        names: is_set(text_of(matches, "names")),
        shares,
        skips,
    })
}

// The job of the subcommand that was entered.
fn job_entered<'a>(alloc: Global, matches: &ArgMatches<'a>) -> Result<Job<'a>, LineFault>
    ensures { IsJobOf (subcommand_rows_of matches.now) result }
{
    match matches.subcommand() {
        Some((name, inner)) => job_of(alloc, name, inner),
        None => Err(LineFault::Line),
    }
}

/// Reads the words of a command line, the first of which is the program's name. If several faults
/// hold, it is the first of `Help` and `Line`, as clap meets them, `Files`, `Input`, `Output`;
/// `Memory` comes if a growth is refused. A job has 1 file or more, or none and a list of them, at most as many files
/// as its task takes, and all else that its task takes; what it is to show its task can show.
pub fn parse<'a, S: AsStr>(alloc: Global, words: &'a [S]) -> Result<Job<'a>, LineFault>
    ensures parses { Parses (map S.text words.entry.now) result }
    ensures whole { IfOk result IsWholeJob }
    ensures shown { IfOk result IsShownJob }
{
    let Ok(command) = capt(alloc) else {
        return Err(LineFault::Memory);
    };
    match command.try_get_matches_from(words) {
        Ok(matches) => job_entered(alloc, &matches),
        Err(error) => Err(fault_by(error.kind())),
    }
}

/// What is said of words that give no job: help, the version, or a message that names the wrong word, in which what a
/// terminal wouldn't show is shown as its code. Nothing is said of words that give a job or name the wrong files, nor
/// if
/// a growth was refused.
pub fn message<'a, S: AsStr>(alloc: Global, words: &'a [S]) -> Option<String>
    ensures refused { IfSome result (λ text. IsRefused (map S.text words.entry.now)
        ⊎ IsNoJob (map S.text words.entry.now)) }
    ensures seen { IfSome result (λ text. All IsSeenOrLine (chars (string_bytes text))) }
{
    let Ok(command) = capt(alloc) else {
        return None;
    };
    match command.try_get_matches_from(words) {
        Ok(matches) => {
            let fault = job_entered(alloc, &matches).err()?;
            said_of_line(alloc, fault, &matches)
        }
        Err(error) => said_by(alloc, error, words),
    }
}
