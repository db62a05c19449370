//! The words of a command line, as they are parsed and what is said of them.
use crate::checks::{holds, same};
use cap_bytes::Order;
use cap_line::{Ignored, Job, LineFault, Task, USAGE, message, parse};
use cap_source::Format;
use cap_time::Unit;
use std::process::Abort;

// The job is a conversion of a cut file to big-endian pcap.
fn is_conversion(rt: &impl Abort, job: &Job<'_>) {
    same!(rt; (job.task, job.order, job.to), (Task::Convert, Order::Big, Some(Format::Pcap)));
    same!(rt; job.files.as_slice(), ["a.pcapng"].as_slice());
    same!(rt; (job.out, job.allow_cut), (Some("a.pcap"), true));
    same!(rt; (job.json, job.data), (false, None));
}

// What is read of a line that asks for JSON Lines and some bytes, and what isn't a job of it.
#[test]
fn always_memory_json_is_asked_for(rt: HostRuntime) {
    let words = ["capt", "list", "--json", "--data", "0064", "a.pcap"];
    match parse(rt.alloc(), words.as_slice()) {
        Ok(job) => same!(&rt; (job.json, job.data), (true, Some(64))),
        Err(fault) => panic!(&rt; "{fault}"),
    }
    let alone = ["capt", "list", "--data=64", "a.pcap"];
    same!(&rt; parse(rt.alloc(), alone.as_slice()).err(), Some(LineFault::Line));
    holds!(&rt; message(rt.alloc(), alone.as_slice()).is_some());
    let signed = ["capt", "list", "--json", "--data=+64", "a.pcap"];
    same!(&rt; parse(rt.alloc(), signed.as_slice()).err(), Some(LineFault::Line));
    holds!(&rt; message(rt.alloc(), signed.as_slice()).is_some());
}

// What is read of a line that asks for the conversations with the most bytes, and what isn't a job of it.
#[test]
fn always_memory_conversations_are_asked_for(rt: HostRuntime) {
    let words = ["capt", "report", "--top", "3", "a.pcap"];
    match parse(rt.alloc(), words.as_slice()) {
        Ok(job) => same!(&rt; (job.task, job.top), (Task::Report, Some(3))),
        Err(fault) => panic!(&rt; "{fault}"),
    }
    let none = ["capt", "report", "--top=0", "a.pcap"];
    same!(&rt; parse(rt.alloc(), none.as_slice()).err(), Some(LineFault::Line));
    holds!(&rt; message(rt.alloc(), none.as_slice()).is_some());
}

// What is read of a line that asks to leave out captures that are refused, the same job over other files, and what
// isn't a job of it.
#[test]
fn always_memory_captures_are_left_out(rt: HostRuntime) {
    let words = ["capt", "info", "--skip-refused", "a.pcap", "b.pcap"];
    match parse(rt.alloc(), words.as_slice()) {
        Ok(job) => {
            same!(&rt; (job.task, job.skips), (Task::Info, true));
            let other = job.over(Vec::new(rt.alloc()));
            same!(&rt; (other.task, other.skips, other.files.len()), (Task::Info, false, 0));
        }
        Err(fault) => panic!(&rt; "{fault}"),
    }
    let standard = ["capt", "report", "--skip-refused", "-", "a.pcap"];
    same!(&rt; parse(rt.alloc(), standard.as_slice()).err(), Some(LineFault::Input));
}

// What is read of a line that asks for IPv6, and what isn't a job of it.
#[test]
fn always_memory_ipv6_is_asked_for(rt: HostRuntime) {
    let words = ["capt", "list", "--class", "--ipv6", "a.pcap"];
    match parse(rt.alloc(), words.as_slice()) {
        Ok(job) => same!(&rt; (job.task, job.class, job.ipv6), (Task::List, true, true)),
        Err(fault) => panic!(&rt; "{fault}"),
    }
    let alone = ["capt", "list", "--ipv6", "a.pcap"];
    same!(&rt; parse(rt.alloc(), alone.as_slice()).err(), Some(LineFault::Line));
    holds!(&rt; message(rt.alloc(), alone.as_slice()).is_some());
}

// What is read of a line that asks for a unit, and what isn't a job of it.
#[test]
fn always_memory_a_unit_is_asked_for(rt: HostRuntime) {
    let words = [
        "capt",
        "merge",
        "--to=pcap",
        "--unit",
        "nano",
        "-o",
        "b",
        "a",
    ];
    match parse(rt.alloc(), words.as_slice()) {
        Ok(job) => same!(&rt; (job.to, job.unit), (Some(Format::Pcap), Some(Unit::Nano))),
        Err(fault) => panic!(&rt; "{fault}"),
    }
    let pcapng = ["capt", "merge", "--unit=nano", "-o", "b", "a"];
    same!(&rt; parse(rt.alloc(), pcapng.as_slice()).err(), Some(LineFault::Line));
    holds!(&rt; message(rt.alloc(), pcapng.as_slice()).is_some());
}

// Two captures are compared, in the order in which they are named, and no other number of them.
#[test]
fn always_memory_two_captures_are_compared(rt: HostRuntime) {
    let words = ["capt", "diff", "a.pcap", "--json", "b.pcap"];
    match parse(rt.alloc(), words.as_slice()) {
        Ok(job) => {
            same!(&rt; (job.task, job.json), (Task::Diff, true));
            same!(&rt; job.files.as_slice(), ["a.pcap", "b.pcap"].as_slice());
        }
        Err(fault) => panic!(&rt; "{fault}"),
    }
    let one = ["capt", "diff", "a.pcap"];
    same!(&rt; parse(rt.alloc(), one.as_slice()).err(), Some(LineFault::Line));
    let three = ["capt", "diff", "a.pcap", "b.pcap", "c.pcap"];
    same!(&rt; parse(rt.alloc(), three.as_slice()).err(), Some(LineFault::Line));
    let standard = ["capt", "diff", "-", "-"];
    same!(&rt; parse(rt.alloc(), standard.as_slice()).err(), Some(LineFault::Input));
}

// What is ignored is named word by word, by no other word.
#[test]
fn always_memory_differences_are_ignored(rt: HostRuntime) {
    let words = [
        "capt",
        "diff",
        "--ignore",
        "time",
        "a.pcap",
        "--ignore=link",
        "b.pcap",
    ];
    let ignored = Ignored {
        time: true,
        link: true,
        original: false,
    };
    match parse(rt.alloc(), words.as_slice()) {
        Ok(job) => same!(&rt; job.ignored, ignored),
        Err(fault) => panic!(&rt; "{fault}"),
    }
    let other = ["capt", "diff", "--ignore=data", "a.pcap", "b.pcap"];
    same!(&rt; parse(rt.alloc(), other.as_slice()).err(), Some(LineFault::Line));
}

#[test]
fn always_memory_words_are_a_job(rt: HostRuntime) {
    let words = [
        "capt",
        "convert",
        "--allow-cut",
        "--order",
        "big",
        "--to",
        "pcap",
        "-o",
        "a.pcap",
        "a.pcapng",
    ];
    match parse(rt.alloc(), words.as_slice()) {
        Ok(job) => is_conversion(&rt, &job),
        Err(fault) => panic!(&rt; "{fault}"),
    }
    same!(&rt; parse(rt.alloc(), ["capt", "convert"].as_slice()).err(), Some(LineFault::Line));
}

#[test]
fn always_memory_help_is_the_usage(rt: HostRuntime) {
    let said = message(rt.alloc(), ["capt", "--help"].as_slice());
    holds!(&rt; said.is_some());
    if let Some(text) = said {
        same!(&rt; text.as_str(), USAGE);
    }
    let words = ["capt", "list", "a.pcap"];
    holds!(&rt; message(rt.alloc(), words.as_slice()).is_none());
}
