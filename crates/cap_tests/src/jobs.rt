//! Jobs: the names of their parts, what a task takes, the files that are named.
use crate::checks::same;
use cap_bytes::Order;
use cap_line::{
    Ignored, LineFault, Task, can_have_unit, can_read_ipv6, can_replace, can_share, can_show,
    can_skip, can_verify, check_files, check_inputs, data_of, files_limit, format_of, ignored_of,
    is_skipping, is_surveying, is_whole, number_of, order_of, standard_inputs, task_of, time_of,
    top_of, unescape, unit_of,
};
use cap_print::TimeForm;
use cap_source::Format;
use cap_time::Unit;

const TASKS: [(&str, Option<Task>); 13] = [
    ("list", Some(Task::List)),
    ("blocks", Some(Task::Blocks)),
    ("diff", Some(Task::Diff)),
    ("digest", Some(Task::Digest)),
    ("check", Some(Task::Check)),
    ("info", Some(Task::Info)),
    ("report", Some(Task::Report)),
    ("convert", Some(Task::Convert)),
    ("merge", Some(Task::Merge)),
    ("join", Some(Task::Join)),
    ("List", None),
    ("lis", None),
    ("", None),
];

const ORDERS: [(Option<&str>, Order); 4] = [
    (Some("big"), Order::Big),
    (Some("little"), Order::Little),
    (Some("Big"), Order::Little),
    (None, Order::Little),
];

const FORMATS: [(Option<&str>, Option<Format>); 4] = [
    (Some("pcap"), Some(Format::Pcap)),
    (Some("pcapng"), Some(Format::Pcapng)),
    (Some("tar"), None),
    (None, None),
];

const UNITS: [(Option<&str>, Option<Unit>); 5] = [
    (Some("micro"), Some(Unit::Micro)),
    (Some("nano"), Some(Unit::Nano)),
    (Some("milli"), None),
    (Some("Nano"), None),
    (None, None),
];

// Tasks with a number of files, a format and an output, and whether that is all that they take.
const WHOLE: [(Task, usize, Option<Format>, Option<&str>, bool); 19] = [
    (Task::List, 1, None, None, true),
    (Task::List, 2, None, None, false),
    (Task::Blocks, 1, None, None, true),
    (Task::Blocks, 2, None, None, false),
    (Task::Diff, 1, None, None, false),
    (Task::Diff, 2, None, None, true),
    (Task::Diff, 3, None, None, false),
    (Task::Digest, 32, None, None, true),
    (Task::Check, 1, None, None, true),
    (Task::Check, 33, None, None, true),
    (Task::Check, 4_294_967_295, None, None, true),
    (Task::Info, 32, None, None, true),
    (Task::Report, 2, None, None, true),
    (Task::Convert, 1, Some(Format::Pcap), Some("-"), true),
    (Task::Convert, 1, None, Some("-"), false),
    (Task::Convert, 1, Some(Format::Pcap), None, false),
    (Task::Convert, 2, Some(Format::Pcap), Some("-"), false),
    (Task::Merge, 2, None, Some("c"), true),
    (Task::Join, 2, None, None, false),
];

#[test]
fn names_are_of_tasks(rt: HostRuntime) {
    for (name, task) in &TASKS {
        same!(&rt; task_of(*name), *task, *name);
    }
}

#[test]
fn names_are_of_orders(rt: HostRuntime) {
    for (name, order) in &ORDERS {
        same!(&rt; order_of(*name), *order, *name);
    }
}

#[test]
fn names_are_of_formats(rt: HostRuntime) {
    for (name, format) in &FORMATS {
        same!(&rt; format_of(*name), *format, *name);
    }
}

const FORMS_OF_TIMES: [(Option<&str>, TimeForm); 6] = [
    (Some("exact"), TimeForm::Exact),
    (Some("decimal"), TimeForm::Decimal),
    (Some("utc"), TimeForm::Utc),
    (Some("UTC"), TimeForm::Exact),
    (Some(""), TimeForm::Exact),
    (None, TimeForm::Exact),
];

#[test]
fn names_are_of_forms_of_times(rt: HostRuntime) {
    for (name, form) in &FORMS_OF_TIMES {
        same!(&rt; time_of(*name), *form, *name);
    }
}

#[test]
fn names_are_of_units(rt: HostRuntime) {
    for (name, unit) in &UNITS {
        same!(&rt; unit_of(*name), *unit, *name);
    }
}

#[test]
fn a_task_has_what_it_takes(rt: HostRuntime) {
    for (task, files, to, out, whole) in &WHOLE {
        same!(&rt; is_whole(*task, *files, *to, *out), *whole, *task);
    }
}

// Whether the output takes its name once all is done, the output, and whether it can.
const REPLACED: [(bool, Option<&str>, bool); 5] = [
    (true, Some("b"), true),
    (true, Some("-"), false),
    (false, Some("-"), true),
    (true, None, true),
    (false, None, true),
];

#[test]
fn standard_output_takes_no_name(rt: HostRuntime) {
    for (whole, out, can) in &REPLACED {
        same!(&rt; can_replace(*whole, *out), *can, *out);
    }
}

// Whether interfaces are shared, the format that is asked for, and whether they can be.
const SHARED: [(bool, Option<Format>, bool); 5] = [
    (true, None, true),
    (true, Some(Format::Pcapng), true),
    (true, Some(Format::Pcap), false),
    (false, Some(Format::Pcap), true),
    (false, None, true),
];

// The unit and the format that are asked for, and whether times can be written so.
const IN_UNITS: [(Option<Unit>, Option<Format>, bool); 6] = [
    (Some(Unit::Nano), Some(Format::Pcap), true),
    (Some(Unit::Micro), Some(Format::Pcapng), false),
    (Some(Unit::Micro), None, false),
    (None, Some(Format::Pcap), true),
    (None, Some(Format::Pcapng), true),
    (None, None, true),
];

#[test]
fn only_a_pcap_file_has_a_unit(rt: HostRuntime) {
    for (unit, to, can) in &IN_UNITS {
        same!(&rt; can_have_unit(*unit, *to), *can, *to);
    }
}

#[test]
fn a_pcap_file_shares_no_interfaces(rt: HostRuntime) {
    for (shares, to, can) in &SHARED {
        same!(&rt; can_share(*shares, *to), *can, *to);
    }
}

// Texts of how many bytes are shown, and what is read of them.
const COUNTS: [(Option<&str>, Result<Option<u32>, LineFault>); 12] = [
    (None, Ok(None)),
    (Some("0"), Ok(Some(0))),
    (Some("16"), Ok(Some(16))),
    (Some("0016"), Ok(Some(16))),
    (Some("262144"), Ok(Some(262_144))),
    (Some("262145"), Err(LineFault::Line)),
    (Some("99999999999999999999"), Err(LineFault::Line)),
    (Some(""), Err(LineFault::Line)),
    (Some("+16"), Err(LineFault::Line)),
    (Some("-0"), Err(LineFault::Line)),
    (Some(" 16"), Err(LineFault::Line)),
    (Some("1e3"), Err(LineFault::Line)),
];

#[test]
fn bytes_shown_are_a_number(rt: HostRuntime) {
    for (text, count) in &COUNTS {
        same!(&rt; data_of(*text), *count, *text);
    }
}

// Texts of how many conversations are shown, and what is read of them.
const TOPS: [(Option<&str>, Result<Option<u32>, LineFault>); 7] = [
    (None, Ok(None)),
    (Some("1"), Ok(Some(1))),
    (Some("007"), Ok(Some(7))),
    (Some("4294967295"), Ok(Some(4_294_967_295))),
    (Some("4294967296"), Err(LineFault::Line)),
    (Some("00"), Err(LineFault::Line)),
    (Some("+1"), Err(LineFault::Line)),
];

#[test]
fn conversations_shown_are_a_number(rt: HostRuntime) {
    for (text, most) in &TOPS {
        same!(&rt; top_of(*text), *most, *text);
    }
}

// Texts, and the numbers that they are.
const NUMBERS: [(&str, Option<u32>); 7] = [
    ("7", Some(7)),
    ("007", Some(7)),
    ("4294967295", Some(4_294_967_295)),
    ("4294967296", None),
    ("", None),
    ("+7", None),
    ("7 ", None),
];

#[test]
fn numbers_are_digits_alone(rt: HostRuntime) {
    for (text, number) in &NUMBERS {
        same!(&rt; number_of(text), *number, *text);
    }
}

// Whether lines are verified, a list and names are asked for, and whether that can be.
const VERIFIED: [(Option<&str>, Option<&str>, bool, bool); 6] = [
    (None, None, false, true),
    (None, Some("b"), true, true),
    (Some("a"), None, false, true),
    (Some("a"), None, true, false),
    (Some("a"), Some("b"), false, false),
    (Some("-"), Some("-"), true, false),
];

#[test]
fn lines_are_verified_alone(rt: HostRuntime) {
    for (verify, list, names, can) in &VERIFIED {
        same!(&rt; can_verify(*verify, *list, *names), *can, *verify);
    }
}

// Texts that a terminal shows, and the names of which they are shown. Only the code of a hidden character, as it is
// shown, is read back.
const NAMES: [(&str, &str); 8] = [
    ("a name", "a name"),
    ("\\u{1b}two", "\u{1b}two"),
    ("a\\u{202e}\\u{0}b", "a\u{202e}\u{0}b"),
    ("\\u{41}", "\\u{41}"),
    ("\\u{1B}", "\\u{1B}"),
    ("\\u{01b}", "\\u{01b}"),
    ("\\u{1b", "\\u{1b"),
    ("\\\\u{9f}\u{e4}", "\\\u{9f}\u{e4}"),
];

#[test]
fn always_memory_names_are_read_back(rt: HostRuntime) {
    for (text, name) in &NAMES {
        match unescape(rt.alloc(), text) {
            Ok(read) => same!(&rt; read.as_str(), *name),
            Err(fault) => panic!(&rt; "{fault}"),
        }
    }
}

// Words that name what is ignored: times, link types and original lengths.
static IGNORED: [(&[&str], bool, bool, bool); 5] = [
    (&[], false, false, false),
    (&["time"], true, false, false),
    (&["original", "link"], false, true, true),
    (&["time", "time", "link", "original"], true, true, true),
    (&["times", "Link", ""], false, false, false),
];

#[test]
fn what_is_ignored_is_named(rt: HostRuntime) {
    for (words, time, link, original) in &IGNORED {
        let ignored = Ignored {
            time: *time,
            link: *link,
            original: *original,
        };
        same!(&rt; ignored_of(words), ignored, *words);
    }
}

// Tasks, whether JSON Lines are asked for, how many bytes, and whether the task can show that.
const SHOWN: [(Task, bool, Option<u32>, bool); 18] = [
    (Task::List, false, None, true),
    (Task::List, true, None, true),
    (Task::List, true, Some(0), true),
    (Task::List, false, Some(16), false),
    (Task::Blocks, true, None, true),
    (Task::Blocks, true, Some(16), false),
    (Task::Diff, true, None, true),
    (Task::Diff, true, Some(16), true),
    (Task::Diff, false, Some(16), false),
    (Task::Digest, true, None, true),
    (Task::Digest, true, Some(16), false),
    (Task::Check, false, None, true),
    (Task::Check, true, None, true),
    (Task::Check, true, Some(16), false),
    (Task::Info, true, None, true),
    (Task::Report, true, Some(16), false),
    (Task::Merge, false, None, true),
    (Task::Convert, true, None, false),
];

#[test]
fn json_is_of_what_prints(rt: HostRuntime) {
    for (task, json, count, can) in &SHOWN {
        same!(&rt; can_show(*task, *json, *count), *can, *task);
    }
}

// A task, the files and the output that it is given, and what comes of them.
static NAMED: [(Task, &[&str], Option<&str>, Result<(), LineFault>); 19] = [
    (Task::List, &["a"], None, Ok(())),
    (Task::Merge, &["a", "a", "-"], Some("b"), Ok(())),
    (Task::Merge, &["a", "-"], Some("-"), Ok(())),
    (Task::Report, &["a"; 32], None, Ok(())),
    (Task::Digest, &["a"; 32], None, Ok(())),
    (Task::Check, &["a"; 32], None, Ok(())),
    (Task::Check, &["a"; 33], None, Ok(())),
    (Task::Check, &["a"; 1000], None, Ok(())),
    (Task::Merge, &[], Some("b"), Err(LineFault::Line)),
    (Task::Check, &[], None, Err(LineFault::Line)),
    (Task::Merge, &["-"; 33], Some("-"), Err(LineFault::Files)),
    (Task::Report, &["a"; 33], None, Err(LineFault::Files)),
    (Task::Info, &["a"; 33], None, Err(LineFault::Files)),
    (Task::Digest, &["a"; 33], None, Ok(())),
    (Task::Check, &["-"; 33], None, Err(LineFault::Input)),
    (
        Task::Join,
        &["a", "-", "-"],
        Some("a"),
        Err(LineFault::Input),
    ),
    (
        Task::Convert,
        &["a", "b"],
        Some("b"),
        Err(LineFault::Output),
    ),
    (Task::Merge, &["a", "b"], Some("./b"), Ok(())),
    (Task::Merge, &["a", "b"], Some("B"), Ok(())),
];

#[test]
fn files_that_are_named_are_tested_in_order(rt: HostRuntime) {
    for (task, files, out, answer) in &NAMED {
        same!(&rt; check_files(*task, *files, *out), *answer, *files);
    }
}

// A task, the files, the list of files and the output that it is given, and what comes of them.
type ListedRow = (
    Task,
    &'static [&'static str],
    Option<&'static str>,
    Option<&'static str>,
    Result<(), LineFault>,
);

static LISTED: [ListedRow; 8] = [
    (Task::Check, &[], Some("list"), None, Ok(())),
    (Task::Digest, &[], Some("-"), None, Ok(())),
    (
        Task::Check,
        &["a"],
        Some("list"),
        None,
        Err(LineFault::Line),
    ),
    (Task::Report, &[], Some("list"), None, Err(LineFault::Line)),
    (Task::Check, &[], None, None, Err(LineFault::Line)),
    (Task::Digest, &["a", "b"], None, None, Ok(())),
    (Task::Check, &["-", "-"], None, None, Err(LineFault::Input)),
    (
        Task::Merge,
        &["a", "b"],
        None,
        Some("b"),
        Err(LineFault::Output),
    ),
];

#[test]
fn a_list_stands_in_place_of_files(rt: HostRuntime) {
    for (task, files, list, out, answer) in &LISTED {
        same!(&rt; check_inputs(*task, *files, *list, *out), *answer, *task);
    }
}

#[test]
fn digest_and_check_take_any_number_of_files(rt: HostRuntime) {
    same!(&rt; files_limit(Task::Check), 4_294_967_295, "check");
    same!(&rt; files_limit(Task::Digest), 4_294_967_295, "digest");
    same!(&rt; files_limit(Task::Report), 32, "report");
    for (name, task) in &TASKS {
        if let Some(task) = task {
            same!(&rt; is_surveying(*task), *name == "digest" || *name == "check", *name);
        }
    }
    same!(&rt; standard_inputs(&["-", "a", "./-", "-"]), 2, "dashes");
}

// Which tasks can read IPv6 packets: `list` where it says the class of each.
#[test]
fn list_reads_ipv6_for_its_classes(rt: HostRuntime) {
    for (name, task) in &TASKS {
        if let Some(task) = task {
            same!(&rt; can_read_ipv6(*task, false, true), *name != "list", *name);
            same!(&rt; can_read_ipv6(*task, true, true), true, *name);
            same!(&rt; can_read_ipv6(*task, false, false), true, *name);
        }
    }
}

// Which tasks leave out files that are refused, if that is asked for; standard input can't be read twice.
#[test]
fn info_and_report_leave_files_out(rt: HostRuntime) {
    for (name, task) in &TASKS {
        if let Some(task) = task {
            same!(&rt; is_skipping(*task, true), *name == "info" || *name == "report", *name);
            same!(&rt; is_skipping(*task, false), false, *name);
        }
    }
    same!(&rt; (can_skip(true, &["a", "./-"]), can_skip(true, &["a", "-"])), (true, false));
    same!(&rt; can_skip(false, &["-"]), true);
}
