//! What a command is asked for in numbers.
ghost use Rattle.std.specs.Prelude.{◌≡◌, IfSome, IsTrue};
ghost use Rattle.capt_c.specs.JobOptions.{asked_in, asked_of, data_of, flags_of_task, has_numbers, ignores_any};
ghost use Rattle.capt_c.specs.JobOptions.{is_asked, is_data, job_flags_in, takes_count, takes_flags, takes_own};
ghost use Rattle.capt_c.specs.JobOptions.{takes_times, takes_top, task_of, time_of, top_of, unit_of};

use crate::answers::format_of;
use crate::flags::{CUT_ALONE, CUT_AND_FORM, CUT_AND_IPV6, Flags, flags_in, has_bit, takes_each};
use cap_line::{Ignored, Task, can_have_unit, can_read_ipv6, can_share, can_show};
use cap_print::TimeForm;
use cap_time::Unit;

/// What a command is asked for. All of it is zero if nothing is.
#[repr(C)]
#[derive(Clone, Copy)]
pub struct JobOptions {
    /// The flags.
    pub flags: u32,
    /// How many bytes of a packet are shown at most: 0 for 16, 4,294,967,295 for none.
    pub data: u32,
    /// How many conversations have a line in a report at most: 0 for all.
    pub top: u32,
    /// The form of times: 0 exact, 1 decimal, 2 UTC.
    pub times: u32,
    /// The unit of time of a pcap file: 0 for that of its first interface, 1 microseconds, 2 nanoseconds.
    pub unit: u32,
}

/// The flags of a command.
#[derive(Clone, Copy)]
pub struct JobFlags {
    /// Those that other calls take too.
    pub common: Flags,
    /// JSON Lines are printed.
    pub json: bool,
    /// Each line of `list` says of which class its packet is.
    pub class: bool,
    /// Equal interfaces are one in what `merge` writes.
    pub shares: bool,
    /// Each line of `check` has the digest of its file's packets.
    pub digests: bool,
    /// In what packets may differ that `diff` compares.
    pub ignored: Ignored,
}

/// A command, and what it is asked for.
#[derive(Clone, Copy)]
pub struct Asked {
    /// The command.
    pub task: Task,
    /// Its flags.
    pub flags: JobFlags,
    /// The form of the times that it prints.
    pub times: TimeForm,
    /// How many bytes of a packet it shows at most, if that is asked for.
    pub most: Option<u32>,
    /// How many conversations have a line at most, if that is asked for.
    pub top: Option<u32>,
    /// The unit of time of the pcap file that it writes, if one is asked for.
    pub unit: Option<Unit>,
}

// The command of a number.
fn task_of(number: u32) -> Option<Task>
    ensures { result ≡ task_of number }
{
    match number {
        1 => Some(Task::List),
        2 => Some(Task::Blocks),
        3 => Some(Task::Info),
        4 => Some(Task::Report),
        5 => Some(Task::Convert),
        6 => Some(Task::Merge),
        7 => Some(Task::Join),
        8 => Some(Task::Diff),
        9 => Some(Task::Digest),
        10 => Some(Task::Check),
        _ => None,
    }
}

// The flags that a number has.
fn job_flags_in(number: u32) -> JobFlags
    ensures { result ≡ job_flags_in number }
{
    JobFlags {
        common: flags_in(number),
        json: has_bit(number, 16),
        class: has_bit(number, 32),
        shares: has_bit(number, 64),
        digests: has_bit(number, 128),
        ignored: Ignored {
            time: has_bit(number, 256),
            link: has_bit(number, 512),
            original: has_bit(number, 1024),
        },
    }
}

// The form of times of a number, from 0 to 2.
fn time_of(number: u32) -> TimeForm
    ensures { result ≡ time_of number }
{
    match number {
        1 => TimeForm::Decimal,
        2 => TimeForm::Utc,
        _ => TimeForm::Exact,
    }
}

// The unit of time of a number, from 0 to 2: 0 asks for none.
fn unit_of(number: u32) -> Option<Unit>
    ensures { result ≡ unit_of number }
{
    match number {
        1 => Some(Unit::Micro),
        2 => Some(Unit::Nano),
        _ => None,
    }
}

// How many bytes of a packet a number asks for: 0 asks for no number, and the greatest number for none.
fn data_of(number: u32) -> Option<u32>
    ensures { result ≡ data_of number }
{
    match number {
        0 => None,
        u32::MAX => Some(0),
        number => Some(number),
    }
}

// Whether a number says how many bytes of a packet are shown.
fn is_data(number: u32) -> bool
    ensures { result ≡ is_data number }
{
    number <= 262_144 || number == u32::MAX
}

// How many conversations a number asks for: 0 asks for all.
fn top_of(number: u32) -> Option<u32>
    ensures { result ≡ top_of number }
{
    match number {
        0 => None,
        number => Some(number),
    }
}

// What options ask for.
fn asked_in(task: Task, options: &JobOptions) -> Asked
    ensures { result ≡ asked_in task options.now }
{
    Asked {
        task,
        flags: job_flags_in(options.flags),
        times: time_of(options.times),
        most: data_of(options.data),
        top: top_of(options.top),
        unit: unit_of(options.unit),
    }
}

// The flags of other calls that a command takes.
fn flags_of_task(task: Task) -> Flags
    ensures { result ≡ flags_of_task task }
{
    match task {
        Task::List | Task::Report => CUT_AND_IPV6,
        Task::Convert | Task::Merge | Task::Join => CUT_AND_FORM,
        Task::Blocks | Task::Info | Task::Diff | Task::Digest | Task::Check => CUT_ALONE,
    }
}

// Whether packets that are compared may differ in anything.
fn ignores_any(ignored: Ignored) -> bool
    ensures { result ≡ ignores_any ignored }
{
    ignored.time || ignored.link || ignored.original
}

// Whether a command takes those of its flags that only one command takes.
fn takes_own(task: Task, flags: &JobFlags) -> bool
    ensures { result ≡ takes_own task flags.now }
{
    let ignores = ignores_any(flags.ignored);
    match task {
        Task::List => !flags.shares && !flags.digests && !ignores,
        Task::Merge => !flags.class && !flags.digests && !ignores,
        Task::Check => !flags.class && !flags.shares && !ignores,
        Task::Diff => !flags.class && !flags.shares && !flags.digests,
        _ => !flags.class && !flags.shares && !flags.digests && !ignores,
    }
}

// Whether a command takes its flags.
fn takes_flags(asked: &Asked) -> bool
    ensures { result ≡ takes_flags asked.now }
{
    let flags = &asked.flags;
    takes_each(flags_of_task(asked.task), flags.common)
        && takes_own(asked.task, flags)
        && can_show(asked.task, flags.json, asked.most)
        && can_read_ipv6(asked.task, flags.class, flags.common.ipv6)
}

// Whether a command prints times.
fn takes_times(task: Task) -> bool
    ensures { result ≡ takes_times task }
{
    match task {
        Task::List | Task::Info | Task::Report | Task::Diff | Task::Check => true,
        Task::Blocks | Task::Digest | Task::Convert | Task::Merge | Task::Join => false,
    }
}

// Whether a command prints conversations.
fn takes_top(task: Task) -> bool
    ensures { result ≡ takes_top task }
{
    match task {
        Task::Report => true,
        _ => false,
    }
}

// Whether the options have numbers that a command takes.
fn has_numbers(task: Task, options: &JobOptions) -> bool
    ensures { result ≡ has_numbers task options.now }
{
    options.flags < 2048
        && options.times <= 2
        && options.unit <= 2
        && is_data(options.data)
        && (takes_times(task) || options.times == 0)
        && (takes_top(task) || options.top == 0)
}

// Whether a command takes that many files.
fn takes_count(task: Task, count: usize) -> bool
    ensures { result ≡ takes_count task count }
{
    match task {
        Task::List | Task::Blocks | Task::Convert => count == 1,
        Task::Diff => count == 2,
        _ => 1 <= count && count <= 32,
    }
}

// Whether a command can do what it is asked for with that many files.
fn is_asked(asked: &Asked, count: usize) -> bool
    ensures { result ≡ is_asked asked.now count }
{
    let to = Some(format_of(asked.flags.common.to_pcap));
    takes_count(asked.task, count)
        && can_share(asked.flags.shares, to)
        && can_have_unit(asked.unit, to)
        && takes_flags(asked)
}

/// The command of that number and what it is asked for, if it takes that, and that many files.
pub(crate) fn asked_of(command: u32, options: &JobOptions, count: usize) -> Option<Asked>
    ensures answer { result ≡ asked_of command options.now count }
    ensures asks { IfSome result (λ asked. IsTrue (is_asked asked count)) }
{
    let Some(task) = task_of(command) else {
        return None;
    };
    let asked = asked_in(task, options);
    if has_numbers(task, options) && is_asked(&asked, count) {
        Some(asked)
    } else {
        None
    }
}
