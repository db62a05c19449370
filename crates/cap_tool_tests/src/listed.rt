//! Captures that a list names.
use cap_line::{LineFault, Task};
use cap_tool::{check_listed, names_and_list, names_in, texts_of};
use std::alloc::Global;
use std::process::Abort;

// A list, and its names one after the other, with `|` behind each.
static LISTS: [(&[u8], &str); 7] = [
    (b"", ""),
    (b"a\0", "a|"),
    (b"a", "a|"),
    (b"a\0b c\0", "a|b c|"),
    (b"\0a\0", "|a|"),
    (b"x\ny\0-", "x\ny|-|"),
    (b"caf\xe9\0a", "caf\u{fffd}\0|a|"),
];

// Some names in one text.
fn joined(rt: &impl Abort, alloc: Global, names: Vec<String>) -> String {
    let texts = texts_of(alloc, names.as_slice()).expect(rt, "memory");
    let mut text = String::new(alloc);
    for name in texts.iter() {
        text.push_str(name).expect(rt, "memory");
        text.push('|').expect(rt, "memory");
    }
    text
}

#[test]
fn a_nul_ends_each_name(rt: HostRuntime) {
    for (list, names) in &LISTS {
        let found = names_in(rt.alloc(), *list).expect(&rt, "memory");
        assert_eq!(&rt; joined(&rt, rt.alloc(), found).as_str(), *names);
    }
}

#[test]
fn a_list_is_named_behind_its_names(rt: HostRuntime) {
    let found = names_and_list(rt.alloc(), b"a\0b\0", "list").expect(&rt, "memory");
    assert_eq!(&rt; joined(&rt, rt.alloc(), found).as_str(), "a|b|list|");
}

// The name of a list, the names that it has, and what comes of them.
static NAMED: [(&str, &[&str], Result<(), LineFault>); 5] = [
    ("list", &[], Ok(())),
    ("list", &["a", "-"], Ok(())),
    ("list", &["-", "a", "-"], Err(LineFault::Input)),
    ("-", &["a", "b"], Ok(())),
    ("-", &["a", "-"], Err(LineFault::Input)),
];

#[test]
fn standard_input_is_read_once(rt: HostRuntime) {
    for (list, names, answer) in &NAMED {
        assert_eq!(&rt; check_listed(Task::Check, *list, *names), *answer);
    }
}

#[test]
fn a_task_reads_only_so_many(rt: HostRuntime) {
    let many = ["a"; 33];
    assert_eq!(&rt; check_listed(Task::Digest, "list", &many), Ok(()));
    assert_eq!(&rt;
        check_listed(Task::Info, "list", &many),
        Err(LineFault::Files)
    );
}
