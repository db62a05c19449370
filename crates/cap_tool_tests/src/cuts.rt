//! The lines that tell which rests of files were cut, and dropped.

use crate::rooms::room_of;
use cap_bytes::CutRest;
use cap_print::{Form, TimeForm};
use cap_tool::put_cuts;
use std::alloc::Global;
use std::process::Abort;

const PATHS: [&str; 2] = ["a.pcap", "b\"c"];

// The rests of the first file, of the second and of the last of 32: of 1057 bytes, of one byte, and of 2^40 - 1 bytes.
fn cuts() -> [Option<CutRest>; 32] {
    let mut cuts = [None; 32];
    cuts[0] = Some(CutRest {
        offset: 404_865,
        size: 1_057,
    });
    cuts[1] = Some(CutRest {
        offset: 24,
        size: 1,
    });
    cuts[31] = Some(CutRest {
        offset: 0,
        size: 1_099_511_627_775,
    });
    cuts
}

// What is printed of these in a form.
fn tells(rt: &impl Abort, alloc: Global, form: Form, text: &str) {
    let mut writer = room_of(rt, alloc, text.len());
    let answer = put_cuts(&cuts(), form, PATHS.as_slice(), &mut writer);
    assert_eq!(rt; (answer, writer.bytes()), (Ok(()), text.as_bytes()));
}

#[test]
fn rests_are_told(rt: HostRuntime) {
    tells(
        &rt,
        rt.alloc(),
        Form::Text(TimeForm::Exact),
        "cut: file 1 offset 404865, 1057 bytes dropped\n\
            cut: file 2 offset 24, 1 byte dropped\n\
            cut: file 32 offset 0, 1099511627775 bytes dropped\n",
    );
}

#[test]
fn rests_are_objects(rt: HostRuntime) {
    tells(
        &rt,
        rt.alloc(),
        Form::Json(TimeForm::Exact),
        "{\"type\":\"cut\",\"file\":1,\"offset\":404865,\"bytes\":1057,\"path\":\"a.pcap\"}\n\
            {\"type\":\"cut\",\"file\":2,\"offset\":24,\"bytes\":1,\"path\":\"b\\\"c\"}\n\
            {\"type\":\"cut\",\"file\":32,\"offset\":0,\"bytes\":1099511627775}\n",
    );
}

#[test]
fn nothing_is_told_of_whole_files(rt: HostRuntime) {
    let mut writer = room_of(&rt, rt.alloc(), 8);
    let answer = put_cuts(
        &[None; 32],
        Form::Text(TimeForm::Exact),
        PATHS.as_slice(),
        &mut writer,
    );
    assert_eq!(&rt; (answer, writer.bytes()), (Ok(()), b"".as_slice()));
}
