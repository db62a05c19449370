//! Lines of numbers and times.
use crate::checks::same;
use cap_print::{Form, Line, TimeForm, address_law, prepend_escaped};
use cap_time::{Interface, Resolution, Stamp};
use std::process::Abort;

#[test]
fn a_line_of_numbers(rt: HostRuntime) {
    let mut line = Line::new();
    line.prepend_text(b"\n");
    line.prepend_hex(b" data ", &[0x0a, 0xff]);
    line.prepend_integer(b" bytes ", 18_446_744_073_709_551_616u128);
    line.prepend_field(b"packets ", 3);
    same!(&rt;
        line.as_slice(),
        b"packets 3 bytes 18446744073709551616 data 0aff\n".as_slice()
    );
    line.clear();
    line.prepend_field(b"", u64::MAX);
    same!(&rt; line.as_slice(), b"18446744073709551615".as_slice());
}

// Puts a line with a fact of each kind.
fn put_facts(line: &mut Line, form: Form) {
    line.clear_to_end(form);
    line.put_flag(form, b"cut", true);
    line.put_flag(form, b"whole", false);
    line.put_group_end(form);
    line.put_number_as(form, b" ", b"bytes", 18_446_744_073_709_551_616u128);
    line.put_number_as(form, b" forward ", b"packets", 3u64);
    line.put_group(form, b"forward");
    line.put_quote(form);
    line.prepend_text(b"10.0.0.1");
    line.put_quote(form);
    line.put_name(form, b" ", b"address");
    line.put_hex(form, b"data", &[0x0a, 0xff]);
    line.put_hex(form, b"none", b"");
    line.put_time(form, b"first", None);
    line.put_coded_as(form, b" ", b"protocol", b"udp", 17u16);
    line.put_word(form, b"name", None);
    line.put_word_as(form, b" ", b"format", Some("pcapng"));
    line.put_number(form, b"link", 1u32);
    line.put_kind(form, b"file");
}

#[test]
fn facts_in_both_forms(rt: HostRuntime) {
    let mut line = Line::end(Form::Json(TimeForm::Exact));
    same!(&rt; line.as_slice(), b"}\n".as_slice());
    put_facts(&mut line, Form::Text(TimeForm::Exact));
    same!(&rt;
        line.as_slice(),
        b"file link 1 pcapng name - udp first - none - data 0aff 10.0.0.1 forward 3 18446744073709551616 cut\n"
            .as_slice()
    );
    put_facts(&mut line, Form::Json(TimeForm::Exact));
    same!(&rt;
        line.as_slice(),
        b"{\"type\":\"file\",\"link\":1,\"format\":\"pcapng\",\"name\":null,\"protocol\":17,\"first\":null,\
\"none\":\"\",\"data\":\"0aff\",\"address\":\"10.0.0.1\",\"forward\":{\"packets\":3,\"bytes\":18446744073709551616},\
\"whole\":false,\"cut\":true}\n"
            .as_slice()
    );
}

#[test]
fn a_text_in_a_string(rt: HostRuntime) {
    let mut line = Line::new();
    prepend_escaped(&mut line, b"a\"b\\\x00\x1f \x7f\xc3\xa9");
    same!(&rt; line.as_slice(), b"a\\\"b\\\\\\u0000\\u001f \x7f\xc3\xa9".as_slice());
}

#[test]
fn times_in_their_own_form(rt: HostRuntime) {
    let mut line = Line::new();
    line.prepend_time(b"first ", None);
    same!(&rt; line.as_slice(), b"first -".as_slice());
    // a resolution's code, an offset, and units
    for (code, offset, units, text) in [
        (6, 0, 2_500_000, b"2+500000/1000000".as_slice()),
        (9, -5, 2_500_000_000, b"-3+500000000/1000000000"),
        (0x8a, 0, 1_536, b"1+512/1024"),
        (0, i64::MAX, u64::MAX, b"27670116110564327422+0/1"),
    ] {
        let interface = Interface {
            link: 1,
            snaplen: 0,
            resolution: Resolution::from_code(code).unwrap(),
            offset,
        };
        line.clear();
        line.prepend_time(b"", Some(Stamp::new(units, &interface)));
        same!(&rt; line.as_slice(), text, units);
    }
}

// An interface's resolution as a code, its offset and units of it; and the time in decimal and in UTC, by Python's
// fractions and dates.
const WORDS: [(u8, i64, u64, &str, &str); 11] = [
    (
        6,
        0,
        2_500_000,
        " t 2.500000",
        " t 1970-01-01T00:00:02.500000Z",
    ),
    (
        6,
        -1,
        500_000,
        " t -0.500000",
        " t 1969-12-31T23:59:59.500000Z",
    ),
    (
        9,
        -5,
        2_500_000_000,
        " t -2.500000000",
        " t 1969-12-31T23:59:57.500000000Z",
    ),
    (
        0x8a,
        0,
        1_536,
        " t 1.5000000000",
        " t 1970-01-01T00:00:01.5000000000Z",
    ),
    (
        0xbf,
        0,
        1,
        " t 0.000000000000000000108420217248550443400745280086994171142578125",
        " t 1970-01-01T00:00:00.000000000000000000108420217248550443400745280086994171142578125Z",
    ),
    (
        3,
        951_825_600,
        0,
        " t 951825600.000",
        " t 2000-02-29T12:00:00.000Z",
    ),
    (
        6,
        253_402_300_799,
        999_999,
        " t 253402300799.999999",
        " t 9999-12-31T23:59:59.999999Z",
    ),
    (
        6,
        253_402_300_800,
        0,
        " t 253402300800.000000",
        " t 253402300800.000000",
    ),
    (
        0,
        -62_167_219_200,
        0,
        " t -62167219200",
        " t 0000-01-01T00:00:00Z",
    ),
    (0, -62_167_219_201, 0, " t -62167219201", " t -62167219201"),
    (
        0,
        i64::MAX,
        u64::MAX,
        " t 27670116110564327422",
        " t 27670116110564327422",
    ),
];

// That a time is put so in a form.
fn puts_time(rt: &impl Abort, form: Form, time: Option<Stamp>, text: &str) {
    let mut line = Line::new();
    line.put_time(form, b"t", time);
    same!(rt; line.as_slice(), text.as_bytes());
}

#[test]
fn times_as_one_word(rt: HostRuntime) {
    for &(code, offset, units, decimal, utc) in &WORDS {
        let interface = Interface {
            link: 1,
            snaplen: 0,
            resolution: Resolution::from_code(code).expect(&rt, "an allowed code"),
            offset,
        };
        let time = Some(Stamp::new(units, &interface));
        puts_time(&rt, Form::Text(TimeForm::Decimal), time, decimal);
        puts_time(&rt, Form::Text(TimeForm::Utc), time, utc);
    }
}

#[test]
fn times_as_one_word_in_json(rt: HostRuntime) {
    let interface = Interface {
        link: 1,
        snaplen: 0,
        resolution: Resolution::from_code(6).expect(&rt, "an allowed code"),
        offset: -1,
    };
    let time = Some(Stamp::new(500_000, &interface));
    let utc = ",\"t\":\"1969-12-31T23:59:59.500000Z\"";
    puts_time(
        &rt,
        Form::Json(TimeForm::Decimal),
        time,
        ",\"t\":\"-0.500000\"",
    );
    puts_time(&rt, Form::Json(TimeForm::Utc), time, utc);
    puts_time(
        &rt,
        Form::Json(TimeForm::Exact),
        time,
        ",\"t\":[-1,500000,1000000]",
    );
    puts_time(&rt, Form::Json(TimeForm::Utc), None, ",\"t\":null");
    puts_time(&rt, Form::Text(TimeForm::Decimal), None, " t -");
}

// Addresses and their texts (RFC 5952, 1 to 4).
const ADDRESSES: [(u128, &[u8]); 14] = [
    (0, b"::"),
    (1, b"::1"),
    (0x0001 << 112, b"1::"),
    (0x2001_0db8_0000_0000_0000_0000_0000_0001, b"2001:db8::1"),
    (
        0x2001_0db8_0000_0001_0001_0001_0001_0001,
        b"2001:db8:0:1:1:1:1:1",
    ),
    (
        0x2001_0db8_0000_0000_0001_0000_0000_0001,
        b"2001:db8::1:0:0:1",
    ),
    (0x2001_0000_0000_0001_0000_0000_0000_0001, b"2001:0:0:1::1"),
    (
        0x2001_0db8_aaaa_bbbb_cccc_dddd_eeee_0001,
        b"2001:db8:aaaa:bbbb:cccc:dddd:eeee:1",
    ),
    (
        0x0000_0000_0000_0000_0000_ffff_c000_0201,
        b"::ffff:c000:201",
    ),
    (0xfe80_0000_0000_0000_0000_0000_0000_0abc, b"fe80::abc"),
    (0x0000_0001_0000_0000_0000_0000_0000_0000, b"0:1::"),
    (
        0x0001_0000_0002_0003_0004_0005_0006_0000,
        b"1:0:2:3:4:5:6:0",
    ),
    (0x0001_0000_0000_0003_0000_0000_0006_0007, b"1::3:0:0:6:7"),
    (u128::MAX, b"ffff:ffff:ffff:ffff:ffff:ffff:ffff:ffff"),
];

#[test]
fn addresses_of_ipv6(rt: HostRuntime) {
    address_law();
    let mut line = Line::new();
    for &(address, text) in &ADDRESSES {
        line.clear();
        line.prepend_ipv6(address);
        same!(&rt; line.as_slice(), text);
    }
}
