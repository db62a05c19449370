//! What a terminal shows of names and messages.
use cap_line::{escape, escape_lines};
use cap_tool::{Kind, kind_of};

// Texts, as one line, and as the lines that they have.
const SHOWN: [(&str, &str, &str); 8] = [
    ("a.pcap", "a.pcap", "a.pcap"),
    ("\u{1b}]0;x\u{7}", "\\u{1b}]0;x\\u{7}", "\\u{1b}]0;x\\u{7}"),
    ("a\nb\n", "a\\u{a}b\\u{a}", "a\nb\n"),
    ("a\rb", "a\\u{d}b", "a\\u{d}b"),
    (
        "\u{7f}\u{85}\u{9f}",
        "\\u{7f}\\u{85}\\u{9f}",
        "\\u{7f}\\u{85}\\u{9f}",
    ),
    (
        "a\u{202e}b\u{2069}",
        "a\\u{202e}b\\u{2069}",
        "a\\u{202e}b\\u{2069}",
    ),
    (
        "\u{61c}\u{200e}\u{2028}",
        "\\u{61c}\\u{200e}\\u{2028}",
        "\\u{61c}\\u{200e}\\u{2028}",
    ),
    (
        "\u{e4}\u{20ac}\u{1f40d}",
        "\u{e4}\u{20ac}\u{1f40d}",
        "\u{e4}\u{20ac}\u{1f40d}",
    ),
];

#[test]
fn what_controls_a_terminal_is_told_by_its_code(rt: HostRuntime) {
    for (text, line, lines) in &SHOWN {
        let one = escape(rt.alloc(), text).expect(&rt, "memory");
        assert_eq!(rt; one.as_str(), *line);
        let several = escape_lines(rt.alloc(), text).expect(&rt, "memory");
        assert_eq!(rt; several.as_str(), *lines);
    }
}

// The first four bytes of files, and what they are.
const KINDS: [([u8; 4], Kind); 14] = [
    ([0xd4, 0xc3, 0xb2, 0xa1], Kind::Pcap),
    ([0xa1, 0xb2, 0xc3, 0xd4], Kind::Pcap),
    ([0x4d, 0x3c, 0xb2, 0xa1], Kind::Pcap),
    ([0xa1, 0xb2, 0x3c, 0x4d], Kind::Pcap),
    ([0x34, 0xcd, 0xb2, 0xa1], Kind::ModifiedPcap),
    ([0xa1, 0xb2, 0xcd, 0x34], Kind::ModifiedPcap),
    ([0x1f, 0x8b, 0x08, 0x00], Kind::Gzip),
    ([0x28, 0xb5, 0x2f, 0xfd], Kind::Zstd),
    ([0xfd, b'7', b'z', b'X'], Kind::Xz),
    ([0x04, 0x22, 0x4d, 0x18], Kind::Lz4),
    (*b"BZh9", Kind::Bzip2),
    ([0x0a, 0x0d, 0x0d, 0x0a], Kind::Other),
    ([0x1f, 0x8a, 0x08, 0x00], Kind::Other),
    ([0, 0, 0, 0], Kind::Other),
];

#[test]
fn a_file_is_known_by_its_first_bytes(rt: HostRuntime) {
    for (first, kind) in &KINDS {
        assert_eq!(rt; kind_of(u32::from_be_bytes(*first)), *kind);
    }
}
