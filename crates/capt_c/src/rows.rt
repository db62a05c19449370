//! What a table has counted, as a caller sees it.
ghost use Rattle.std.specs.Prelude.{◌≡◌, List, Some};
ghost use Rattle.cap_class.specs.Taken.{Taken};
ghost use Rattle.cap_talks.specs.inner.table.Stepping.{TableStands};
ghost use Rattle.cap_talks.specs.inner.table.TableView.{table_of};
ghost use Rattle.cap_talks.specs.table.Units.{version_of};
ghost use Rattle.capt_c.specs.Rows.{ShowsEndpoint, ShowsFile, ShowsTalk, ShowsTotals, ShowsTraffic, address_bytes};
ghost use Rattle.capt_c.specs.Rows.{TellsTable, WritesTold, file_told, format_number, talk_told, told_cut};
ghost use Rattle.capt_c.specs.Rows.{told_format, told_skipped, totals_told};

use crate::answers::{DONE, MISUSE};
use crate::handles::{Handle, HandleValue, with_open};
use crate::times::{CTime, time_shown};
use cap_source::{Ending, Format, PacketFeed};
use cap_talks::{Address, Counted, Counts, Endpoint, Table, TableTotals, TalkKey, TalkRow};
use std::alloc::Global;

/// An end of a conversation.
#[repr(C)]
#[derive(Clone, Copy)]
pub struct CEndpoint {
    /// Its address, the highest byte first: of an IPv4 address four bytes, and twelve zeros after them.
    pub address: [u8; 16],
    /// Its port; 0 if the protocol has none.
    pub port: u16,
    /// The version of its network: 4 or 6.
    pub version: u8,
    /// Whether the protocol has ports.
    pub has_port: bool,
}

/// How many packets there are, and the sum of their original lengths: `bytes + carry * 2^64`.
#[repr(C)]
#[derive(Clone, Copy)]
pub struct CTraffic {
    /// How many packets there are.
    pub packets: u64,
    /// How many bytes they had.
    pub bytes: u64,
    /// How many times 2^64 bytes are to be added.
    pub carry: u64,
}

/// A conversation.
#[repr(C)]
#[derive(Clone, Copy)]
pub struct CTalk {
    /// The lesser of its two ends.
    pub a: CEndpoint,
    /// The other end.
    pub b: CEndpoint,
    /// The number of its protocol.
    pub protocol: u8,
    /// What went from `a` to `b`.
    pub forward: CTraffic,
    /// What went from `b` to `a`.
    pub backward: CTraffic,
    /// The least time of its packets.
    pub first: CTime,
    /// The greatest time of its packets.
    pub last: CTime,
}

/// What is counted of a file.
#[repr(C)]
#[derive(Clone, Copy)]
pub struct CFile {
    /// Its packets.
    pub all: CTraffic,
    /// How many of them had more bytes than were captured.
    pub truncated: u64,
    /// How many of its blocks were skipped.
    pub skipped: u64,
    /// The least time of its packets.
    pub first: CTime,
    /// The greatest time of its packets.
    pub last: CTime,
    /// Its format: 1 for pcap, 2 for pcapng, 0 if that isn't known.
    pub format: u32,
    /// Whether a cut rest of it was dropped.
    pub was_cut: bool,
}

/// What is counted of all packets.
#[repr(C)]
#[derive(Clone, Copy)]
pub struct CTotals {
    /// The packets.
    pub all: CTraffic,
    /// How many of them had more bytes than were captured.
    pub truncated: u64,
    /// How many are of a link type that isn't read.
    pub other_link: u64,
    /// How many are of a network that isn't read.
    pub not_ip: u64,
    /// How many end in their link header.
    pub too_short: u64,
    /// How many end in their network header or in their ports.
    pub cut: u64,
    /// How many have a bad header.
    pub bad: u64,
    /// How many are fragments that weren't joined.
    pub unjoined: u64,
    /// How many are counted in a conversation.
    pub counted: u64,
    /// How many datagrams were joined.
    pub joined: u64,
    /// How many groups of fragments were given up.
    pub given_up: u64,
    /// How many conversations there are.
    pub talks: u64,
    /// How many files there are.
    pub files: u32,
}

// The bytes of an address.
#[tactic(auto, unfolding(cap_bytes::specs::Number::bytes_of))]
fn address_bytes(address: Address) -> [u8; 16]
    ensures { result ≡ address_bytes address }
{
    match address {
        Address::Ipv4(address) => {
            let [a, b, c, d] = address.to_be_bytes();
            [a, b, c, d, 0, 0, 0, 0, 0, 0, 0, 0, 0, 0, 0, 0]
        }
        Address::Ipv6(address) => address.to_be_bytes(),
    }
}

// The version of an address's network.
fn version(address: Address) -> u8
    ensures { result ≡ version_of address }
{
    match address {
        Address::Ipv4(_) => 4,
        Address::Ipv6(_) => 6,
    }
}

// An end of a conversation.
fn endpoint_shown(at: Endpoint) -> CEndpoint
    ensures { ShowsEndpoint at result }
{
    CEndpoint {
        address: address_bytes(at.address),
        port: at.port.unwrap_or(0),
        version: version(at.address),
        has_port: at.port.is_some(),
    }
}

// Some packets, and the sum of their bytes.
fn traffic_shown(packets: u64, bytes: u128) -> CTraffic
    ensures { ShowsTraffic packets bytes result }
{
    CTraffic {
        packets,
        bytes: (bytes % 0x1_0000_0000_0000_0000) as u64,
        carry: (bytes / 0x1_0000_0000_0000_0000) as u64,
    }
}

// A conversation.
fn talk_shown(key: &TalkKey, row: &TalkRow) -> CTalk
    ensures { ShowsTalk (key.now, row.now) result }
{
    CTalk {
        a: endpoint_shown(key.lesser),
        b: endpoint_shown(key.greater),
        protocol: key.protocol,
        forward: traffic_shown(row.forward_frames, row.forward_bytes),
        backward: traffic_shown(row.backward_frames, row.backward_bytes),
        first: time_shown(row.first),
        last: time_shown(row.last),
    }
}

// The number of a format, 0 if it isn't known.
fn format_number(format: Option<Format>) -> u32
    ensures { result ≡ format_number format }
{
    match format {
        None => 0,
        Some(Format::Pcap) => 1,
        Some(Format::Pcapng) => 2,
    }
}

// The number of a file's format, how many of its blocks were skipped, and whether a cut rest of it was dropped.
fn ending_told(counts: &Counts, ending: Option<Ending>) -> (u32, u64, bool)
    ensures format { result.0 ≡ format_number (told_format counts.now ending) }
    ensures skipped { result.1 ≡ told_skipped counts.now ending }
    ensures cut { result.2 ≡ told_cut ending }
{
    match ending {
        None => (format_number(counts.format), counts.skipped, false),
        Some(ending) => (
            format_number(Some(ending.format)),
            ending.skipped,
            ending.cut.is_some(),
        ),
    }
}

// What is counted of a file.
fn file_shown(it: &Counted) -> CFile
    ensures { ShowsFile it.now result }
{
    let counts = &it.counts;
    let (format, skipped, was_cut) = ending_told(counts, it.ending);
    CFile {
        all: traffic_shown(counts.packets, counts.bytes),
        truncated: counts.truncated,
        skipped,
        first: time_shown(counts.first),
        last: time_shown(counts.last),
        format,
        was_cut,
    }
}

// What is counted of all packets, with so many conversations and files.
fn totals_shown(totals: &TableTotals, talks: u64, files: u32) -> CTotals
    ensures { ShowsTotals (record { totals = totals.now; talks = talks; files = files }) result }
{
    let classes = &totals.classes;
    CTotals {
        all: traffic_shown(totals.packets, totals.bytes),
        truncated: totals.truncated,
        other_link: classes.other_link,
        not_ip: classes.not_ipv4,
        too_short: classes.short,
        cut: classes.cut,
        bad: classes.bad,
        unjoined: classes.unjoined,
        counted: classes.counted,
        joined: totals.joined,
        given_up: totals.given_up,
        talks,
        files,
    }
}

// Writes the conversation at a place of a table, if there is one.
fn write_talk<F: PacketFeed>(table: &Table<F>, place: usize, talk: &mut CTalk) -> u32
    ensures { (xs : List Taken) → TableStands (table_of table.now) xs
        → WritesTold ShowsTalk (talk_told place (table_of table.now) xs) talk.old result talk.new }
{
    let Some((key, row)) = table.talk(place) else {
        return MISUSE;
    };
    *talk = talk_shown(&key, &row);
    DONE
}

// Writes what is counted of a file of a table, if there is such a file.
fn write_file<F: PacketFeed>(table: &Table<F>, number: u32, file: &mut CFile) -> u32
    ensures { (xs : List Taken) → TableStands (table_of table.now) xs
        → WritesTold ShowsFile (file_told number (table_of table.now) xs) file.old result file.new }
{
    let Some(counted) = table.file(number) else {
        return MISUSE;
    };
    *file = file_shown(&counted);
    DONE
}

// Writes what is counted of all packets of a table.
fn write_totals<F: PacketFeed>(table: &Table<F>, totals: &mut CTotals) -> u32
    ensures { (xs : List Taken) → TableStands (table_of table.now) xs
        → WritesTold ShowsTotals (totals_told (table_of table.now) xs) totals.old result totals.new }
{
    let (talks, files) = (table.talks() as u64, table.files() as u32);
    *totals = totals_shown(&table.totals(), talks, files);
    DONE
}

// Writes the conversation at a place of what is held, if that is a table that has one there.
fn talk_of(held: &HandleValue, place: usize, talk: &mut CTalk) -> u32
    ensures { TellsTable (talk_told place) ShowsTalk (Some held.now) talk.old result talk.new }
{
    match held {
        HandleValue::Table(table) => write_talk(table, place, talk),
        HandleValue::Capture(_)
        | HandleValue::Fed(_)
        | HandleValue::Text(_)
        | HandleValue::Job(_)
        | HandleValue::Writer(_) => MISUSE,
    }
}

/// Writes the conversation at a place, counted from 0, in the order of a report's lines, of the packets that a table
/// has counted.
#[unsafe(no_mangle)]
pub extern "C" fn capt_table_talk(
    alloc: Global,
    table: &mut Handle,
    place: usize,
    talk: &mut CTalk,
) -> u32
    ensures tells { TellsTable (talk_told place) ShowsTalk table.old.kept.value talk.old result talk.new }
    ensures table { table.new.kept.value ≡ table.old.kept.value }
{
    with_open!(table, alloc, |held| talk_of(&held, place, talk))
}

// Writes what is counted of a file of what is held, if that is a table that has it.
fn file_of(held: &HandleValue, number: u32, file: &mut CFile) -> u32
    ensures { TellsTable (file_told number) ShowsFile (Some held.now) file.old result file.new }
{
    match held {
        HandleValue::Table(table) => write_file(table, number, file),
        HandleValue::Capture(_)
        | HandleValue::Fed(_)
        | HandleValue::Text(_)
        | HandleValue::Job(_)
        | HandleValue::Writer(_) => MISUSE,
    }
}

/// Writes what is counted of the file of that number, counted from 1, of the packets that a table has counted.
#[unsafe(no_mangle)]
pub extern "C" fn capt_table_file(
    alloc: Global,
    table: &mut Handle,
    number: u32,
    file: &mut CFile,
) -> u32
    ensures tells { TellsTable (file_told number) ShowsFile table.old.kept.value file.old result file.new }
    ensures table { table.new.kept.value ≡ table.old.kept.value }
{
    with_open!(table, alloc, |held| file_of(&held, number, file))
}

// Writes what is counted of all packets of what is held, if that is a table.
fn totals_of(held: &HandleValue, totals: &mut CTotals) -> u32
    ensures { TellsTable totals_told ShowsTotals (Some held.now) totals.old result totals.new }
{
    match held {
        HandleValue::Table(table) => write_totals(table, totals),
        HandleValue::Capture(_)
        | HandleValue::Fed(_)
        | HandleValue::Text(_)
        | HandleValue::Job(_)
        | HandleValue::Writer(_) => MISUSE,
    }
}

/// Writes what is counted of all packets that a table has counted.
#[unsafe(no_mangle)]
pub extern "C" fn capt_table_totals(alloc: Global, table: &mut Handle, totals: &mut CTotals) -> u32
    ensures tells { TellsTable totals_told ShowsTotals table.old.kept.value totals.old result totals.new }
    ensures table { table.new.kept.value ≡ table.old.kept.value }
{
    with_open!(table, alloc, |held| totals_of(&held, totals))
}
