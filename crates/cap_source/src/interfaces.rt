//! The interface blocks of a pcapng file. draft-ietf-opsawg-pcapng, 4.2.
ghost use Rattle.std.specs.Prelude.{◌≡◌, ◌≤◌, ◌%◌, drop, length, unwrap_or, pos};
ghost use Rattle.cap_blocks.specs.OptionList.{options_of};
ghost use Rattle.cap_blocks.specs.inner.Options.{option_item};
ghost use Rattle.cap_source.specs.TimeBases.{resolution_of, resolution_in, offset_in, with_resolution, with_offset};
ghost use Rattle.cap_source.specs.TimeBases.{option_read, options_read, no_base, microseconds, interface_with};
ghost use Rattle.cap_source.specs.TimeBases.{interface_by, interface_in, is_name, is_named};

use cap_blocks::Options;
use cap_bytes::{Order, Rule, u16_at, u32_at, u64_at};
use cap_time::{Interface, Resolution};

/// The most interfaces that a section may have.
pub const INTERFACE_LIMIT: usize = 1_024;

// The codes of the options that are read.
const RESOLUTION: u16 = 9;

const OFFSET: u16 = 14;

const NAME: u16 = 2;

// The code of a millionth of a second, the resolution if none is given.
const MICROSECONDS: u8 = 6;

/// What the options so far say of an interface's times.
#[derive(Clone, Copy)]
pub struct TimeBase {
    /// The first `if_tsresol`.
    pub resolution: Option<Resolution>,
    /// The first `if_tsoffset`.
    pub offset: Option<i64>,
}

// The resolution of a code, if it is one that is read.
fn resolution_of(code: u8) -> Option<Resolution>
    ensures { result ≡ resolution_of code }
{
    Resolution::from_code(code)
}

// The resolution that an `if_tsresol` gives.
fn resolution_in(value: &[u8]) -> Result<Resolution, Rule>
    ensures { result ≡ resolution_in value.now }
{
    match value {
        [code] => match resolution_of(*code) {
            Some(resolution) => Ok(resolution),
            None => Err(Rule::Resolution),
        },
        _ => Err(Rule::OptionLength),
    }
}

// The offset that an `if_tsoffset` gives.
#[tactic(auto, unfolding(crate::specs::TimeBases::offset_in))]
fn offset_in(order: Order, value: &[u8]) -> Result<i64, Rule>
    ensures { result ≡ offset_in order value.now }
{
    if value.len() == 8 {
        Ok(u64_at(order, value, 0).cast_signed())
    } else {
        Err(Rule::OptionLength)
    }
}

// The time base with its resolution.
fn with_resolution(base: TimeBase, value: &[u8]) -> Result<TimeBase, Rule>
    ensures { result ≡ with_resolution base (resolution_in value.now) }
{
    match resolution_in(value) {
        Ok(resolution) => Ok(TimeBase {
            resolution: Some(resolution),
            offset: base.offset,
        }),
        Err(rule) => Err(rule),
    }
}

// The time base with its offset.
fn with_offset(base: TimeBase, order: Order, value: &[u8]) -> Result<TimeBase, Rule>
    ensures { result ≡ with_offset base (offset_in order value.now) }
{
    match offset_in(order, value) {
        Ok(offset) => Ok(TimeBase {
            resolution: base.resolution,
            offset: Some(offset),
        }),
        Err(rule) => Err(rule),
    }
}

// The time base with one more option.
#[tactic(auto, unfolding(crate::specs::TimeBases::option_read))]
fn with_option(base: TimeBase, order: Order, code: u16, value: &[u8]) -> Result<TimeBase, Rule>
    ensures { result ≡ option_read order base code value.now }
{
    if code == RESOLUTION && base.resolution.is_none() {
        return with_resolution(base, value);
    }
    if code == OFFSET && base.offset.is_none() {
        return with_offset(base, order, value);
    }
    Ok(base)
}

// What the options of an interface say of its times, or the first rule that they break.
fn time_base_of(order: Order, options: &[u8]) -> Result<TimeBase, Rule>
    requires { length options.now % 4 ≡ 0 }
    ensures { result ≡ options_read order no_base (options_of order options.now) }
{
    let mut base = TimeBase {
        resolution: None,
        offset: None,
    };
    for option in Options::new(order, options) {
        match option {
            Ok((code, value)) => base = with_option(base, order, code, value)?,
            Err(rule) => return Err(rule),
        }
    }
    Ok(base)
}

// What an interface block says, whatever stands before it, or the first rule that its options break.
fn read_interface(order: Order, body: &[u8]) -> Result<Interface, Rule>
    requires least { 8 ≤ length body.now }
    requires padded { length body.now % 4 ≡ 0 }
    ensures { result ≡ interface_by order body.now (options_read order no_base (options_of order (drop 8 body.now))) }
{
    let (_, options) = body.split_at(8);
    match time_base_of(order, options) {
        Ok(base) => Ok(interface_by(base, order, body)),
        Err(rule) => Err(rule),
    }
}

/// The interface of an interface block, before which that many stand in its section, or the first rule
/// that it breaks: 13, and then for each option 10, 11 and 12.
pub fn interface_of(before: usize, order: Order, body: &[u8]) -> Result<Interface, Rule>
    requires least { 8 ≤ length body.now }
    requires padded { length body.now % 4 ≡ 0 }
    ensures { result ≡ interface_in before order body.now }
{
    if before >= INTERFACE_LIMIT {
        return Err(Rule::InterfaceLimit);
    }
    read_interface(order, body)
}

// Whether an option is a name.
fn is_name(option: Result<(u16, &[u8]), Rule>) -> bool
    ensures { result ≡ is_name (option_item option.entry) }
{
    match option {
        Ok((code, _)) => code == NAME,
        Err(_) => false,
    }
}

/// Whether the interface of an interface block has a name: an option `if_name`.
pub fn is_named(order: Order, body: &[u8]) -> bool
    requires least { 8 ≤ length body.now }
    requires padded { length body.now % 4 ≡ 0 }
    ensures { result ≡ is_named order body.now }
{
    let (_, options) = body.split_at(8);
    for option in Options::new(order, options) {
        if is_name(option) {
            return true;
        }
    }
    false
}

// A millionth of a second, the resolution if none is given.
#[tactic(auto, using(crate::proofs::Resolutions::same_microseconds))]
fn microseconds() -> Resolution
    ensures { result ≡ microseconds }
{
    Resolution::from_code(MICROSECONDS).unwrap()
}

// The offset, which is 0 if none is given.
fn offset_or_0(offset: Option<i64>) -> i64
    ensures { result ≡ unwrap_or offset (pos 0) }
{
    match offset {
        Some(seconds) => seconds,
        None => 0,
    }
}

// The interface of a body whose options say that of its times.
fn interface_by(base: TimeBase, order: Order, body: &[u8]) -> Interface
    requires { 8 ≤ length body.now }
    ensures { result ≡ interface_with base order body.now }
{
    Interface {
        link: u16_at(order, body, 0),
        snaplen: u32_at(order, body, 4),
        resolution: base.resolution.unwrap_or(microseconds()),
        offset: offset_or_0(base.offset),
    }
}
