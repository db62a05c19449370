//! The names of rules, what is printed of a fault, and the version.
ghost use Rattle.std.specs.Prelude.{◌≡◌, ◌<◌, ◌⊎◌, IfSome, None, Some, length, codes};
ghost use Rattle.cap_bytes.specs.Rules.{rule_number};
ghost use Rattle.cap_bytes.specs.declared.faults.Fault.{Fault};
ghost use Rattle.cap_commands.specs.FaultText.{fault_text};
ghost use Rattle.capt_c.specs.Names.{NamesRule, PutsText, TellsFault, version_number};

use crate::answers::{CPlace, MEMORY, READ, REFUSED, WRITE};
use cap_bytes::{Fault, Refusal, Rule};
use cap_commands::fault_line;
use std::cmp::min;

// The version of the library.
const VERSION: &str = "1.0.0";

// The same as a number, in which each part is two digits.
const VERSION_NUMBER: u32 = 10_000;

// The rule of a number.
fn rule_of(number: u32) -> Option<Rule>
    ensures some { IfSome result (λ rule. rule_number rule ≡ number) }
    ensures none { result ≡ None → (number ≡ 0) ⊎ (21 < number) }
{
    match number {
        1 => Some(Rule::Magic),
        2 => Some(Rule::Version),
        3 => Some(Rule::Cut),
        4 => Some(Rule::PacketLong),
        5 => Some(Rule::BlockLength),
        6 => Some(Rule::BlockTrailer),
        7 => Some(Rule::OrderMagic),
        8 => Some(Rule::Captured),
        9 => Some(Rule::InterfaceUnknown),
        10 => Some(Rule::OptionEnd),
        11 => Some(Rule::OptionLength),
        12 => Some(Rule::Resolution),
        13 => Some(Rule::InterfaceLimit),
        14 => Some(Rule::FileLimit),
        15 => Some(Rule::OpenLimit),
        16 => Some(Rule::TalkLimit),
        17 => Some(Rule::NoTime),
        18 => Some(Rule::LinkMixed),
        19 => Some(Rule::Inexact),
        20 => Some(Rule::TimeRange),
        21 => Some(Rule::NoInterface),
        _ => None,
    }
}

// Puts as much of a text into a buffer as it has room for, and returns how long the text is.
fn put(text: &[u8], buffer: &mut [u8]) -> usize
    ensures { PutsText text.now result buffer.old buffer.new }
{
    let count = min(text.len(), buffer.len());
    let (front, _) = text.split_at(count);
    let (room, _) = buffer.split_at_mut(count);
    room.copy_from_slice(front);
    text.len()
}

/// Puts as much of a rule's name into a buffer as it has room for, and returns how long the name is: 0 if there is no
/// such rule.
#[unsafe(no_mangle)]
pub extern "C" fn capt_rule_name(rule: u32, buffer: &mut [u8]) -> usize
    ensures { NamesRule rule result buffer.old buffer.new }
{
    match rule_of(rule) {
        Some(rule) => put(rule.name().as_bytes(), buffer),
        None => 0,
    }
}

// The fault that a status and a place tell, if they tell one.
fn fault_of(status: u32, place: &CPlace) -> Option<Fault>
    ensures some { (fault : Fault) → TellsFault status place.now fault → result ≡ Some fault }
    ensures none { ((fault : Fault) → TellsFault status place.now fault → ⊥) → result ≡ None }
{
    if status == REFUSED {
        match rule_of(place.rule) {
            Some(rule) => Some(Fault::Refused(Refusal {
                file: place.file,
                offset: place.offset,
                rule,
            })),
            None => None,
        }
    } else if status == READ {
        Some(Fault::Read {
            file: place.file,
            offset: place.offset,
        })
    } else if status == WRITE {
        Some(Fault::Write)
    } else if status == MEMORY {
        Some(Fault::Memory)
    } else {
        None
    }
}

/// Puts as much of the line into a buffer as it has room for that `capt` prints of the fault that a status and a place
/// tell, with its end, and returns how long the line is: 0 if the status tells no fault.
#[unsafe(no_mangle)]
pub extern "C" fn capt_error_text(status: u32, place: &CPlace, buffer: &mut [u8]) -> usize
    ensures text { (fault : Fault) → TellsFault status place.now fault
        → PutsText (fault_text fault) result buffer.old buffer.new }
    ensures none { ((fault : Fault) → TellsFault status place.now fault → ⊥)
        → (result ≡ 0) × (buffer.new ≡ buffer.old) }
{
    match fault_of(status, place) {
        Some(fault) => put(fault_line(fault).as_slice(), buffer),
        None => 0,
    }
}

/// Puts as much of the version into a buffer as it has room for, and returns how long it is.
#[unsafe(no_mangle)]
pub extern "C" fn capt_version(buffer: &mut [u8]) -> usize
    ensures { PutsText (codes "1.0.0") result buffer.old buffer.new }
{
    put(VERSION.as_bytes(), buffer)
}

/// The version as a number: 10,000 times its first part, 100 times its second, and its third.
#[unsafe(no_mangle)]
pub extern "C" fn capt_version_number() -> u32
    ensures { result ≡ version_number (codes "1.0.0") }
{
    VERSION_NUMBER
}
