//! IPv6 addresses in text.
ghost use Rattle.std.specs.Prelude.{◌≡◌, ◌+◌, ◌*◌, ◌<◌, ◌≤◌, ◌++◌, length};
ghost use Rattle.std.specs.Char.{digit_char};
ghost use Rattle.std.specs.Net.Text.{groups_text, hex, leading_zero_digits, longest_zero_run};
ghost use Rattle.cap_print.specs.Addresses.{groups_of, ipv6_text};
ghost use Rattle.cap_print.specs.inner.AddressLaw.{AddressLaw};

use crate::lines::Line;
use std::net::Ipv6Addr;

// The digit of a number below 16, in lower case hex.
fn hex_digit(number: u16) -> u8
    requires { number < 16 }
    ensures { result ≡ digit_char number }
{
    if number < 10 {
        b'0' + number as u8
    } else {
        b'a' + (number - 10) as u8
    }
}

// How many of a group's four digits are zeros before all others, the last digit apart.
fn leading_zeros(group: u16) -> usize
    ensures value { result ≡ leading_zero_digits group }
    ensures within { result < 4 }
{
    match group {
        0x1000.. => 0,
        0x100.. => 1,
        0x10.. => 2,
        _ => 3,
    }
}

// Where the longest run of groups of zero begins, and how many it has: the first of two that are as long.
fn longest_zero_run(groups: &[u16]) -> (usize, usize)
    ensures value { result ≡ longest_zero_run groups.now }
    ensures within { result.0 + result.1 ≤ length groups.now }
{
    let mut start = groups.len();
    let mut most = 0;
    let mut run = 0;
    'groups: for i in (0..groups.len()).rev() {
        run = if groups[i] == 0 { run + 1 } else { 0 };
        if run >= most {
            start = i;
            most = run;
        }
    }
    (start, most)
}

// The groups of an address, the highest first.
#[tactic(auto, unfolding(crate::specs::Addresses::groups_of))]
fn groups_of(address: u128) -> [u16; 8]
    ensures value { result ≡ groups_of address }
    ensures eight { length result ≡ 8 }
{
    Ipv6Addr::from_bits(address).segments()
}

impl Line {
    ghost use Rattle.cap_print.specs.Lines.{room_in, text_in};

    // Puts a group in hex without leading zeros.
    fn prepend_group(&mut self, group: u16)
        requires { 4 ≤ room_in self.old }
        ensures text { text_in self.new ≡ hex group ++ text_in self.old }
        ensures room { room_in self.old ≤ room_in self.new + 4 }
    {
        let digits = [
            hex_digit(group / 0x1000),
            hex_digit(group / 0x100 % 16),
            hex_digit(group / 0x10 % 16),
            hex_digit(group % 16),
        ];
        self.prepend_text(digits.split_at(leading_zeros(group)).1);
    }

    // Puts groups with a colon between each.
    fn prepend_groups(&mut self, groups: &[u16])
        requires { 5 * length groups.now ≤ room_in self.old }
        ensures text { text_in self.new ≡ groups_text groups.now ++ text_in self.old }
        ensures room { room_in self.old ≤ room_in self.new + 5 * length groups.now }
    {
        let Some((first, rest)) = groups.split_first() else {
            return;
        };
        'rest: for i in (0..rest.len()).rev() {
            self.prepend_group(rest[i]);
            self.prepend_text(b":");
        }
        self.prepend_group(*first);
    }

    /// Puts an IPv6 address, its first byte the highest: its eight groups of 16 bits in lower case hex without leading
    /// zeros, a colon between each, and `::` in place of the longest run of two or more groups of zero, the first of
    /// those as long (RFC 5952, 4). No part of it is written as an IPv4 address is.
    pub fn prepend_ipv6(&mut self, address: u128)
        requires { 40 ≤ room_in self.old }
        ensures text { text_in self.new ≡ ipv6_text address ++ text_in self.old }
        ensures room { room_in self.old ≤ room_in self.new + 40 }
    {
        let groups = groups_of(address);
        let (start, length) = longest_zero_run(&groups);
        if length < 2 {
            self.prepend_groups(&groups);
            return;
        }
        let (_, behind) = groups.split_at(start + length);
        let (before, _) = groups.split_at(start);
        self.prepend_groups(behind);
        self.prepend_text(b"::");
        self.prepend_groups(before);
    }
}

/// A law: the text of an IPv6 address is read as that address (RFC 4291, 2.2), and as no other, so no two addresses
/// have one text. It does nothing when it runs.
pub fn address_law()
    ensures { AddressLaw }
{}
