//! Whole numbers, as lines print them.
ghost use Rattle.std.specs.Prelude.{◌≡◌, ◌+◌, ◌≤◌, ◌++◌, ℕ, decimal};
ghost use Rattle.cap_print.specs.Lines.{room_in, text_in};

use crate::lines::Line;

/// A whole number that a line prints in decimal.
pub trait Number: Copy {
    /// The number.
    ghost value: { Self → ℕ };

    /// How many digits a number of this type has at most.
    ghost DIGITS: { ℕ };

    /// Puts its digits.
    fn prepend_to(self, line: &mut Line)
        requires { DIGITS ≤ room_in line.old }
        ensures text { text_in line.new ≡ decimal (value self) ++ text_in line.old }
        ensures room { room_in line.old ≤ room_in line.new + DIGITS };
}

impl Number for u8 {
    ghost value = { λ n. n };

    ghost DIGITS = { 3 };

    #[inline(always)]
    fn prepend_to(self, line: &mut Line) {
        line.prepend_digits(u64::from(self)); // 255 at most
    }
}

impl Number for u16 {
    ghost value = { λ n. n };

    ghost DIGITS = { 5 };

    #[inline(always)]
    fn prepend_to(self, line: &mut Line) {
        line.prepend_digits(u64::from(self)); // 65,535 at most
    }
}

impl Number for u32 {
    ghost value = { λ n. n };

    ghost DIGITS = { 10 };

    #[inline(always)]
    fn prepend_to(self, line: &mut Line) {
        line.prepend_digits(u64::from(self)); // 4,294,967,295 at most
    }
}

impl Number for u64 {
    ghost value = { λ n. n };

    ghost DIGITS = { 20 };

    #[inline(always)]
    fn prepend_to(self, line: &mut Line) {
        line.prepend_digits(self);
    }
}

impl Number for u128 {
    ghost value = { λ n. n };

    ghost DIGITS = { 39 };

    // Few need more than 64 bits.
    #[inline(always)]
    fn prepend_to(self, line: &mut Line) {
        match u64::try_from(self) {
            Ok(number) => number.prepend_to(line),
            Err(_) => line.prepend_integer(b"", self),
        }
    }
}
