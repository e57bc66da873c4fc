// What the programs that test write to standard output. A write that fails leaves the output short, which the gate sees. Nothing is promised
// but safety: what a program wrote is no value that a clause could speak of.
#![tactic(auto)]

use std::num::f64_to_bits_with_nan;

// The descriptors of the standard streams.
pub const STDIN_FILENO: i32 = 0;

const STDOUT_FILENO: i32 = 1;

pub fn text(s: &[u8]) {
    io::write_all(STDOUT_FILENO, s);
}

// Text, then a number in decimal.
pub fn number(before: &[u8], n: u64) {
    text(before);
    io::print_decimal(STDOUT_FILENO, n);
}

// Text, then a digest in eight hexadecimal digits.
pub fn digest(before: &[u8], d: u64) {
    text(before);
    io::print_hex(STDOUT_FILENO, d, 8);
}

// A comma and the bits of a price, sixteen hexadecimal digits; each NaN has those of the one NaN.
pub fn price(x: f64) {
    text(b",");
    io::print_hex(STDOUT_FILENO, f64_to_bits_with_nan(x), 16);
}
