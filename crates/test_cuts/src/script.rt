// A line of the script: a word, of which the first letter says what is done, and up to four numbers; after a bar comes text, which is written.
use recognisers::export::of_bits;

// No value is made of more than 2^60, so that none overflows.
const MOST: u64 = 0x1000_0000_0000_0000;

// What an x begins a number with: no hundredths here are as many.
const X: u64 = 1_000_000_000;

// The bits of floats that are no ordinary numbers, x0 to x11.
const UNUSUAL: [u64; 12] = [
    // NaN, the infinities and the zeros
    0x7FF8_0000_0000_0000,
    0x7FF0_0000_0000_0000,
    0xFFF0_0000_0000_0000,
    0,
    0x8000_0000_0000_0000,
    // the least and the greatest subnormal
    1,
    0x800F_FFFF_FFFF_FFFF,
    // the greatest finite one and its negation
    0x7FEF_FFFF_FFFF_FFFF,
    0xFFEF_FFFF_FFFF_FFFF,
    // a signalling NaN with a payload, which becomes the one NaN
    0xFFF0_0000_0000_0001,
    // the next above 10,000, and the next below zero
    0x40C3_8800_0000_0001,
    0x8000_0000_0000_0001,
];

// The first byte; zero bytes before it are passed over. The last four numbers, of which d is the last. The text, if there is a bar.
#[derive(Clone, Copy)]
pub struct Line<'a> {
    pub letter: Option<u8>,
    pub a: u64,
    pub b: u64,
    pub c: u64,
    pub d: u64,
    pub text: Option<&'a [u8]>,
}

// A number after one byte more; a point is passed over.
fn with_digit(n: u64, byte: u8) -> u64 {
    match byte {
        b'0'..=b'9' => 10 * (n % MOST) + u64::from(byte - b'0'),
        b'x' => X,
        _ => n,
    }
}

// The last four numbers after one byte more.
fn with_byte(numbers: [u64; 4], byte: u8) -> [u64; 4] {
    let [a, b, c, d] = numbers;
    match byte {
        b' ' => [b, c, d, 0],
        _ => [a, b, c, with_digit(d, byte)],
    }
}

pub fn read(line: &[u8]) -> Line<'_> {
    let (words, text) = match line.iter().position(|byte| *byte == b'|') {
        Some(bar) => (&line[..bar], Some(&line[bar + 1..])),
        None => (line, None),
    };
    let [a, b, c, d] = words
        .iter()
        .fold([0; 4], |numbers, byte| with_byte(numbers, *byte));
    Line {
        letter: words.iter().copied().find(|byte| *byte != 0),
        a,
        b,
        c,
        d,
        text,
    }
}

// The float of so many hundredths, or one that is no ordinary number.
pub fn float(n: u64) -> f64 {
    if n < X {
        f64::from(n as u32) / 100.0
    } else {
        of_bits(UNUSUAL[(n % 100 % 12) as usize])
    }
}
