// A line of the script, read byte by byte.

// No number is made of more, so that it has 12 digits at most.
const MOST: u64 = 100_000_000_000;

const WORD: u64 = 0x1_0000_0000;

// The place of the last number.
const LAST: usize = 11;

// The first byte; the numbers behind it, the first in place 1; and the place of the one that is read. Without a byte the letter is 0 and no
// `Option`: a zero byte before the letter is passed over, so that none is a letter.
#[derive(Clone, Copy)]
pub struct Line {
    pub letter: u8,
    numbers: [u64; LAST + 1],
    place: usize,
}

pub const EMPTY: Line = Line {
    letter: 0,
    numbers: [0; LAST + 1],
    place: 0,
};

// A number after one digit more. Not one function with that of test_cuts, whose script has another grammar: points, and an x.
fn with_digit(n: u64, byte: u8) -> u64 {
    match byte {
        b'0'..=b'9' => 10 * (n % MOST) + u64::from(byte - b'0'),
        _ => n,
    }
}

impl Line {
    // Takes one byte more: the numbers stand behind spaces.
    pub fn push(&mut self, byte: u8) {
        let at = self.place.min(LAST);
        if self.letter == 0 {
            self.letter = byte;
        } else if byte == b' ' {
            self.place = (at + 1).min(LAST);
        } else {
            self.numbers[at] = with_digit(self.numbers[at], byte);
        }
    }

    // The numbers, each cut to 32 bits; the first stands in place 1.
    pub fn numbers(&self) -> [u32; LAST + 1] {
        self.numbers.map(|n| (n % WORD) as u32)
    }

    // The place behind the last number.
    pub fn end(&self) -> usize {
        self.place.min(LAST) + 1
    }
}
