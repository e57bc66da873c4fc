// Digests: equal things have equal ones, and things that differ nearly always do not.
use bar_box::{BarBox, KeptBar};
use measures::Bar;
use recognisers::counts::RECOGNISERS;
use recognisers::{Judged, Refusal, answer_in, answer_number, ordinal_in};
use std::num::f64_to_bits_with_nan;

// The largest prime below 2^32, and what a digest is multiplied by at each step: no product reaches 2^64.
const PRIME: u64 = 4294967291;

const FACTOR: u64 = 2654435761;

const WORD: u64 = 0x1_0000_0000;

// The recognisers, as a call numbers them.
pub const KINDS: u32 = RECOGNISERS as u32;

// Each of them is asked at each offset from 0, which is refused, to 44, which is refused too.
const OFFSETS: u32 = 45;

// A digest after one word more.
pub fn mix(d: u64, x: u64) -> u64 {
    (d % PRIME * FACTOR + x % WORD) % PRIME
}

// A digest after a price's bits; each NaN has those of the one NaN.
fn mix_price(d: u64, x: f64) -> u64 {
    let bits = f64_to_bits_with_nan(x);
    mix(mix(d, bits / WORD), bits)
}

fn mix_bar(d: u64, bar: Bar) -> u64 {
    let open = mix_price(d, bar.open);
    let close = mix_price(open, bar.close);
    let high = mix_price(close, bar.high);
    mix_price(high, bar.low)
}

// A digest after what a place holds.
pub fn mix_place(d: u64, place: KeptBar) -> u64 {
    mix(mix_bar(d, place.bar), u64::from(place.ordinal))
}

pub fn of_places(places: &[KeptBar]) -> u64 {
    places.iter().fold(1, |d, place| mix_place(d, *place))
}

// Of the count and of all places.
pub fn of_box(b: BarBox) -> u64 {
    mix(of_places(&b.bars), u64::from(b.count))
}

pub fn of_bytes(s: &[u8]) -> u64 {
    s.iter().fold(1, |d, b| mix(d, u64::from(*b)))
}

// A digest after what a look answers, as a number, and its ordinal.
fn mix_look(d: u64, a: Result<Judged, Refusal>) -> u64 {
    let number = answer_number(answer_in(a));
    mix(mix(d, u64::from(number)), u64::from(ordinal_in(a)))
}

// Of all that can be seen by looking: what a look answers at each recogniser and offset. Two loops, since in a fold within a fold the goal
// `fold-requires-clause-callable` did not close.
pub(crate) fn of_looks<Look: Fn(u32, u32) -> Result<Judged, Refusal>>(look: Look) -> u64
    requires pre { (f : _) (k : _) (di : _) → Look.pre f k di }
{
    let mut d = 1;
    for k in 0..KINDS {
        for di in 0..OFFSETS {
            d = mix_look(d, look(k, di));
        }
    }
    d
}
