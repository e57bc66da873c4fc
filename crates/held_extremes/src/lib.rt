// What a box holds of its newest 20 bars: the highest high, the lowest low, and the bars that are candidates for each, by their ordinals.
// All is proved, nothing is assumed, and no public function has a `requires`: each contract is an equation with a definition of specs/,
// for every input.
#![tactic(auto)]

ghost use Rattle.std.specs.Prelude.{◌≡◌, cond, true, false, ◌∷◌, ◌++◌, ◌+◌, ◌-◌, ◌*◌, ◌≤◌, ◌<◌, eqb, length, take, drop, set, replicate};
ghost use Rattle.std.specs.List.{position_or_len};
ghost use Rattle.std.specs.Float.Ieee.{is_nan};
ghost use Rattle.measures.specs.Bar.{bars_of};
ghost use Rattle.measures.specs.Fold.{column_of};
ghost use Rattle.rule_types.specs.Number.{quarter_bars};
ghost use Rattle.held_extremes.specs.Candidate.{candidates, placed, same_price, same_held, held_of};
ghost use Rattle.held_extremes.specs.CandidateSteps.{bar_with, bar_price, price_with, side_with, both, is_room, next_ordinals, next_held};

mod side;

use measures::{Bar, pick};
use rule_types::counts::QUARTER_BARS;
use side::{Highest, Lowest, Side};

// Candidates stand in arrival order from the first place, zeros after them.
#[derive(Clone, Copy)]
pub struct HeldExtremes {
    pub highest: f64,
    pub lowest: f64,
    pub highs: [u32; QUARTER_BARS],
    pub lows: [u32; QUARTER_BARS],
}

// One side of it: the foremost price, and the candidates' places.
#[derive(Clone, Copy)]
struct HeldSide {
    foremost: f64,
    places: [u32; QUARTER_BARS],
}

// A bar at the place before the candidates: if it is one, they begin with it. It is written in any case, so that nothing branches; which place
// comes next is one instruction.
fn enter(c: &mut [u32], at: usize, ordinal: u32, is: bool) -> usize
    requires { (1 ≤ at) × (at < length c.old) }
    ensures { (result ≡ cond is (at - 1) at) × (drop (result + 1) c.new ≡ cond is (ordinal ∷ drop (at + 1) c.old) (drop (at + 1) c.old)) }
{
    c[at] = ordinal;
    if is { at - 1 } else { at }
}

// The candidates of at most 20 bars that follow some others come to stand before the zeros. From the newest back one comparison tells whether
// a bar is a candidate: with the foremost price so far, of which only the value counts. A pick by what also moves the place would become a
// branch: so there are two comparisons.
fn scan<S: Side>(w: &[f64], before: u32, places: &mut [u32]) -> usize
    requires { (length (bars_of w.now) ≤ quarter_bars) × (before + length (bars_of w.now) ≤ 4294967295)
        × (length places.old ≡ 2 * quarter_bars + 1) × (drop (quarter_bars + 1) places.old ≡ replicate quarter_bars 0) }
    ensures { (result ≤ quarter_bars + 1)
        × (drop result places.new ≡ candidates S.beyond before (column_of S.column (bars_of w.now)) ++ replicate quarter_bars 0) }
{
    let mut at = QUARTER_BARS;
    let mut foremost = S::none();
    for i in (0..measures::count(w)).rev() {
        let x = S::price(measures::bar_or_none(w, i));
        at = enter(places, at, before + i as u32 + 1, S::stays(x, foremost));
        foremost = pick(S::is_beyond(foremost, x), x, foremost);
    }
    at + 1
}

// The bar with an ordinal, of bars that follow some others.
fn bar_with(w: &[f64], before: u32, ordinal: u32) -> Bar
    ensures { result ≡ bar_with before (bars_of w.now) ordinal }
{
    measures::bar_or_none(w, (ordinal as usize).saturating_sub(before as usize + 1))
}

// A side's price of it; for none what stands for no price.
fn price_with<S: Side>(w: &[f64], before: u32, ordinal: u32) -> f64
    ensures { result ≡ price_with S.column S.start before (bars_of w.now) ordinal }
{
    pick(
        ordinal == 0,
        S::none(),
        S::price(bar_with(w, before, ordinal)),
    )
}

// How many of n bars come before some of the newest.
fn before_of(n: u32, newest: usize) -> u32
    ensures { result ≡ n - newest }
{
    (n as usize).saturating_sub(newest) as u32
}

// A side of what a box holds of at most 20 bars that follow some others.
fn held_side<S: Side>(w: &[f64], before: u32) -> HeldSide
    requires { (length (bars_of w.now) ≤ quarter_bars) × (before + length (bars_of w.now) ≤ 4294967295) }
    ensures { result ≡ side_with S.column S.start before (bars_of w.now) (placed (candidates S.beyond before (column_of S.column (bars_of w.now)))) }
{
    let mut scanned = [0; 2 * QUARTER_BARS + 1];
    let at = scan::<S>(w, before, &mut scanned);
    let mut places = [0; QUARTER_BARS];
    places.copy_from_slice(&scanned[at..at + QUARTER_BARS]);
    let foremost = price_with::<S>(w, before, places[0]);
    HeldSide { foremost, places }
}

// Both sides.
fn both(high: HeldSide, low: HeldSide) -> HeldExtremes
    ensures { result ≡ both high low }
{
    let HeldSide {
        foremost: highest,
        places: highs,
    } = high;
    let HeldSide {
        foremost: lowest,
        places: lows,
    } = low;
    HeldExtremes {
        highest,
        lowest,
        highs,
        lows,
    }
}

// What a box holds that counts n bars and keeps these.
pub fn held_of(prices: &[f64], n: u32) -> HeldExtremes
    ensures { result ≡ held_of n (bars_of prices.now) }
{
    let w = measures::last_bars(prices, 1, QUARTER_BARS);
    let before = before_of(n, measures::count(w));
    both(
        held_side::<Highest>(w, before),
        held_side::<Lowest>(w, before),
    )
}

// Whether two prices are the same, signs of zero too; a NaN is never.
fn same_price(x: f64, y: f64) -> bool
    ensures { (result ≡ same_price x y) × (result ≡ true → x ≡ y) }
{
    x == y && x.to_bits() == y.to_bits()
}

// Whether this is what a box holds that counts n bars and keeps these. By the fields: `==` of floats takes either zero for the other.
pub fn is_held(h: HeldExtremes, prices: &[f64], n: u32) -> bool
    ensures answer { result ≡ same_held h (held_of n (bars_of prices.now)) }
    ensures equal { result ≡ true → h ≡ held_of n (bars_of prices.now) }
{
    let made = held_of(prices, n);
    same_price(h.highest, made.highest)
        & same_price(h.lowest, made.lowest)
        & (h.highs == made.highs)
        & (h.lows == made.lows)
}

// One bar more: whether a place makes room, being empty, or having a bar that the new price is beyond.
fn is_room<S: Side>(w: &[f64], before: u32, ordinal: u32, y: f64) -> bool
    ensures { result ≡ is_room S.beyond y (bar_price S.column before (bars_of w.now)) ordinal }
{
    ordinal == 0 || S::is_beyond(S::price(bar_with(w, before, ordinal)), y)
}

// The places that make no room, up to the first that does, go to the first places of another; and how many they are. A place is put as it is
// passed: a count by `position` and a copy of as many takes 301 instructions a bar in all, this loop 214.
fn keep<S: Side>(left: &[u32], w: &[f64], before: u32, y: f64, out: &mut [u32]) -> usize
    requires { length left.now ≤ length out.old }
    ensures { (result ≡ position_or_len (is_room S.beyond y (bar_price S.column before (bars_of w.now))) left.now)
        × (out.new ≡ take result left.now ++ drop result out.old) }
{
    for (i, o) in left.iter().enumerate() {
        if is_room::<S>(w, before, *o, y) {
            return i;
        }
        out[i] = *o;
    }
    left.len()
}

// Where the places begin without the bar that falls out.
fn after_oldest(first: u32, last: u32) -> usize
    ensures { result ≡ cond (eqb first (last - quarter_bars)) 1 0 }
{
    usize::from(first == before_of(last, QUARTER_BARS))
}

// A new bar comes at a place, unless its price is NaN.
fn put_new(out: &mut [u32], at: usize, last: u32, y: f64)
    requires { at < length out.old }
    ensures { out.new ≡ cond (is_nan y) out.old (set out.old at last) }
{
    if measures::is_nan(y) {
        return;
    }
    out[at] = last;
}

// A side after one bar more, from the places that were held: what makes no room goes to the first places, and the new bar behind it.
fn next_side<S: Side>(held: &[u32; QUARTER_BARS], w: &[f64], before: u32, last: u32) -> HeldSide
    ensures { result ≡ side_with S.column S.start before (bars_of w.now) (placed (next_ordinals S.beyond S.column before last (bars_of w.now) held.now)) }
{
    let y = S::price(measures::back(w, 1));
    let from = after_oldest(held[0], last);
    let left = &held[from..from + (QUARTER_BARS - 1)];
    let mut next = [0; QUARTER_BARS];
    let k = keep::<S>(left, w, before, y, &mut next);
    put_new(&mut next, k, last, y);
    let foremost = price_with::<S>(w, before, next[0]);
    HeldSide {
        foremost,
        places: next,
    }
}

// What a box holds after one bar more, from what it held before: these are bars of which the newest is new, with the ordinal last.
pub fn held_next(h: HeldExtremes, prices: &[f64], last: u32) -> HeldExtremes
    ensures { result ≡ next_held h last (bars_of prices.now) }
{
    let before = before_of(last, measures::count(prices));
    let highs = h.highs;
    let lows = h.lows;
    both(
        next_side::<Highest>(&highs, prices, before, last),
        next_side::<Lowest>(&lows, prices, before, last),
    )
}
