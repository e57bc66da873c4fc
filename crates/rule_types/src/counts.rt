// The counts of the rules, as specs/Number.antt names them.

// The recognisers, numbered from 0.
pub const RECOGNISERS: usize = 18;

// The labels, with codes from 0.
pub const LABELS: usize = 38;

// The recogniser whose gate reads len.
pub const GATED: u32 = 12;

// The newest bars up to the judged one that a rule can see; and the p from which the quarter holds.
pub const REACH_BARS: usize = 22;

// Their prices.
pub const REACH_PRICES: usize = 4 * REACH_BARS;

// The quarter's window.
pub const QUARTER_BARS: usize = 20;

// The gate's bars end third from the newest, and it holds where len is above GATE_ABOVE.
pub const GATE_END: usize = 3;

pub const GATE_ABOVE: usize = 23;

// The most bars of a history, and the greatest threshold that is whole, in units and in tenths.
pub const MOST_BARS: usize = 1000000;

pub const MOST_WHOLE: u32 = 1000000;

pub const MOST_TENTHS: u32 = 10000000;

// A sheet's row: two codes for each recogniser.
pub const ROW_BYTES: usize = 2 * RECOGNISERS;

// The places of a box, and the farthest offset of a look.
pub const PLACES: usize = 64;

pub const FARTHEST_LOOK: u32 = 43;
