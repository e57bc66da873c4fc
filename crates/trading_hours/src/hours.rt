// Opening hours, and where the term of a stamp ends.
ghost use Rattle.std.specs.Prelude.{◌≡◌, ◌-◌, ◌%◌, get_or};
ghost use Rattle.trading_hours.specs.Hours.{no_window, with_zeros, rising_from, valid_hours, in_hours, place_of, term_length, has, windows_of};
ghost use Rattle.trading_hours.specs.TermRule.{end_of};

// A window of the day: minute from inclusive, minute to exclusive.
#[derive(Clone, Copy, Debug, Default, PartialEq, Eq)]
pub struct DayWindow {
    pub from: u32,
    pub to: u32,
}

impl DayWindow {
    // Whether it has a minute of the day.
    fn has(&self, minute: u32) -> bool
        ensures { result ≡ has self.now minute }
    {
        (self.from <= minute) & (minute < self.to)
    }
}

// One to four windows, from the first place; unused places hold zeros. A caller fills it, also with a count above 4, and a layer keeps it by
// value, so that it is no slice.
#[derive(Clone, Copy, Debug, PartialEq, Eq)]
pub struct Hours {
    pub windows: [DayWindow; 4],
    pub count: u32,
}

impl Hours {
    // The windows in use; the places past them are not read.
    fn in_use(&self) -> &[DayWindow]
        ensures { result.now ≡ windows_of self.now }
    {
        &self.windows[..(self.count as usize).min(4)]
    }
}

// Whether windows rise.
fn rising(windows: &[DayWindow]) -> bool
    ensures { result ≡ rising_from 0 windows.now }
{
    let mut at = 0u32;
    for w in windows {
        if !((at <= w.from) & (w.from < w.to) & (w.to <= 1440)) {
            return false;
        }
        at = w.to;
    }
    true
}

// Whether hours keep the rules.
#[tactic(auto, unfolding(crate::specs::Hours::valid_hours))]
pub fn hours_valid(h: Hours) -> bool
    ensures { result ≡ valid_hours h }
{
    (1 <= h.count) & (h.count <= 4) & rising(h.in_use())
}

// Whether a stamp lies in the hours.
pub fn in_hours(h: Hours, stamp: u32) -> bool
    ensures { result ≡ in_hours h stamp }
{
    h.in_use().iter().any(|w| w.has(stamp % 1440))
}

// The first window that has a minute; one of no minute if none has it.
fn window_with(windows: &[DayWindow], minute: u32) -> DayWindow
    ensures { result ≡ get_or windows.now (place_of windows.now minute) no_window }
{
    let found = windows.iter().find(|w| w.has(minute));
    found.copied().unwrap_or_default()
}

// The same hours with zeros in the unused places.
#[tactic(auto, unfolding(crate::specs::Hours::with_zeros))]
pub fn with_zeros(h: Hours) -> Hours
    ensures { result ≡ with_zeros h }
{
    let used = (h.count as usize).min(4);
    let mut windows = h.windows;
    windows[used..].fill(DayWindow::default());
    Hours {
        windows,
        count: h.count,
    }
}

// The rest of a after whole runs of m; there are none of no minute.
fn rest(a: u32, m: u32) -> u32
    ensures { result ≡ a % m }
{
    a.checked_rem(m).unwrap_or(a)
}

// The stamp at which the term of a stamp ends.
pub fn end_of(h: Hours, m: u32, stamp: u32) -> usize
    ensures { result ≡ end_of h m stamp }
{
    let minute = stamp % 1440;
    let w = window_with(h.in_use(), minute);
    let passed = rest(minute.saturating_sub(w.from), m);
    let midnight = (stamp / 1440) as usize * 1440;
    midnight + ((minute - passed) as usize + m as usize).min(w.to as usize)
}

// Whether m is one of the term lengths. It stays a number, since hosts hand one, and a term's end is known for any m from 1.
#[tactic(auto, unfolding(crate::specs::Hours::term_length))]
pub fn term_length(m: u32) -> bool
    ensures { result ≡ term_length m }
{
    matches!(m, 5 | 15 | 60)
}
