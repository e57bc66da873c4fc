// The table: eighteen rows, one for each recogniser, and thirty-eight columns, one for each label, by its code.
ghost use Rattle.std.specs.Prelude.{◌≡◌, length};
ghost use Rattle.recognisers.specs.Number.{labels};
ghost use Rattle.tallies.specs.Tally.{fresh_tally, Shaped, total_of, adds_up};

use recognisers::counts::{LABELS, RECOGNISERS};

// A recogniser's counts: how many bars got each v1 label.
#[derive(Clone, Copy)]
pub struct TallyRow {
    pub counts: [u32; LABELS],
}

// Before the first bar.
pub fn fresh() -> [TallyRow; RECOGNISERS]
    ensures { result ≡ fresh_tally }
{
    let zeros = TallyRow {
        counts: [0; LABELS],
    };
    [zeros; RECOGNISERS]
}

// A row's counts added up, in 64 bits: those of a caller's row may pass 32.
pub(crate) fn total(counts: &[u32; LABELS]) -> u64
    ensures { (result ≡ total_of counts.now) × (length counts.now ≡ labels) }
{
    counts.iter().map(|count| u64::from(*count)).sum()
}

// Whether each row adds up to n. No `all`: each row is read, which shows how long it is.
pub(crate) fn adds_up(tally: &[TallyRow; RECOGNISERS], n: u32) -> bool
    ensures { (result ≡ adds_up n tally.now) × (Shaped tally.now) }
{
    let mut all = true;
    for row in tally {
        all &= total(&row.counts) == u64::from(n);
    }
    all
}
