// Bars of lent prices. Only this module reads and writes the four prices of a bar.
ghost use Rattle.std.specs.Prelude.{◌≡◌, slice_index_or, map};
ghost use Rattle.prices.specs.Bar.{bars_of, no_bar, put_bar};
ghost use Rattle.measures.specs.Bar.{bar_of_four};
ghost use Rattle.windows.specs.Window.{back_of};

use prices::bars::Bar;
use prices::price;
use windows::count;

// The bars of a run, four prices each; prices at its end that make no whole bar are passed over.
pub(crate) fn bars_in(prices: &[f64]) -> &[[f64; 4]]
    ensures { map bar_of_four result.now ≡ bars_of prices.now }
{
    prices.as_chunks().0
}

// The bar with these prices.
pub(crate) fn bar_from(four: &[f64; 4]) -> Bar
    ensures { result ≡ bar_of_four four.now }
{
    let [open, close, high, low] = *four;
    Bar {
        open,
        close,
        high,
        low,
    }
}

// The prices of a bar go into a run as those of its i-th bar, if there is room.
pub fn put_bar(bar: Bar, out: &mut [f64], i: usize)
    ensures { out.new ≡ put_bar out.old i bar }
{
    if i < out.len() / 4 {
        let at = 4 * i;
        out[at..at + 4].copy_from_slice(&[bar.open, bar.close, bar.high, bar.low]);
    }
}

// What stands past the end of a run.
fn no_bar() -> Bar
    ensures { result ≡ no_bar }
{
    let nan = price::not_a_number();
    Bar {
        open: nan,
        close: nan,
        high: nan,
        low: nan,
    }
}

// The i-th bar of a run, or a bar of NaN if there is none.
pub fn bar_or_none(prices: &[f64], i: usize) -> Bar
    ensures { result ≡ slice_index_or (bars_of prices.now) i no_bar }
{
    match bars_in(prices).get(i) {
        Some(four) => bar_from(four),
        None => no_bar(),
    }
}

// The i-th bar from the end of a run: 1 is the newest. It asks nothing of i, so that what reads bars has no branch.
pub fn back(prices: &[f64], i: usize) -> Bar
    ensures { result ≡ back_of (bars_of prices.now) i }
{
    bar_or_none(prices, count(prices).saturating_sub(i))
}
