// Runs and closes to a layer of terms, one after the other, with hours and answers as numbers.
ghost use Rattle.std.specs.Prelude.{[], ◌∷◌, ◌≡◌, ◌+◌, ◌-◌, ◌*◌, ◌≤◌, ◌<◌, length, take};
ghost use Rattle.std.specs.Result.{result_unwrap_or};
ghost use Rattle.measures.specs.Bar.{overlay};
ghost use Rattle.recognisers.specs.Number.{most_bars};
ghost use Rattle.trading_hours.specs.Hours.{most_windows};
ghost use Rattle.terms.specs.Layer.{rows_answer};
ghost use Rattle.terms.specs.History.{called, sheet_after};
ghost use Rattle.term_calls.specs.Numbers.{written_to};
ghost use Rattle.term_calls.specs.TermCalls.{window_in, hours_in, call_of, answer_in, answers_of, sheet_through};

use crate::numbers::number_at;
use recognisers::Refusal;
use recognisers::counts::ROW_BYTES;
use recognisers::refusals::refusal_number;
use std::array::from_fn;
use terms::Layer;
use trading_hours::{DayWindow, Hours};

// The most windows of hours.
const MOST_WINDOWS: usize = 4;

// The i-th window.
fn window_of(numbers: &[u32], i: usize) -> DayWindow
    requires { i < most_windows }
    ensures { result ≡ window_in numbers.now i }
{
    DayWindow {
        from: number_at(numbers, 2 * i),
        to: number_at(numbers, 2 * i + 1),
    }
}

// The hours with these numbers. A count of 5 stands for too many windows, which the making refuses: the C interface (jcc_terms) takes one to four.
pub fn hours_of(numbers: &[u32]) -> Hours
    ensures { result ≡ hours_in numbers.now }
{
    Hours {
        windows: from_fn(|i| window_of(numbers, i)),
        count: numbers.len().div_ceil(2).min(MOST_WINDOWS + 1) as u32,
    }
}

// The answer to a call as a number. `answers::answer_number` has another base and another value, so that one function over both would take more than
// the `match` says.
fn answer_number(answer: Result<usize, Refusal>) -> u32
    requires { result_unwrap_or answer 0 ≤ most_bars }
    ensures { result ≡ answer_in answer }
{
    match answer {
        Ok(rows) => rows as u32,
        Err(why) => 16777216 + refusal_number(why) as u32,
    }
}

// Writes the answer to a call to its place, if there is one.
fn put_answer(answer: Result<usize, Refusal>, answers: &mut [u32], i: usize)
    requires { result_unwrap_or answer 0 ≤ most_bars }
    ensures { answers.new ≡ overlay answers.old i (take (length answers.old - i) (answer_in answer ∷ [])) }
{
    // no `get_mut`: of what is written through it a proof knows the length alone
    if i < answers.len() {
        answers[i] = answer_number(answer);
    }
}

// One call of a size, lent the prices and stamps that are left. A size of 0 is a close: the C interface (jcc_terms) says so.
fn make_call(
    l: &mut Layer,
    size: u32,
    prices: &[f64],
    stamps: &[u32],
    sheet: &mut [u8],
) -> Result<usize, Refusal>
    ensures { let x = call_of size prices.now stamps.now sheet.old in
        (result ≡ rows_answer (called l.old x)) × (l.new ≡ (called l.old x).after) × (sheet.new ≡ sheet_after l.old x) }
{
    if size == 0 {
        return terms::close(l, sheet);
    }
    let n = size as usize;
    let p_end = prices.len().min(4 * n);
    let s_end = stamps.len().min(n);
    terms::run(l, &prices[..p_end], &stamps[..s_end], sheet)
}

// Calls of these sizes, one after the other; each answer goes to its place, if there is one.
pub fn make_calls(
    mut l: Layer,
    sizes: &[u32],
    prices: &[f64],
    stamps: &[u32],
    sheet: &mut [u8],
    answers: &mut [u32],
)
    ensures { (sheet.new ≡ sheet_through l prices.now stamps.now sheet.old sizes.now)
        × (answers.new ≡ written_to answers.old (answers_of l prices.now stamps.now sheet.old sizes.now)) }
{
    let mut p = 0usize;
    let mut s = 0usize;
    let mut at = 0usize;
    for (i, &size) in sizes.iter().enumerate() {
        let n = size as usize;
        let answer = make_call(&mut l, size, &prices[p..], &stamps[s..], &mut sheet[at..]);
        put_answer(answer, answers, i);
        p = prices.len().min(p + 4 * n);
        s = stamps.len().min(s + n);
        at += ROW_BYTES * answer.unwrap_or(0);
    }
}
