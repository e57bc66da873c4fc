// The plain call over a history of bars in any form of which a bar can be made: a record, or its 32 bytes. What the rule can see is copied out as
// prices; call::recognise, which is lent prices, copies nothing.
ghost use Rattle.std.specs.Prelude.{◌≡◌, cond, ◌*◌, ◌≤◌, eqb, length, map, take};
ghost use Rattle.measures.specs.Bar.{Bar, bars_of};
ghost use Rattle.measures.specs.Window.{up_to, newest};
ghost use Rattle.rule_types.specs.Number.{gated, quarter_bars};
ghost use Rattle.rule_table.specs.Table.{pair_at};
ghost use Rattle.answers.specs.Answer.{refusal_in, codes_in};
ghost use Rattle.recognisers.specs.Call.{plain_answer, plain_number, plain_codes};

use answers::Refusal;
use answers::verdicts::plain_verdict;
use measures::Bar;
use rule_table::table;
use rule_types::counts;
use rule_types::label::Pair;
use thresholds::Thresholds;

// The prices of the gate's window.
const GATE_PRICES: usize = 4 * counts::QUARTER_BARS;

// What a history can be lent in.
pub trait ToBar {
    ghost bar: { Self → Bar };

    fn to_bar(&self) -> Bar
        ensures { result ≡ bar self.now };
}

impl ToBar for Bar {
    ghost bar = { λ b. b };

    fn to_bar(&self) -> Bar {
        *self
    }
}

// The bars of the gate's window: none for a recogniser without a gate.
pub fn gate_bars(k: u32) -> usize
    ensures { (result ≡ cond (eqb k gated) quarter_bars 0) × (result ≤ quarter_bars) }
{
    if k == counts::GATED {
        counts::QUARTER_BARS
    } else {
        0
    }
}

// The last n bars up to the judged one.
fn window_of<B>(bars: &[B], di: usize, n: usize) -> &[B]
    ensures bars { result.now ≡ newest n (take (up_to (length bars.now) di) bars.now) }
    ensures few { length result.now ≤ n }
{
    let p = measures::up_to(bars.len(), di);
    &bars[p - n.min(p)..p]
}

// The prices of bars go into the first places; the answer is the part of these that has them.
fn prices_of<'a, B: ToBar>(bars: &[B], out: &'a mut [f64]) -> &'a [f64]
    requires { 4 * length bars.now ≤ length out.old }
    ensures { bars_of result.now ≡ map B.bar bars.now }
{
    for (i, b) in bars.iter().enumerate() {
        measures::put_bar(b.to_bar(), out, i);
    }
    &out[..4 * bars.len()]
}

// The pair at an offset of a history. Only the bars that the rule can see are read.
fn pair_at<B: ToBar>(k: u32, t: Thresholds, di: u32, bars: &[B]) -> Pair
    ensures { result ≡ pair_at k t (length bars.now) (map B.bar bars.now) di }
{
    let len = bars.len();
    let mut w = [0.0; counts::REACH_PRICES];
    let w = prices_of(window_of(bars, di as usize, counts::REACH_BARS), &mut w);
    let mut gate = [0.0; GATE_PRICES];
    let gate = prices_of(window_of(bars, counts::GATE_END, gate_bars(k)), &mut gate);
    table::judge(k, t, len, measures::up_to(len, di as usize), w, gate)
}

// The plain call over a history that is lent bar by bar. whole: what it was lent in makes whole bars.
pub fn recognise_history<B: ToBar>(
    k: u32,
    di: u32,
    t: Thresholds,
    whole: bool,
    bars: &[B],
) -> Result<Pair, Refusal>
    ensures answer { result ≡ plain_answer k di t whole (map B.bar bars.now) }
    ensures number { refusal_in result ≡ plain_number k di t whole (map B.bar bars.now) }
    ensures codes { codes_in result ≡ plain_codes k di t whole (map B.bar bars.now) }
{
    plain_verdict(k, di, t, whole, bars.len())?;
    Ok(pair_at(k, t, di, bars))
}
