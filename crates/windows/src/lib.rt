// Windows of lent prices, four to a bar. All is proved, nothing is assumed, and no public function has a `requires`: each contract is an
// equation with a definition of specs/, for every input.
#![tactic(auto)]

ghost use Rattle.std.specs.Prelude.{◌≡◌, ◌≤◌, length, take};
ghost use Prim.Native.Nat as Nat;
ghost use Rattle.prices.specs.Bar.{bars_of};
ghost use Rattle.windows.specs.Window.{up_to, window_of, prices_from, window_prices, part_of};

// How many bars a run of prices has.
pub fn count(prices: &[f64]) -> usize
    ensures { result ≡ length (bars_of prices.now) }
{
    prices.len() / 4
}

// The smaller of two counts.
pub fn least(a: usize, b: usize) -> usize
    ensures { result ≡ Nat.min a b }
{
    a.min(b)
}

// How many of len bars there are up to the judged one, the di-th from the end; 0 if there is none.
#[tactic(auto, unfolding(crate::specs::Window::up_to))]
pub fn up_to(len: usize, di: usize) -> usize
    ensures { result ≡ up_to len di }
{
    if di == 0 || len < di { 0 } else { len - di + 1 }
}

// The prices of the bars from one place of a run to another.
fn part(prices: &[f64], from: usize, to: usize) -> &[f64]
    requires { (from ≤ to) × (to ≤ length (bars_of prices.now)) }
    ensures { result.now ≡ prices_from prices.now from to }
{
    let a = from * 4;
    let e = to * 4;
    &prices[a..e]
}

// The prices of the first n bars of a run, or of all if there are fewer.
pub fn first_bars(prices: &[f64], n: usize) -> &[f64]
    ensures prices { result.now ≡ prices_from prices.now 0 (Nat.min n (length (bars_of prices.now))) }
    ensures bars { bars_of result.now ≡ take n (bars_of prices.now) }
{
    part(prices, 0, least(n, count(prices)))
}

// The prices of the last n bars up to the judged one. Prices at the end of a run that make no whole bar are passed over.
pub fn last_bars(prices: &[f64], di: usize, n: usize) -> &[f64]
    ensures prices { result.now ≡ window_prices prices.now di n }
    ensures bars { bars_of result.now ≡ window_of (bars_of prices.now) di n }
{
    let p = up_to(count(prices), di);
    part(prices, p - least(n, p), p)
}

// The window function: the part of the lent prices with the last n bars up to the judged one, the di-th from the end; an empty
// part if the prices do not make whole bars.
#[tactic(auto, unfolding(crate::specs::Window::part_of))]
pub fn window(prices: &[f64], di: u32, n: usize) -> &[f64]
    ensures { result.now ≡ part_of prices.now di n }
{
    if prices.len() % 4 == 0 {
        last_bars(prices, di as usize, n)
    } else {
        &prices[..0]
    }
}
