// Why calls are refused, which calls are, and what they answer. All is proved, nothing is assumed, and no public function has a `requires`: each
// contract is an equation with a definition of specs/, for every input.
#![tactic(auto)]

ghost use Rattle.std.specs.Prelude.{◌≡◌};
ghost use Rattle.answers.specs.Answer.{answer_in, ordinal_in, pair_number, result_of};

pub mod box_verdicts;
pub mod refusals;
pub mod verdicts;

pub use refusals::Refusal;
use rule_types::label::{Pair, code};

// What a look finds: the pair with the judged bar's ordinal, which is 0 where there is no such bar.
#[derive(Clone, Copy)]
pub struct Judged {
    pub pair: Pair,
    pub ordinal: u32,
}

// The pair or the refusal that a look answers.
pub fn answer_in(a: Result<Judged, Refusal>) -> Result<Pair, Refusal>
    ensures { result ≡ answer_in a }
{
    a.map(|judged| judged.pair)
}

// The ordinal that a look answers, 0 if it is refused.
pub fn ordinal_in(a: Result<Judged, Refusal>) -> u32
    ensures { result ≡ ordinal_in a }
{
    a.map_or(0, |judged| judged.ordinal)
}

// v1 × 256 + v2 of a pair.
fn pair_number(pair: Pair) -> u32
    ensures { result ≡ pair_number pair }
{
    let v1 = pair.v1;
    let v2 = pair.v2;
    code(v1) as u32 * 256 + code(v2) as u32
}

// What an answer is as a number: v1 × 256 + v2, or 65,536 plus the refusal.
pub fn answer_number(a: Result<Pair, Refusal>) -> u32
    ensures { result ≡ result_of a }
{
    match a {
        Ok(pair) => pair_number(pair),
        Err(why) => 65536 + refusals::refusal_number(why) as u32,
    }
}
