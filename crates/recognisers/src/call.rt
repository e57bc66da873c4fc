// The plain call.
ghost use Rattle.std.specs.Prelude.{◌≡◌, ◌%◌, eqb, length};
ghost use Rattle.measures.specs.Bar.{bars_of};
ghost use Rattle.answers.specs.Answer.{refusal_in, codes_in};
ghost use Rattle.recognisers.specs.Call.{plain_number, plain_codes, recognise_of};

use answers::Refusal;
use answers::verdicts::plain_verdict;
use rule_table::table;
use rule_types::label::Pair;
use thresholds::Thresholds;

// The plain call: the pair of a recogniser at an offset of a history of lent prices, or the first refusal that is true.
pub fn recognise(k: u32, di: u32, t: Thresholds, prices: &[f64]) -> Result<Pair, Refusal>
    ensures answer { result ≡ recognise_of k di t prices.now }
    ensures number { refusal_in result ≡ plain_number k di t (eqb (length prices.now % 4) 0) (bars_of prices.now) }
    ensures codes { codes_in result ≡ plain_codes k di t (eqb (length prices.now % 4) 0) (bars_of prices.now) }
{
    let len = measures::count(prices);
    plain_verdict(k, di, t, prices.len() % 4 == 0, len)?;
    Ok(table::pair_at(k, t, len, prices, di as usize))
}
