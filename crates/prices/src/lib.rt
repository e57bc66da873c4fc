// Prices and bars by themselves: the values and measures of one price, and the measures of one bar. All is proved, nothing is assumed,
// and no public function has a `requires`: each contract is an equation with a definition of specs/, for every input, NaN, infinities and
// signs of zero included.
#![tactic(auto)]

pub mod bars;
pub mod price;
