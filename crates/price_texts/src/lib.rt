// Prices as text. All is proved, nothing is assumed, and no public function has a `requires`: the contract is an equation with a definition
// of specs/, for every input.
#![tactic(auto)]

pub mod price_text;

pub use price_text::read_price;
