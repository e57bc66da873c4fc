// Terms of the trading day: a layer over the box that takes one-minute bars with their stamps and labels the bars of terms of 5, 15 or 60
// minutes. All is proved, nothing is assumed, and no public function has a `requires`: each contract is an equation with a definition of
// specs/, for every layer that a caller can hand in, for the result, the layer and every byte of the sheet. What every list of calls
// leaves is proved in proofs/TermCalls.antt.
#![tactic(auto)]

pub mod calls;
pub mod layers;

pub use calls::{close, make, run};
pub use layers::{Layer, Made};
pub use term_events::Carried;
