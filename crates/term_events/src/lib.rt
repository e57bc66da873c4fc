// Term bars from minute bars with their stamps, and why a making, a run or a close is refused: what the layer of terms needs that has no
// box in it. All is proved, nothing is assumed, and no public function has a `requires`: each contract is an equation with a definition
// of specs/, for everything that a caller can hand in. That each term bar is the bar of its term's bars is proved in
// proofs/TermBarLaws.antt.
#![tactic(auto)]

pub mod events;
pub mod verdicts;

pub use events::{Carried, Passed, pass};
