// Opening hours of a trading day, and the terms of m minutes that are counted from a window's opening. All is proved, nothing is
// assumed, and no public function has a `requires`: each contract is an equation with a definition of specs/. What the term rule says,
// for any m from 1, is proved in proofs/TermLaws.antt.
#![tactic(auto)]

pub mod hours;

pub use hours::{DayWindow, Hours};
