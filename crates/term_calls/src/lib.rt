// Runs and closes to a layer of terms, one after the other, with hours and answers as runs of numbers. All is proved, nothing is assumed, and no
// public function has a `requires`: each contract is an equation with a definition of specs/.
#![tactic(auto)]

pub mod calls;
pub mod numbers;

pub use calls::{hours_of, make_calls};
pub use numbers::number_at;
