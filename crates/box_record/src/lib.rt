// The box of the newest 64 bars: the record, its making and a look back. All is proved, nothing is assumed, and no public function has a
// `requires`: each contract is an equation with a definition of specs/, for every box that a caller can hand in.
#![tactic(auto)]

pub mod boxes;
pub mod looks;

pub use boxes::{BarBox, KeptBar, Outcome, fresh, make};
pub use looks::look;
