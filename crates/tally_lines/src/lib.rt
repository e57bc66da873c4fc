// What the tally program prints, on slices and values: a session takes in bytes of input, in parts of any length, and at the input's end
// writes the tally, or the refusal of a line, into a lent buffer. All is proved, nothing is assumed, and no public function has a
// `requires`: each contract is an equation with a definition of specs/, and proofs/Whole.antt has that this is what the input's lines
// print, however it is cut.
#![tactic(auto)]

mod output;
mod reading;
pub mod session;

pub use session::Session;
