// The splitting of an input into lines, and the bytes of a line that has begun. All is proved, nothing is assumed, and no public function
// has a `requires`: each contract is an equation with a definition of specs/, for every input.
#![tactic(auto)]

pub mod lines;

pub use lines::Partial;
