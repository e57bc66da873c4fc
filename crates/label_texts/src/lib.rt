// The labels' texts: a code's exact UTF-8 bytes, and the code of given bytes. All is proved, nothing is assumed, and no public function has
// a `requires`: each contract is an equation with a definition of specs/, for every input.
#![tactic(auto)]

pub mod label_text;
