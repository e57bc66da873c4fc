// What the rules of the recognisers share: labels and pairs of labels, and the counts of the rules. All is proved, nothing is assumed, and
// no public function has a `requires`: each contract is an equation with a definition of specs/, for every input.
#![tactic(auto)]

pub mod counts;
pub mod label;
