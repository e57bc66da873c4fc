// A history in feeds of any sizes to one box, without and with a tally. All is proved, nothing is assumed, and no public function has a
// `requires`: whatever the sizes are, each contract is that of one feed of all the bars, as demand 3 says.
#![tactic(auto)]

pub mod parts;

pub use parts::feed_parts;
