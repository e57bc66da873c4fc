// A tally of labels: a table that counts, for each recogniser, how many of the bars fed got each v1 label, and a feed that brings it
// along. All is proved, nothing is assumed, and no public function has a `requires`: each contract is an equation with a definition of
// specs/, for every box and tally that a caller can hand in, for the result and every byte of the sheet. What every list of such feeds
// leaves is proved in proofs/Tallies.antt.
#![tactic(auto)]

mod counts;
pub mod feeds;
pub mod table;

pub use feeds::feed;
pub use table::{TallyRow, fresh};
