// Exports for hosts, comparisons and benchmarks: a history in feeds of any sizes to one box, and a look after them, of which one export
// gives the labels and another the judged bar's ordinal; the same feeds with a tally; and calls to a layer of terms. bindings/c/jcc.h
// describes them for a host. All is proved, nothing is assumed, and no public function has a `requires`. th13 and th14 count tenths.
#![tactic(auto)]

pub mod feeds;
pub mod tally;
pub mod term_lists;

pub use feeds::{jcc_feed, jcc_look, jcc_look_ordinal};
pub use tally::jcc_tally;
pub use term_lists::jcc_terms;
