// Eighteen recognisers of candlestick patterns: the plain call over lent prices, and the export for a host program. Thresholds, the table
// with the choice by number, labels, the rules' numbers, refusals and answers are passed on from the crates below. All is proved, nothing is
// assumed, and no public function has a `requires`: each contract is an equation with a definition of specs/, for every input.
#![tactic(auto)]

pub mod call;
pub mod export;
pub mod history;

pub use answers::{
    Judged, Refusal, answer_in, answer_number, box_verdicts, ordinal_in, refusals, verdicts,
};
pub use call::recognise;
pub use export::jcc_label;
pub use history::{ToBar, recognise_history};
pub use rule_table::table;
pub use rule_types::label::{Label, Pair};
pub use rule_types::{counts, label};
pub use thresholds::Thresholds;
