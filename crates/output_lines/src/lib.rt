// Lines of output: what a bar's row, a refusal and a count print into a lent buffer. All is proved, nothing is assumed, and no public
// function has a `requires`: each contract is an equation with a definition of specs/, for every buffer.
#![tactic(auto)]

pub mod output;

pub use output::Stop;
