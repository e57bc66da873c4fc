// What goes in and out as text: lines of prices; passes on the labels' texts, prices and the splitting of an input into lines. All is
// proved, nothing is assumed, and no public function has a `requires`: each contract is an equation with a definition of specs/, for every
// input.
#![tactic(auto)]

pub mod line_text;

pub use input_lines::lines;
pub use input_lines::lines::Partial;
pub use label_texts::label_text;
pub use label_texts::label_text::{Text, code_of_bytes, code_of_text, text_of};
pub use line_text::{LineError, read_line, read_partial};
pub use price_texts::price_text;
pub use price_texts::price_text::read_price;
