//! Elements of arrays that stand in the words of memories of the target language (IEEE 1364-2005 clause 4.9): in which word an index
//! has its element, and how that is read.
#![tactic(auto)]

mod numbers;
mod readings;
mod words;

pub use numbers::word_number;
pub use readings::{known_reading, word_reading};
pub use words::{known_word, word_of};
