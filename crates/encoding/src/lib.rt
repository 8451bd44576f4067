// How numbers and slots' states stand in bytes: numbers of one width one after the other, states a byte each.
#![tactic(auto)]

mod codes;
mod words;

pub use codes::{from_codes, put_states};
pub use words::{get_words, has_words, put_words, write_numbers};
