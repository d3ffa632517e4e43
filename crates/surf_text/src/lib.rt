//! Lines, blanks and numbers in texts.
//!
//! Texts of bytes are read by lines ([`Cursor`]), trimmed ([`trim`]), cut at a byte ([`cut`]) and read as whole
//! numbers and decimals ([`read_u64`], [`read_decimal`]). Texts in UTF-8 have calls of their own, whose parts are
//! such texts again. [`Digits`] writes a number. Every reading is proved to give the value that the text spells,
//! and to refuse exactly the texts that spell none; what a decimal is stands as a grammar in `specs/Grammar.antt`.
//!
//! Nothing here takes memory but [`word_list`], and no byte is read more than a few times. The crate stands on `itoa`,
//! which writes digits.
#![tactic(auto)]

mod cuts;
mod digits;
pub mod laws;
mod lines;
mod numbers;
mod splitting;
mod texts;

pub use cuts::cut;
pub use digits::Digits;
pub use lines::{Cursor, Line, trim};
pub use numbers::{Dec, read_decimal, read_u64};
pub use splitting::{Text, Words, word_list};
pub use texts::{cut_text, first_text_line, trim_text};

#[cfg(test)]
mod tests;
