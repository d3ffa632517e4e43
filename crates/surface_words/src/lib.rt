//! The words of a command line.
//!
//! The first word is a command of the program. Then come pairs of an option and its value: each option stands at most
//! once, and their order is free. [`Words::read`] gives what accepted words say, or the index of the first wrong word.
//! It promises that exactly the accepted lists are read, and that the index is the least i such that no accepted list
//! begins with the first i + 1 words.
//!
//! Nothing here takes memory. The crate stands on `surf_text` for whole numbers and on `rates` for durations.
#![tactic(auto)]

mod commands;
mod given;
mod options;
mod words;

pub use commands::Program;
pub use words::Words;
