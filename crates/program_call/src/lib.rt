//! The programs but for their names: what each is called with, and the exit status that it ends with.
//!
//! [`Call::given`] gives the words that the system has for the program and the three standard streams, or why there are
//! no words: then the program ends with [`NoWords::code`] and writes nothing. [`surface_exit`] and [`watch_exit`] answer
//! a call by the top calls. The crate promises which kind of error gives which code, and that the exit status is the code
//! of a status with which all holds of the words and the streams that the top calls say. It stands on `surface_top`.
#![tactic(auto)]

mod call;
mod ending;
mod words;

pub use call::Call;
pub use ending::{surface_exit, watch_exit};
pub use words::NoWords;
