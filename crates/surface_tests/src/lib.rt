//! Tests of the programs `surface` and `surface_watch` as a library, over memory.
//!
//! They see what no clause of `surface_main` and `watch_main` says: that calls succeed where memory is there, and which
//! texts the definitions come to on given words and bytes. Expected values are worked out by hand from the definitions. A
//! crate with tests is proved a second time with them, so they don't stand in `surface_top`, which is large. Each of them
//! calls the one by `calls::status_of`, or the other by `watch_tests::watch`.
#![tactic(auto)]

#[cfg(test)]
mod calls;
#[cfg(test)]
mod circuit_tests;
#[cfg(test)]
mod crew_tests;
#[cfg(test)]
mod fault_tests;
#[cfg(test)]
mod row_tests;
#[cfg(test)]
mod rows;
#[cfg(test)]
mod watch_tests;
