//! Generated manifests.
//!
//! [`make`] gives the manifest of a number: three species that walk over a surface without edges and meet. Its rates and
//! its surface are fixed by the number, so that two programs, or two runs of one, can be compared on as many surfaces as
//! one likes. The manifest stands in `specs/Generated.antt`; it is valid, so its canonical text is read as it.
#![tactic(auto)]

mod making;

pub use making::make;

#[cfg(test)]
mod tests;
