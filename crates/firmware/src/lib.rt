// What the firmware calls from C, C++ or Rust; include/pulfredan.h declares the same calls. Numbers, structs of numbers and lent
// bytes only. Each call is a thin one over a call of the crates below, and keeps its whole promise.
#![tactic(auto)]

mod answers;
mod changes;
mod kinds;
mod queries;
mod sets;
mod text;

pub use answers::{CLast, CNumber, CPattern, CPop, CSet, CTruth};
