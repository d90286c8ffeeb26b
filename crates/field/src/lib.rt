// The finite fields of 4, 16 and 64 symbols, the numbers of their curves, and the outcomes of all entries of the library.
#![tactic(auto)]

pub mod curve;
pub mod entry;
pub mod outcome;
pub mod symbol;

pub use curve::Curve;
pub use outcome::{Outcome, Refusal};
