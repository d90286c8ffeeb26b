// The curve, its words, and their encoding and unencoding.
#![tactic(auto)]

pub mod check;
pub mod conversion;
pub mod encoding;
pub mod grid;
pub mod long_block;
pub mod term;
pub mod unencoding;
