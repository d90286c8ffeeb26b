// Lists of symbols: rows, lanes, polynomials and interpolation over the field of a curve's number q. Nothing here knows of the curve.
// kept: that the numbers of a list are symbols is a fact in contracts (`Below`), not a type: callers lend slices of bytes (the C interface),
// and a list of another type would be a copy.
#![tactic(auto)]

pub mod interpolation;
pub mod lanes;
pub mod polynomial;
pub mod root_interpolation;
pub mod rows;
pub mod vanishing;
