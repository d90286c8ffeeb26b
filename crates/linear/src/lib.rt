// Linear algebra over the fields: systems of equations that are brought in one by one, and the elimination of vectors from another.
#![tactic(auto)]

pub mod system;
pub mod vectors;
