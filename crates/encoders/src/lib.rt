// Encoders: direct, order, and one made of two, which goes by a line's terms.
#![tactic(auto)]

pub mod choice;
pub mod direct;
mod giving;
pub mod order;
