// Lines one at a time: their checks and their normal form; and working lines made smaller, in place on a table that
// the caller lends: what one forces, what is left of it where a literal holds, and the same line with smaller weights.
#![tactic(auto)]

pub mod check;
pub mod checked_line;
mod divisors;
pub mod forcing;
mod nets;
mod normal;
pub mod reducing;
mod sums;
pub mod tightening;
