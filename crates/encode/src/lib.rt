// Encoders: what one means, the law that it owes, and how it puts a line on a sheet.
#![tactic(auto)]

pub mod cost;
pub mod encode_fault;
pub mod encoder;
pub mod part;
pub mod reaches;
